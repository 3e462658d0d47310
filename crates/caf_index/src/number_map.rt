ghost use Rattle.std.specs.Prelude.{◌≡◌, IsTrue, not, IfOk, IfErr, OnErr, OnOk};
ghost use Rattle.std.specs.Ordering.{nat_cmp};
ghost use Rattle.std.specs.FinMap as map;
ghost use Rattle.caf_index.specs.Index.{with_line, lines_in};
ghost use Rattle.caf_index.specs.NumberMap.{IsFoundAt, IsPlaceFor};

use std::alloc::{AllocError, Global};
use std::marker::Model;

/// A map from numbers, kept as a list in rising order of the keys: a key past the last one, which is
/// the common case, goes to the end.
#[derive(Debug, Drop)]
pub(crate) struct NumberMap<V> {
    entries: Vec<(u64, V)>,
}

/// A set of line numbers.
pub(crate) type Lines = NumberMap<()>;

/// The files that have a word, each with the lines that have it.
pub(crate) type Files = NumberMap<Lines>;

impl<V> Model for NumberMap<V> {
    ghost use Rattle.std.specs.Prelude.{IsTrue};
    ghost use Rattle.std.specs.Ordering.{nat_cmp};
    ghost use Rattle.std.specs.FinMap as map;
    ghost use Rattle.std.specs.Coded.{coded_ℕ};

    ghost Value = { map.FinMap nat_cmp V };

    ghost coded = { map.code coded_ℕ V.code };

    ghost view = { λ m. map.from_sorted m.entries.items };

    ghost invariant = { λ m. IsTrue (map.is_sorted nat_cmp m.entries.items) };
}

impl<V> NumberMap<V> {
    pub(crate) fn new(alloc: Global) -> NumberMap<V>
        ensures { result ≡ map.empty }
    {
        NumberMap {
            entries: Vec::new(alloc),
        }
    }

    /// The entries in rising order of the keys.
    pub(crate) fn as_slice(&self) -> &[(u64, V)]
        ensures { result.now ≡ map.entries self.now }
    {
        self.entries.as_slice()
    }
}

impl Lines {
    /// Puts the line into the set and tells whether it is new there.
    pub(crate) fn add(&mut self, line: u64) -> Result<bool, AllocError>
        ensures added { OnOk result (self.new ≡ map.insert self.old line tt) }
        ensures is_new { IfOk result (λ is_new. is_new ≡ not (map.contains_key self.old line)) }
        ensures kept { OnErr result (self.new ≡ self.old) }
    {
        match place_of(self.entries.as_slice(), line) {
            Ok(_) => Ok(false),
            Err(place) => {
                self.entries.insert(place, (line, ()))?;
                Ok(true)
            }
        }
    }
}

impl Files {
    /// Puts the line of that file in and tells whether it is new there.
    pub(crate) fn add_in_file(
        &mut self,
        alloc: Global,
        file: u64,
        line: u64,
    ) -> Result<bool, AllocError>
        ensures added { OnOk result (self.new ≡ with_line self.old file line) }
        ensures is_new { IfOk result (λ is_new. is_new ≡ not (map.contains_key (lines_in self.old file) line)) }
        ensures kept { OnErr result (self.new ≡ self.old) }
    {
        match place_of(self.entries.as_slice(), file) {
            Ok(place) => {
                let entry = &mut self.entries[place];
                let is_new = entry.1.add(line)?;
                Ok(is_new)
            }
            Err(place) => {
                let mut lines = Lines::new(alloc);
                lines.add(line)?;
                self.entries.insert(place, (file, lines))?;
                Ok(true)
            }
        }
    }
}

/// Where the key stands, or else where it would.
fn place_of<V>(entries: &[(u64, V)], key: u64) -> Result<usize, usize>
    requires { IsTrue (map.is_sorted nat_cmp entries.now) }
    ensures found { IfOk result (IsFoundAt entries.now key) }
    ensures absent { IfErr result (IsPlaceFor entries.now key) }
{
    let count = entries.len();
    if count == 0 {
        return Err(0);
    }
    let last = &entries[count - 1];
    if last.0 < key {
        Err(count)
    } else if last.0 == key {
        Ok(count - 1)
    } else {
        search(entries, key)
    }
}

/// As `place_of`, by halves.
fn search<V>(entries: &[(u64, V)], key: u64) -> Result<usize, usize>
    requires { IsTrue (map.is_sorted nat_cmp entries.now) }
    ensures found { IfOk result (IsFoundAt entries.now key) }
    ensures absent { IfErr result (IsPlaceFor entries.now key) }
{
    let place = entries.partition_point(|entry| entry.0 < key);
    if place == entries.len() {
        return Err(place);
    }
    let entry = &entries[place];
    if entry.0 == key {
        Ok(place)
    } else {
        Err(place)
    }
}
