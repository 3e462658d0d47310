ghost use Rattle.std.specs.Prelude.{◌≡◌, ◌-◌, ◌^◌, min, IfOk, OnErr, OnOk, not, string_bytes, map as each};
ghost use Rattle.std.specs.String.{string_eq};
ghost use Rattle.std.specs.HashMap.{keys, IsUnique};
ghost use Rattle.std.specs.Option.{option_copied};
ghost use Rattle.std.specs.FinMap as map;
ghost use Rattle.caf_index.specs.Index.{with_entry, has_entry, entry_count, index_of_rows};

use crate::number_map::Files;
use caf_types::Memory;
use std::alloc::{AllocError, Global};
use std::collections::HashMap;
use std::marker::Model;

/// Which words stand in which lines of which files, seen as a finite map from words to finite maps
/// from file numbers to sets of line numbers.
#[derive(Debug, Drop)]
pub struct Index {
    alloc: Global,
    words: HashMap<String, Files>,
    entries: u64,
}

impl Model for Index {
    ghost use Rattle.std.specs.Prelude.{◌≡◌, ◌-◌, ◌^◌, min};
    ghost use Rattle.std.specs.FinMap as map;
    ghost use base.Stored.{coded_unit};
    ghost use Rattle.std.specs.Coded.{coded_ℕ, coded_list};
    ghost use Rattle.caf_index.specs.Index.{Entries, entry_count, index_of_rows};

    ghost Value = { Entries };

    ghost coded = { map.code (coded_list coded_ℕ) (map.code coded_ℕ (map.code coded_ℕ coded_unit)) };

    ghost view = { λ index. index_of_rows index.words.entries };

    ghost invariant = { λ index. index.entries ≡ min (entry_count (index_of_rows index.words.entries)) (2 ^ 64 - 1) };
}

impl Index {
    /// An index without entries. It takes no memory.
    pub fn new(alloc: Global) -> Index
        ensures { result ≡ map.empty }
    {
        Index {
            alloc,
            words: HashMap::new(alloc),
            entries: 0,
        }
    }

    /// Puts in that the word stands in that line of that file. An entry that is there already
    /// changes nothing. After want of memory the index is as before.
    pub fn add(&mut self, file: u64, word: &str, line: u64) -> Result<(), Memory>
        ensures added { OnOk result (self.new ≡ with_entry self.old word.now file line) }
        ensures kept { OnErr result (self.new ≡ self.old) }
    {
        let is_new = add_to(&mut self.words, self.alloc, word, file, line)?;
        if is_new {
            self.entries = self.entries.saturating_add(1);
        }
        Ok(())
    }

    /// The number of words.
    pub fn words(&self) -> u64
        ensures { result ≡ map.len self.now }
    {
        self.words.len() as u64
    }

    /// The number of (word, file, line) entries; it stops at 2^64 - 1.
    pub fn entries(&self) -> u64
        ensures { result ≡ min (entry_count self.now) (2 ^ 64 - 1) }
    {
        self.entries
    }

    /// The files that have the word, each with its lines.
    pub(crate) fn files(&self, word: &str) -> Option<&Files>
        ensures { option_copied result ≡ map.get self.now word.now }
    {
        self.words.get(word)
    }

    /// The words in byte order.
    pub(crate) fn sorted_words(&self) -> Result<Vec<&str>, AllocError>
        ensures { IfOk result (λ words. each (λ w. w.now) words.items ≡ map.keys self.now) }
    {
        sorted_texts(self.alloc, &self.words)
    }
}

/// Puts the entry in and tells whether it is new. A key is made only for a new word.
fn add_to(
    words: &mut HashMap<String, Files>,
    alloc: Global,
    word: &str,
    file: u64,
    line: u64,
) -> Result<bool, AllocError>
    ensures added { OnOk result (index_of_rows words.new.entries ≡ with_entry (index_of_rows words.old.entries) word.now file line) }
    ensures is_new { IfOk result (λ is_new. is_new ≡ not (has_entry (index_of_rows words.old.entries) word.now file line)) }
    ensures kept { OnErr result (index_of_rows words.new.entries ≡ index_of_rows words.old.entries) }
{
    match words.get_mut(word) {
        Some(files) => {
            let is_new = files.add_in_file(alloc, file, line)?;
            Ok(is_new)
        }
        None => {
            let mut files = Files::new(alloc);
            let is_new = files.add_in_file(alloc, file, line)?;
            let key = String::from_str(alloc, word)?;
            words.insert(key, files)?;
            Ok(is_new)
        }
    }
}

/// The words in byte order.
fn sorted_texts(alloc: Global, words: &HashMap<String, Files>) -> Result<Vec<&str>, AllocError>
    ensures { IfOk result (λ texts. each (λ t. t.now) texts.items ≡ map.keys (index_of_rows words.now.entries)) }
{
    let mut texts = texts_of(alloc, words)?;
    texts.sort()?;
    Ok(texts)
}

/// The words in the order in which they are kept.
fn texts_of(alloc: Global, words: &HashMap<String, Files>) -> Result<Vec<&str>, AllocError>
    ensures texts { IfOk result (λ texts. each (λ t. t.now) texts.items ≡ each (λ w. string_bytes w) (keys words.now)) }
    ensures apart { IsUnique string_eq words.now }
{
    let mut texts = Vec::with_capacity(alloc, words.len())?;
    for word in words.keys() {
        texts.push(word.as_str())?;
    }
    Ok(texts)
}
