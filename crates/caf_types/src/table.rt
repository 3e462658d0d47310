ghost use Rattle.std.specs.Prelude.{◌≡◌, ◌+◌, ◌++◌, ◌≤◌, ◌<◌, ◌^◌, [], length, Some, None, slice_get, unwrap_or, nat_lt, ◌||◌, MatchOption, MatchResult, IfOk, IfSome, OnOk, OnErr};
ghost use Rattle.std.specs.Option.{option_map, option_copied};
ghost use Rattle.std.specs.BTreeMap.{get_by_text};
ghost use Rattle.caf_types.specs.Table as tables;
ghost use Rattle.caf_types.specs.Table.{Table, type_at, id_of, shape_at, name_at, numbered, with_block, built_in, built_in_types, has_name, name_is_in, first_taken, first_name, first_deep, refusal};
ghost use Rattle.caf_types.specs.Shape.{tree, entry_view, entry_views};
ghost use Rattle.caf_types.specs.Listing.{types_of};
ghost use Rattle.caf_types.specs.New.{AreNew};
ghost use Rattle.caf_types.specs.TypeTable.{seen, TableAnswer};
ghost use Rattle.caf_types.specs.declared.shape.Entry.{Entry};

use crate::filing::{PlacesById, PlacesByName, file_types};
use crate::listed::Listed;
use crate::names_in_block::{NameCounts, count_names, stands_twice};
use crate::shape::nests_past;
use crate::{
    DEEPEST, Entry, FIRST_ID, LAST_ID, Memory, Name, Seq, Shape, TableFault, TypeId, declare_type,
    shape_of,
};
use std::alloc::Global;
use std::collections::BTreeMap;
use std::marker::Model;

/// Types by ID and by name. A table only grows, by whole blocks.
///
/// Contracts see the list of its types in the order in which they were added, and the names of its
/// blocks; `seen` of the specification shows it as a plain map.
#[derive(Debug, Drop)]
pub struct TypeTable {
    types: Vec<Listed>,
    blocks: Vec<Name>,
    by_id: PlacesById,
    by_name: PlacesByName,
}

impl Model for TypeTable {
    ghost use Rattle.std.specs.Ordering.{nat_cmp};
    ghost use Rattle.std.specs.BTreeMap.{get, get_by_text};
    ghost use Rattle.caf_types.specs.Listing.{Listing, types_of, AreFiled};

    ghost Value = { Listing };

    ghost use Rattle.caf_types.specs.contracts.shape.Shape as shapes;
    ghost use Rattle.std.specs.Coded.{codes};

    ghost coded = { Prim.hlevel (codes, shapes.the_row.coded) };

    ghost view = { λ table. record { types = table.types.items; blocks = table.blocks.items } };

    ghost invariant = { λ table. AreFiled 0 (types_of table.types.items) (get nat_cmp table.by_id) (get_by_text table.by_name) };
}

impl TypeTable {
    /// The table of the built-in types alone, IDs 0 to 9.
    pub fn new(alloc: Global) -> Result<TypeTable, Memory>
        ensures { IfOk result (λ table. seen table ≡ built_in) }
    {
        let mut table = TypeTable {
            types: Vec::new(alloc),
            blocks: Vec::new(alloc),
            by_id: BTreeMap::new(alloc),
            by_name: BTreeMap::new(alloc),
        };
        table.add_types(0, built_in_entries(alloc)?)?;
        Ok(table)
    }

    /// Adds `entries` under the IDs from `first` on. Its refusals are tried in the order `Range`,
    /// `Taken`, `Name`, `Deep`; `Memory` may come in place of any answer. After a refusal the table
    /// is as before.
    ///
    /// `Name` tells the block's name where a block has it already; else that of the first entry, in
    /// order, whose name a type has already or which stands twice among the entries.
    pub fn add_block(
        &mut self,
        block: Name,
        first: u16,
        entries: Seq<Entry>,
    ) -> Result<(), TableFault>
        ensures answer { TableAnswer result (refusal (seen self.old) block first (entry_views entries)) }
        ensures added { OnOk result (seen self.new ≡ with_block (seen self.old) block first (entry_views entries)) }
        ensures kept { OnErr result (self.new ≡ self.old) }
    {
        if first < FIRST_ID
            || first > LAST_ID
            || first as u64 + entries.len() > LAST_ID as u64 + 1
        {
            return Err(TableFault::Range);
        }
        if let Some(id) = self.first_taken(first, entries.as_slice()) {
            return Err(TableFault::Taken(TypeId(id)));
        }
        if has_block(self.blocks.as_slice(), block.as_str()) {
            return Err(TableFault::Name(block));
        }
        let entries = match self.with_new_names(entries)? {
            Ok(entries) => entries,
            Err(name) => return Err(TableFault::Name(name)),
        };
        if let Some(id) = first_deep_entry(first, entries.as_slice()) {
            return Err(TableFault::Deep(TypeId(id)));
        }
        self.add_named_types(block, first, entries)?;
        Ok(())
    }

    /// The shape of the type `id`; None exactly where the table has no such ID.
    pub fn shape(&self, id: TypeId) -> Option<&Shape>
        ensures { option_map (λ s. tree s.now) result ≡ shape_at (seen self.now) id.0 }
    {
        match self.entry(id.0) {
            Some(entry) => Some(&entry.shape),
            None => None,
        }
    }

    /// The name of the type `id`; None exactly where the table has no such ID. That name finds the ID.
    pub fn name(&self, id: TypeId) -> Option<&Name>
        ensures name { option_map (λ n. n.now) result ≡ name_at (seen self.now) id.0 }
        ensures found { IfSome result (λ n. tables.find (seen self.now) n.now ≡ Some id.0) }
    {
        match self.entry(id.0) {
            Some(entry) => Some(&entry.name),
            None => None,
        }
    }

    /// The ID of the type with that name; None exactly where the table has no such name.
    pub fn find(&self, name: &str) -> Option<TypeId>
        ensures id { option_map (λ id. id.0) result ≡ tables.find (seen self.now) name.now }
        ensures named { IfSome result (λ id. name_at (seen self.now) id.0 ≡ Some name.now) }
    {
        match self.number_of(name) {
            Some(id) => Some(TypeId(id)),
            None => None,
        }
    }

    fn entry(&self, id: u16) -> Option<&Entry>
        ensures entry { option_map (λ e. entry_view e.now) result ≡ type_at (seen self.now).types id }
        ensures found { IfSome result (λ e. id_of (seen self.now).types e.now.name ≡ Some id) }
    {
        let position = *self.by_id.get(&id)?;
        let listed = listed_at(self.types.as_slice(), position)?;
        if listed.id == id {
            Some(&listed.entry)
        } else {
            None
        }
    }

    fn number_of(&self, name: &str) -> Option<u16>
        ensures id { result ≡ id_of (seen self.now).types name.now }
        ensures named { IfSome result (λ id. name_at (seen self.now) id ≡ Some name.now) }
    {
        let position = *self.by_name.get(name)?;
        let listed = listed_at(self.types.as_slice(), position)?;
        if listed.entry.name.as_str() == name {
            Some(listed.id)
        } else {
            None
        }
    }

    fn has_id(&self, id: u16) -> bool
        ensures { result ≡ tables.has_id (seen self.now).types id }
    {
        match self.entry(id) {
            Some(_) => true,
            None => false,
        }
    }

    fn has_type_named(&self, name: &str) -> bool
        ensures { result ≡ has_name (seen self.now).types name.now }
    {
        match self.number_of(name) {
            Some(_) => true,
            None => false,
        }
    }

    /// The least ID of the block that the table has.
    fn first_taken(&self, first: u16, entries: &[Entry]) -> Option<u16>
        requires { first + length entries.now < 2 ^ 16 }
        ensures { result ≡ first_taken (seen self.now).types first (entry_views entries.now) }
    {
        for (i, _) in entries.iter().enumerate() {
            if self.has_id(first + i as u16) {
                return Some(first + i as u16);
            }
        }
        None
    }

    /// The entries, where no name clashes; else the first name that does.
    fn with_new_names(&self, entries: Seq<Entry>) -> Result<Result<Seq<Entry>, Name>, Memory>
        ensures { IfOk result (λ named. MatchResult named (λ es. (es ≡ entries) × (first_name (seen self.now).types (entry_views entries) ≡ None))
            (λ name. first_name (seen self.now).types (entry_views entries) ≡ Some name)) }
    {
        match self.first_clash(entries.as_slice())? {
            None => Ok(Ok(entries)),
            Some(i) => {
                let mut entries = entries.into_vec();
                Ok(Err(entries.remove(i).name))
            }
        }
    }

    /// The position of the first entry whose name is a type's already, or stands twice.
    fn first_clash(&self, entries: &[Entry]) -> Result<Option<usize>, Memory>
        ensures { IfOk result (λ found. MatchOption found (first_name (seen self.now).types (entry_views entries.now) ≡ None)
            (λ i. (e : Entry) × (slice_get entries.now i ≡ Some e) × (first_name (seen self.now).types (entry_views entries.now) ≡ Some e.name))) }
    {
        let counts = count_names(*self.types.allocator(), entries)?;
        for (i, entry) in entries.iter().enumerate() {
            let name = entry.name.as_str();
            if self.has_clash(&counts, name) {
                return Ok(Some(i));
            }
        }
        Ok(None)
    }

    /// Whether a name is a type's already, or stands twice in the block whose names were counted.
    fn has_clash(&self, counts: &NameCounts, name: &str) -> bool
        ensures { result ≡ has_name (seen self.now).types name.now || nat_lt 1 (unwrap_or (get_by_text counts.now name.now) 0) }
    {
        self.has_type_named(name) || stands_twice(counts, name)
    }

    /// Adds a block, of whose IDs and names it is known that they are new.
    fn add_named_types(
        &mut self,
        block: Name,
        first: u16,
        entries: Seq<Entry>,
    ) -> Result<(), Memory>
        requires within { first + length entries < 2 ^ 16 }
        requires new { AreNew (seen self.old).types (numbered first (entry_views entries)) }
        ensures added { OnOk result (seen self.new ≡ with_block (seen self.old) block first (entry_views entries)) }
        ensures kept { OnErr result (self.new ≡ self.old) }
    {
        self.blocks.push(block)?;
        match self.add_types(first, entries) {
            Ok(()) => Ok(()),
            Err(memory) => {
                self.blocks.pop();
                Err(memory)
            }
        }
    }

    /// Adds types, of whose IDs and names it is known that they are new.
    fn add_types(&mut self, first: u16, entries: Seq<Entry>) -> Result<(), Memory>
        requires within { first + length entries < 2 ^ 16 }
        requires new { AreNew (seen self.old).types (numbered first (entry_views entries)) }
        ensures added { OnOk result ((seen self.new).types ≡ (seen self.old).types ++ numbered first (entry_views entries)) }
        ensures blocks { self.new.blocks ≡ self.old.blocks }
        ensures kept { OnErr result (self.new ≡ self.old) }
    {
        let alloc = *self.types.allocator();
        let mut added = listed_from(alloc, first, entries)?;
        file_types(
            alloc,
            &mut self.by_id,
            &mut self.by_name,
            self.types.as_slice(),
            added.as_slice(),
        )?;
        self.types.append(&mut added)?;
        Ok(())
    }
}

fn listed_at(types: &[Listed], position: usize) -> Option<&Listed>
    ensures { option_copied result ≡ slice_get types.now position }
{
    types.get(position)
}

/// The entries with IDs that rise by one from `first`.
fn listed_from(alloc: Global, first: u16, entries: Seq<Entry>) -> Result<Vec<Listed>, Memory>
    requires { first + length entries < 2 ^ 16 }
    ensures { IfOk result (λ listed. types_of listed.items ≡ numbered first (entry_views entries)) }
{
    let mut listed = Vec::new(alloc);
    let mut id = first;
    for entry in entries.into_vec() {
        listed.push(Listed { id, entry })?;
        id += 1;
    }
    Ok(listed)
}

fn built_in_entries(alloc: Global) -> Result<Seq<Entry>, Memory>
    ensures { IfOk result (λ entries. entry_views entries ≡ built_in_types) }
{
    let mut entries = Seq::new(alloc);
    declare_type(alloc, &mut entries, "unit", Shape::Unit)?;
    declare_type(alloc, &mut entries, "flag", Shape::Flag)?;
    declare_type(alloc, &mut entries, "unsigned", Shape::Unsigned)?;
    declare_type(alloc, &mut entries, "signed", Shape::Signed)?;
    declare_type(alloc, &mut entries, "text", Shape::Text)?;
    declare_type(alloc, &mut entries, "bytes", Shape::Bytes)?;
    declare_type(alloc, &mut entries, "place", Shape::Place)?;
    declare_type(
        alloc,
        &mut entries,
        "unsigneds",
        shape_of!(alloc, [Unsigned]),
    )?;
    declare_type(alloc, &mut entries, "texts", shape_of!(alloc, [Text]))?;
    declare_type(alloc, &mut entries, "places", shape_of!(alloc, [Place]))?;
    Ok(entries)
}

fn has_block(blocks: &[Name], name: &str) -> bool
    ensures { result ≡ name_is_in blocks.now name.now }
{
    for block in blocks {
        if block.as_str() == name {
            return true;
        }
    }
    false
}

/// The least ID of the block whose shape nests too deep.
fn first_deep_entry(first: u16, entries: &[Entry]) -> Option<u16>
    requires { first + length entries.now < 2 ^ 16 }
    ensures { result ≡ first_deep first (entry_views entries.now) }
{
    for (i, entry) in entries.iter().enumerate() {
        if nests_past(&entry.shape, DEEPEST) {
            return Some(first + i as u16);
        }
    }
    None
}
