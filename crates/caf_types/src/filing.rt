//! The two maps by which a table finds its types.

ghost use Rattle.std.specs.Prelude.{◌≡◌, ℕ, ◌≢◌, ◌++◌, List, Some, OnOk};
ghost use Rattle.std.specs.Ordering.{nat_cmp};
ghost use Rattle.std.specs.BTreeMap.{get, get_by_text};
ghost use Rattle.caf_types.specs.Listing.{types_of, AreFiled};
ghost use Rattle.caf_types.specs.New.{AreNew};

use crate::Memory;
use crate::listed::Listed;
use std::alloc::Global;
use std::collections::BTreeMap;

/// The positions of types by their IDs.
pub(crate) type PlacesById = BTreeMap<u16, usize>;

/// The positions of types by their names.
pub(crate) type PlacesByName = BTreeMap<String, usize>;

/// Files the types that are to follow the listed ones. After want of memory some are filed, at
/// positions that no type has yet.
pub(crate) fn file_types(
    alloc: Global,
    ids: &mut PlacesById,
    names: &mut PlacesByName,
    listed: &[Listed],
    added: &[Listed],
) -> Result<(), Memory>
    requires filed { AreFiled 0 (types_of listed.now) (get nat_cmp ids.old) (get_by_text names.old) }
    requires new { AreNew (types_of listed.now) (types_of added.now) }
    ensures added { OnOk result (AreFiled 0 (types_of listed.now ++ types_of added.now) (get nat_cmp ids.new) (get_by_text names.new)) }
    ensures kept { AreFiled 0 (types_of listed.now) (get nat_cmp ids.new) (get_by_text names.new) }
{
    for (i, next) in added.iter().enumerate() {
        file_type(alloc, ids, names, listed.len() + i, next)?;
    }
    Ok(())
}

/// Files a type at a position. After want of memory it is filed under its ID, its name or neither.
fn file_type(
    alloc: Global,
    ids: &mut PlacesById,
    names: &mut PlacesByName,
    position: usize,
    listed: &Listed,
) -> Result<(), Memory>
    ensures by_id { OnOk result (get nat_cmp ids.new listed.now.id ≡ Some position) }
    ensures by_name { OnOk result (get_by_text names.new listed.now.entry.name ≡ Some position) }
    ensures other_ids { (id : ℕ) → id ≢ listed.now.id → get nat_cmp ids.new id ≡ get nat_cmp ids.old id }
    ensures other_names { (name : List ℕ) → name ≢ listed.now.entry.name → get_by_text names.new name ≡ get_by_text names.old name }
{
    let name = String::from_str(alloc, listed.entry.name.as_str())?;
    names.insert(name, position)?;
    ids.insert(listed.id, position)?;
    Ok(())
}
