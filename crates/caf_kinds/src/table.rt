ghost use Rattle.std.specs.Prelude.{◌≡◌, ◌∷◌, ◌++◌, [], IsTrue, IfOk, OnOk};
ghost use Rattle.caf_types.specs.Name.{is_name};
ghost use Rattle.caf_types.specs.Shape.{entry_views};
ghost use Rattle.caf_types.specs.Table.{named};
ghost use Rattle.caf_types.specs.TypeTable.{seen};
ghost use Rattle.caf_kinds.specs.Core.{core, core_objects, core_atoms, core_types};

use crate::{
    Add, Alarm, Chunk, Count, Element, Extent, Finish, Get, Index, Leave, Link, More, Mul,
    Postings, Put, Rest, Ring, Seen, Settle, Spawn, Start, Sub, Summary, Total, Totals, Wake,
    Watch,
};
use caf_types::{Entry, Memory, Name, Seq, TableFault, TypeTable, declare_type};
use std::alloc::Global;

/// The table that the kinds of actors work with: the built-in types, and the block `core` from ID 200
/// on. The one refusal is want of memory.
pub fn core_table(alloc: Global) -> Result<TypeTable, Memory>
    ensures { IfOk result (λ table. seen table ≡ core) }
{
    let mut table = TypeTable::new(alloc)?;
    let block = Name::of(alloc, "core")?;
    let entries = core_types(alloc)?;
    match table.add_block(block, 200, entries) {
        Ok(()) => Ok(table),
        Err(TableFault::Memory) => Err(Memory),
        Err(_) => unreachable!(),
    }
}

fn core_types(alloc: Global) -> Result<Seq<Entry>, Memory>
    ensures { IfOk result (λ entries. entry_views entries ≡ core_types) }
{
    let mut entries = Seq::new(alloc);
    declare_objects(alloc, &mut entries)?;
    declare_atoms(alloc, &mut entries)?;
    Ok(entries)
}

fn declare_objects(alloc: Global, entries: &mut Seq<Entry>) -> Result<(), Memory>
    ensures { OnOk result (entry_views entries.new ≡ entry_views entries.old ++ core_objects) }
{
    declare::<Chunk>(alloc, entries, "chunk")?;
    declare::<Postings>(alloc, entries, "postings")?;
    declare::<Extent>(alloc, entries, "extent")?;
    declare::<Summary>(alloc, entries, "summary")?;
    declare::<Total>(alloc, entries, "total")?;
    declare::<Finish>(alloc, entries, "finish")?;
    Ok(())
}

fn declare_atoms(alloc: Global, entries: &mut Seq<Entry>) -> Result<(), Memory>
    ensures { OnOk result (entry_views entries.new ≡ entry_views entries.old ++ core_atoms) }
{
    declare::<Start>(alloc, entries, "start")?;
    declare::<More>(alloc, entries, "more")?;
    declare::<Index>(alloc, entries, "index")?;
    declare::<Totals>(alloc, entries, "totals")?;
    declare::<Count>(alloc, entries, "count")?;
    declare::<Add>(alloc, entries, "add")?;
    declare::<Sub>(alloc, entries, "sub")?;
    declare::<Mul>(alloc, entries, "mul")?;
    declare::<Put>(alloc, entries, "put")?;
    declare::<Get>(alloc, entries, "get")?;
    declare::<Wake>(alloc, entries, "wake")?;
    declare::<Rest>(alloc, entries, "rest")?;
    declare::<Settle>(alloc, entries, "settle")?;
    declare::<Leave>(alloc, entries, "leave")?;
    declare::<Watch>(alloc, entries, "watch")?;
    declare::<Link>(alloc, entries, "link")?;
    declare::<Seen>(alloc, entries, "seen")?;
    declare::<Spawn>(alloc, entries, "spawn")?;
    declare::<Alarm>(alloc, entries, "alarm")?;
    declare::<Ring>(alloc, entries, "ring")?;
    Ok(())
}

/// Adds the type under that name at the end.
fn declare<T: Element>(alloc: Global, entries: &mut Seq<Entry>, name: &str) -> Result<(), Memory>
    requires { IsTrue (is_name name.now) }
    ensures { OnOk result (entry_views entries.new ≡ entry_views entries.old ++ named name.now T.shape ∷ []) }
{
    let shape = T::shape_of(alloc)?;
    declare_type(alloc, entries, name, shape)
}
