ghost use Rattle.std.specs.Prelude.{◌≡◌, map, Some, is_some, IsTrue, IfOk, OnOk};
ghost use Rattle.caf_types.specs.ShapeTree as tree;
ghost use Rattle.caf_words.specs.Datum.{data_of, a_list};
ghost use Rattle.caf_events.specs.Event.{events, each_events};
ghost use Rattle.caf_events.specs.Taking.{taking, many};
ghost use Rattle.caf_events.specs.Tells.{Tells};

use crate::{Inspect, Load, Save};
use caf_types::{Memory, Seq};
use std::alloc::Global;

/// Tells the events of a list of values.
pub fn save_list<T: Inspect, S: Save>(items: &Seq<T>, saver: &mut S) -> Result<(), Memory>
    ensures { OnOk result (Tells S.told saver.old saver.new (events (tree.list T.shape) (a_list (data_of (map T.means items.now))))) }
{
    saver.list(items.len())?;
    save_each(items.as_slice(), saver)?;
    Ok(())
}

fn save_each<T: Inspect, S: Save>(items: &[T], saver: &mut S) -> Result<(), Memory>
    ensures { OnOk result (Tells S.told saver.old saver.new (each_events (events T.shape) (data_of (map T.means items.now)))) }
{
    for item in items {
        item.save(saver)?;
    }
    Ok(())
}

/// Takes the events of a list of values, with the condition that those of one come next.
pub fn load_list<T: Inspect + Drop, L: Load>(
    alloc: Global,
    loader: &mut L,
) -> Result<Seq<T>, Memory>
    requires { IsTrue (is_some (taking (tree.list T.shape) (L.left loader.old))) }
    ensures { IfOk result (λ items. taking (tree.list T.shape) (L.left loader.old) ≡ Some (a_list (data_of (map T.means items)), L.left loader.new)) }
{
    let count = loader.list();
    let items = load_each(alloc, count, loader)?;
    Ok(items)
}

fn load_each<T: Inspect + Drop, L: Load>(
    alloc: Global,
    count: u64,
    loader: &mut L,
) -> Result<Seq<T>, Memory>
    requires { IsTrue (is_some (many (taking T.shape) count (L.left loader.old))) }
    ensures { IfOk result (λ items. many (taking T.shape) count (L.left loader.old) ≡ Some (data_of (map T.means items), L.left loader.new)) }
{
    let mut items = Seq::new(alloc);
    for _ in 0..count {
        let item = T::load(alloc, loader)?;
        items.push(item)?;
    }
    Ok(items)
}
