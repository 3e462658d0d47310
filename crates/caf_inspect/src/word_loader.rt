ghost use Rattle.std.specs.Prelude.{◌≡◌, Some, is_some, IsTrue, IfOk, IfErr};
ghost use Rattle.caf_types.specs.ShapeTree.{ShapeTree};
ghost use Rattle.caf_types.specs.Table.{shape_at};
ghost use Rattle.caf_types.specs.TypeTable.{seen};
ghost use Rattle.caf_words.specs.Spelling.{Spells};
ghost use Rattle.caf_words.specs.Value.{datum};
ghost use Rattle.caf_inspect.specs.Loader.{loader_left};
ghost use Rattle.caf_events.specs.LoadAnswer.{Started, Refused};
ghost use Rattle.caf_inspect.specs.LoadAnswer.{WordsFailAt, Placed};

use crate::Loader;
use caf_events::LoadFault;
use caf_types::{Seq, TypeId, TypeTable};
use caf_words::{SpellFault, Value, read};
use std::alloc::Global;

/// Gives the events of the value that some words are the spelling of.
pub type WordLoader = Loader<InWords>;

/// Words, as the form of a value.
pub struct InWords;

impl Loader<InWords> {
    /// Reads words as the spelling of a value of the type `id`, which is in the table.
    ///
    /// `Unfit` comes exactly where they are no spelling of one. The path has one number, the place
    /// of the first fault, which [`read`] tells.
    pub fn start(
        alloc: Global,
        table: &TypeTable,
        id: TypeId,
        words: &[u64],
    ) -> Result<WordLoader, LoadFault>
        requires { IsTrue (is_some (shape_at (seen table.now) id.0)) }
        ensures { (f : ShapeTree) → shape_at (seen table.now) id.0 ≡ Some f →
            Started loader_left f (λ d. Spells f d words.now) (WordsFailAt (seen table.now) id.0 words.now) result }
    {
        let value = read_one(alloc, table, id, words)?;
        match table.shape(id) {
            Some(shape) => {
                let loader = Loader::of_value(alloc, shape, &value)?;
                Ok(loader)
            }
            None => unreachable!(),
        }
    }
}

/// The one value that the words are the spelling of.
fn read_one(alloc: Global, table: &TypeTable, id: TypeId, words: &[u64]) -> Result<Value, LoadFault>
    requires { IsTrue (is_some (shape_at (seen table.now) id.0)) }
    ensures found { (f : ShapeTree) → shape_at (seen table.now) id.0 ≡ Some f → IfOk result (λ value. Spells f (datum value) words.now) }
    ensures unfit { (f : ShapeTree) → shape_at (seen table.now) id.0 ≡ Some f → IfErr result (Refused (λ d. Spells f d words.now) (WordsFailAt (seen table.now) id.0 words.now)) }
{
    let ids = [id];
    match read(alloc, table, &ids, words) {
        Ok(values) => {
            let mut values = values.into_vec();
            match values.pop() {
                Some(value) => Ok(value),
                None => unreachable!(),
            }
        }
        Err(fault) => Err(load_fault(alloc, fault)),
    }
}

/// The place as a path.
fn load_fault(alloc: Global, fault: SpellFault) -> LoadFault
    ensures { Placed fault result }
{
    match fault {
        SpellFault::Memory => LoadFault::Memory,
        SpellFault::At(place) => {
            let mut path = Seq::new(alloc);
            match path.push(place) {
                Ok(()) => LoadFault::Unfit(path),
                Err(_) => LoadFault::Memory,
            }
        }
    }
}
