ghost use Rattle.std.specs.Prelude.{◌≡◌, Some, is_some, IsTrue};
ghost use Rattle.caf_types.specs.ShapeTree.{ShapeTree};
ghost use Rattle.caf_types.specs.Shape.{tree};
ghost use Rattle.caf_types.specs.Table.{shape_at};
ghost use Rattle.caf_types.specs.TypeTable.{seen};
ghost use Rattle.caf_text.specs.TextForm.{HasText};
ghost use Rattle.caf_inspect.specs.Loader.{loader_left};
ghost use Rattle.caf_events.specs.LoadAnswer.{Started};
ghost use Rattle.caf_inspect.specs.LoadAnswer.{TextFailsAt, AtLength};

use crate::Loader;
use caf_events::LoadFault;
use caf_text::{TextFault, read_text};
use caf_types::{Seq, Shape, TypeId, TypeTable};
use std::alloc::Global;

/// Gives the events of the value that some text is the form of.
pub type TextLoader = Loader<InText>;

/// A text, as the form of a value.
pub struct InText;

impl Loader<InText> {
    /// Reads a text as the form of a value of the type `id`, which is in the table.
    ///
    /// `Unfit` comes exactly where it is no text form of the type's shape. The path has one number,
    /// the length in bytes of the longest front of the text that is the front of some text form of
    /// the shape.
    pub fn start(
        alloc: Global,
        table: &TypeTable,
        id: TypeId,
        text: &str,
    ) -> Result<TextLoader, LoadFault>
        requires { IsTrue (is_some (shape_at (seen table.now) id.0)) }
        ensures { (f : ShapeTree) → shape_at (seen table.now) id.0 ≡ Some f →
            Started loader_left f (λ d. HasText f d text.now) (TextFailsAt f text.now) result }
    {
        match table.shape(id) {
            Some(shape) => load_text(alloc, shape, text),
            None => unreachable!(),
        }
    }
}

fn load_text(alloc: Global, shape: &Shape, text: &str) -> Result<TextLoader, LoadFault>
    ensures { Started loader_left (tree shape.now) (λ d. HasText (tree shape.now) d text.now) (TextFailsAt (tree shape.now) text.now) result }
{
    match read_text(alloc, shape, text) {
        Ok(value) => {
            let loader = Loader::of_value(alloc, shape, &value)?;
            Ok(loader)
        }
        Err(fault) => Err(load_fault(alloc, fault)),
    }
}

/// The length as a path.
fn load_fault(alloc: Global, fault: TextFault) -> LoadFault
    ensures { AtLength fault result }
{
    match fault {
        TextFault::Memory => LoadFault::Memory,
        TextFault::At(length) => {
            let mut path = Seq::new(alloc);
            match path.push(length) {
                Ok(()) => LoadFault::Unfit(path),
                Err(_) => LoadFault::Memory,
            }
        }
    }
}
