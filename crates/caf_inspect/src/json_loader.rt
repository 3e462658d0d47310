ghost use Rattle.std.specs.Prelude.{◌≡◌, Some, is_some, IsTrue};
ghost use Rattle.caf_types.specs.ShapeTree.{ShapeTree};
ghost use Rattle.caf_types.specs.Shape.{tree};
ghost use Rattle.caf_types.specs.Table.{shape_at};
ghost use Rattle.caf_types.specs.TypeTable.{seen};
ghost use Rattle.caf_json.specs.Answer.{IsFormOf, UnfitAt};
ghost use Rattle.caf_inspect.specs.Loader.{loader_left};
ghost use Rattle.caf_events.specs.LoadAnswer.{Started};

use crate::Loader;
use caf_events::LoadFault;
use caf_json::{Json, value_of_json};
use caf_types::{Shape, TypeId, TypeTable};
use std::alloc::Global;

/// Gives the events of the value that some JSON is the form of.
pub type JsonLoader = Loader<InJson>;

/// JSON, as the form of a value.
pub struct InJson;

impl Loader<InJson> {
    /// Reads JSON as the form of a value of the type `id`, which is in the table.
    ///
    /// `Unfit` comes exactly where it is no form of the type's shape. The path's positions, of fields
    /// in declared order and of elements, from 0, lead down to the first part that is missing or
    /// isn't of its shape. An object that has its declared members in form and others beside them is
    /// itself that part.
    pub fn start(
        alloc: Global,
        table: &TypeTable,
        id: TypeId,
        json: &Json,
    ) -> Result<JsonLoader, LoadFault>
        requires { IsTrue (is_some (shape_at (seen table.now) id.0)) }
        ensures { (f : ShapeTree) → shape_at (seen table.now) id.0 ≡ Some f →
            Started loader_left f (λ d. IsFormOf f d json.now) (UnfitAt f json.now) result }
    {
        match table.shape(id) {
            Some(shape) => read_json(alloc, shape, json),
            None => unreachable!(),
        }
    }
}

fn read_json(alloc: Global, shape: &Shape, json: &Json) -> Result<JsonLoader, LoadFault>
    ensures { Started loader_left (tree shape.now) (λ d. IsFormOf (tree shape.now) d json.now) (UnfitAt (tree shape.now) json.now) result }
{
    match value_of_json(alloc, shape, json) {
        Ok(value) => {
            let loader = Loader::of_value(alloc, shape, &value)?;
            Ok(loader)
        }
        Err(fault) => Err(fault),
    }
}
