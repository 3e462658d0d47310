ghost use Rattle.std.specs.Prelude.{◌≡◌, ℕ, IfOk};
ghost use Rattle.caf_types.specs.Shape.{tree};

use caf_types::{Memory, Shape, TypeId};
use caf_words::Spelled;
use std::alloc::Global;

/// A type whose values are elements of messages: its values are those of one type of the table.
pub trait Element: Spelled {
    /// The number of the type's ID.
    ghost id: { ℕ };

    /// The ID of the type.
    fn type_id() -> TypeId
        ensures { result.0 ≡ id };

    /// The type's shape.
    fn shape_of(alloc: Global) -> Result<Shape, Memory>
        ensures { IfOk result (λ found. tree found ≡ Self.shape) };
}
