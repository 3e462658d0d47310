ghost use Rattle.std.specs.Prelude.{◌≡◌, ℕ, true, Some, is_some, IsTrue, IfOk, OnOk};
ghost use Rattle.caf_types.specs.ShapeTree.{ShapeTree};
ghost use Rattle.caf_words.specs.Datum.{Datum, fits};
ghost use Rattle.caf_events.specs.Event.{events};
ghost use Rattle.caf_events.specs.Taking.{taking};
ghost use Rattle.caf_events.specs.Tells.{Tells};

use crate::{Load, Save};
use caf_types::{Memory, TypeId};
use std::alloc::Global;

/// A type whose values are values of a shape.
///
/// One `save` and one `load` serve every form, as one `inspect` does in CAF (CAF manual, type
/// inspection).
pub trait Inspect: Sized {
    /// The shape, the same for every value of the type.
    ghost shape: { ShapeTree };

    /// The value of that shape.
    ghost means: { Self → Datum };

    /// The number of the type's ID.
    ghost id: { ℕ };

    /// The ID under which a table has the type's shape.
    fn type_id() -> TypeId
        ensures { result.0 ≡ id };

    /// Tells the value's events. After a refusal the saver is broken.
    fn save<S: Save>(&self, saver: &mut S) -> Result<(), Memory>
        ensures { OnOk result (Tells S.told saver.old saver.new (events shape (means self.now))) };

    /// Takes the events of a value, with the condition that those of one come next, and means that
    /// value. After a refusal the loader is broken.
    fn load<L: Load>(alloc: Global, loader: &mut L) -> Result<Self, Memory>
        requires { IsTrue (is_some (taking shape (L.left loader.old))) }
        ensures { IfOk result (λ it. taking shape (L.left loader.old) ≡ Some (means it, L.left loader.new)) };

    /// The value is of the shape.
    ghost fits_shape: { (it : Self) → fits shape (means it) ≡ true };
}
