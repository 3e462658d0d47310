ghost use Rattle.std.specs.Prelude.{◌≡◌, List, Some, is_some, IsTrue, IfOk, OnErr};
ghost use Rattle.caf_events.specs.Event.{Event};
ghost use Rattle.caf_events.specs.Taking.{next, unit_in, flag_in, unsigned_in, signed_in, text_in, bytes_in, place_in, list_in, object_in, field_in};

use caf_types::{Letters, Memory, Octets};
use std::alloc::Global;

/// What gives the events of a value one after the other.
///
/// Each call takes the next event, with the condition that it is of the call's kind, and answers what
/// it carries. Want of memory takes none: what is left stays.
pub trait Load {
    /// The events that are left.
    ghost left: { Self → List Event };

    /// The value of the shape without parts.
    fn unit(&mut self)
        requires { IsTrue (is_some (next unit_in (left self.old))) }
        ensures { next unit_in (left self.old) ≡ Some (tt, left self.new) };

    /// A flag.
    fn flag(&mut self) -> bool
        requires { IsTrue (is_some (next flag_in (left self.old))) }
        ensures { next flag_in (left self.old) ≡ Some (result, left self.new) };

    /// A whole number of 64 bits.
    fn unsigned(&mut self) -> u64
        requires { IsTrue (is_some (next unsigned_in (left self.old))) }
        ensures { next unsigned_in (left self.old) ≡ Some (result, left self.new) };

    /// A whole number of 64 bits in two's complement.
    fn signed(&mut self) -> i64
        requires { IsTrue (is_some (next signed_in (left self.old))) }
        ensures { next signed_in (left self.old) ≡ Some (result, left self.new) };

    /// A text.
    fn text(&mut self, alloc: Global) -> Result<Letters, Memory>
        requires { IsTrue (is_some (next text_in (left self.old))) }
        ensures taken { IfOk result (λ v. next text_in (left self.old) ≡ Some (v, left self.new)) }
        ensures kept { OnErr result (left self.new ≡ left self.old) };

    /// Bytes.
    fn bytes(&mut self, alloc: Global) -> Result<Octets, Memory>
        requires { IsTrue (is_some (next bytes_in (left self.old))) }
        ensures taken { IfOk result (λ v. next bytes_in (left self.old) ≡ Some (v, left self.new)) }
        ensures kept { OnErr result (left self.new ≡ left self.old) };

    /// The number of a place. Of a value of a shape it is below 256.
    fn place(&mut self) -> u32
        requires { IsTrue (is_some (next place_in (left self.old))) }
        ensures { next place_in (left self.old) ≡ Some (result, left self.new) };

    /// The length of a list, whose values come next.
    fn list(&mut self) -> u64
        requires { IsTrue (is_some (next list_in (left self.old))) }
        ensures { next list_in (left self.old) ≡ Some (result, left self.new) };

    /// The number of fields of an object, which come next.
    fn object(&mut self) -> u64
        requires { IsTrue (is_some (next object_in (left self.old))) }
        ensures { next object_in (left self.old) ≡ Some (result, left self.new) };

    /// A field of that name, whose value comes next.
    fn field(&mut self, name: &str)
        requires { IsTrue (is_some (next (field_in name.now) (left self.old))) }
        ensures { next (field_in name.now) (left self.old) ≡ Some (tt, left self.new) };
}
