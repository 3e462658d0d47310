ghost use Rattle.std.specs.Prelude.{◌≡◌, [], false, OnOk, OnErr, IfErr, IfSome, IfNone, is_some};
ghost use Rattle.std.specs.Option.{option_map};
ghost use Rattle.std.specs.List.{AllByRecursion};
ghost use Rattle.caf_response.specs.Holds.{with_hold, take_hold, first_hold, is_held, is_before};

use crate::Promise;
use crate::held::Held;
use crate::line::Lines;
use crate::lines::{add_to, take_first, take_out};
use std::alloc::Global;
use std::collections::BTreeMap;
use std::marker::Model;

/// The promises that an actor keeps for later.
///
/// Those to requests of one number and requester stand in one line, in order of arrival, so nothing
/// counts arrivals.
#[derive(Debug, Drop)]
pub struct Holds {
    alloc: Global,
    /// By number, then by requester.
    lines: Lines<Held>,
}

impl Model for Holds {
    ghost use Rattle.std.specs.Prelude.{List};
    ghost use Rattle.caf_response.specs.Promised.{Promised};

    ghost Value = { List Promised };

    ghost use Rattle.caf_response.specs.Holds.{key_of};
    ghost use Rattle.caf_response.specs.Lines.{in_lines, AreFiled};

    ghost view = { λ holds. in_lines holds.lines.entries };

    ghost invariant = { λ holds. AreFiled key_of holds.lines.entries };
}

impl Holds {
    /// No holds.
    pub fn new(alloc: Global) -> Holds
        ensures { result ≡ [] }
    {
        Holds {
            alloc,
            lines: BTreeMap::new(alloc),
        }
    }

    /// Takes out the promise to the request of that requester and number, the first one held where
    /// there are several; None exactly where there is none. It takes no memory.
    pub fn take(&mut self, requester: u32, number: u64) -> Option<Promise>
        ensures taken { option_map (λ promise. (promise, self.new)) result ≡ take_hold self.old requester number }
        ensures some { is_some result ≡ is_held self.old requester number }
        ensures kept { IfNone result (self.new ≡ self.old) }
    {
        match take_out(&mut self.lines, (number, requester)) {
            Some(held) => Some(Promise::of_held(held)),
            None => None,
        }
    }

    /// Takes out the first promise by the request's number, then its requester, then arrival; None
    /// exactly where nothing is held. It takes no memory.
    pub fn first(&mut self) -> Option<Promise>
        ensures first { option_map (λ promise. (promise, self.new)) result ≡ first_hold self.old }
        ensures least { IfSome result (λ promise. AllByRecursion (λ other. is_before other promise ≡ false) self.old) }
        ensures kept { IfNone result (self.new ≡ self.old) }
    {
        match take_first(&mut self.lines) {
            Some(held) => Some(Promise::of_held(held)),
            None => None,
        }
    }

    /// Puts one in, behind those of the same number and requester. It comes back where memory is
    /// wanted.
    pub(crate) fn add(&mut self, held: Held) -> Result<(), Held>
        ensures held { OnOk result (self.new ≡ with_hold self.old held) }
        ensures back { IfErr result (λ refused. refused ≡ held) }
        ensures kept { OnErr result (self.new ≡ self.old) }
    {
        add_to(&mut self.lines, self.alloc, held)
    }
}
