//! The requests that an alarm holds, each under the number that it gave it.
ghost use Rattle.std.specs.Prelude.{◌≡◌, ◌+◌, ◌<◌, ◌∷◌, ◌++◌, [], IfNone, IfOk, OnOk};
ghost use Rattle.std.specs.Option.{option_map};
ghost use Rattle.caf_message.specs.Lists.{pick};
ghost use Rattle.caf_kinds.specs.Alarms.{has_number, no_alarms, numbered, awaited};

use caf_actor::Origin;
use caf_types::Memory;
use std::alloc::Global;
use std::collections::BTreeMap;
use std::marker::Model;

/// Whose request is held.
#[derive(Clone, Copy, Debug, Drop)]
pub struct Asker {
    /// Who asked.
    pub requester: u32,
    /// The requester's number of the request.
    pub number: u64,
}

/// Held requests, each under the number that it was given, and the number that was given last.
#[derive(Debug, Drop)]
pub struct Alarms {
    last: u64,
    askers: BTreeMap<u64, Asker>,
}

impl Model for Alarms {
    ghost use Rattle.caf_kinds.specs.Alarms as alarms;
    ghost use Rattle.caf_kinds.specs.Alarms.{all_awaited, WereGiven};

    ghost Value = { alarms.Alarms };

    ghost view = { λ it. record { last = it.last; held = all_awaited it.askers.entries } };

    ghost invariant = { λ it. WereGiven it.last it.askers.entries };
}

impl Alarms {
    /// No request, and no number was given.
    pub(crate) fn new(alloc: Global) -> Alarms
        ensures { result ≡ no_alarms }
    {
        Alarms {
            last: 0,
            askers: BTreeMap::new(alloc),
        }
    }

    /// The number that was given last, 0 at first.
    pub(crate) fn last(&self) -> u64
        ensures { result ≡ self.now.last }
    {
        self.last
    }

    /// Holds a request under the next number, which is the answer.
    pub(crate) fn hold(&mut self, origin: Origin) -> Result<u64, Memory>
        requires { self.old.last < 18446744073709551615 }
        ensures number { IfOk result (λ number. number ≡ self.old.last + 1) }
        ensures held { OnOk result (self.new ≡ numbered self.old origin) }
    {
        let number = self.last + 1;
        let asker = Asker {
            requester: origin.mid.requester,
            number: origin.mid.number,
        };
        self.askers.insert(number, asker)?;
        self.last = number;
        Ok(number)
    }

    /// Takes out the request of that number; None exactly where none is held under it.
    pub(crate) fn take(&mut self, number: u64) -> Option<Asker>
        ensures taken { option_map (λ asker. (awaited number asker, self.new.held)) result ≡ pick (has_number number) self.old.held }
        ensures last { self.new.last ≡ self.old.last }
        ensures kept { IfNone result (self.new ≡ self.old) }
    {
        self.askers.remove(&number)
    }
}
