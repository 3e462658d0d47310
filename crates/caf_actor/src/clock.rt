ghost use Rattle.std.specs.Prelude.{◌≡◌, ◌≤◌, ◌+◌, ◌^◌};
ghost use Rattle.caf_actor.specs.Clock.{next_tick};
ghost use Rattle.caf_actor.specs.Clock as clock;

use caf_types::LAST_COUNT;
use std::marker::Model;

/// How many ticks an actor has had, from 0. The count stops at 2^63.
#[derive(Debug, Drop)]
pub struct Clock {
    ticks: u64,
}

impl Model for Clock {
    ghost use Rattle.std.specs.Prelude.{ℕ, ◌≤◌, ◌^◌};

    ghost Value = { ℕ };

    ghost view = { λ clock. clock.ticks };

    ghost invariant = { λ clock. clock.ticks ≤ 2 ^ 63 };
}

impl Clock {
    pub(crate) fn new() -> Clock
        ensures { result ≡ 0 }
    {
        Clock { ticks: 0 }
    }

    pub(crate) fn ticks(&self) -> u64
        ensures { result ≡ self.now }
    {
        self.ticks
    }

    pub(crate) fn advance(&mut self)
        ensures { self.new ≡ next_tick self.old }
    {
        self.ticks = LAST_COUNT.min(self.ticks + 1);
    }

    /// The count after so many ticks; none counts as one.
    pub(crate) fn due_after(&self, ticks: u32) -> u64
        ensures { result ≡ clock.due_after self.now ticks }
    {
        self.ticks + ticks.max(1) as u64
    }
}
