ghost use Rattle.std.specs.Prelude.{◌≡◌};
ghost use Rattle.caf_response.specs.Holds.{key_of};

use crate::line::Lined;
use caf_types::{Mid, Priority};
use std::marker::Model;

/// A request to which an answer is promised.
#[derive(Debug, Drop)]
pub(crate) struct Held {
    pub(crate) mid: Mid,
    pub(crate) priority: Priority,
}

impl Model for Held {
    ghost use Rattle.caf_response.specs.Promised.{Promised};

    ghost Value = { Promised };

    ghost view = { λ held. record { mid = held.mid; priority = held.priority } };
}

impl Lined for Held {
    ghost key = { key_of };

    /// By number, then by requester.
    fn key(&self) -> (u64, u32) {
        (self.mid.number, self.mid.requester)
    }
}
