//! What all workers of a crew share.
ghost use Rattle.std.specs.Prelude.{◌≡◌};

use caf_turns::{Marked, Turns};
use crossbeam_utils::CachePadded;
use std::sync::atomic::{AtomicU64, Ordering};

/// The bodies, and how much of the budget is spent.
#[derive(Drop)]
pub struct Shared<W: Marked> {
    /// The bodies.
    pub turns: Turns<W>,
    // How many envelopes were handled in the turns so far.
    spent: CachePadded<AtomicU64>,
    // How many may be.
    budget: u64,
}

impl<W: Marked> Shared<W> {
    /// Nothing is spent yet.
    pub fn new(turns: Turns<W>, budget: u64) -> Shared<W>
        ensures { result.turns ≡ turns }
    {
        Shared {
            turns,
            spent: CachePadded::new(AtomicU64::new(0)),
            budget,
        }
    }

    /// So many envelopes more were handled.
    pub fn spend(&self, handled: u64) {
        self.spent.fetch_add(handled, Ordering::SeqCst);
    }

    /// Whether the budget is spent.
    pub fn is_spent(&self) -> bool {
        self.spent.load(Ordering::SeqCst) >= self.budget
    }

    /// The bodies, once no worker needs the rest.
    pub fn into_turns(self) -> Turns<W>
        ensures { result ≡ self.turns }
    {
        let Shared {
            turns,
            spent: _,
            budget: _,
        } = self;
        turns
    }
}
