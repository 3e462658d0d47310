//! The two kinds of end of a deque. Each has one call that draws, which alone counts the empty tries.
ghost use Rattle.std.specs.Prelude.{◌≡◌, ◌≤◌, [], ◌∷◌, ◌++◌, OnOk, OnErr, MatchOption, IfOk};
ghost use Rattle.crossbeam_deque.specs.Handles.{IsPassOf, stealer_deque, stealer_flavor, worker_flavor, worker_port, worker_view};
ghost use Rattle.crossbeam_deque.specs.Handles as handles;
ghost use Rattle.caf_sched.specs.Ends.{Rose, new_own, new_other};

use crate::rule::{Draws, Puts, Tickets};
use crate::view::View;
use caf_types::Memory;
use crossbeam_deque::{Pass, Steal, Stealer, Worker};
use std::alloc::Global;
use std::marker::Model;
use std::sync::Wait;

// How many tickets a new deque has room for.
const FIRST_ROOM: usize = 64;

/// The end that puts at the back and pops at the front.
#[derive(Drop)]
pub struct Own {
    worker: Worker<u32, Global, View, Tickets>,
    empties: u64,
}

impl Model for Own {
    ghost use Rattle.std.specs.Prelude.{◌≡◌};
    ghost use Rattle.caf_sched.specs.Ends.{OwnSeen};
    ghost use Rattle.crossbeam_deque.specs.Handles.{worker_flavor, worker_port, worker_view};

    ghost Value = { OwnSeen };

    ghost view = { λ o. record { puts = (worker_view o.worker).puts; drawn = (worker_view o.worker).drawn; empties = o.empties } };

    ghost invariant = { λ o. (worker_flavor o.worker ≡ 0) × (worker_port o.worker ≡ 0) };
}

/// An end that steals at the front.
#[derive(Drop)]
pub struct Other {
    stealer: Stealer<u32, Global, View, Tickets>,
    pass: Pass<u32, View>,
    empties: u64,
}

impl Model for Other {
    ghost use Rattle.std.specs.Prelude.{◌≡◌};
    ghost use Rattle.caf_sched.specs.Ends.{OtherSeen};
    ghost use Rattle.crossbeam_deque.specs.Handles.{IsPassOf, stealer_deque, stealer_flavor};
    ghost use Rattle.crossbeam_deque.specs.Handles as handles;

    ghost Value = { OtherSeen };

    ghost view = { λ o. record { drawn = (handles.view o.pass).drawn; empties = o.empties } };

    ghost invariant = { λ o. IsPassOf (stealer_deque o.stealer) o.pass × (stealer_flavor o.stealer ≡ 0) };
}

impl Own {
    /// The owner's end of a new deque, first in, first out.
    pub fn new(alloc: Global) -> Result<Own, Memory>
        ensures { IfOk result (λ o. o ≡ new_own) }
    {
        let worker = Worker::fifo_as(alloc, FIRST_ROOM)?;
        Ok(Own { worker, empties: 0 })
    }

    /// A further end of this deque, which steals.
    pub fn other(&self) -> Result<Other, Memory>
        ensures { IfOk result (λ o. o ≡ new_other) }
    {
        let stealer = self.worker.stealer()?;
        let pass = stealer.pass();
        Ok(Other {
            stealer,
            pass,
            empties: 0,
        })
    }

    /// Puts a ticket at the back.
    pub fn put(&mut self, ticket: u32) -> Result<(), Memory>
        ensures put { OnOk result (self.new ≡ record self.old { puts = self.old.puts ++ ticket ∷ [] }) }
        ensures kept { OnErr result (self.new ≡ self.old) }
    {
        match self.worker.push_as::<Puts>(ticket) {
            Ok(()) => Ok(()),
            Err(_) => Err(Memory),
        }
    }

    /// Pops once, and counts where nothing was there.
    pub fn draw(&mut self) -> Option<u32>
        ensures puts { self.new.puts ≡ self.old.puts }
        ensures found { MatchOption result ((self.new.drawn ≡ self.old.drawn) × Rose self.old.empties self.new.empties) (λ t. (self.new.drawn ≡ self.old.drawn ++ t ∷ []) × (self.new.empties ≡ self.old.empties)) }
        ensures counts { self.old.empties ≤ self.new.empties }
    {
        let found = self.worker.pop_as::<Draws>();
        if found.is_none() {
            self.empties = self.empties.saturating_add(1);
        }
        found
    }
}

impl Other {
    /// Steals once, and counts where nothing was there. A steal that lost a race is made again.
    pub fn draw<R: Wait>(&mut self, rt: &R) -> Option<u32>
        ensures found { MatchOption result ((self.new.drawn ≡ self.old.drawn) × Rose self.old.empties self.new.empties) (λ t. (self.new.drawn ≡ self.old.drawn ++ t ∷ []) × (self.new.empties ≡ self.old.empties)) }
        ensures counts { self.old.empties ≤ self.new.empties }
    {
        let found = steal(rt, &self.stealer, &mut self.pass);
        if found.is_none() {
            self.empties = self.empties.saturating_add(1);
        }
        found
    }
}

// Steals until no race is lost.
fn steal<R: Wait>(
    rt: &R,
    stealer: &Stealer<u32, Global, View, Tickets>,
    pass: &mut Pass<u32, View>,
) -> Option<u32>
    requires { IsPassOf (stealer_deque stealer.now) pass.old × (stealer_flavor stealer.now ≡ 0) }
    ensures pass { IsPassOf (stealer_deque stealer.now) pass.new }
    ensures found { MatchOption result ((handles.view pass.new).drawn ≡ (handles.view pass.old).drawn) (λ t. (handles.view pass.new).drawn ≡ (handles.view pass.old).drawn ++ t ∷ []) }
{
    for _ in rt.forever() {
        match stealer.steal_as::<Draws>(pass) {
            Steal::Success(ticket) => return Some(ticket),
            Steal::Empty => return None,
            Steal::Retry => {}
        }
    }
    unreachable!()
}
