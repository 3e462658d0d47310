//! The one call that pops, and the count of its empty pops.
ghost use Rattle.std.specs.Prelude.{◌≡◌, ◌^◌, ◌≤◌, Contains, MatchOption};
ghost use Rattle.crossbeam_queue.specs.SegTies.{IsSegPassOf};
ghost use Rattle.caf_message.specs.Entries.{entry_shape};
ghost use Rattle.caf_message.specs.Envelope.{plain_envelope, EnvelopeFits};
ghost use Rattle.caf_inbox.specs.declared.view.Role.TheVariants.{Reading};
ghost use Rattle.caf_inbox.specs.Ends.{Rose};
ghost use Rattle.caf_inbox.specs.Senders.{AreWithin};
ghost use Rattle.caf_inbox.specs.Views.{logged};

use crate::queue::{Pass, Shared};
use crate::rule::Popped;
use caf_message::{Entries, Envelope};
use std::sync::Wait;

/// A reader's pass, with the number of its empty pops. The number changes in [`Counted::pop`] alone.
#[derive(Drop)]
pub struct Counted<E: Entries> {
    pub pass: Pass<E>,
    empties: u64,
}

impl<E: Entries> Counted<E> {
    /// The pass, of which no pop found nothing yet.
    pub fn new(pass: Pass<E>) -> Counted<E>
        ensures { (result.pass ≡ pass) × (result.empties ≡ 0) }
    {
        Counted { pass, empties: 0 }
    }

    /// Pops once. Where the queue was empty, the number of empty pops rises.
    pub fn pop<R: Wait>(&mut self, rt: &R, shared: &Shared<E>) -> Option<Envelope>
        requires { IsSegPassOf shared.now.queue self.old.pass × (self.old.pass.me.view.client.role ≡ Reading) }
        ensures pass { IsSegPassOf shared.now.queue self.new.pass }
        ensures count { self.old.empties ≤ self.new.empties }
        ensures popped { let v = self.old.pass.me.view.client in let w = self.new.pass.me.view.client in
            MatchOption result
            (Rose self.old.empties self.new.empties × (w ≡ v) × AreWithin v.log v.met)
            (λ e. (w ≡ logged v (plain_envelope e)) × Contains v.senders e.sender × EnvelopeFits (entry_shape E.entries) (plain_envelope e)) }
    {
        match shared.queue.pop_as::<Popped, R>(rt, &mut self.pass) {
            Some(held) => Some(held.open()),
            None => {
                self.empties = self.empties.saturating_add(1);
                None
            }
        }
    }
}
