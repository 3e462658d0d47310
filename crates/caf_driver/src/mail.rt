//! What waits to be taken by all places.
ghost use Rattle.std.specs.Prelude.{◌≡◌, ◌≢◌, ℕ, ◌+◌, ◌<◌, [], not, length, IfOk, OnOk};
ghost use Rattle.std.specs.List.{list_any};
ghost use Rattle.caf_message.specs.Envelope.{plain_envelope};
ghost use Rattle.caf_driver.specs.Places.{is_filled};
ghost use Rattle.caf_driver.specs.Arrivals.{has_last, HasPushed, HasPopped};
ghost use Rattle.caf_driver.specs.Runs.{is_batch};
ghost use Rattle.caf_driver.specs.Mail.{arriving_at, waiting_in, IsMail, length_at, HasArrivals, HasPosted, HasGiven};

use crate::SenderRun;
use crate::arrivals::Arrivals;
use crate::places::{with_place, without_place};
use caf_message::Envelope;
use caf_types::{Memory, Places, Seq};
use std::alloc::Global;
use std::marker::Model;
use std::mem;

/// What waits for each place, and the places for which something waits.
#[derive(Drop)]
pub(crate) struct Mail {
    alloc: Global,
    arrivals: Vec<Arrivals>,
    offered: Places,
}

impl Model for Mail {
    ghost use Rattle.caf_driver.specs.Mail.{Waiting};

    ghost Value = { Waiting };

    ghost view = { λ m. record { arrivals = m.arrivals.items; offered = m.offered } };
}

impl Mail {
    /// Nothing waits for any of so many places.
    pub(crate) fn new(alloc: Global, places: usize) -> Result<Mail, Memory>
        ensures mail { IfOk result IsMail }
        ensures places { IfOk result (λ mail. length mail.arrivals ≡ places) }
        ensures empty { IfOk result (λ mail. (a b : ℕ) → waiting_in mail a b ≡ []) }
    {
        let mut arrivals = Vec::with_capacity(alloc, places)?;
        for _ in 0..places {
            arrivals.push(Arrivals::new(alloc))?;
        }
        Ok(Mail {
            alloc,
            arrivals,
            offered: Seq::new(alloc),
        })
    }

    /// The places for which something waits, in rising order.
    pub(crate) fn places(&self) -> &Places
        ensures { result.now ≡ self.now.offered }
    {
        &self.offered
    }

    /// The senders of whom something waits for the place, in rising order.
    pub(crate) fn senders(&self, place: u32) -> &Places
        requires { place < length self.now.arrivals }
        ensures { result.now ≡ (arriving_at self.now place).senders }
    {
        self.arrivals[place as usize].senders()
    }

    /// Whether something waits for the place whose stamp is the last one.
    pub(crate) fn has_last_stamp(&self, place: u32) -> bool
        requires { place < length self.now.arrivals }
        ensures { result ≡ list_any has_last (arriving_at self.now place).queues }
    {
        self.arrivals[place as usize].has_last_stamp()
    }

    /// Whether the runs name next envelopes of those that wait for the place alone, at least one, and
    /// none with the last stamp.
    pub(crate) fn offers(&self, place: u32, runs: &[SenderRun]) -> Result<bool, Memory>
        requires { place < length self.now.arrivals }
        ensures { IfOk result (λ offers. offers ≡ is_batch (λ a. waiting_in self.now a place) runs.now) }
    {
        self.arrivals[place as usize].offers(runs)
    }

    /// Puts the envelope behind what its sender has sent to the place. After want of memory nothing is
    /// said of what waits.
    pub(crate) fn push(&mut self, to: u32, envelope: Envelope) -> Result<(), Memory>
        requires mail { IsMail self.old }
        requires place { to < length self.old.arrivals }
        ensures { OnOk result (HasPosted self.old to (plain_envelope envelope) self.new) }
    {
        if self.put(to, envelope)? {
            let offered = mem::replace(&mut self.offered, Seq::new(self.alloc));
            self.offered = with_place(offered, to)?;
        }
        Ok(())
    }

    /// Puts the envelope behind what its sender has sent to the place, which isn't offered for it.
    /// Answers whether nothing waited for the place before.
    fn put(&mut self, to: u32, envelope: Envelope) -> Result<bool, Memory>
        requires mail { IsMail self.old }
        requires place { to < length self.old.arrivals }
        ensures put { OnOk result (HasArrivals self.old to self.new) }
        ensures pushed { OnOk result (HasPushed (arriving_at self.old to) (plain_envelope envelope) (arriving_at self.new to)) }
        ensures first { IfOk result (λ first. first ≡ not (is_filled (arriving_at self.old to).senders)) }
    {
        let arrivals = &mut self.arrivals[to as usize];
        let is_first = arrivals.has_none();
        arrivals.push(envelope)?;
        Ok(is_first)
    }

    /// Takes the first envelope of the sender that waits for the place.
    pub(crate) fn pop(&mut self, place: u32, sender: u32) -> Envelope
        requires mail { IsMail self.old }
        requires some { waiting_in self.old sender place ≢ [] }
        ensures given { HasGiven self.old place sender (plain_envelope result) self.new }
        ensures fewer { length_at self.new place + 1 ≡ length_at self.old place }
    {
        let (envelope, is_last) = self.take_first(place, sender);
        if is_last {
            let offered = mem::replace(&mut self.offered, Seq::new(self.alloc));
            self.offered = without_place(offered, place);
        }
        envelope
    }

    /// Takes the first envelope of the sender that waits for the place, which stays offered. Answers
    /// whether nothing waits for it any more.
    fn take_first(&mut self, place: u32, sender: u32) -> (Envelope, bool)
        requires mail { IsMail self.old }
        requires some { waiting_in self.old sender place ≢ [] }
        ensures taken { HasArrivals self.old place self.new }
        ensures popped { HasPopped (arriving_at self.old place) sender (plain_envelope result.0) (arriving_at self.new place) }
        ensures own { (plain_envelope result.0).sender ≡ sender }
        ensures last { result.1 ≡ not (is_filled (arriving_at self.new place).senders) }
        ensures fewer { length_at self.new place + 1 ≡ length_at self.old place }
    {
        let arrivals = &mut self.arrivals[place as usize];
        let envelope = arrivals.pop(sender);
        (envelope, arrivals.has_none())
    }
}
