//! What waits to be taken by one place.
ghost use Rattle.std.specs.Prelude.{◌≡◌, ◌≢◌, ℕ, ◌+◌, ◌-◌, ◌<◌, ◌≤◌, ◌==◌, not, true, [], ◌∷◌, ◌++◌, length, take, drop, IfOk, OnOk};
ghost use Rattle.std.specs.List.{list_any};
ghost use Rattle.caf_types.specs.Limits.{latest_stamp};
ghost use Rattle.caf_message.specs.declared.envelope.Envelope.{Envelope};
ghost use Rattle.caf_message.specs.Envelope.{plain_envelope};
ghost use Rattle.caf_driver.specs.Places.{is_filled};
ghost use Rattle.caf_driver.specs.Runs.{without_run, is_batch, is_offered_run, count_at, left_past, HasCounts};
ghost use Rattle.caf_driver.specs.Arrivals.{nothing_arriving, from_sender, has_last, IsArriving, length_of, HasQueue, HasPushed, HasPopped};

use crate::SenderRun;
use crate::places::{with_place, without_place};
use caf_message::Envelope;
use caf_types::{LATEST_STAMP, Memory, Places, Seq};
use std::alloc::Global;
use std::collections::VecDeque;
use std::marker::Model;
use std::mem;

/// What waits for one place: a queue for each sender, and the senders of whom something waits.
#[derive(Drop)]
pub(crate) struct Arrivals {
    alloc: Global,
    queues: Vec<VecDeque<Envelope>>,
    senders: Places,
}

impl Model for Arrivals {
    ghost use Rattle.std.specs.Prelude.{map};
    ghost use Rattle.caf_message.specs.Envelope.{plain_envelope};
    ghost use Rattle.caf_driver.specs.Arrivals.{Arriving};

    ghost Value = { Arriving };

    ghost view = { λ w. record { queues = map (λ q. map plain_envelope q.items) w.queues.items; senders = w.senders } };
}

impl Arrivals {
    /// Nothing waits.
    pub(crate) fn new(alloc: Global) -> Arrivals
        ensures { result ≡ nothing_arriving }
    {
        Arrivals {
            alloc,
            queues: Vec::new(alloc),
            senders: Seq::new(alloc),
        }
    }

    /// The senders of whom something waits, in rising order.
    pub(crate) fn senders(&self) -> &Places
        ensures { result.now ≡ self.now.senders }
    {
        &self.senders
    }

    /// Whether nothing waits.
    pub(crate) fn has_none(&self) -> bool
        ensures { result ≡ not (is_filled self.now.senders) }
    {
        self.senders.is_empty()
    }

    /// Whether something waits whose stamp is the last one.
    pub(crate) fn has_last_stamp(&self) -> bool
        ensures { result ≡ list_any has_last self.now.queues }
    {
        for queue in &self.queues {
            if is_at_end(queue) {
                return true;
            }
        }
        false
    }

    /// Whether the runs name next envelopes alone, at least one, and none with the last stamp.
    pub(crate) fn offers(&self, runs: &[SenderRun]) -> Result<bool, Memory>
        ensures { IfOk result (λ offers. offers ≡ is_batch (from_sender self.now) runs.now) }
    {
        let mut taken = self.no_counts()?;
        let mut has_some = false;
        for run in runs {
            if !self.offers_past(&mut taken, *run) {
                return Ok(false);
            }
            has_some = has_some || run.count > 0;
        }
        Ok(has_some)
    }

    /// A count of 0 for each sender that has a queue.
    fn no_counts(&self) -> Result<Vec<usize>, Memory>
        ensures counts { IfOk result (λ taken. length taken.items ≡ length self.now.queues) }
        ensures zero { IfOk result (λ taken. (a : ℕ) → count_at taken.items a ≡ 0) }
    {
        let mut taken = Vec::with_capacity(self.alloc, self.queues.len())?;
        for _ in 0..self.queues.len() {
            taken.push(0)?;
        }
        Ok(taken)
    }

    /// Whether the run is offered behind the first so many of each sender. Where it is, it counts as
    /// taken too.
    fn offers_past(&self, taken: &mut Vec<usize>, run: SenderRun) -> bool
        requires counts { length taken.old.items ≡ length self.now.queues }
        requires bound { HasCounts self.now taken.old.items }
        ensures offered { result ≡ is_offered_run (left_past self.now taken.old.items) run }
        ensures counts { length taken.new.items ≡ length self.now.queues }
        ensures bound { HasCounts self.now taken.new.items }
        ensures past { result ≡ true → (a : ℕ) → left_past self.now taken.new.items a ≡ without_run (left_past self.now taken.old.items) run a }
    {
        let sender = run.sender as usize;
        if sender >= self.queues.len() {
            return run.count == 0;
        }
        let queue = &self.queues[sender];
        let from = taken[sender];
        if ((queue.len() - from) as u64) < run.count {
            return false;
        }
        let to = from + run.count as usize;
        taken[sender] = to;
        !is_at_end_between(queue, from, to)
    }

    /// Puts the envelope behind what its sender has sent. After want of memory nothing is said of what
    /// waits.
    pub(crate) fn push(&mut self, envelope: Envelope) -> Result<(), Memory>
        requires { IsArriving self.old }
        ensures pushed { OnOk result (HasPushed self.old (plain_envelope envelope) self.new) }
        ensures arriving { OnOk result (IsArriving self.new) }
    {
        let sender = envelope.sender;
        self.make_queue(sender)?;
        if self.put(sender, envelope)? {
            let senders = mem::replace(&mut self.senders, Seq::new(self.alloc));
            self.senders = with_place(senders, sender)?;
        }
        Ok(())
    }

    /// Sees that the sender has a queue.
    fn make_queue(&mut self, sender: u32) -> Result<(), Memory>
        ensures made { OnOk result (sender < length self.new.queues) }
        ensures same { OnOk result ((a : ℕ) → from_sender self.new a ≡ from_sender self.old a) }
        ensures senders { OnOk result (self.new.senders ≡ self.old.senders) }
    {
        let alloc = self.alloc;
        while self.queues.len() <= sender as usize {
            self.queues.push(VecDeque::new(alloc))?;
        }
        Ok(())
    }

    /// Puts the envelope at the end of the sender's queue. Answers whether it stands alone there.
    fn put(&mut self, sender: u32, envelope: Envelope) -> Result<bool, Memory>
        requires { sender < length self.old.queues }
        ensures put { OnOk result (HasQueue self.old sender (from_sender self.old sender ++ plain_envelope envelope ∷ []) self.new) }
        ensures alone { IfOk result (λ alone. alone ≡ not (is_filled (from_sender self.old sender))) }
    {
        let queue = &mut self.queues[sender as usize];
        let is_alone = queue.is_empty();
        queue.push_back(envelope)?;
        Ok(is_alone)
    }

    /// Takes the first that waits of the sender.
    pub(crate) fn pop(&mut self, sender: u32) -> Envelope
        requires arriving { IsArriving self.old }
        requires some { from_sender self.old sender ≢ [] }
        ensures popped { HasPopped self.old sender (plain_envelope result) self.new }
        ensures arriving { IsArriving self.new }
        ensures own { (plain_envelope result).sender ≡ sender }
        ensures fewer { length_of self.new.queues + 1 ≡ length_of self.old.queues }
    {
        let (envelope, is_last) = self.take_first(sender);
        if is_last {
            let senders = mem::replace(&mut self.senders, Seq::new(self.alloc));
            self.senders = without_place(senders, sender);
        }
        envelope
    }

    /// Takes the first of the sender's queue. Answers whether it was the last one, too.
    fn take_first(&mut self, sender: u32) -> (Envelope, bool)
        requires { from_sender self.old sender ≢ [] }
        ensures first { from_sender self.old sender ≡ plain_envelope result.0 ∷ from_sender self.new sender }
        ensures rest { HasQueue self.old sender (from_sender self.new sender) self.new }
        ensures last { result.1 ≡ not (is_filled (from_sender self.new sender)) }
    {
        let queue = &mut self.queues[sender as usize];
        let Some(envelope) = queue.pop_front() else {
            unreachable!()
        };
        (envelope, queue.is_empty())
    }
}

/// Whether an envelope of the queue has the last stamp.
fn is_at_end(queue: &VecDeque<Envelope>) -> bool
    ensures { result ≡ list_any (λ (e : Envelope). e.stamp == latest_stamp) queue.now.items }
{
    queue.iter().any(|envelope| envelope.stamp == LATEST_STAMP)
}

/// Whether one of those from one position up to another has the last stamp.
fn is_at_end_between(queue: &VecDeque<Envelope>, from: usize, to: usize) -> bool
    requires order { from ≤ to }
    requires bound { to ≤ length queue.now.items }
    ensures { result ≡ list_any (λ (e : Envelope). e.stamp == latest_stamp) (take (to - from) (drop from queue.now.items)) }
{
    for i in from..to {
        if queue[i].stamp == LATEST_STAMP {
            return true;
        }
    }
    false
}
