ghost use Rattle.std.specs.Prelude.{◌≡◌, ◌↔◌, ◌+◌, length, map, OnOk, OnErr, IfErr, IfNone, IsNone, is_some};
ghost use Rattle.std.specs.Option.{option_map};
ghost use Rattle.caf_message.specs.Envelope.{plain_envelope};
ghost use Rattle.caf_mailbox.specs.Caches.{nothing_cached, filed, next_of, has_eligible, first_of};
ghost use Rattle.caf_mailbox.specs.Kept.{both};
ghost use Rattle.caf_mailbox.specs.Line.{IsSorted, HasNoPlaces, KeepsBounds};
ghost use Rattle.caf_mailbox.specs.Passed.{IsPassed};

use crate::filing::add_batch;
use crate::line::{Line, empty_line, take_next};
use crate::{Awaited, Eligible, Passed};
use caf_message::{Batch, Envelope};
use caf_types::Memory;
use std::alloc::Global;
use std::marker::Model;

/// The envelopes that an actor has taken and not yet handled: the urgent and the normal list.
///
/// As in CAF (the CAF manual), messages of high priority are handled before others, and a message
/// that is skipped stays in its place until it may be handled. In each list the notices, the responses
/// and the contents stand in queues of their own, so an actor that awaits a response passes over no
/// content. The first notice or content leaves in constant time, and any response in logarithmic time.
#[derive(Debug, Drop)]
pub struct Caches {
    urgent: Line,
    normal: Line,
    /// The next number of arrival.
    next: u64,
    /// How many envelopes are in both lists.
    count: u64,
}

impl Model for Caches {
    ghost use Rattle.caf_mailbox.specs.Caches.{CachedLists};

    ghost Value = { CachedLists };

    ghost use Rattle.caf_mailbox.specs.Kept.{both, IsCached};

    ghost view = { λ caches. both caches.urgent caches.normal };

    ghost invariant = { λ caches. IsCached caches.next caches.count caches.urgent caches.normal };
}

/// Takes every envelope.
#[derive(Drop)]
struct Every;

impl Eligible for Every {
    ghost use Rattle.std.specs.Prelude.{true};

    ghost test = { λ every envelope. true };

    fn awaits(&self) -> Awaited {
        Awaited::Any
    }

    fn takes_contents(&self) -> bool {
        true
    }

    fn eligible(&self, _: &mut Envelope) -> bool {
        true
    }
}

/// Takes out the first eligible envelope of the first list, else the first one of the second.
fn take_either<E: Eligible>(
    urgent: &mut Line,
    normal: &mut Line,
    test: &E,
    passed: &mut Passed,
) -> Option<Envelope>
    requires urgent { IsSorted urgent.old }
    requires normal { IsSorted normal.old }
    requires urgent_places { HasNoPlaces urgent.old }
    requires normal_places { HasNoPlaces normal.old }
    requires passed { IsPassed (E.test test.now) (both urgent.old normal.old) passed.old }
    ensures next { option_map (λ envelope. (plain_envelope envelope, both urgent.new normal.new)) result
        ≡ next_of (E.test test.now) (both urgent.old normal.old) }
    ensures kept { IfNone result (both urgent.new normal.new ≡ both urgent.old normal.old) }
    ensures urgent { IsSorted urgent.new }
    ensures normal { IsSorted normal.new }
    ensures urgent_up_to { KeepsBounds urgent.old urgent.new }
    ensures normal_up_to { KeepsBounds normal.old normal.new }
    ensures urgent_places { HasNoPlaces urgent.new }
    ensures normal_places { HasNoPlaces normal.new }
    ensures passed { IsPassed (E.test test.now) (both urgent.new normal.new) passed.new }
{
    match take_next(urgent, test, &mut passed.urgent) {
        Some(envelope) => Some(envelope),
        None => take_next(normal, test, &mut passed.normal),
    }
}

impl Caches {
    /// Two empty lists. They take no memory until the first `add`.
    pub fn new(alloc: Global) -> Caches
        ensures { result ≡ nothing_cached }
    {
        Caches {
            urgent: empty_line(alloc),
            normal: empty_line(alloc),
            next: 0,
            count: 0,
        }
    }

    /// Puts the urgent envelopes of the batch at the end of the urgent list, and its normal ones at
    /// the end of the normal list, in the order taken. After want of memory the lists are as before,
    /// and the batch comes back as it was.
    pub fn add(&mut self, batch: Batch) -> Result<(), (Batch, Memory)>
        ensures filed { OnOk result (self.new ≡ filed self.old (map plain_envelope batch)) }
        ensures batch { IfErr result (λ refused. refused.0 ≡ batch) }
        ensures kept { OnErr result (self.new ≡ self.old) }
    {
        let more = batch.len();
        // No memory holds as many as a count can't tell.
        if more > u64::MAX - self.count {
            return Err((batch, Memory));
        }
        match add_batch(&mut self.urgent, &mut self.normal, &mut self.next, batch) {
            Ok(()) => {
                self.count += more;
                Ok(())
            }
            Err(refused) => Err(refused),
        }
    }

    /// The number of envelopes in both lists.
    pub fn len(&self) -> u64
        ensures { result ≡ length self.now.urgent + length self.now.normal }
    {
        self.count
    }

    /// Takes out the first eligible envelope of the urgent list, else the first eligible one of the
    /// normal list. The others keep their order. None exactly where none is eligible. It takes no
    /// memory.
    pub fn next<E: Eligible>(&mut self, test: &E) -> Option<Envelope>
        ensures next { option_map (λ envelope. (plain_envelope envelope, self.new)) result
            ≡ next_of (E.test test.now) self.old }
        ensures some { is_some result ≡ has_eligible (E.test test.now) self.old }
        ensures kept { IfNone result (self.new ≡ self.old) }
    {
        self.next_past(test, &mut Passed::new())
    }

    /// The same, and looks at no content that is known not to be eligible: `passed` says how many at
    /// the front of each list are, and afterwards says it for the same test.
    pub fn next_past<E: Eligible>(&mut self, test: &E, passed: &mut Passed) -> Option<Envelope>
        requires passed { IsPassed (E.test test.now) self.old passed.old }
        ensures next { option_map (λ envelope. (plain_envelope envelope, self.new)) result
            ≡ next_of (E.test test.now) self.old }
        ensures some { is_some result ≡ has_eligible (E.test test.now) self.old }
        ensures kept { IfNone result (self.new ≡ self.old) }
        ensures passed { IsPassed (E.test test.now) self.new passed.new }
    {
        let envelope = take_either(&mut self.urgent, &mut self.normal, test, passed)?;
        self.count -= 1;
        Some(envelope)
    }

    /// Takes out the first envelope of the urgent list, else the first one of the normal list. None
    /// exactly where both lists are empty. It takes no memory.
    pub fn pop_any(&mut self) -> Option<Envelope>
        ensures first { option_map (λ envelope. (plain_envelope envelope, self.new)) result ≡ first_of self.old }
        ensures none { IsNone result ↔ (self.old ≡ nothing_cached) }
        ensures kept { IfNone result (self.new ≡ self.old) }
    {
        self.next(&Every)
    }
}
