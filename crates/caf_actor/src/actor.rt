ghost use Rattle.std.specs.Prelude.{◌≡◌, ◌≢◌, ℕ, Option, [], ◌∷◌, ◌++◌, ◌<◌, ◌≤◌, ◌^◌, map, OnOk, OnErr, IfOk, Bool, IsTrue, true, false};
ghost use Rattle.std.specs.List.{AllByRecursion};
ghost use Rattle.caf_types.specs.ShapeTree.{ShapeTree};
ghost use Rattle.caf_types.specs.Table.{shape_at};
ghost use Rattle.caf_types.specs.TypeTable.{seen};
ghost use Rattle.caf_message.specs.Entries.{HasEntries};
ghost use Rattle.caf_message.specs.Envelope.{plain_envelope, EnvelopeFits};
ghost use Rattle.caf_message.specs.declared.envelope.Taken.{Taken};
ghost use Rattle.caf_actor.specs.PlainForms.{plain_post};
ghost use Rattle.caf_message.specs.Entries.{entry_shape};
ghost use Rattle.caf_actor.specs.Actor.{untried, IsAtWork, IsActor, add_handled, CachesFit, DelaysFit};
ghost use Rattle.caf_actor.specs.Leads.{StaysWithin, LeadsWithin, GoesWithin, IsPostInForm, PostFits};
ghost use Rattle.caf_actor.specs.Snapshot.{fresh, opening, vacant};
ghost use Rattle.caf_actor.specs.Drain.{batch_of, stamp_due, left_in_batch};

use crate::journal::with_copies;
use crate::post::Posts;
use crate::{Behavior, Journal, Post, Snapshot, TakenBatch};
use caf_message::Batch;
use caf_types::{LATEST_STAMP, Memory, PLACES, Reason, Seq, TypeTable};
use std::alloc::Global;
use std::marker::Model;

/// An actor: a behaviour, all that it keeps between two batches, and its journal.
#[derive(Drop)]
pub struct Actor<B: Behavior> {
    snapshot: Snapshot<B>,
    journal: Journal,
    handled: u64,
    is_broken: bool,
}

impl<B: Behavior> Model for Actor<B> {
    ghost use Rattle.caf_actor.specs.Actor.{ActorState, IsActor};

    ghost Value = { ActorState B };

    ghost view = { λ actor. record { snapshot = actor.snapshot; journal = actor.journal; handled = actor.handled; is_broken = actor.is_broken } };

    ghost invariant = { λ actor. IsActor B.is_valid B.rules (record { snapshot = actor.snapshot; journal = actor.journal; handled = actor.handled; is_broken = actor.is_broken }) };
}

impl<B: Behavior> Actor<B> {
    /// An actor at that place that has taken nothing yet.
    pub fn new(alloc: Global, place: u32, behavior: B, stamp: u64) -> Result<Actor<B>, Memory>
        requires place { place < PLACES }
        requires own { place ≡ B.rules.place behavior }
        requires stamp { stamp ≤ LATEST_STAMP }
        ensures { IfOk result (λ actor. actor ≡ untried (opening B.rules place behavior stamp)) }
    {
        Actor::start(alloc, true, place, behavior, stamp)
    }

    /// An actor at that place that nobody has started yet: a child of another one. Until it begins it
    /// keeps all but system notices.
    pub fn vacant(alloc: Global, place: u32, behavior: B, stamp: u64) -> Result<Actor<B>, Memory>
        requires place { place < PLACES }
        requires own { place ≡ B.rules.place behavior }
        requires stamp { stamp ≤ LATEST_STAMP }
        ensures { IfOk result (λ actor. actor ≡ untried (vacant B.rules place behavior stamp)) }
    {
        Actor::start(alloc, false, place, behavior, stamp)
    }

    fn start(
        alloc: Global,
        has_begun: bool,
        place: u32,
        behavior: B,
        stamp: u64,
    ) -> Result<Actor<B>, Memory>
        requires place { place < PLACES }
        requires own { place ≡ B.rules.place behavior }
        requires stamp { stamp ≤ LATEST_STAMP }
        ensures { IfOk result (λ actor. actor ≡ untried (fresh B.rules has_begun place behavior stamp)) }
    {
        let snapshot = Snapshot::new(alloc, has_begun, place, behavior, stamp)?;
        Ok(Actor {
            snapshot,
            journal: Seq::new(alloc),
            handled: 0,
            is_broken: false,
        })
    }

    /// Takes a batch: it gets its stamp, goes into the lists and into the journal, and the next
    /// envelope is handled, again and again, until none is eligible. What the actor sends comes back
    /// in the order of sending.
    ///
    /// After want of memory the actor is broken: its journal stays, and every later batch answers the
    /// same and changes nothing.
    pub fn batch(
        &mut self,
        alloc: Global,
        table: &TypeTable,
        batch: Batch,
    ) -> Result<Seq<Post>, Memory>
        requires filled { batch ≢ [] }
        requires stamp { self.old.snapshot.stamp < LATEST_STAMP }
        requires stamps { AllByRecursion (λ (e : Taken). e.stamp < LATEST_STAMP) (map plain_envelope batch) }
        requires entries { HasEntries (seen table.now) B.entries }
        requires fits { AllByRecursion (EnvelopeFits (shape_at (seen table.now))) (map plain_envelope batch) }
        requires lists_fit { self.old.is_broken ≡ false → CachesFit (shape_at (seen table.now)) self.old.snapshot.caches }
        ensures posts { IfOk result (λ posts. map plain_post posts ≡ (batch_of B.rules self.old.snapshot (map plain_envelope batch)).posts) }
        ensures snapshot { OnOk result (self.new.snapshot ≡ (batch_of B.rules self.old.snapshot (map plain_envelope batch)).snapshot) }
        ensures journal { OnOk result (self.new.journal ≡ self.old.journal ++ record { stamp = stamp_due self.old.snapshot.stamp (map plain_envelope batch); taken = map plain_envelope batch } ∷ []) }
        ensures handled { OnOk result (self.new.handled ≡ add_handled self.old.handled (left_in_batch B.rules self.old.snapshot (map plain_envelope batch))) }
        ensures fit { (shape_of : ℕ → Option ShapeTree) → CachesFit shape_of self.old.snapshot.caches → AllByRecursion (EnvelopeFits shape_of) (map plain_envelope batch)
            → OnOk result (CachesFit shape_of self.new.snapshot.caches) }
        ensures delays_fit { CachesFit (entry_shape B.entries) self.old.snapshot.caches → DelaysFit (entry_shape B.entries) self.old.snapshot.delays → AllByRecursion (EnvelopeFits (entry_shape B.entries)) (map plain_envelope batch)
            → OnOk result (DelaysFit (entry_shape B.entries) self.new.snapshot.delays) }
        ensures posts_fit { CachesFit (entry_shape B.entries) self.old.snapshot.caches → DelaysFit (entry_shape B.entries) self.old.snapshot.delays → AllByRecursion (EnvelopeFits (entry_shape B.entries)) (map plain_envelope batch)
            → IfOk result (λ posts. AllByRecursion (PostFits (entry_shape B.entries)) (map plain_post posts)) }
        ensures form { IfOk result (λ posts. AllByRecursion IsPostInForm (map plain_post posts)) }
        ensures within { (known : ℕ → Bool) → StaysWithin (λ p. IsTrue (known p)) B.rules self.old.snapshot → AllByRecursion (LeadsWithin (λ p. IsTrue (known p))) (map plain_envelope batch)
            → OnOk result (StaysWithin (λ p. IsTrue (known p)) B.rules self.new.snapshot) }
        ensures receivers { (known : ℕ → Bool) → StaysWithin (λ p. IsTrue (known p)) B.rules self.old.snapshot → AllByRecursion (LeadsWithin (λ p. IsTrue (known p))) (map plain_envelope batch)
            → IfOk result (λ posts. AllByRecursion (GoesWithin (λ p. IsTrue (known p))) (map plain_post posts)) }
        ensures work { OnOk result (IsAtWork B.is_valid B.rules self.new) }
        ensures whole { OnOk result ((self.old.is_broken ≡ false) × (self.new.is_broken ≡ false)) }
        ensures broken { OnErr result (self.new.is_broken ≡ true) }
        ensures kept { OnErr result (self.new.journal ≡ self.old.journal) }
        ensures unchanged { self.old.is_broken ≡ true → self.new ≡ self.old }
    {
        if self.is_broken {
            return Err(Memory);
        }
        self.is_broken = true;
        let (batch, taken) = with_copies(alloc, batch)?;
        self.snapshot.file(batch)?;
        let stamp = self.snapshot.stamp;
        let filed = self.snapshot.caches.len();
        let mut posts = Posts::new(alloc);
        self.snapshot.drain(alloc, table, &mut posts)?;
        let left = filed - self.snapshot.caches.len();
        self.journal.push(TakenBatch { stamp, taken })?;
        self.handled = self.handled.saturating_add(left);
        self.is_broken = false;
        Ok(posts.into_seq())
    }

    /// The place that it was made with.
    pub fn place(&self) -> u32
        ensures place { result ≡ self.now.snapshot.place }
        ensures work { IsActor B.is_valid B.rules self.now }
    {
        self.snapshot.place
    }

    /// The stamp of its last batch, or the one that it was made with.
    pub fn stamp(&self) -> u64
        ensures { result ≡ self.now.snapshot.stamp }
    {
        self.snapshot.stamp
    }

    /// How many envelopes left its lists. The number stops at 2^64 - 1.
    pub fn handled(&self) -> u64
        ensures { result ≡ self.now.handled }
    {
        self.handled
    }

    /// Why it quit; None exactly where it hasn't.
    pub fn quit(&self) -> Option<Reason>
        ensures { result ≡ self.now.snapshot.quit }
    {
        self.snapshot.quit
    }

    /// The behaviour's present value. It stays after the actor quit.
    pub fn behavior(&self) -> &B
        ensures { result.now ≡ self.now.snapshot.behavior }
    {
        &self.snapshot.behavior
    }

    /// All batches that it took, in their order.
    pub fn journal(&self) -> &Journal
        ensures journal { result.now ≡ self.now.journal }
        ensures work { IsActor B.is_valid B.rules self.now }
    {
        &self.journal
    }

    /// The behaviour's last value and the journal, out of an actor whose run is over. No memory is taken.
    pub fn into_parts(self) -> (B, Journal)
        ensures behavior { result.0 ≡ self.snapshot.behavior }
        ensures journal { result.1 ≡ self.journal }
    {
        let Actor {
            snapshot,
            journal,
            ..
        } = self;
        let Snapshot { behavior, .. } = snapshot;
        (behavior, journal)
    }
}
