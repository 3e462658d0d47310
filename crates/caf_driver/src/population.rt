//! All actors of a run, and what waits for them.
ghost use Rattle.std.specs.Prelude.{◌≡◌, ◌≢◌, ℕ, ◌<◌, ◌≤◌, [], true, false, length, map, slice_get, Some, IfOk, OnOk, IfSome, IsNone};
ghost use Rattle.std.specs.List.{AllByRecursion};
ghost use Rattle.caf_types.specs.Limits.{places, latest_stamp};
ghost use Rattle.caf_types.specs.TypeTable.{seen};
ghost use Rattle.caf_message.specs.declared.envelope.Taken.{Taken};
ghost use Rattle.caf_message.specs.Entries.{HasEntries, entry_shape};
ghost use Rattle.caf_message.specs.Envelope.{plain_envelope, EnvelopeFits};
ghost use Rattle.caf_actor.specs.Actor.{ActorState, IsActor, CachesFit};
ghost use Rattle.caf_actor.specs.Drain.{stamp_due};
ghost use Rattle.caf_actor.specs.PlainForms.{plain_post};
ghost use Rattle.caf_driver.specs.Places.{has_place};
ghost use Rattle.caf_driver.specs.Mail.{waiting_in, HasPosted};
ghost use Rattle.caf_driver.specs.Population.{IsSound, greatest_of, IsPopulation, HasMade, HasTaken};
ghost use Rattle.caf_driver.specs.Driver.{IsSpent, IsFirstSpent};
ghost use Rattle.caf_driver.specs.Driving.{HasTurned};
ghost use Rattle.caf_driver.specs.Opening.{AreFresh};
ghost use Rattle.caf_driver.specs.Stepping.{MayStep, HasTakenRuns};

use crate::collecting::{choose_place, collect, gather};
use crate::delivery::deliver;
use crate::mail::Mail;
use crate::{Chooser, SenderRun};
use caf_actor::{Actor, Behavior, Post};
use caf_message::{Batch, Envelope};
use caf_types::{LATEST_STAMP, Memory, Seq, TypeTable};
use std::alloc::Global;
use std::marker::Model;

/// The actors by place, what waits for them, the greatest of their stamps, and how many envelopes left
/// their lists.
#[derive(Drop)]
pub(crate) struct Population<B: Behavior> {
    pub(crate) actors: Vec<Actor<B>>,
    pub(crate) mail: Mail,
    pub(crate) latest: u64,
    pub(crate) handled: u64,
}

impl<B: Behavior> Model for Population<B> {
    ghost use Rattle.caf_driver.specs.Population.{PopulationSeen};

    ghost Value = { PopulationSeen B };

    ghost view = { λ p. record { actors = p.actors.items; mail = p.mail; latest = p.latest; handled = p.handled } };
}

impl<B: Behavior> Population<B> {
    /// Actors that took nothing yet, and nothing that waits.
    pub(crate) fn new(alloc: Global, actors: Vec<Actor<B>>) -> Result<Population<B>, Memory>
        requires some { 0 < length actors.items }
        requires few { length actors.items ≤ places }
        requires fresh { AreFresh B.rules actors.items }
        ensures actors { IfOk result (λ population. population.actors ≡ actors.items) }
        ensures population { IfOk result (IsPopulation B.is_valid B.rules B.entries) }
        ensures empty { IfOk result (λ population. (a b : ℕ) → waiting_in population.mail a b ≡ []) }
        ensures untaken { IfOk result (λ population. (p : ℕ) (a : ActorState B) → slice_get population.actors p ≡ Some a → (a.journal ≡ []) × (a.handled ≡ 0)) }
    {
        let mail = Mail::new(alloc, actors.len())?;
        let latest = greatest_stamp(&actors);
        Ok(Population {
            actors,
            mail,
            latest,
            handled: 0,
        })
    }

    /// The greatest stamp of the actors.
    pub(crate) fn latest(&self) -> u64
        ensures { result ≡ self.now.latest }
    {
        self.latest
    }

    /// The envelope waits for place 0. After want of memory nothing is said of the population.
    pub(crate) fn notify(&mut self, envelope: Envelope) -> Result<(), Memory>
        requires population { IsPopulation B.is_valid B.rules B.entries self.old }
        requires sound { IsSound (entry_shape B.entries) (length self.old.actors) self.old.latest (plain_envelope envelope) }
        ensures population { OnOk result (IsPopulation B.is_valid B.rules B.entries self.new) }
        ensures same { OnOk result (self.new ≡ record self.old { mail = self.new.mail }) }
        ensures posted { OnOk result (HasPosted self.old.mail 0 (plain_envelope envelope) self.new.mail) }
    {
        self.mail.push(0, envelope)?;
        Ok(())
    }

    /// Whether nothing waits for any place.
    pub(crate) fn is_at_rest(&self) -> bool
        requires population { IsPopulation B.is_valid B.rules B.entries self.now }
        ensures rest { result ≡ true → (a b : ℕ) → waiting_in self.now.mail a b ≡ [] }
        ensures waits { result ≡ false → self.now.mail.offered ≢ [] }
    {
        self.mail.places().is_empty()
    }

    /// How many envelopes left the actors' lists. The number stops at 2^64 - 1.
    pub(crate) fn handled(&self) -> u64
        ensures { result ≡ self.now.handled }
    {
        self.handled
    }

    /// A place for which something waits takes a batch, as the chooser says. Nothing is spent. After
    /// want of memory nothing is said of the population.
    pub(crate) fn turn<C: Chooser>(
        &mut self,
        alloc: Global,
        table: &TypeTable,
        chooser: &mut C,
    ) -> Result<(), Memory>
        requires population { IsPopulation B.is_valid B.rules B.entries self.old }
        requires waits { self.old.mail.offered ≢ [] }
        requires fresh { (place : ℕ) → IsSpent self.old.actors (waiting_in self.old.mail) place → ⊥ }
        requires entries { HasEntries (seen table.now) B.entries }
        ensures population { OnOk result (IsPopulation B.is_valid B.rules B.entries self.new) }
        ensures turned { OnOk result (HasTurned B.rules self.old self.new) }
    {
        let place = choose_place(&self.mail, chooser);
        let batch = collect(alloc, &mut self.mail, place, chooser)?;
        self.take(alloc, table, place, batch)?;
        Ok(())
    }

    /// The place takes the batch that the runs name, and the batch's stamp comes back; None, with nothing
    /// changed, where it may not. After want of memory nothing is said of the population.
    pub(crate) fn step(
        &mut self,
        alloc: Global,
        table: &TypeTable,
        place: u32,
        runs: &[SenderRun],
    ) -> Result<Option<u64>, Memory>
        requires population { IsPopulation B.is_valid B.rules B.entries self.old }
        requires entries { HasEntries (seen table.now) B.entries }
        ensures population { OnOk result (IsPopulation B.is_valid B.rules B.entries self.new) }
        ensures taken { IfOk result (λ answer. IfSome answer (λ stamp. HasTakenRuns B.rules place runs.now stamp self.old self.new)) }
        ensures refused { IfOk result (λ answer. IsNone answer → MayStep self.old.actors (waiting_in self.old.mail) place runs.now → ⊥) }
        ensures unchanged { IfOk result (λ answer. IsNone answer → self.new ≡ self.old) }
    {
        if !self.may_step(place, runs)? {
            return Ok(None);
        }
        let batch = gather(alloc, &mut self.mail, place, runs)?;
        let stamp = self.take(alloc, table, place, batch)?;
        Ok(Some(stamp))
    }

    /// Whether the place may take what the runs name.
    fn may_step(&self, place: u32, runs: &[SenderRun]) -> Result<bool, Memory>
        requires population { IsPopulation B.is_valid B.rules B.entries self.now }
        ensures may { IfOk result (λ may. may ≡ true → MayStep self.now.actors (waiting_in self.now.mail) place runs.now) }
        ensures may_not { IfOk result (λ may. may ≡ false → MayStep self.now.actors (waiting_in self.now.mail) place runs.now → ⊥) }
    {
        if place as usize >= self.actors.len() {
            return Ok(false);
        }
        if self.actors[place as usize].stamp() >= LATEST_STAMP {
            return Ok(false);
        }
        self.mail.offers(place, runs)
    }

    /// The actor of the place takes the batch, which waited for it, and what it posts waits where it
    /// goes. The batch's stamp comes back. After want of memory nothing is said of the population.
    pub(crate) fn take(
        &mut self,
        alloc: Global,
        table: &TypeTable,
        place: u32,
        batch: Batch,
    ) -> Result<u64, Memory>
        requires population { IsPopulation B.is_valid B.rules B.entries self.old }
        requires place { place < length self.old.actors }
        requires filled { batch ≢ [] }
        requires entries { HasEntries (seen table.now) B.entries }
        requires sound { AllByRecursion (IsSound (entry_shape B.entries) (length self.old.actors) self.old.latest) (map plain_envelope batch) }
        requires stamps { AllByRecursion (λ (e : Taken). e.stamp < latest_stamp) (map plain_envelope batch) }
        requires stamp { (a : ActorState B) → slice_get self.old.actors place ≡ Some a → a.snapshot.stamp < latest_stamp }
        ensures population { OnOk result (IsPopulation B.is_valid B.rules B.entries self.new) }
        ensures taken { OnOk result (HasTaken B.rules place (map plain_envelope batch) self.old self.new) }
        ensures stamp { IfOk result (λ stamp. (a : ActorState B) → slice_get self.old.actors place ≡ Some a → stamp ≡ stamp_due a.snapshot.stamp (map plain_envelope batch)) }
    {
        let actor = &mut self.actors[place as usize];
        let Given { posts, stamp, left } = give(alloc, table, actor, batch)?;
        deliver(&mut self.mail, posts)?;
        self.latest = self.latest.max(stamp);
        self.handled = self.handled.saturating_add(left);
        Ok(stamp)
    }

    /// The least place for which something waits while its own stamp, or that of something that waits
    /// for it, is the last one.
    pub(crate) fn first_spent(&self) -> Option<u32>
        requires population { IsPopulation B.is_valid B.rules B.entries self.now }
        ensures some { IfSome result (λ place. IsFirstSpent self.now.actors (waiting_in self.now.mail) place) }
        ensures none { IsNone result → (place : ℕ) → IsSpent self.now.actors (waiting_in self.now.mail) place → ⊥ }
    {
        if self.latest < LATEST_STAMP {
            return None;
        }
        for place in self.mail.places().as_slice() {
            if self.is_spent(*place) {
                return Some(*place);
            }
        }
        None
    }

    /// Whether the stamp of a place for which something waits, or that of something that waits for it,
    /// is the last one.
    fn is_spent(&self, place: u32) -> bool
        requires population { IsPopulation B.is_valid B.rules B.entries self.now }
        requires offered { has_place self.now.mail.offered place ≡ true }
        ensures yes { result ≡ true → IsSpent self.now.actors (waiting_in self.now.mail) place }
        ensures no { result ≡ false → IsSpent self.now.actors (waiting_in self.now.mail) place → ⊥ }
    {
        self.actors[place as usize].stamp() == LATEST_STAMP || self.mail.has_last_stamp(place)
    }
}

/// What an actor made of a batch: its posts, its stamp, and how many envelopes left its lists.
pub(crate) struct Given {
    posts: Seq<Post>,
    stamp: u64,
    left: u64,
}

/// The actor takes the batch.
fn give<B: Behavior>(
    alloc: Global,
    table: &TypeTable,
    actor: &mut Actor<B>,
    batch: Batch,
) -> Result<Given, Memory>
    requires filled { batch ≢ [] }
    requires stamp { actor.old.snapshot.stamp < latest_stamp }
    requires stamps { AllByRecursion (λ (e : Taken). e.stamp < latest_stamp) (map plain_envelope batch) }
    requires entries { HasEntries (seen table.now) B.entries }
    requires fits { AllByRecursion (EnvelopeFits (entry_shape B.entries)) (map plain_envelope batch) }
    requires caches { CachesFit (entry_shape B.entries) actor.old.snapshot.caches }
    ensures { IfOk result (λ given. HasMade B.is_valid B.rules B.entries (map plain_envelope batch) actor.old actor.new (map plain_post given.posts) given.stamp given.left) }
{
    let before = actor.handled();
    let posts = actor.batch(alloc, table, batch)?;
    let left = actor.handled() - before;
    let stamp = actor.stamp();
    Ok(Given { posts, stamp, left })
}

/// The greatest stamp of the actors.
fn greatest_stamp<B: Behavior>(actors: &[Actor<B>]) -> u64
    ensures stamp { result ≡ greatest_of actors.now }
    ensures work { (p : ℕ) (a : ActorState B) → slice_get actors.now p ≡ Some a → IsActor B.is_valid B.rules a }
{
    let mut greatest = 0;
    for actor in actors {
        // Asking for the place tells what holds of every actor.
        let _ = actor.place();
        greatest = actor.stamp().max(greatest);
    }
    greatest
}
