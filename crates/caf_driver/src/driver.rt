ghost use Rattle.std.specs.Prelude.{◌≡◌, ◌≢◌, ℕ, ◌<◌, ◌≤◌, ◌⊎◌, [], true, false, length, Ok, IfOk, OnOk, OnErr, IfSome, IsNone};
ghost use Rattle.caf_types.specs.Limits.{places};
ghost use Rattle.caf_types.specs.TypeTable.{seen};
ghost use Rattle.caf_message.specs.Entries.{HasEntries};
ghost use Rattle.caf_message.specs.Envelope.{plain_envelope, from_outside};
ghost use Rattle.caf_actor.specs.declared.snapshot.Snapshot.{Snapshot};
ghost use Rattle.caf_actor.specs.Record.{machine_of, IsComplete};
ghost use Rattle.caf_driver.specs.Driver.{record_in, ticks_in, IsDriven, HasLegalRecord};
ghost use Rattle.caf_driver.specs.Driving.{state_of, IsSettled, room_of, EndsNow, GoesOn};
ghost use Rattle.caf_driver.specs.Ends.{EndsSo};
ghost use Rattle.caf_driver.specs.Requests.{CarriesRequests, KeepsRequests, ClosesRequests};
ghost use Rattle.caf_driver.specs.declared.drive.DriveEnd.TheVariants.{Rest};
ghost use Rattle.caf_driver.specs.Opening.{AreFresh, StartsAt, MayPlay, HasSpoken, is_stop_notice, stamp_due};
ghost use Rattle.caf_driver.specs.Population.{IsPopulation};
ghost use Rattle.caf_driver.specs.Mail.{waiting_in};
ghost use Rattle.caf_driver.specs.Stepping.{MayStep, HasStepped};

use crate::population::Population;
use crate::{Chooser, DriveEnd, SenderRun};
use caf_actor::{Actor, Behavior};
use caf_message::{Body, Envelope};
use caf_types::{Memory, Mid, Notice, OUTSIDE, Priority, Seq, TypeTable};
use std::alloc::Global;
use std::marker::Model;

/// A run of actors on one thread.
///
/// The record of the run is what the actors' journals hold; nothing else is kept of it. After want of
/// memory the driver is broken: every later call that can answer it does, and changes nothing.
#[derive(Drop)]
pub struct Driver<B: Behavior> {
    alloc: Global,
    population: Population<B>,
    spoken: u64,
    has_stopped: bool,
    is_broken: bool,
}

impl<B: Behavior> Model for Driver<B> {
    ghost use Rattle.std.specs.Prelude.{◌≡◌, false};
    ghost use Rattle.caf_driver.specs.Driving.{DriverSeen, IsDriving};

    ghost Value = { DriverSeen B };

    ghost view = { λ d. record { actors = d.population.actors; mail = d.population.mail; spoken = d.spoken; has_stopped = d.has_stopped; is_broken = d.is_broken } };

    ghost invariant = { λ d. d.is_broken ≡ false → IsDriving B.is_valid B.rules B.entries d.population d.spoken };
}

impl<B: Behavior> Driver<B> {
    /// A run of these actors, in which nothing was played yet: 1 to 256 actors, each at its place, that
    /// took nothing and send to one another alone.
    pub fn new(alloc: Global, actors: Seq<Actor<B>>) -> Result<Driver<B>, Memory>
        requires some { 0 < length actors }
        requires few { length actors ≤ places }
        requires fresh { AreFresh B.rules actors }
        ensures actors { IfOk result (λ driver. driver.actors ≡ actors) }
        ensures opening { IfOk result (λ driver. (driver.spoken ≡ 0) × (driver.has_stopped ≡ false) × (driver.is_broken ≡ false)) }
        ensures empty { IfOk result (λ driver. (a b : ℕ) → (state_of driver).waiting a b ≡ []) }
        ensures driven { (start : ℕ → Snapshot B) → StartsAt start actors → IfOk result (λ driver. IsDriven B.rules start (state_of driver)) }
    {
        let population = Population::new(alloc, actors.into_vec())?;
        Ok(Driver {
            alloc,
            population,
            spoken: 0,
            has_stopped: false,
            is_broken: false,
        })
    }

    /// The outside sends place 0 its next notice: Start first and once, then `Tick` of the outside at
    /// rests, then Stop at a rest, once. A tick and Stop have the greatest stamp of all actors.
    pub fn play(&mut self, notice: Notice) -> Result<(), Memory>
        requires { MayPlay (state_of self.old) notice }
        ensures played { OnOk result (HasSpoken (state_of self.old) notice (stamp_due self.old.spoken self.old.actors) (state_of self.new)) }
        ensures driven { (start : ℕ → Snapshot B) → IsDriven B.rules start (state_of self.old) → OnOk result (IsDriven B.rules start (state_of self.new)) }
        ensures legal { (start : ℕ → Snapshot B) → IsDriven B.rules start (state_of self.old) → OnOk result (HasLegalRecord B.rules start (state_of self.new)) }
        ensures whole { OnOk result ((self.old.is_broken ≡ false) × (self.new.is_broken ≡ false)) }
        ensures broken { OnErr result (self.new.is_broken ≡ true) }
        ensures unchanged { self.old.is_broken ≡ true → self.new ≡ self.old }
    {
        if self.is_broken {
            return Err(Memory);
        }
        self.is_broken = true;
        let stamp = next_stamp(self.spoken, &self.population);
        let envelope = envelope_of(self.spoken, stamp, notice);
        self.population.notify(envelope)?;
        self.spoken += 1;
        self.has_stopped = is_stop(notice);
        self.is_broken = false;
        Ok(())
    }

    /// Takes batches, one place after another, as the chooser says, until an end comes. Start was
    /// played.
    pub fn drive<C: Chooser>(
        &mut self,
        table: &TypeTable,
        chooser: &mut C,
        budget: u64,
    ) -> Result<DriveEnd, Memory>
        requires started { 0 < self.old.spoken }
        requires entries { HasEntries (seen table.now) B.entries }
        ensures driven { (start : ℕ → Snapshot B) → IsDriven B.rules start (state_of self.old) → OnOk result (IsDriven B.rules start (state_of self.new)) }
        ensures legal { (start : ℕ → Snapshot B) → IsDriven B.rules start (state_of self.old) → OnOk result (HasLegalRecord B.rules start (state_of self.new)) }
        ensures ends { (start : ℕ → Snapshot B) → IsDriven B.rules start (state_of self.old) → IfOk result (EndsSo B.rules start budget (state_of self.new)) }
        ensures carried { (start : ℕ → Snapshot B) → IsDriven B.rules start (state_of self.old) → OnOk result (CarriesRequests B.is_valid B.rules start (state_of self.new)) }
        ensures standing { (start : ℕ → Snapshot B) → IsDriven B.rules start (state_of self.old) → result ≡ Ok Rest → KeepsRequests B.is_valid B.rules start (state_of self.new) }
        ensures complete { (start : ℕ → Snapshot B) → IsDriven B.rules start (state_of self.old) → result ≡ Ok Rest → self.old.has_stopped ≡ true → 1 < self.old.spoken → IsComplete (machine_of B.rules) (ticks_in (state_of self.new)) (record_in start (state_of self.new)) }
        ensures closed { (start : ℕ → Snapshot B) → IsDriven B.rules start (state_of self.old) → result ≡ Ok Rest → self.old.has_stopped ≡ true → 1 < self.old.spoken → ClosesRequests B.is_valid B.rules start (state_of self.new) }
        ensures notices { OnOk result ((self.new.spoken ≡ self.old.spoken) × (self.new.has_stopped ≡ self.old.has_stopped)) }
        ensures whole { OnOk result ((self.old.is_broken ≡ false) × (self.new.is_broken ≡ false)) }
        ensures broken { OnErr result (self.new.is_broken ≡ true) }
        ensures unchanged { self.old.is_broken ≡ true → self.new ≡ self.old }
    {
        if self.is_broken {
            return Err(Memory);
        }
        loop {
            if let Some(end) = self.end(budget) {
                return Ok(end);
            }
            self.turn(table, chooser)?;
        }
    }

    /// The end that has come, if one has.
    fn end(&self, budget: u64) -> Option<DriveEnd>
        requires whole { self.now.is_broken ≡ false }
        ensures end { IfSome result (EndsNow budget (state_of self.now)) }
        ensures none { IsNone result → GoesOn (state_of self.now) }
        ensures settled { IsSettled B.rules (state_of self.now) }
    {
        if self.population.is_at_rest() {
            return Some(DriveEnd::Rest);
        }
        if self.population.handled() >= budget {
            return Some(DriveEnd::Budget);
        }
        match self.population.first_spent() {
            Some(place) => Some(DriveEnd::Exhausted(place)),
            None => None,
        }
    }

    /// One place takes a batch, as the chooser says.
    fn turn<C: Chooser>(&mut self, table: &TypeTable, chooser: &mut C) -> Result<(), Memory>
        requires whole { self.old.is_broken ≡ false }
        requires started { 0 < self.old.spoken }
        requires goes_on { GoesOn (state_of self.old) }
        requires entries { HasEntries (seen table.now) B.entries }
        ensures driven { (start : ℕ → Snapshot B) → IsDriven B.rules start (state_of self.old) → OnOk result (IsDriven B.rules start (state_of self.new)) }
        ensures notices { OnOk result ((self.new.spoken ≡ self.old.spoken) × (self.new.has_stopped ≡ self.old.has_stopped)) }
        ensures less { OnOk result (room_of self.new.actors < room_of self.old.actors) }
        ensures whole { OnOk result (self.new.is_broken ≡ false) }
        ensures broken { OnErr result (self.new.is_broken ≡ true) }
    {
        self.is_broken = true;
        self.population.turn(self.alloc, table, chooser)?;
        self.is_broken = false;
        Ok(())
    }

    /// The place takes the batch that the runs name, one run after the other, and its stamp comes back.
    /// None, with nothing changed, exactly where there is no such place, where the runs are not next
    /// envelopes that wait for it, where they name none, and where the place or one of them has the last
    /// stamp.
    pub fn step(
        &mut self,
        table: &TypeTable,
        place: u32,
        runs: &Seq<SenderRun>,
    ) -> Result<Option<u64>, Memory>
        requires entries { HasEntries (seen table.now) B.entries }
        ensures stepped { IfOk result (λ answer. IfSome answer (λ stamp. HasStepped B.rules place runs.now stamp (state_of self.old) (state_of self.new))) }
        ensures refused { IfOk result (λ answer. IsNone answer → MayStep self.old.actors (waiting_in self.old.mail) place runs.now → ⊥) }
        ensures kept { IfOk result (λ answer. IsNone answer → self.new ≡ self.old) }
        ensures driven { (start : ℕ → Snapshot B) → IsDriven B.rules start (state_of self.old) → OnOk result (IsDriven B.rules start (state_of self.new)) }
        ensures legal { (start : ℕ → Snapshot B) → IsDriven B.rules start (state_of self.old) → OnOk result (HasLegalRecord B.rules start (state_of self.new)) }
        ensures whole { OnOk result ((self.old.is_broken ≡ false) × (self.new.is_broken ≡ false)) }
        ensures broken { OnErr result (self.new.is_broken ≡ true) }
        ensures unchanged { self.old.is_broken ≡ true → self.new ≡ self.old }
    {
        if self.is_broken {
            return Err(Memory);
        }
        self.is_broken = true;
        let stamp = self
            .population
            .step(self.alloc, table, place, runs.as_slice())?;
        self.is_broken = false;
        Ok(stamp)
    }

    /// The actors, whose journals are the run's record.
    pub fn finish(self) -> Seq<Actor<B>>
        ensures { result ≡ self.actors }
    {
        let Driver { population, .. } = self;
        let Population { actors, .. } = population;
        Seq::of_vec(actors)
    }
}

/// The stamp of the next notice.
fn next_stamp<B: Behavior>(spoken: u64, population: &Population<B>) -> u64
    requires { IsPopulation B.is_valid B.rules B.entries population.now }
    ensures { result ≡ stamp_due spoken population.now.actors }
{
    if spoken == 0 { 0 } else { population.latest() }
}

fn is_stop(notice: Notice) -> bool
    ensures { result ≡ is_stop_notice notice }
{
    matches!(notice, Notice::Stop)
}

/// A notice of the outside.
fn envelope_of(seq: u64, stamp: u64, notice: Notice) -> Envelope
    ensures { plain_envelope result ≡ from_outside seq stamp notice }
{
    Envelope {
        sender: OUTSIDE,
        seq,
        mid: Mid {
            requester: OUTSIDE,
            number: 0,
            response: false,
        },
        priority: Priority::Urgent,
        stamp,
        body: Body::System(notice),
    }
}
