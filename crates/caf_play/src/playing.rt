ghost use Rattle.std.specs.Prelude.{◌≡◌, ◌∷◌, ℕ, ◌+◌, ◌<◌, ◌≤◌, length, slice_get, false, Ok, Some, IfOk, OnOk, IfSome, IsNone};
ghost use Rattle.caf_types.specs.TypeTable.{seen};
ghost use Rattle.caf_message.specs.Entries.{HasEntries};
ghost use Rattle.caf_actor.specs.declared.snapshot.Snapshot.{Snapshot};
ghost use Rattle.caf_actor.specs.Record.{ends, heard, IsComplete};
ghost use Rattle.caf_record.specs.RunRecord.{record_of, HasStarts};
ghost use Rattle.caf_driver.specs.Driver.{IsDriven};
ghost use Rattle.caf_driver.specs.Driving.{state_of};
ghost use Rattle.caf_driver.specs.Opening.{StartsAt};
ghost use Rattle.caf_driver.specs.declared.drive.DriveEnd.TheVariants.{Rest};
ghost use Rattle.caf_kinds.specs.Core.{core_entries};
ghost use Rattle.caf_kinds.specs.Kinds.{kind_rules};
ghost use Rattle.caf_kinds.specs.declared.kind.Kind.{Kind};
ghost use Rattle.caf_opening.specs.Opening.{CanOpen, opening_of, AreKnown};
ghost use Rattle.caf_play.specs.Ending as ending;
ghost use Rattle.caf_play.specs.Ending.{machine, IsLegalWithin, IsOverBudget, IsExhausted, IsResting, StandsSomewhere, HasDriven, HasEnded};
ghost use Rattle.caf_play.specs.declared.played.PlayEnd.TheVariants.{Done, Budget, Exhausted};

use crate::parting::parted;
use crate::{PlayEnd, Played};
use caf_driver::{Chooser, DriveEnd, Driver, SenderRun};
use caf_kinds::{Kind, Setup, Step};
use caf_opening::opening_actors;
use caf_types::{Memory, Notice, OUTSIDE, Octets, Seq, TypeTable};
use std::alloc::Global;

/// Plays the script on one thread, as the chooser says: Start, then at each rest a tick while the script has one
/// left, then Stop at a rest. The files are those of the first source.
///
/// The budget isn't looked at after Stop. A record shows no tick that wasn't taken, so each tick is taken before the
/// budget is looked at.
pub fn play<C: Chooser>(
    alloc: Global,
    table: &TypeTable,
    setups: &Seq<Setup>,
    script: &Seq<Step>,
    files: Seq<Octets>,
    chooser: &mut C,
    budget: u64,
) -> Result<Played, Memory>
    requires entries { HasEntries (seen table.now) core_entries }
    requires opening { CanOpen setups.now script.now files }
    ensures legal { (start : ℕ → Snapshot Kind) → StartsAt start (opening_of setups.now script.now files) → IfOk result (λ played. IsLegalWithin (ending.ticks_of script.now) (record_of start played.kept)) }
    ensures complete { (start : ℕ → Snapshot Kind) → StartsAt start (opening_of setups.now script.now files) → IfOk result (λ played. played.end ≡ Done → IsComplete machine (ending.ticks_of script.now) (record_of start played.kept)) }
    ensures ticks { (start : ℕ → Snapshot Kind) → StartsAt start (opening_of setups.now script.now files) → IfOk result (λ played. played.end ≡ Done → length (heard ((record_of start played.kept).journal 0)) ≡ ending.ticks_of script.now + 1) }
    ensures budget { (start : ℕ → Snapshot Kind) → StartsAt start (opening_of setups.now script.now files) → IfOk result (λ played. played.end ≡ Budget → IsOverBudget (ending.ticks_of script.now) budget (record_of start played.kept)) }
    ensures exhausted { (start : ℕ → Snapshot Kind) → StartsAt start (opening_of setups.now script.now files) → IfOk result (λ played. (place : ℕ) → played.end ≡ Exhausted place → IsExhausted (ending.ticks_of script.now) budget (record_of start played.kept) place) }
    ensures kinds { (start : ℕ → Snapshot Kind) → StartsAt start (opening_of setups.now script.now files) → IfOk result (λ played. (place : ℕ) (kind : Kind) → slice_get played.kinds place ≡ Some kind → (ends machine (record_of start played.kept) place).behavior ≡ kind) }
    ensures count { IfOk result (λ played. (length played.kinds ≡ length setups.now + 1) × (length played.kept.journals ≡ length setups.now + 1)) }
    ensures starts { (start : ℕ → Snapshot Kind) → StartsAt start (opening_of setups.now script.now files) → IfOk result (λ played. HasStarts machine start played.kept) }
    ensures known { OnOk result (AreKnown (opening_of setups.now script.now files)) }
{
    let actors = opening_actors(alloc, setups, script, files)?;
    let mut driver = Driver::new(alloc, actors)?;
    let ticks = ticks_of(script.as_slice());
    let end = run(alloc, table, &mut driver, ticks, chooser, budget)?;
    parted(alloc, setups.len(), driver.finish(), end)
}

/// How many ticks the script has, also behind steps that may never be played.
fn ticks_of(script: &[Step]) -> u64
    ensures { result ≡ ending.ticks_of script.now }
{
    let mut ticks = 0;
    for step in script {
        if is_tick(step) {
            ticks += 1;
        }
    }
    ticks
}

#[tactic(auto, unfolding(crate::specs::Ending::is_tick))]
fn is_tick(step: &Step) -> bool
    ensures { result ≡ ending.is_tick step.now }
{
    matches!(step, Step::Tick)
}

/// The whole run of a driver in which nothing was played yet.
fn run<C: Chooser>(
    alloc: Global,
    table: &TypeTable,
    driver: &mut Driver<Kind>,
    ticks: u64,
    chooser: &mut C,
    budget: u64,
) -> Result<PlayEnd, Memory>
    requires entries { HasEntries (seen table.now) core_entries }
    requires fresh { driver.old.spoken ≡ 0 }
    requires stands { StandsSomewhere (state_of driver.old) }
    ensures { (start : ℕ → Snapshot Kind) → IsDriven kind_rules start (state_of driver.old) → IfOk result (HasEnded ticks budget start (state_of driver.new)) }
{
    let begun = start(table, driver, chooser, budget)?;
    if let Some(end) = early_end(begun) {
        return Ok(end);
    }
    for ticked in 0..ticks {
        let gone = tick(alloc, table, driver, chooser, budget)?;
        if let Some(end) = early_end(gone) {
            return Ok(end);
        }
    }
    stop(table, driver, chooser)
}

/// The end of a play whose drive ended so before Stop; None where it goes on.
fn early_end(end: DriveEnd) -> Option<PlayEnd>
    ensures some { IfSome result (ending.IsEarlyEnd end) }
    ensures none { IsNone result → end ≡ Rest }
{
    match end {
        DriveEnd::Rest => None,
        DriveEnd::Budget => Some(PlayEnd::Budget),
        DriveEnd::Exhausted(place) => Some(PlayEnd::Exhausted(place)),
    }
}

/// Plays Start, and drives.
fn start<C: Chooser>(
    table: &TypeTable,
    driver: &mut Driver<Kind>,
    chooser: &mut C,
    budget: u64,
) -> Result<DriveEnd, Memory>
    requires entries { HasEntries (seen table.now) core_entries }
    requires fresh { driver.old.spoken ≡ 0 }
    requires stands { StandsSomewhere (state_of driver.old) }
    ensures driven { (start : ℕ → Snapshot Kind) → IsDriven kind_rules start (state_of driver.old) → IfOk result (HasDriven budget 1 start (state_of driver.new)) }
    ensures resting { result ≡ Ok Rest → IsResting 1 (state_of driver.new) }
{
    driver.play(Notice::Start)?;
    driver.drive(table, chooser, budget)
}

/// Plays a tick, lets place 0 take it, and drives. A tick that can't be taken has the last stamp, and then the
/// budget isn't looked at.
fn tick<C: Chooser>(
    alloc: Global,
    table: &TypeTable,
    driver: &mut Driver<Kind>,
    chooser: &mut C,
    budget: u64,
) -> Result<DriveEnd, Memory>
    requires entries { HasEntries (seen table.now) core_entries }
    requires resting { IsResting driver.old.spoken (state_of driver.old) }
    requires stands { StandsSomewhere (state_of driver.old) }
    ensures driven { (start : ℕ → Snapshot Kind) → IsDriven kind_rules start (state_of driver.old) → IfOk result (HasDriven budget (driver.old.spoken + 1) start (state_of driver.new)) }
    ensures resting { result ≡ Ok Rest → IsResting (driver.old.spoken + 1) (state_of driver.new) }
{
    driver.play(Notice::Tick(OUTSIDE))?;
    let mut first = Seq::new(alloc);
    first.push(SenderRun {
        sender: OUTSIDE,
        count: 1,
    })?;
    match driver.step(table, 0, &first)? {
        Some(_) => driver.drive(table, chooser, budget),
        None => driver.drive(table, chooser, u64::MAX),
    }
}

/// Plays Stop, and drives without a budget: the journals of no machine hold 2^64 - 1 envelopes.
fn stop<C: Chooser>(
    table: &TypeTable,
    driver: &mut Driver<Kind>,
    chooser: &mut C,
) -> Result<PlayEnd, Memory>
    requires entries { HasEntries (seen table.now) core_entries }
    requires resting { IsResting driver.old.spoken (state_of driver.old) }
    requires stands { StandsSomewhere (state_of driver.old) }
    ensures { (all budget : ℕ) → driver.old.spoken ≡ all + 1 → (start : ℕ → Snapshot Kind) → IsDriven kind_rules start (state_of driver.old) → IfOk result (HasEnded all budget start (state_of driver.new)) }
{
    driver.play(Notice::Stop)?;
    match driver.drive(table, chooser, u64::MAX)? {
        DriveEnd::Rest => Ok(PlayEnd::Done),
        DriveEnd::Exhausted(place) => Ok(PlayEnd::Exhausted(place)),
        DriveEnd::Budget => Err(Memory),
    }
}
