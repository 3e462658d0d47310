//! A play: the driver makes the moves, as the chooser says.
ghost use Rattle.std.specs.Prelude.{◌<◌, ◌≤◌, length};
ghost use Rattle.caf_types.specs.Limits.{places};
ghost use Rattle.caf_driver.specs.Opening.{AreFresh};
ghost use Rattle.caf_scripted.specs.Scripted.{scripted_rules};

use crate::opening::opening_actors;
use crate::phase::Phase;
use crate::recording::{cut_of, trace_of};
use crate::reporting::{finals_of, lines_of, notes_of};
use crate::{Always, Choice, LastPlace, Move, Outcome, PlayFault, Played, Role, SendersInTurn};
use caf_actor::Actor;
use caf_driver::{Chooser, Driver, RoundRobin, SenderRun};
use caf_scripted::Scripted;
use caf_types::{Memory, Notice, OUTSIDE, Seq, TypeTable, Words};
use std::alloc::Global;
use std::marker::Model;

/// The actors of these roles make the moves, one after the other. A move that may not be made is refused,
/// and the play goes on.
pub fn play(
    alloc: Global,
    roles: &[Role],
    choice: Choice,
    moves: &[Move],
) -> Result<Played, PlayFault> {
    let actors = opening_actors(alloc, roles)?;
    let mut run = ScriptedRun::new(alloc, actors)?;
    let outcomes = run.choose(choice, moves)?;
    run.played(stamps_of(alloc, roles)?, outcomes)
}

/// The stamps with which they begin.
fn stamps_of(alloc: Global, roles: &[Role]) -> Result<Words, Memory> {
    let mut stamps = Words::new(alloc);
    for role in roles {
        stamps.push(role.stamp)?;
    }
    Ok(stamps)
}

/// A driver of scripted actors, the table of the built-in types, and how far the run is.
#[derive(Drop)]
struct ScriptedRun {
    alloc: Global,
    table: TypeTable,
    driver: Driver<Scripted>,
    phase: Phase,
}

impl Model for ScriptedRun {
    ghost use Rattle.std.specs.Prelude.{◌≡◌};
    ghost use Rattle.caf_types.specs.Table.{built_in};
    ghost use Rattle.caf_types.specs.TypeTable.{seen};
    ghost use Rattle.caf_driver.specs.Driving.{DriverSeen, state_of};
    ghost use Rattle.caf_scripted.specs.declared.scripted.Scripted.{Scripted};
    ghost use Rattle.caf_staged.specs.Run.{IsSoFar};

    ghost Value = { DriverSeen Scripted };

    ghost view = { λ run. run.driver };

    ghost invariant = { λ run. (seen run.table ≡ built_in) × IsSoFar run.phase (state_of run.driver) };
}

impl ScriptedRun {
    /// A run of these actors, in which nothing was played yet.
    fn new(alloc: Global, actors: Seq<Actor<Scripted>>) -> Result<ScriptedRun, Memory>
        requires some { 0 < length actors }
        requires few { length actors ≤ places }
        requires fresh { AreFresh scripted_rules actors }
    {
        let table = TypeTable::new(alloc)?;
        let driver = Driver::new(alloc, actors)?;
        Ok(ScriptedRun {
            alloc,
            table,
            driver,
            phase: Phase::Fresh,
        })
    }

    /// Makes the moves, as the chooser of that choice says.
    fn choose(&mut self, choice: Choice, moves: &[Move]) -> Result<Seq<Outcome>, Memory> {
        match choice {
            Choice::RoundRobin => self.make_all(moves, &mut RoundRobin::new()),
            Choice::LastPlace => self.make_all(moves, &mut LastPlace::new()),
            Choice::SendersInTurn => self.make_all(moves, &mut SendersInTurn::new()),
            Choice::Always(place, sender) => self.make_all(moves, &mut Always { place, sender }),
        }
    }

    /// Makes the moves.
    fn make_all<C: Chooser>(
        &mut self,
        moves: &[Move],
        chooser: &mut C,
    ) -> Result<Seq<Outcome>, Memory> {
        let mut outcomes = Seq::new(self.alloc);
        for next in moves {
            outcomes.push(self.make(*next, chooser)?)?;
        }
        Ok(outcomes)
    }

    fn make<C: Chooser>(&mut self, next: Move, chooser: &mut C) -> Result<Outcome, Memory> {
        match next {
            Move::Start => self.start(),
            Move::Drive(budget) => self.drive(chooser, budget),
            Move::Step(place, runs) => self.step(place, runs),
            Move::Tick => self.tick(),
            Move::Stop => self.stop(),
        }
    }

    fn start(&mut self) -> Result<Outcome, Memory> {
        if !self.phase.is_fresh() {
            return Ok(Outcome::Refused);
        }
        self.phase = Phase::Broken;
        self.driver.play(Notice::Start)?;
        self.phase = Phase::Going;
        Ok(Outcome::Played)
    }

    fn tick(&mut self) -> Result<Outcome, Memory> {
        if !self.phase.is_resting() {
            return Ok(Outcome::Refused);
        }
        self.phase = Phase::Broken;
        self.driver.play(Notice::Tick(OUTSIDE))?;
        self.phase = Phase::Going;
        Ok(Outcome::Played)
    }

    fn stop(&mut self) -> Result<Outcome, Memory> {
        if !self.phase.is_resting() {
            return Ok(Outcome::Refused);
        }
        self.phase = Phase::Broken;
        self.driver.play(Notice::Stop)?;
        self.phase = Phase::Stopped;
        Ok(Outcome::Played)
    }

    fn drive<C: Chooser>(&mut self, chooser: &mut C, budget: u64) -> Result<Outcome, Memory> {
        let before = self.phase;
        if !before.is_going() {
            return Ok(Outcome::Refused);
        }
        self.phase = Phase::Broken;
        let end = self.driver.drive(&self.table, chooser, budget)?;
        self.phase = before.after(end);
        Ok(Outcome::Ended(end))
    }

    fn step(&mut self, place: u32, runs: &[SenderRun]) -> Result<Outcome, Memory> {
        let before = self.phase;
        if !before.is_whole() {
            return Ok(Outcome::Refused);
        }
        let list = Seq::of_vec(Vec::from_slice(self.alloc, runs)?);
        self.phase = Phase::Broken;
        let stamp = self.driver.step(&self.table, place, &list)?;
        self.phase = match stamp {
            Some(_) => before.stepped(),
            None => before,
        };
        Ok(Outcome::Stepped(stamp))
    }

    /// What came of it, with these stamps at first and these outcomes.
    fn played(self, starts: Words, outcomes: Seq<Outcome>) -> Result<Played, PlayFault> {
        let ScriptedRun { alloc, driver, .. } = self;
        let actors = driver.finish();
        Ok(Played {
            outcomes,
            lines: lines_of(alloc, actors.as_slice())?,
            notes: notes_of(alloc, actors.as_slice())?,
            finals: finals_of(alloc, actors.as_slice())?,
            cut: cut_of(actors.as_slice()),
            trace: trace_of(alloc, starts, actors.as_slice())?,
        })
    }
}
