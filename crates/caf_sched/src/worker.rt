//! A worker: it draws tickets and gives turns.
ghost use Rattle.std.specs.Prelude.{◌≡◌, ◌++◌, ◌<◌, [], ◌∷◌, if◌then◌else◌, OnOk, IfOk};
ghost use Rattle.caf_types.specs.TypeTable.{seen};
ghost use Rattle.caf_turns.specs.Limits.{most_announcements};
ghost use Rattle.caf_turns.specs.Steps.{announced};
ghost use Rattle.caf_sched.specs.Hand.{HasDrawn};
ghost use Rattle.caf_sched.specs.Seat.{IsReady, IsSameSeat};
ghost use Rattle.caf_sched.specs.Tickets.{places_in, noted};
ghost use Rattle.caf_sched.specs.Work.{AreServed};
ghost use Rattle.caf_sched.specs.Worker.{IsHired, KeepsTickets, SameDraws, Worked};

use crate::hand::{Draw, Hand};
use crate::seat::WorkerSeat;
use crate::shared::Shared;
use crate::work::{Gate, Work};
use caf_turns::Turns;
use caf_types::{Memory, TypeTable};
use std::alloc::Global;
use std::sync::Wait;
use std::thread;

// The empty draws in a row after which a worker leaves.
const PATIENCE: u32 = 64;

/// Its number, its seat at the bodies, and its hand on the deques.
#[derive(Drop)]
pub struct Worker<W> {
    pub number: u32,
    pub seat: WorkerSeat<W>,
    pub hand: Hand,
}

// Puts a ticket where one is due.
fn put_where(hand: &mut Hand, place: u32, is_due: bool) -> Result<(), Memory>
    ensures put { OnOk result (hand.new.puts ≡ hand.old.puts ++ (if is_due then place ∷ [] else [])) }
    ensures draws { SameDraws hand.old hand.new }
{
    if is_due { hand.put(place) } else { Ok(()) }
}

impl<W: Work> Worker<W> {
    // Announces each of these places, and puts its ticket where nothing was due to it.
    fn announce_all(&mut self, turns: &Turns<W>, places: &[u32]) -> Result<(), Memory>
        requires { IsReady turns.now self.old.seat }
        ensures same { IsSameSeat self.old.seat self.new.seat }
        ensures tickets { OnOk result (KeepsTickets self.old self.new) }
        ensures noted { OnOk result (announced self.new.seat.steps < most_announcements → noted self.new.seat.steps ≡ noted self.old.seat.steps ++ places_in turns.now.slots places.now) }
        ensures draws { SameDraws self.old.hand self.new.hand }
    {
        for place in places {
            let is_first = self.seat.announce(turns, *place);
            put_where(&mut self.hand, *place, is_first)?;
        }
        Ok(())
    }

    // One turn of the body at this place, unless another worker has it.
    fn turn<R: Wait>(
        &mut self,
        rt: &R,
        alloc: Global,
        table: &TypeTable,
        shared: &Shared<W>,
        place: u32,
    ) -> Result<(), Memory>
        requires ready { IsReady shared.now.turns self.old.seat }
        requires place { place < shared.now.turns.slots }
        requires entries { AreServed W.has_mark W.has_entries (seen table.now) self.old.seat.opening }
        ensures same { IsSameSeat self.old.seat self.new.seat }
        ensures tickets { OnOk result (KeepsTickets self.old self.new) }
        ensures draws { SameDraws self.old.hand self.new.hand }
    {
        let turned = self.seat.turn(rt, alloc, table, shared, place);
        put_where(&mut self.hand, place, turned.again)?;
        self.announce_all(&shared.turns, turned.sent.as_slice())
    }

    // What follows a draw. The answer is the number of empty draws in a row.
    fn follow<R: Wait, G: Gate>(
        &mut self,
        rt: &R,
        alloc: Global,
        table: &TypeTable,
        shared: &Shared<W>,
        gate: &G,
        found: Draw,
        idle: u32,
    ) -> Result<u32, Memory>
        requires ready { IsReady shared.now.turns self.old.seat }
        requires entries { AreServed W.has_mark W.has_entries (seen table.now) self.old.seat.opening }
        ensures same { IsSameSeat self.old.seat self.new.seat }
        ensures tickets { IfOk result (λ _. KeepsTickets self.old self.new) }
        ensures draws { SameDraws self.old.hand self.new.hand }
    {
        let Draw::Ticket(place) = found else {
            return Ok(idle.saturating_add(1));
        };
        if u64::from(place) < shared.turns.count() {
            gate.enter(self.number, place);
            self.turn(rt, alloc, table, shared, place)?;
        }
        Ok(0)
    }

    // Draws until the budget is spent or nothing was found for long.
    fn run<R: Wait, G: Gate>(
        &mut self,
        rt: &R,
        alloc: Global,
        table: &TypeTable,
        shared: &Shared<W>,
        gate: &G,
    ) -> Result<(), Memory>
        requires ready { IsReady shared.now.turns self.old.seat }
        requires entries { AreServed W.has_mark W.has_entries (seen table.now) self.old.seat.opening }
        ensures same { IsSameSeat self.old.seat self.new.seat }
        ensures tickets { OnOk result (KeepsTickets self.old self.new) }
        ensures drawn { HasDrawn self.new.hand }
    {
        let mut idle = 0u32;
        let mut found = self.hand.draw(rt);
        for _ in rt.forever() {
            idle = self.follow(rt, alloc, table, shared, gate, found, idle)?;
            if idle >= PATIENCE || shared.is_spent() {
                return Ok(());
            }
            if idle > 0 {
                thread::yield_now();
            }
            found = self.hand.draw(rt);
        }
        unreachable!()
    }
}

/// The whole work of a worker, which comes back unless its deque found no memory.
pub fn work<W: Work, R: Wait, G: Gate>(
    rt: &R,
    alloc: Global,
    table: &TypeTable,
    shared: &Shared<W>,
    gate: &G,
    worker: Worker<W>,
) -> Result<Worker<W>, Memory>
    requires { IsHired W.has_mark W.has_entries (seen table.now) shared.now.turns worker }
    ensures { IfOk result (Worked worker) }
{
    let mut worker = worker;
    worker.run(rt, alloc, table, shared, gate)?;
    Ok(worker)
}
