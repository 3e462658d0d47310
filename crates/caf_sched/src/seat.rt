//! A seat that knows how many announcements it made, and takes whole turns.
ghost use Rattle.std.specs.Prelude.{◌≡◌, ◌+◌, ◌++◌, ◌<◌, ◌≤◌, [], ◌∷◌, if◌then◌else◌};
ghost use Rattle.caf_types.specs.TypeTable.{seen};
ghost use Rattle.caf_turns.specs.Limits.{most_announcements};
ghost use Rattle.caf_turns.specs.Steps.{announced};
ghost use Rattle.caf_sched.specs.Work.{IsServed, AreServed};
ghost use Rattle.caf_sched.specs.Tickets.{places_in, tickets_for, noted, IsTurn};
ghost use Rattle.caf_sched.specs.Seat.{IsReady, IsSameSeat};

use crate::shared::Shared;
use crate::work::Work;
use caf_turns::{MOST_ANNOUNCEMENTS, TurnSeat, Turns};
use caf_types::{Memory, Places, TypeTable};
use std::alloc::Global;
use std::marker::Model;
use std::sync::Wait;

/// A seat that leaves out the announcements past its bound. Contracts see the seat.
#[derive(Drop)]
pub struct WorkerSeat<W> {
    seat: TurnSeat<W>,
    made: u64,
}

impl<W> Model for WorkerSeat<W> {
    ghost use Rattle.std.specs.Prelude.{◌≡◌};
    ghost use Rattle.caf_turns.specs.Seat.{TurnSeatSeen};
    ghost use Rattle.caf_turns.specs.Steps.{announced};

    ghost Value = { TurnSeatSeen W };

    ghost view = { λ s. s.seat };

    ghost invariant = { λ s. announced s.seat.steps ≡ s.made };
}

/// What came of a turn.
#[derive(Drop)]
pub struct Turned {
    /// Whether the body is to have a ticket again: another worker has it, or more became due to it.
    pub again: bool,
    /// The places that were sent to. After want of memory none is known.
    pub sent: Places,
}

impl<W: Work> WorkerSeat<W> {
    /// A seat that has made no access yet.
    pub fn new(seat: TurnSeat<W>) -> WorkerSeat<W>
        requires { seat.steps ≡ [] }
        ensures { result ≡ seat }
    {
        WorkerSeat { seat, made: 0 }
    }

    /// The seat, which no longer counts.
    pub fn into_seat(self) -> TurnSeat<W>
        ensures { result ≡ self }
    {
        let WorkerSeat { seat, made: _ } = self;
        seat
    }

    /// Announces a body; true where nothing was due to it, so that it is to have a ticket.
    ///
    /// A place that is no body's, and what would be past the bound of a seat, is left out.
    pub fn announce(&mut self, turns: &Turns<W>, place: u32) -> bool
        requires { IsReady turns.now self.old }
        ensures same { IsSameSeat self.old self.new }
        ensures tickets { tickets_for self.new.steps ≡ tickets_for self.old.steps ++ (if result then place ∷ [] else []) }
        ensures count { announced self.old.steps ≤ announced self.new.steps }
        ensures noted { announced self.new.steps < most_announcements → noted self.new.steps ≡ noted self.old.steps ++ places_in turns.now.slots (place ∷ []) }
    {
        if u64::from(place) >= turns.count() || self.made >= MOST_ANNOUNCEMENTS {
            return false;
        }
        let first = turns.announce(&mut self.seat, place);
        self.made += 1;
        first
    }

    /// Claims a body, looks what is due to it, has it take its turn, settles what was due, and gives it back.
    pub fn turn<R: Wait>(
        &mut self,
        rt: &R,
        alloc: Global,
        table: &TypeTable,
        shared: &Shared<W>,
        place: u32,
    ) -> Turned
        requires ready { IsReady shared.now.turns self.old }
        requires place { place < shared.now.turns.slots }
        requires entries { AreServed W.has_mark W.has_entries (seen table.now) self.old.opening }
        ensures same { IsSameSeat self.old self.new }
        ensures steps { IsTurn place self.old.steps self.new.steps result.again }
        ensures tickets { tickets_for self.new.steps ≡ tickets_for self.old.steps ++ (if result.again then place ∷ [] else []) }
    {
        let Some(mut body) = shared.turns.claim(&mut self.seat, place) else {
            return Turned {
                again: true,
                sent: Places::new(alloc),
            };
        };
        let due = shared.turns.look(&mut self.seat, place);
        let sent = take_turn(rt, alloc, table, shared, &mut body, due);
        let again = shared.turns.settle(&mut self.seat, place, due);
        shared.turns.give(&mut self.seat, place, body);
        Turned { again, sent }
    }
}

// A turn of a body that a worker has, with what it spends of the budget.
fn take_turn<W: Work, R: Wait>(
    rt: &R,
    alloc: Global,
    table: &TypeTable,
    shared: &Shared<W>,
    body: &mut W,
    due: u64,
) -> Places
    requires { IsServed W.has_mark W.has_entries (seen table.now) body.old }
    ensures { (m : W.Mark) → W.has_mark body.old m → W.has_mark body.new m }
{
    let before = body.spent();
    let sent = body.turn(rt, alloc, table, due);
    shared.spend(body.spent().saturating_sub(before));
    match sent {
        Ok(places) => places,
        Err(Memory) => Places::new(alloc),
    }
}
