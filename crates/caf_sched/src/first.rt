//! The hands of a crew, the first of which has put the first tickets.
ghost use Rattle.std.specs.Prelude.{◌≡◌, ◌++◌, ◌<◌, ◌≤◌, [], ◌∷◌, length, IfOk, OnOk};
ghost use Rattle.caf_turns.specs.Limits.{most_announcements};
ghost use Rattle.caf_turns.specs.Steps.{announced};
ghost use Rattle.caf_sched.specs.Crew.{BeginsWith};
ghost use Rattle.caf_sched.specs.Seat.{IsReady, IsSameSeat};
ghost use Rattle.caf_sched.specs.Tickets.{places_in, noted};

use crate::crew::Crew;
use crate::hand::Hand;
use crate::seat::WorkerSeat;
use crate::work::Work;
use caf_turns::Turns;
use caf_types::Memory;
use std::alloc::Global;
use std::sync::Wait;

// Announces one of the first places, and puts its ticket. A place that is no body's is left out.
fn put_first<W: Work>(
    turns: &Turns<W>,
    seat: &mut WorkerSeat<W>,
    hand: &mut Hand,
    place: u32,
) -> Result<(), Memory>
    requires { IsReady turns.now seat.old }
    ensures seat { IsSameSeat seat.old seat.new }
    ensures puts { OnOk result (hand.new.puts ≡ hand.old.puts ++ places_in turns.now.slots (place ∷ [])) }
    ensures count { announced seat.old.steps ≤ announced seat.new.steps }
    ensures noted { announced seat.new.steps < most_announcements → noted seat.new.steps ≡ noted seat.old.steps ++ places_in turns.now.slots (place ∷ []) }
{
    if u64::from(place) >= turns.count() {
        return Ok(());
    }
    seat.announce(turns, place);
    hand.put(place)
}

// The same for each of them.
fn put_all<W: Work>(
    turns: &Turns<W>,
    seat: &mut WorkerSeat<W>,
    hand: &mut Hand,
    places: &[u32],
) -> Result<(), Memory>
    requires { IsReady turns.now seat.old }
    ensures seat { IsSameSeat seat.old seat.new }
    ensures puts { OnOk result (hand.new.puts ≡ hand.old.puts ++ places_in turns.now.slots places.now) }
    ensures noted { OnOk result (announced seat.new.steps < most_announcements → noted seat.new.steps ≡ noted seat.old.steps ++ places_in turns.now.slots places.now) }
{
    for place in places {
        put_first(turns, seat, hand, *place)?;
    }
    Ok(())
}

/// The hands, the first of which has put the first tickets.
pub fn first_hands<W: Work, R: Wait>(
    rt: &R,
    alloc: Global,
    turns: &Turns<W>,
    seat: &mut WorkerSeat<W>,
    first: &[u32],
    workers: u32,
) -> Result<Vec<Hand>, Memory>
    requires ready { IsReady turns.now seat.old }
    requires workers { (0 < workers) × (workers ≤ 64) }
    ensures seat { IsSameSeat seat.old seat.new }
    ensures hands { IfOk result (λ hands. (length hands.items ≡ workers) × BeginsWith (places_in turns.now.slots first.now) hands.items) }
{
    let mut hands = Crew::make(rt, alloc, workers)?.into_vec();
    put_all(turns, seat, &mut hands[0], first)?;
    Ok(hands)
}
