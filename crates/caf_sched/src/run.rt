//! The run of a crew: seats and hands for the workers, their threads, and what comes back.
ghost use Rattle.std.specs.Prelude.{◌≡◌, ◌+◌, ◌^◌, ◌<◌, ◌≤◌, [], length, map, All, Ok, IfOk};
ghost use Rattle.std.specs.List.{AllZip};
ghost use Rattle.caf_types.specs.TypeTable.{seen};
ghost use Rattle.caf_turns.specs.Limits.{all_parts, most_splits};
ghost use Rattle.caf_sched.specs.Crew.{BeginsWith, ComeBack, Used};
ghost use Rattle.caf_sched.specs.Hand.{HasDrawn};
ghost use Rattle.caf_sched.specs.Seat.{IsReady, Stays, new_seat};
ghost use Rattle.caf_sched.specs.Tickets.{places_in};
ghost use Rattle.caf_sched.specs.Work.{IsServed, AreServed};
ghost use Rattle.caf_sched.specs.Worker.{IsHired, IsPart, Worked, hands_of, parts_of};

use crate::first::first_hands;
use crate::hand::Hand;
use crate::seat::WorkerSeat;
use crate::shared::Shared;
use crate::work::{Gate, Work};
use crate::worker::{Worker, work};
use caf_turns::{TurnSeat, Turns};
use caf_types::{Memory, Places, Seq, TypeTable};
use std::alloc::Global;
use std::sync::Wait;
use std::thread;
use std::thread::Threads;

/// What comes back of a crew.
#[derive(Drop)]
pub struct Crewed<W> {
    /// The bodies, in the order in which they were given.
    pub bodies: Vec<W>,
    /// A hand for each worker, in order of the workers' numbers.
    pub hands: Seq<Hand>,
}

/// Gives turns to the bodies, until the budget is spent or no worker finds a ticket. All bodies come back, in order.
///
/// Each place of `first` is announced once, and worker 0 begins with its ticket. A worker draws a ticket, passes the
/// gate, claims the body, looks what is due to it, has it take its turn, settles, gives it back, and announces the
/// places that were sent to. It puts a ticket where a settle or an announcement answered true, and puts that one back
/// whose body another worker has. Announcements past the bound of its seat, and of places that are no body's, are left
/// out. Before each draw but its first it looks whether `budget` envelopes were handled, and then leaves; it also
/// leaves after 64 empty draws in a row, between which it yields. A worker for which no thread can be made is done by
/// the caller. `Memory` comes also where a deque finds none; the bodies are then gone.
pub fn run_crew<W: Work + Send, G: Gate, R: Threads + Wait + Sync>(
    rt: &R,
    alloc: Global,
    table: &TypeTable,
    bodies: Vec<W>,
    first: &Places,
    gate: &G,
    workers: u32,
    budget: u64,
) -> Result<Crewed<W>, Memory>
    requires bodies { (0 < length bodies.items) × (length bodies.items < 2 ^ 32) }
    requires workers { (0 < workers) × (workers ≤ 64) }
    requires entries { All (IsServed W.has_mark W.has_entries (seen table.now)) bodies.items }
    ensures bodies { IfOk result (λ c. ComeBack W.has_mark bodies.items c.bodies.items) }
    ensures hands { IfOk result (λ c. length c.hands ≡ workers) }
    ensures first { IfOk result (λ c. BeginsWith (places_in (length bodies.items) first.now) c.hands) }
    ensures drawn { IfOk result (λ c. All HasDrawn c.hands) }
{
    let Ok((turns, seat)) = Turns::make(alloc, bodies) else {
        return Err(Memory);
    };
    let mut seat = WorkerSeat::new(seat);
    let hands = first_hands(rt, alloc, &turns, &mut seat, first.as_slice(), workers)?;
    let mut seat = seat.into_seat();
    let shared = Shared::new(turns, budget);
    let hands = use_hands(rt, alloc, table, &shared, gate, &mut seat, hands)?;
    Ok(Crewed {
        bodies: shared.into_turns().close(seat),
        hands: Seq::of_vec(hands),
    })
}

// Has a worker work with each of these hands, and joins what comes back.
fn use_hands<W: Work + Send, G: Gate, R: Threads + Wait + Sync>(
    rt: &R,
    alloc: Global,
    table: &TypeTable,
    shared: &Shared<W>,
    gate: &G,
    seat: &mut TurnSeat<W>,
    hands: Vec<Hand>,
) -> Result<Vec<Hand>, Memory>
    requires ready { IsReady shared.now.turns seat.old }
    requires parts { (seat.old.parts ≡ all_parts) × (seat.old.splits ≡ most_splits) }
    requires hands { length hands.items ≤ 64 }
    requires entries { AreServed W.has_mark W.has_entries (seen table.now) seat.old.opening }
    ensures stays { Stays seat.old seat.new }
    ensures parts { IfOk result (λ back. seat.new.parts ≡ all_parts) }
    ensures hands { IfOk result (λ back. Used hands.items back.items) }
{
    let workers = hire_all(alloc, &shared.turns, seat, hands)?;
    let back = work_all(rt, alloc, table, shared, gate, workers)?;
    let done = gather_all(alloc, back)?;
    let hands = join_all(alloc, &shared.turns, seat, done)?;
    Ok(hands)
}

// A worker for each hand, with a seat of its own.
fn hire_all<W: Work>(
    alloc: Global,
    turns: &Turns<W>,
    seat: &mut TurnSeat<W>,
    hands: Vec<Hand>,
) -> Result<Vec<Worker<W>>, Memory>
    requires ready { IsReady turns.now seat.old }
    requires parts { (seat.old.parts ≡ all_parts) × (seat.old.splits ≡ most_splits) }
    requires hands { length hands.items ≤ 64 }
    ensures stays { Stays seat.old seat.new }
    ensures parts { IfOk result (λ workers. length workers.items + seat.new.parts ≡ all_parts) }
    ensures seats { IfOk result (λ workers. All (λ w. w.seat ≡ new_seat turns.now seat.old.opening) workers.items) }
    ensures hands { IfOk result (λ workers. hands.items ≡ hands_of workers.items) }
{
    let mut workers = Vec::new(alloc);
    let mut number = 0u32;
    for hand in hands {
        let theirs = WorkerSeat::new(turns.split(seat));
        if workers
            .push(Worker {
                number,
                seat: theirs,
                hand,
            })
            .is_err()
        {
            return Err(Memory);
        }
        number = number.saturating_add(1);
    }
    Ok(workers)
}

// The work of all, each in a thread of its own where one can be made.
fn work_all<W: Work + Send, G: Gate, R: Threads + Wait + Sync>(
    rt: &R,
    alloc: Global,
    table: &TypeTable,
    shared: &Shared<W>,
    gate: &G,
    workers: Vec<Worker<W>>,
) -> Result<Vec<Result<Worker<W>, Memory>>, Memory>
    requires { All (λ w. IsHired W.has_mark W.has_entries (seen table.now) shared.now.turns w) workers.items }
    ensures { IfOk result (λ back. AllZip (λ w r. IfOk r (Worked w)) workers.items back.items) }
{
    let back = thread::map_vec(
        rt,
        workers,
        &|worker: Worker<W>| -> Result<Worker<W>, Memory>
            requires { IsHired W.has_mark W.has_entries (seen table.now) shared.now.turns worker }
            ensures { IfOk result (Worked worker) }
        { work(rt, alloc, table, shared, gate, worker) },
    )?;
    Ok(back)
}

// The workers that came back, unless one found no memory.
fn gather_all<W: Work>(
    alloc: Global,
    back: Vec<Result<Worker<W>, Memory>>,
) -> Result<Vec<Worker<W>>, Memory>
    ensures { IfOk result (λ workers. map Ok workers.items ≡ back.items) }
{
    let mut workers = Vec::new(alloc);
    for worker in back {
        if workers.push(worker?).is_err() {
            return Err(Memory);
        }
    }
    Ok(workers)
}

// Joins the seats of the workers, and answers their hands.
fn join_all<W: Work>(
    alloc: Global,
    turns: &Turns<W>,
    seat: &mut TurnSeat<W>,
    workers: Vec<Worker<W>>,
) -> Result<Vec<Hand>, Memory>
    requires ready { IsReady turns.now seat.old }
    requires seats { All (λ w. IsPart turns.now w.seat) workers.items }
    ensures stays { Stays seat.old seat.new }
    ensures parts { IfOk result (λ hands. seat.new.parts ≡ seat.old.parts + parts_of workers.items) }
    ensures hands { IfOk result (λ hands. hands.items ≡ hands_of workers.items) }
{
    let mut hands = Vec::new(alloc);
    for worker in workers {
        let Worker {
            number: _,
            seat: theirs,
            hand,
        } = worker;
        turns.join(seat, theirs.into_seat());
        if hands.push(hand).is_err() {
            return Err(Memory);
        }
    }
    Ok(hands)
}
