//! Counters as bodies: on one thread, and under four threads at once.
ghost use Rattle.std.specs.Prelude.{◌≡◌, ◌+◌, ◌<◌, ◌≤◌, All, [], length, IfOk};
ghost use Rattle.caf_turns.specs.Limits.{all_parts, most_splits};
ghost use Rattle.caf_turns.specs.Steps.{announced};

use crate::{Marked, TurnSeat, Turns};
use caf_types::Memory;
use std::alloc::Global;
use std::test::Fail;
use std::thread;

// How many counters there are.
const COUNTERS: u32 = 8;

// How many threads change them.
const THREADS: u32 = 4;

// How often each thread changes a counter.
const CHANGES: u32 = 25_000;

// How often each thread tries at most.
const TRIES: u32 = 20_000_000;

#[derive(Drop)]
struct Counter {
    place: u32,
    changes: u64,
    due: u64,
}

// A counter keeps its place.
impl Marked for Counter {
    type Mark = u32;

    ghost has_mark = { λ c m. c.place ≡ m };
}

fn counters(alloc: Global, count: u32) -> Result<Vec<Counter>, Memory>
    ensures { IfOk result (λ r. length r.items ≡ count) }
{
    let mut all = Vec::new(alloc);
    for place in 0..count {
        all.push(Counter {
            place,
            changes: 0,
            due: 0,
        })?;
    }
    Ok(all)
}

// Adds to a counter, and takes what is due to it, unless another seat has it; whether it did.
fn change(turns: &Turns<Counter>, seat: &mut TurnSeat<Counter>, place: u32, by: u64) -> bool
    requires { (seat.old.table ≡ turns.now) × (seat.old.out ≡ []) × (place < turns.now.slots) }
    ensures seat { seat.new ≡ record seat.old { steps = seat.new.steps } }
    ensures count { announced seat.new.steps ≡ announced seat.old.steps }
{
    let Some(mut body) = turns.claim(seat, place) else {
        return false;
    };
    let due = turns.look(seat, place);
    turns.settle(seat, place, due);
    body.changes = body.changes.saturating_add(by);
    body.due = body.due.saturating_add(due);
    turns.give(seat, place, body);
    true
}

// Goes round the counters until it has changed one often enough, and announces once for each change.
fn work(turns: &Turns<Counter>, mut seat: TurnSeat<Counter>) -> TurnSeat<Counter>
    requires { (seat.table ≡ turns.now) × (seat.out ≡ []) × (seat.parts ≡ 1) × (seat.steps ≡ []) × (turns.now.slots ≡ COUNTERS) }
    ensures { (result.table ≡ turns.now) × (result.out ≡ []) × (result.parts ≡ 1) }
{
    let mut made = 0u32;
    for n in 0..TRIES {
        if made == CHANGES {
            break;
        }
        if change(turns, &mut seat, n % COUNTERS, 1) {
            made = made.saturating_add(1);
            turns.announce(&mut seat, made % COUNTERS);
        }
    }
    seat
}

// A seat for each thread.
fn seats(
    alloc: Global,
    turns: &Turns<Counter>,
    seat: &mut TurnSeat<Counter>,
) -> Result<Vec<TurnSeat<Counter>>, Memory>
    requires { (seat.old.table ≡ turns.now) × (seat.old.splits ≡ most_splits) × (seat.old.parts ≡ all_parts) }
    ensures seat { (seat.new.table ≡ turns.now) × (seat.new.out ≡ seat.old.out) }
    ensures seats { IfOk result (λ r. (seat.new.parts + length r.items ≡ all_parts) × All (λ s. (s.table ≡ turns.now) × (s.out ≡ []) × (s.parts ≡ 1) × (s.steps ≡ [])) r.items) }
{
    let mut all = Vec::new(alloc);
    for n in 0..THREADS {
        let theirs = turns.split(seat);
        if all.push(theirs).is_err() {
            return Err(Memory);
        }
    }
    Ok(all)
}

fn join_all(turns: &Turns<Counter>, seat: &mut TurnSeat<Counter>, mut back: Vec<TurnSeat<Counter>>)
    requires { (seat.old.table ≡ turns.now) × (seat.old.out ≡ []) × All (λ s. (s.table ≡ turns.now) × (s.out ≡ []) × (s.parts ≡ 1)) back.items }
    ensures { (seat.new.table ≡ turns.now) × (seat.new.out ≡ []) × (seat.new.parts ≡ seat.old.parts + length back.items) }
{
    while let Some(theirs) = back.pop() {
        turns.join(seat, theirs);
    }
}

// What is due after the last change of each thread is taken at the end.
fn take_rest(turns: &Turns<Counter>, seat: &mut TurnSeat<Counter>)
    requires { (seat.old.table ≡ turns.now) × (seat.old.out ≡ []) × (turns.now.slots ≡ COUNTERS) }
    ensures { seat.new ≡ record seat.old { steps = seat.new.steps } }
{
    for place in 0..COUNTERS {
        change(turns, seat, place, 0);
    }
}

// All changes, and all that was due; none where a counter doesn't stand at its place.
fn totals(counters: &[Counter]) -> Option<(u64, u64)> {
    let (mut changes, mut due, mut place) = (0u64, 0u64, 0u32);
    for counter in counters {
        if counter.place != place {
            return None;
        }
        place = place.saturating_add(1);
        changes = changes.saturating_add(counter.changes);
        due = due.saturating_add(counter.due);
    }
    Some((changes, due))
}

#[test]
fn four_threads_lose_no_change(rt: HostRuntime) -> Result<(), Fail> {
    let alloc: Global = rt.alloc();
    let Ok(bodies) = counters(alloc, COUNTERS) else {
        panic!(rt; "no memory")
    };
    let Ok((turns, mut seat)) = Turns::make(alloc, bodies) else {
        panic!(rt; "no memory")
    };
    let Ok(jobs) = seats(alloc, &turns, &mut seat) else {
        panic!(rt; "no memory")
    };
    let all = &turns;
    let back = thread::map_vec(
        &rt,
        jobs,
        &|job: TurnSeat<Counter>| -> TurnSeat<Counter>
            requires { (job.table ≡ all.now) × (job.out ≡ []) × (job.parts ≡ 1) × (job.steps ≡ []) × (all.now.slots ≡ COUNTERS) }
            ensures { (result.table ≡ all.entry.now) × (result.out ≡ []) × (result.parts ≡ 1) }
        { work(all, job) },
    )?;
    join_all(&turns, &mut seat, back);
    take_rest(&turns, &mut seat);
    let counters = turns.close(seat);
    let (changes, due) = totals(counters.as_slice()).expect(&rt, "each counter is at its place");
    assert!(rt; counters.len() == 8);
    assert!(rt; changes == 100_000);
    assert!(rt; due == 100_000);
    Ok(())
}

// What the calls of one play answer.
#[derive(Drop)]
struct Played {
    first: bool,
    second: bool,
    due: u64,
    more: bool,
    counters: Vec<Counter>,
}

fn play(alloc: Global) -> Option<Played> {
    let (turns, mut seat) = Turns::make(alloc, counters(alloc, 2).ok()?).ok()?;
    let first = turns.announce(&mut seat, 0);
    let second = turns.announce(&mut seat, 0);
    let body = turns.claim(&mut seat, 0)?;
    let mut other = turns.split(&mut seat);
    let None = turns.claim(&mut other, 0) else {
        return None;
    };
    let due = turns.look(&mut seat, 0);
    let more = turns.settle(&mut seat, 0, due);
    turns.give(&mut seat, 0, body);
    turns.join(&mut seat, other);
    let counters = turns.close(seat);
    Some(Played {
        first,
        second,
        due,
        more,
        counters,
    })
}

#[test]
fn a_body_is_with_one_seat_at_a_time(rt: HostRuntime) {
    let alloc: Global = rt.alloc();
    let played = play(alloc).expect(&rt, "memory, and a claim of each seat as told");
    assert!(rt; played.first);
    assert!(rt; !played.second);
    assert!(rt; played.due == 2);
    assert!(rt; !played.more);
    assert!(rt; played.counters.len() == 2);
    assert!(rt; totals(played.counters.as_slice()) == Some((0, 0)));
}
