//! Two hands by turns on one thread, and crews of real threads.
ghost use Rattle.std.specs.Prelude.{◌≡◌, ◌<◌, ◌≤◌, ◌^◌, length, ⊤, IfOk, IfSome};

use crate::{Crew, Crewed, Draw, Gate, Hand, OpenGate, Work, run_crew};
use caf_turns::Marked;
use caf_types::{Memory, Places, TypeTable};
use std::alloc::Global;
use std::sync::Wait;
use std::sync::atomic::{AtomicU64, Ordering};
use std::thread;
use std::thread::Threads;

// How often a gate lets a held worker look again.
const LOOKS: u64 = 100_000_000;

// A body that takes so many turns: in each it handles one envelope, and sends to itself and to another place.
#[derive(Drop)]
struct Counter {
    place: u32,
    next: u32,
    left: u64,
    handled: u64,
}

// A counter keeps its place.
impl Marked for Counter {
    type Mark = u32;

    ghost has_mark = { λ c m. c.place ≡ m };
}

impl Work for Counter {
    ghost has_entries = { λ table m. ⊤ };

    fn turn<R: Wait>(
        &mut self,
        _rt: &R,
        alloc: Global,
        _table: &TypeTable,
        _due: u64,
    ) -> Result<Places, Memory> {
        let mut places = Places::new(alloc);
        if self.left > 0 {
            self.left -= 1;
            self.handled = self.handled.saturating_add(1);
            places.push(self.place)?;
            places.push(self.next)?;
        }
        Ok(places)
    }

    fn spent(&self) -> u64 {
        self.handled
    }
}

// Counters at the places from 0 on, each of which sends to the next one too.
fn counters(alloc: Global, count: u32, turns: u64) -> Result<Vec<Counter>, Memory>
    ensures { IfOk result (λ all. length all.items ≡ count) }
{
    let mut all = Vec::new(alloc);
    for place in 0..count {
        all.push(Counter {
            place,
            next: place.saturating_add(1),
            left: turns,
            handled: 0,
        })?;
    }
    Ok(all)
}

fn places(alloc: Global, count: u32) -> Result<Places, Memory> {
    let mut all = Places::new(alloc);
    for place in 0..count {
        all.push(place)?;
    }
    Ok(all)
}

// A crew over eight counters, of which the first so many have a ticket at first.
fn run_counters<G: Gate, R: Threads + Wait + Sync>(
    rt: &R,
    alloc: Global,
    gate: &G,
    first: u32,
    workers: u32,
) -> Result<Crewed<Counter>, Memory>
    requires { (0 < workers) × (workers ≤ 64) }
{
    let Ok(table) = TypeTable::new(alloc) else {
        return Err(Memory);
    };
    let bodies = counters(alloc, 8, 2_000)?;
    let first = places(alloc, first)?;
    run_crew(rt, alloc, &table, bodies, &first, gate, workers, 16_000)
}

// Whether each counter is at its place and took all its turns.
fn all_done(bodies: &[Counter]) -> bool {
    let mut place = 0u32;
    for body in bodies {
        if body.place != place || body.handled != 2_000 {
            return false;
        }
        place = place.saturating_add(1);
    }
    true
}

// Holds the first entry of worker 0 until another worker has entered at a place below a number.
#[derive(Drop)]
struct Hold {
    below: u32,
    held: AtomicU64,
    others: AtomicU64,
    given_up: AtomicU64,
}

fn hold_below(below: u32) -> Hold {
    Hold {
        below,
        held: AtomicU64::new(0),
        others: AtomicU64::new(0),
        given_up: AtomicU64::new(0),
    }
}

impl Gate for Hold {
    fn enter(&self, worker: u32, place: u32) {
        if worker > 0 {
            if place < self.below {
                self.others.fetch_add(1, Ordering::SeqCst);
            }
            return;
        }
        if self.held.swap(1, Ordering::SeqCst) > 0 {
            return;
        }
        for _ in 0..LOOKS {
            if self.others.load(Ordering::SeqCst) > 0 {
                return;
            }
            thread::yield_now();
        }
        self.given_up.fetch_add(1, Ordering::SeqCst);
    }
}

#[test]
fn a_ticket_is_drawn_by_one_of_two_hands(rt: HostRuntime) {
    let alloc: Global = rt.alloc();
    let hands = Crew::make(&rt, alloc, 2);
    let Ok(hands) = hands else {
        panic!(rt; "no memory")
    };
    let mut hands = hands.into_vec();
    let Some(mut second) = hands.pop() else {
        panic!(rt; "no second hand")
    };
    let Some(mut first) = hands.pop() else {
        panic!(rt; "no first hand")
    };
    assert!(rt; first.put(5).is_ok());
    assert!(rt; first.put(6).is_ok());
    assert!(rt; second.draw(&rt) == Draw::Ticket(5));
    assert!(rt; first.draw(&rt) == Draw::Ticket(6));
    assert!(rt; second.draw(&rt) == Draw::Empty);
    assert!(rt; first.draw(&rt) == Draw::Empty);
}

#[test]
fn four_workers_give_all_turns(rt: HostRuntime) {
    let alloc: Global = rt.alloc();
    let Ok(crewed) = run_counters(&rt, alloc, &OpenGate, 8, 4) else {
        panic!(rt; "no memory")
    };
    assert!(rt; crewed.bodies.len() == 8);
    assert!(rt; all_done(crewed.bodies.as_slice()));
    assert!(rt; crewed.hands.len() == 4);
}

// Hand 1 begins with an empty deque, so what worker 1 enters of the first places was put by hand 0.
#[test]
fn worker_0_is_let_go_by_worker_1(rt: HostRuntime) {
    let alloc: Global = rt.alloc();
    for (below, first) in [(8, 8), (2, 2)] {
        let gate = hold_below(below);
        let Ok(crewed) = run_counters(&rt, alloc, &gate, first, 2) else {
            panic!(rt; "no memory")
        };
        assert!(rt; all_done(crewed.bodies.as_slice()), "below {below}");
        assert!(rt; gate.others.load(Ordering::SeqCst) > 0, "below {below}");
        assert!(rt; gate.given_up.load(Ordering::SeqCst) == 0, "below {below}");
    }
}
