//! The hands of a crew, on as many deques.
ghost use Rattle.std.specs.Prelude.{◌≡◌, ◌+◌, ◌≤◌, ◌<◌, length, replicate, All, IfOk};
ghost use Rattle.caf_sched.specs.Ends.{new_own, new_other};
ghost use Rattle.caf_sched.specs.Hand.{new_hand};

use crate::ends::{Other, Own};
use crate::hand::Hand;
use caf_types::{Memory, Seq};
use std::alloc::Global;
use std::sync::Wait;

/// Makes hands.
#[derive(Drop)]
pub struct Crew;

impl Crew {
    /// A hand for each worker, each with a deque of its own and an end of every other.
    ///
    /// A new hand has put and drawn nothing and has no empty tries. The deques are first in, first out.
    pub fn make<R: Wait>(_rt: &R, alloc: Global, workers: u32) -> Result<Seq<Hand>, Memory>
        requires { (0 < workers) × (workers ≤ 64) }
        ensures { IfOk result (λ hands. hands ≡ replicate workers (new_hand workers)) }
    {
        let owns = make_owns(alloc, workers)?;
        let hands = make_hands(alloc, owns)?;
        Ok(Seq::of_vec(hands))
    }
}

// The owner's ends of as many new deques.
fn make_owns(alloc: Global, workers: u32) -> Result<Vec<Own>, Memory>
    ensures { IfOk result (λ owns. (length owns.items ≡ workers) × All (λ o. o ≡ new_own) owns.items) }
{
    let mut owns = Vec::new(alloc);
    for worker in 0..workers {
        let own = Own::new(alloc)?;
        if owns.push(own).is_err() {
            return Err(Memory);
        }
    }
    Ok(owns)
}

// A hand for each deque, with ends of all the others. The last deque is that of the first hand.
fn make_hands(alloc: Global, mut owns: Vec<Own>) -> Result<Vec<Hand>, Memory>
    requires { (length owns.items ≤ 64) × All (λ o. o ≡ new_own) owns.items }
    ensures { IfOk result (λ hands. hands.items ≡ replicate (length owns.items) (new_hand (length owns.items))) }
{
    let mut hands = Vec::new(alloc);
    while let Some(own) = owns.pop() {
        let others = ends_of(alloc, owns.as_slice(), hands.as_slice())?;
        if hands.push(Hand::new(own, others)).is_err() {
            return Err(Memory);
        }
    }
    Ok(hands)
}

// Ends of the deques of these hands, the last hand's first, and of these further deques. So each hand begins to steal
// at another deque.
fn ends_of(alloc: Global, owns: &[Own], hands: &[Hand]) -> Result<Vec<Other>, Memory>
    requires { length owns.now + length hands.now < 64 }
    ensures { IfOk result (λ others. (length others.items ≡ length owns.now + length hands.now) × All (λ o. o ≡ new_other) others.items) }
{
    let mut others = Vec::new(alloc);
    for made in 0..hands.len() {
        let hand = &hands[hands.len() - 1 - made];
        let other = hand.other()?;
        if others.push(other).is_err() {
            return Err(Memory);
        }
    }
    for own in owns {
        let other = own.other()?;
        if others.push(other).is_err() {
            return Err(Memory);
        }
    }
    Ok(others)
}
