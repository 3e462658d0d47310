//! Bodies in slots: each is with one worker at a time, and what is due to it is counted.
//!
//! Model: a [`TurnSeat`] is what one thread knows of the bodies, seen as a `TurnSeatSeen`: the bodies as they were
//! given, the numbers of those that it has out, and the list of its accesses with what each read. What ties all
//! seats to the words and the slots is the rule of `specs/Rule.antt`, which holds between any two accesses.
//!
//! The contract that the layer above rests on: [`Turns::claim`] gives a body only where its one swap of the turn
//! word read 0, with each mark that the body was given with, and `None` only where the swap read 1. No lock: no
//! call takes a runtime handle. The cooperative scheduling of CAF is the source: a job is resumed by one worker at
//! a time, and an actor that becomes ready is put into a queue once.
#![tactic(auto)]

mod limits;
mod lists;
mod marked;
mod plays;
mod rule;
mod step;
#[cfg(test)]
mod tests;
mod turns;
mod view;

pub use limits::{MOST_ANNOUNCEMENTS, MOST_DUE, MOST_SPLITS};
pub use marked::Marked;
pub use step::Step;
pub use turns::{TurnSeat, Turns};
