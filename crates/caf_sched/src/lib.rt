//! Workers that give turns to bodies, over stealing deques of tickets.
//!
//! Model: a ticket is the number of a body, and a [`Hand`] is what one worker has of all deques, seen as a `HandSeen`:
//! the tickets that it put on its own deque, those that it drew, by deque, and its empty tries, by deque. What ties all
//! hands to what the deques hold is the rule of `specs/Tickets.antt`, which holds between any two pushes, pops and steals.
//!
//! The contract that the layer above rests on: with `Ok`, [`run_crew`] gives back every body, in order, with each mark
//! that it was given with, and a hand for each worker, which made at least one draw. Source of the form: CAF's
//! work-stealing scheduler, where each worker has a queue of its own and steals from the others when it is empty.
#![tactic(auto)]

mod crew;
mod ends;
mod first;
mod hand;
mod rule;
mod run;
mod seat;
mod shared;
#[cfg(test)]
mod tests;
mod view;
mod work;
mod worker;

pub use crew::Crew;
pub use hand::{Draw, Hand};
pub use run::{Crewed, run_crew};
pub use work::{Gate, OpenGate, Work};
