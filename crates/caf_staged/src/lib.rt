//! Runs of several scripted actors on one thread, for tests.
//!
//! Model: a [`Role`] says what one place does, a [`Move`] what comes next, a [`Choice`] who takes what.
//! [`play`] makes the moves and tells in plain values what came of it ([`Played`]).
//!
//! The contract that tests rest on: [`opening_actors`] makes actors of which a driver may be made, or names the
//! role that fits no place; so every play keeps the conditions of the driver, and what a test compares is
//! what the driver and its actors did.
#![tactic(auto)]

mod choosers;
mod fault;
mod moves;
mod opening;
mod phase;
mod played;
mod recording;
mod reporting;
mod role;
mod run;

pub use choosers::{Always, LastPlace, SendersInTurn};
pub use fault::PlayFault;
pub use moves::{Choice, Move, Outcome};
pub use opening::opening_actors;
pub use played::{Final, JournalLine, Played};
pub use role::Role;
pub use run::play;

#[cfg(test)]
mod tests;
