//! Actors for tests: behaviours that do what a script says, and a stage for one of them.
//!
//! Model: a [`Scripted`] behaviour is the value of its fields. Its next value and its reaction at an
//! input are the functions of `Scripted` in the specifications. A [`Stage`] is the state of its actor.
//!
//! The contract that tests rest on: `Scripted` keeps every law of behaviours, so what holds of all
//! actors holds of the actors of a test.
#![tactic(auto)]

mod act;
mod relay;
mod rows;
mod scripted;
mod stage;

pub use act::{Act, Cue, Note, Reply, Sending, Signal};
pub use relay::{RELAYED, Relay};
pub use rows::{Nothing, Number};
pub use scripted::Scripted;
pub use stage::{Letter, Line, Part, Played, Stage, What, add_lines, batch_of, play};

#[cfg(test)]
mod fans;
#[cfg(test)]
mod relaying;
#[cfg(test)]
mod tests;
