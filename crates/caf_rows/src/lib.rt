//! Whole runs of kinds of actors on one thread, for tests.
//!
//! Model: a [`Run`] is the text that its record writes, and the numbers of the requests of place 0 in the order in
//! which it took their responses. A [`Choice`] says who takes what.
//!
//! The contract that tests rest on: [`run_scenario`] and [`run_index`] keep the conditions of the calls that read,
//! open and play, so what a test compares is what the actors of the scenario did.
#![tactic(auto)]

mod choice;
mod files;
mod order;
mod run;

pub use choice::{Choice, OneEach};
pub use run::{Run, RunFault, run_index, run_scenario};

#[cfg(test)]
mod tests;
