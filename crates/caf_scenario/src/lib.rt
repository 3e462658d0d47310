//! Scenarios: which actors there are, and the script that the conductor plays with them, as JSON.
//!
//! Model: a document is looked through in six passes, each of which has a page in `specs`: JSON (`Valid`), the forms
//! of members (`DocumentForm`), numbers (`Many`), kinds and names (`Actors`), peers (`Peers`), steps (`Steps`). The
//! first fault of the first pass that has one is the document's; one without faults says a scenario (`Scenario`).
//!
//! The contract that the layers above rest on: [`read_scenario`] answers a scenario exactly where the document has no
//! fault, namely the one that it says, and else its first fault. [`builtin`] is the scenario that indexes files.
#![tactic(auto)]

mod actor_form;
mod built_in;
mod document_form;
mod elements;
mod fault;
mod forms;
mod many;
mod names;
mod scenario;
mod setups;
mod spot;
mod step_form;
mod steps;
mod surplus;
mod written;

pub use built_in::builtin;
pub use fault::ScenarioFault;
pub use scenario::{Scenario, read_scenario};
pub use written::{Way, WrittenActor};

#[cfg(test)]
mod tests;
