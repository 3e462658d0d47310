//! Records of runs: what all places took, in which order one thread could have taken it, and as text.
//!
//! Model: a [`RunRecord`] is the journals by place, the stamps that the places began with, and which
//! batch of place 0 holds Stop. With the start snapshots it is a record of the actor machine
//! (`record_of`, which the driver and the threaded run share).
//!
//! The contract that the layer above rests on: [`merge`] lists all batches by stamp, then place, which
//! for a legal record is a run of the machine of all places on one thread, with the same end
//! ([`laws`]), and [`trace_text`] is the text of that order.
#![tactic(auto)]

pub mod laws;
mod merged;
mod run_record;
#[cfg(test)]
mod tests;
mod trace;

pub use merged::merge;
pub use run_record::RunRecord;
pub use trace::trace_text;
