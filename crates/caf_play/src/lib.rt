//! The play of a script: a run on one thread, from the setups of its actors to its record.
//!
//! Model: a [`Played`] is how the play ended, what each actor is at its end, and the stored record, which with the
//! snapshots that the actors began with is a record of the actor machine (`record_of` of `caf_record`).
//!
//! The contract that the layer above rests on: whatever the chooser says, [`play`] gives a legal record, which is
//! complete where it ended with [`PlayEnd::Done`], and otherwise calls for the end that was told (`EndsAs`).
#![tactic(auto)]

mod parting;
mod played;
mod playing;

pub use played::{PlayEnd, Played};
pub use playing::play;
