//! What every run keeps that ended well, whoever ran it: the sentences of the product's promise, put together.
//!
//! Model: a record is what each place took, with the snapshots that the places began with; it is complete where Stop
//! was taken and all is at rest. Nothing here speaks of a driver or of threads.
//!
//! The contract that the layer above rests on is that of [`laws::complete_runs_keep_their_promises`]: in a complete
//! record of opened actors, every message sent was taken once, as sent, in order per sender; none was handled after
//! quitting; every request resolved exactly once; and where the actors index files undisturbed, the index is the
//! files' plain index.
#![tactic(auto)]

pub mod laws;
