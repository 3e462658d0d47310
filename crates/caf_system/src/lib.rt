//! Actors as bodies that threads give turns to: what the threaded run is made of.
//!
//! Model: a [`Body`] is a `Station` (an actor, the reader of its inbox, its lanes by the place that they lead to, and
//! what it holds back) that may be broken. A crew of `caf_sched` gives turns to bodies.
//!
//! The contract that the layer above rests on: a body that was at work and isn't broken went on by batches (`GoesOn`).
//! They stand at its journal's end with the stamps that they are due, its snapshot is where they lead, what they posted
//! was pushed on the lanes, place by place and in order, and what it took from its inbox is its journal and what it
//! holds back. Each body is a mark of itself, so all this is known after any crew.
#![tactic(auto)]

mod body;
mod crew;
mod sending;
mod station;

pub use body::Body;
pub use crew::run_bodies;
