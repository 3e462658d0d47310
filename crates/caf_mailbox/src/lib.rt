//! The envelopes that an actor has taken and not yet handled.
//!
//! Model: contracts see [`Caches`] as two lists of envelopes in plain form, the urgent and the normal
//! one, each in the order taken.
//!
//! The contract that the layer above rests on: `next` takes out the first eligible envelope of the
//! urgent list, else the first eligible one of the normal list, leaves the others in their order, and
//! is None exactly where none is eligible.
#![tactic(auto)]

mod caches;
mod class;
mod eligible;
mod filing;
mod late;
mod line;
mod passed;
mod queue;
mod responses;
mod search;
mod tally;

pub use caches::Caches;
pub use eligible::{Awaited, Eligible};
pub use passed::Passed;

#[cfg(test)]
mod tests;
