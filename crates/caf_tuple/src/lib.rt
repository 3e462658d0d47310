//! Counted copy-on-write tuples: blocks of words that threads share by counted references.
//!
//! Model: a [`Tuple`] is one reference, seen as a `Reference` of `caf_steps`: its content, the steps
//! that it made, its room, and whether it is sole. What ties all references of a block to its count
//! and its words is the rule of `specs/Block.antt`, which holds between any two atomic steps.
//!
//! The contract that the layer above rests on: the content of a reference changes by its own `set`
//! alone, which needs it to be sole; and `own` makes it sole, by one test and at most one copy.
#![tactic(auto)]

mod block;
mod fault;
mod held;
mod plays;
#[cfg(test)]
mod tests;
mod tuple;

pub use block::MOST_WORDS;
pub use caf_steps::Step;
pub use fault::TupleFault;
pub use tuple::{Owned, Tuple};
