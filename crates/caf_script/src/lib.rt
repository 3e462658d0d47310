//! Scripts: what an actor sends step by step, and what became of each step.
//!
//! Model: a [`Script`] is its plan, which is the steps still to come; the types of the answers that the
//! steps played so far expect; a reply for each step; and how many ticks have come that no step has used.
//! A message counts as its content, and a value that came as an answer as its spelling.
//!
//! The contract that the layer above rests on: [`Script::go_on`], and each call that tells the script of an
//! input, plays the steps to come, in order, up to the first that has to wait, and sends exactly what
//! these steps send.
#![tactic(auto)]

mod answer;
mod laws;
mod plan;
mod replies;
mod script;
mod step;

pub use laws::{goes_as_far_as_it_can, plays_in_order};
pub use plan::Plan;
pub use replies::{Replies, StepReply};
pub use script::Script;
pub use step::{Planned, Wait};

#[cfg(test)]
mod tests;
