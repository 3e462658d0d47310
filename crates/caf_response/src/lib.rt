//! Requests, the promises to answer them, promises that are held, and messages that are sent later.
//!
//! Model: contracts see [`Pending`] as the next request number, the stack of awaited requests with
//! its top first, the multiplexed ones in order of number, and the due counts that some have, in
//! order of count, then number; a [`Promise`] as the mid and the priority of the request that it
//! answers; [`Holds`] as a list of such requests, ordered by number, then requester, then arrival;
//! and [`Delays`] as a list of messages, ordered by due count, then adding.
//!
//! The contract that the layer above rests on: a promise has no `Drop`, so each one is spent by
//! exactly one `deliver`, `fail`, `delegate` or `hold`, and what answers goes to the requester, as
//! the response to its request, with the request's priority.
#![tactic(auto)]

mod delays;
mod due;
mod fault;
mod held;
mod holds;
mod line;
mod lines;
mod pending;
mod promise;

pub use delays::Delays;
pub use fault::IssueFault;
pub use holds::Holds;
pub use pending::{Mode, Pending, Waiting};
pub use promise::{Handoff, Promise, Reply};

#[cfg(test)]
mod tests;
