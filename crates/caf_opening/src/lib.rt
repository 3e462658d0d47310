//! The actors of a run at its beginning: a conductor at place 0, and the actors that it plays with.
//!
//! Model: an [`Actor`](caf_actor::Actor) is seen as its state, and here each state is the first one of a behaviour
//! of some kind.
//!
//! The contract that the layer above rests on: [`opening_actors`] makes exactly the actors that the setups and the
//! script say, so a driver may be made of them.
#![tactic(auto)]

mod opening;

pub use opening::opening_actors;

#[cfg(test)]
mod tests;
