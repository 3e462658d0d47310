//! What contracts see of one counted reference to a block of words, and the steps that it makes.
//!
//! Model: a [`Reference`] is the content, the [`Step`]s that this reference made, its room, and
//! whether it is sole. No value of these types is made when a program runs: contracts alone speak of
//! them, so that a reference to a block of its own and one to a cell of a pool are seen alike.
//!
//! What the layer above rests on are the definitions in `specs/Reference.antt`: one for each call,
//! which say how the reference after it follows from the one before.
#![tactic(auto)]

mod reference;
mod step;

pub use reference::Reference;
pub use step::Step;
