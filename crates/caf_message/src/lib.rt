//! Messages over counted tuples, and the envelopes that carry them.
//!
//! Model: a [`Message`] is the reference of its tuple, seen as content, steps, room and whether it
//! is sole. Its content is the number of elements, their type IDs, and the elements' spellings. In a
//! table that a content fits, it means its IDs and one list of values. An [`Envelope`] is seen in its
//! plain form, a [`Taken`]: its fields, and its content's words without the tuple that holds them.
//!
//! The contract that the layer above rests on: a message is its IDs and values, a view succeeds
//! exactly where the IDs are the row's, and [`Message::replace`] changes this reference's content
//! alone.
#![tactic(auto)]

mod builder;
mod entries;
mod envelope;
mod fault;
mod laws;
mod message;
mod replacing;
mod row;
mod viewing;
mod words;

pub use builder::MessageBuilder;
pub use entries::Entries;
pub use envelope::{Batch, Body, Envelope, Plain, Taken};
pub use fault::{MessageFault, ViewFault};
pub use laws::{entries_fit_their_tables, exchange_words, one_meaning};
pub use message::Message;
pub use replacing::Replaced;

#[cfg(test)]
mod tests;
