//! Inboxes: many writers, one reader, no lock. Nothing is lost, and the order of each sender stays.
//!
//! Model: a [`Reader`] is seen as a `ReaderSeen` (what it took, the notes of lanes that it has met, how often it popped
//! nothing), a [`Lane`] as a `LaneSeen` (what it pushed, the notes of the reader that it has met), each envelope in its
//! plain form. What ties them is the rule of `specs/Rule.antt`, which holds between any two steps of the queue.
//!
//! The contract that the layer above rests on: what a reader took of a sender is a prefix of what that sender's lane
//! pushed; it is all of it where notes were met both ways and [`Reader::take`] then answered `None`; and the contents
//! of a batch fit the inbox's entries. The mailbox of CAF is the source: many writers and one reader.
#![tactic(auto)]

mod drain;
mod held;
mod inbox;
mod lane;
mod laws;
mod limits;
mod notes;
mod pops;
mod queue;
mod reader;
mod rule;
#[cfg(test)]
mod tests;
mod view;

pub use inbox::Inbox;
pub use lane::Lane;
pub use laws::{a_batch_fits_its_tables, all_was_taken, each_note_is_behind, taken_is_a_prefix};
pub use limits::MOST_IN_BATCH;
pub use notes::{LaneNote, ReaderNote};
pub use reader::Reader;
pub use view::{Note, Role, View};
