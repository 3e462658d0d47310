//! One actor, and the definitions of the actor machine.
//!
//! Model: an [`Actor`] is a [`Snapshot`] (its behaviour's value, its stamp, whether it has begun, the
//! children that it hasn't started, the envelopes that it took and hasn't handled, its waiting
//! requests and when they are due, the promises that it holds, its links and monitors, its count of
//! ticks, its delayed messages, whether it quit, and the next number for each receiver), its
//! [`Journal`], and how many envelopes it handled. All contents stand in it as words.
//!
//! The contract that the layer above rests on: [`Actor::batch`] is the drain of the snapshot with the
//! batch. What it posts is what the drain posts, in order, and the batch stands at the journal's end
//! with its stamp.
//!
//! The definitions are read in this order: `Rules` (what a behaviour means), `Snapshot` (an actor
//! between two envelopes), `Eligibility` (the next envelope), `Sending`, `Answering`, `Quitting`,
//! `Reacting`, `Ticking`, `Handling` (one envelope), `Drain` (a batch), `Resolutions`; then, over the
//! journals of all places, `Record`, `Run`, `Merge` and `Carriers`.
#![tactic(auto)]

mod actor;
mod answering;
mod behavior;
mod clock;
mod content;
mod drain;
mod eligibility;
mod handling;
mod input;
mod journal;
pub mod laws;
mod numbers;
mod origin;
mod output;
mod post;
mod queue;
mod quitting;
mod reacting;
mod reaction;
mod sending;
mod sharing;
mod snapshot;
mod ticking;

pub use actor::Actor;
pub use behavior::Behavior;
pub use caf_message::{Plain, Taken};
pub use clock::Clock;
pub use content::signature_of;
pub use input::Input;
pub use journal::{Journal, TakenBatch};
pub use numbers::Numbers;
pub use origin::Origin;
pub use output::Output;
pub use post::Post;
pub use reaction::{Answer, Reaction};
pub use snapshot::Snapshot;
