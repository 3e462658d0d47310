//! What a document in form says: its actors and its steps, as they are written.

use caf_response::Mode;
use caf_types::{Letters, Name, Priority, Reason, Seq};
use serde_json::Value as Json;

/// An actor as a document in form writes it. The specifications speak of it.
#[derive(Debug, Drop)]
pub struct WrittenActor {
    /// Its name.
    pub name: Name,
    /// The name of its kind: any text.
    pub kind: Letters,
    /// The names of its peers.
    pub peers: Seq<Name>,
    /// How many places it reserves.
    pub children: u32,
    /// Whether it is asleep at first.
    pub asleep: bool,
}

/// How content is sent.
#[derive(Clone, Copy, Debug, PartialEq, Eq, Drop)]
pub enum Way {
    /// Without a response.
    Tell,
    /// As a request.
    Request(Mode),
    /// As a request that fails after so many ticks.
    Within(Mode, u32),
}

/// A step.
#[derive(Drop)]
pub(crate) enum WrittenStep<'a> {
    /// Content: how, to whom, the elements of its message, and how urgent.
    Send(Way, Name, &'a [Json], Priority),
    /// An exit notice: to whom, and for which reason.
    Exit(Name, Reason),
    /// It waits until no request waits.
    Sync,
    /// It waits for a tick.
    Tick,
}

/// A document.
#[derive(Drop)]
pub(crate) struct Written<'a> {
    pub(crate) actors: Seq<WrittenActor>,
    pub(crate) script: Seq<WrittenStep<'a>>,
}
