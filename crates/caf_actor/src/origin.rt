ghost use Rattle.std.specs.Prelude.{◌≡◌};
ghost use Rattle.caf_actor.specs.Answering.{promised_to};
ghost use Rattle.caf_actor.specs.Answering as answering;

use caf_message::{Body, Envelope};
use caf_response::Promise;
use caf_types::{Mid, Priority};

/// Where a content came from, and whose request it is, if it is one.
#[derive(Clone, Copy, Debug, PartialEq, Eq, Drop)]
pub struct Origin {
    /// The place that sent it.
    pub sender: u32,
    pub mid: Mid,
    pub priority: Priority,
}

impl Origin {
    /// An envelope's origin and its body.
    pub(crate) fn split(envelope: Envelope) -> (Origin, Body)
        ensures { result ≡ (record { sender = envelope.sender; mid = envelope.mid; priority = envelope.priority }, envelope.body) }
    {
        let Envelope {
            sender,
            mid,
            priority,
            body,
            ..
        } = envelope;
        (
            Origin {
                sender,
                mid,
                priority,
            },
            body,
        )
    }

    /// Whether content of this origin is a request.
    pub(crate) fn is_asked(&self) -> bool
        ensures { result ≡ answering.is_asked self.now }
    {
        self.mid.number > 0
    }

    /// The promise to answer the request.
    pub(crate) fn promise(&self) -> Promise
        ensures { result ≡ promised_to self.now }
    {
        Promise::of(self.mid, self.priority)
    }
}
