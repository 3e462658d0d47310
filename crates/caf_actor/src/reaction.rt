use crate::Output;
use caf_message::Message;
use caf_types::{Reason, Sec, Seq};

/// How content is answered. The answer to any other input has no effect.
///
/// As in CAF (the CAF manual, "Delegating Messages" and "Response Promises"), a delegated request is
/// answered straight to its first requester, and a held one may be answered later.
#[derive(Debug, Drop)]
pub enum Answer {
    /// The response to a request.
    Value(Message),
    /// The error that answers a request.
    Error(Sec),
    /// The same content goes on to this place.
    Delegate(u32),
    /// A request is kept, to be delivered or broken later.
    Hold,
    /// Content that is no request needs no answer.
    Nothing,
}

/// What a behaviour does at an input. The outputs are sent in order, then the answer, then what
/// quitting causes.
#[derive(Debug, Drop)]
pub struct Reaction {
    /// What is sent, in order.
    pub outputs: Seq<Output>,
    /// How the content is answered.
    pub answer: Answer,
    /// The reason to quit, if it quits.
    pub quit: Option<Reason>,
}
