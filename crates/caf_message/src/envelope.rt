ghost use Rattle.std.specs.Prelude.{◌≡◌, IfOk};
ghost use Rattle.caf_message.specs.Envelope.{plain_body, plain_envelope, BodyHasLooked, EnvelopeHasLooked};

use crate::Message;
use caf_types::{Memory, Mid, Notice, Priority, Sec, Seq, Words};
use std::alloc::Global;

/// What an envelope carries.
#[derive(Debug, Drop)]
pub enum Body {
    /// Typed elements: a request's or response's content, or a plain message's.
    Content(Message),
    /// The error that answers a request.
    Failure(Sec),
    /// A notice of the machine itself.
    System(Notice),
}

/// A body with its sender and all that places it.
#[derive(Debug, Drop)]
pub struct Envelope {
    /// The place that sent it; [`OUTSIDE`](caf_types::OUTSIDE) is the outside.
    pub sender: u32,
    /// Its number among what the sender sent to this receiver, from 0.
    pub seq: u64,
    /// Whose request it is or answers.
    pub mid: Mid,
    /// Whether the receiver takes it before its normal envelopes.
    pub priority: Priority,
    /// The stamp of the batch in which it was sent.
    pub stamp: u64,
    /// What it carries.
    pub body: Body,
}

/// Envelopes that an actor takes at once, in the order in which they were taken.
pub type Batch = Seq<Envelope>;

/// A body in plain form: content as a list of words.
#[derive(Debug, Drop)]
pub enum Plain {
    /// The content's words.
    Content(Words),
    /// The error that answers a request.
    Failure(Sec),
    /// A notice of the machine itself.
    System(Notice),
}

/// An envelope in plain form, as a journal keeps it: without the tuple that held its content.
#[derive(Debug, Drop)]
pub struct Taken {
    /// The place that sent it; [`OUTSIDE`](caf_types::OUTSIDE) is the outside.
    pub sender: u32,
    /// Its number among what the sender sent to this receiver, from 0.
    pub seq: u64,
    /// Whose request it is or answers.
    pub mid: Mid,
    /// Whether the receiver takes it before its normal envelopes.
    pub priority: Priority,
    /// The stamp of the batch in which it was sent.
    pub stamp: u64,
    /// What it carried.
    pub body: Plain,
}

impl Body {
    /// A plain copy. A content is only looked at: each word is read at most once, and content, room
    /// and soleness stay.
    pub fn to_plain(&mut self, alloc: Global) -> Result<Plain, Memory>
        ensures copy { IfOk result (λ body. body ≡ plain_body self.old) }
        ensures kept { plain_body self.new ≡ plain_body self.old }
        ensures looked { BodyHasLooked self.old self.new }
    {
        Ok(match self {
            Body::Content(message) => Plain::Content(message.words(alloc)?),
            Body::Failure(sec) => Plain::Failure(*sec),
            Body::System(notice) => Plain::System(*notice),
        })
    }
}

impl Envelope {
    /// A plain copy, for a journal. A content is only looked at: each word is read at most once, and
    /// content, room and soleness stay.
    pub fn to_taken(&mut self, alloc: Global) -> Result<Taken, Memory>
        ensures copy { IfOk result (λ taken. taken ≡ plain_envelope self.old) }
        ensures kept { plain_envelope self.new ≡ plain_envelope self.old }
        ensures looked { EnvelopeHasLooked self.old self.new }
    {
        let body = self.body.to_plain(alloc)?;
        Ok(Taken {
            sender: self.sender,
            seq: self.seq,
            mid: self.mid,
            priority: self.priority,
            stamp: self.stamp,
            body,
        })
    }
}
