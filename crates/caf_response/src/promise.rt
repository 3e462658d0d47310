ghost use Rattle.std.specs.Prelude.{◌≡◌, OnOk, OnErr, IfErr};
ghost use Rattle.caf_message.specs.declared.envelope.Body.TheVariants as body;
ghost use Rattle.caf_message.specs.declared.envelope.Plain.TheVariants as «plain»;
ghost use Rattle.caf_response.specs.Promise.{reply_of, plain_reply, handoff_of, plain_handoff, response_mid};
ghost use Rattle.caf_response.specs.Holds.{with_hold};

use crate::Holds;
use crate::held::Held;
use caf_message::{Body, Message};
use caf_types::{Memory, Mid, Priority, Sec};
use std::marker::Model;

/// The duty to answer one request.
///
/// As in CAF's manual, a response promise answers its request, passes it on, or is kept for later.
/// It has no `Drop`, so it can't be let go: each promise is spent by exactly one call.
#[derive(Debug)]
pub struct Promise {
    held: Held,
}

impl Model for Promise {
    ghost use Rattle.caf_response.specs.Promised.{Promised};

    ghost Value = { Promised };

    ghost view = { λ promise. promise.held };
}

/// The answer to a request.
#[derive(Debug, Drop)]
pub struct Reply {
    /// The place that issued the request.
    pub to: u32,
    /// The request's, as a response.
    pub mid: Mid,
    /// The request's.
    pub priority: Priority,
    /// The value or the error.
    pub body: Body,
}

/// A request that goes on to another place.
#[derive(Debug, Drop)]
pub struct Handoff {
    /// The place that is to answer it.
    pub to: u32,
    /// The request's.
    pub mid: Mid,
    /// The request's.
    pub priority: Priority,
    /// The content that goes on.
    pub message: Message,
}

impl Promise {
    /// The promise to answer the request with this mid and priority.
    pub fn of(mid: Mid, priority: Priority) -> Promise
        ensures mid { result.mid ≡ mid }
        ensures priority { result.priority ≡ priority }
    {
        Promise {
            held: Held { mid, priority },
        }
    }

    /// Answers with a value.
    pub fn deliver(self, message: Message) -> Reply
        ensures reply { plain_reply result ≡ reply_of self («plain».Content message.content) }
        ensures message { result.body ≡ body.Content message }
    {
        self.answer(Body::Content(message))
    }

    /// Answers with an error.
    pub fn fail(self, sec: Sec) -> Reply
        ensures reply { plain_reply result ≡ reply_of self («plain».Failure sec) }
    {
        self.answer(Body::Failure(sec))
    }

    /// Passes the request on to the place `to`, which is then to answer it.
    pub fn delegate(self, to: u32, message: Message) -> Handoff
        ensures handoff { plain_handoff result ≡ handoff_of self to message.content }
        ensures message { result.message ≡ message }
    {
        let Promise { held } = self;
        Handoff {
            to,
            mid: held.mid,
            priority: held.priority,
            message,
        }
    }

    /// Keeps the promise for later. After want of memory the holds are as before, and the promise
    /// comes back as it was.
    pub fn hold(self, holds: &mut Holds) -> Result<(), (Promise, Memory)>
        ensures held { OnOk result (holds.new ≡ with_hold holds.old self) }
        ensures back { IfErr result (λ refused. refused.0 ≡ self) }
        ensures kept { OnErr result (holds.new ≡ holds.old) }
    {
        let Promise { held } = self;
        match holds.add(held) {
            Ok(()) => Ok(()),
            Err(held) => Err((Promise { held }, Memory)),
        }
    }

    fn answer(self, body: Body) -> Reply
        ensures to { result.to ≡ self.mid.requester }
        ensures mid { result.mid ≡ response_mid self.mid }
        ensures priority { result.priority ≡ self.priority }
        ensures body { result.body ≡ body }
    {
        let Promise { held } = self;
        let Held { mid, priority } = held;
        Reply {
            to: mid.requester,
            mid: Mid {
                response: true,
                ..mid
            },
            priority,
            body,
        }
    }

    pub(crate) fn of_held(held: Held) -> Promise
        ensures { result ≡ held }
    {
        Promise { held }
    }
}
