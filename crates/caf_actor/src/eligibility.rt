//! Which envelopes the actor may handle now.
ghost use Rattle.std.specs.Prelude.{◌≡◌, IfNone};
ghost use Rattle.std.specs.Option.{option_map};
ghost use Rattle.caf_message.specs.Envelope.{plain_envelope};
ghost use Rattle.caf_message.specs.declared.envelope.Plain.TheVariants as «plain»;
ghost use Rattle.caf_mailbox.specs.Passed.{IsPassed};
ghost use Rattle.caf_actor.specs.Eligibility.{is_wanted, next_envelope};
ghost use Rattle.caf_actor.specs.Eligibility as eligibility;

use crate::{Behavior, Snapshot, signature_of};
use caf_mailbox::{Awaited, Eligible, Passed};
use caf_message::{Body, Envelope, Message};

/// What tells the eligible envelopes of an actor.
#[derive(Drop)]
struct Turn<'a, B> {
    behavior: &'a B,
    has_begun: bool,
    has_quit: bool,
    /// The number of the response that is awaited.
    awaited: Option<u64>,
}

impl<'a, B: Behavior> Eligible for Turn<'a, B> {
    ghost use Rattle.caf_actor.specs.Eligibility.{is_eligible_when};

    ghost test = { λ turn. is_eligible_when B.rules turn.behavior.now turn.has_begun turn.has_quit turn.awaited };

    fn awaits(&self) -> Awaited {
        if self.has_quit {
            return Awaited::Any;
        }
        if !self.has_begun {
            return Awaited::Nothing;
        }
        match self.awaited {
            Some(top) => Awaited::Only(top),
            None => Awaited::Any,
        }
    }

    fn takes_contents(&self) -> bool {
        self.has_quit || (self.has_begun && self.awaited.is_none())
    }

    fn eligible(&self, envelope: &mut Envelope) -> bool {
        if self.has_quit {
            return true;
        }
        let is_response = envelope.mid.response;
        let number = envelope.mid.number;
        match &mut envelope.body {
            Body::System(_) => true,
            Body::Failure(_) => self.has_begun && is_awaited(self.awaited, number),
            Body::Content(message) => {
                if !self.has_begun {
                    false
                } else if is_response {
                    is_awaited(self.awaited, number)
                } else {
                    self.awaited.is_none() && is_content_wanted(self.behavior, message)
                }
            }
        }
    }
}

/// Whether the response of that number may be handled: while one is awaited, it alone.
fn is_awaited(awaited: Option<u64>, number: u64) -> bool
    ensures { result ≡ eligibility.is_awaited awaited number }
{
    match awaited {
        Some(top) => number == top,
        None => true,
    }
}

/// Whether the behaviour doesn't keep the content for later. Only inputs of its interface are kept.
fn is_content_wanted<B: Behavior>(behavior: &B, message: &mut Message) -> bool
    ensures wanted { result ≡ is_wanted B.rules behavior.now («plain».Content message.old.content) }
    ensures kept { message.new.content ≡ message.old.content }
{
    match signature_of(behavior.interface(), message) {
        Some(signature) => !behavior.skips(&signature.input),
        None => true,
    }
}

impl<B: Behavior> Snapshot<B> {
    /// Takes the next envelope out of the lists; None exactly where none is eligible. The contents that
    /// are known not to be eligible are not looked at.
    pub(crate) fn take_next(&mut self, passed: &mut Passed) -> Option<Envelope>
        requires passed { IsPassed (eligibility.is_eligible B.rules self.old) self.old.caches passed.old }
        ensures next { option_map (λ envelope. (plain_envelope envelope, self.new)) result ≡ next_envelope B.rules self.old }
        ensures kept { IfNone result (self.new ≡ self.old) }
        ensures passed { IsPassed (eligibility.is_eligible B.rules self.new) self.new.caches passed.new }
    {
        let turn = Turn {
            behavior: &self.behavior,
            has_begun: self.has_begun,
            has_quit: self.quit.is_some(),
            awaited: self.pending.top(),
        };
        self.caches.next_past(&turn, passed)
    }
}
