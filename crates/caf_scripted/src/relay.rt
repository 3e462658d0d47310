//! A behaviour that replaces each number that it is given, and tells it on.
ghost use Rattle.std.specs.Prelude.{◌≡◌, true, IfOk, OnOk};
ghost use Rattle.caf_message.specs.Content.{ids_in};
ghost use Rattle.caf_actor.specs.PlainForms.{plain_answer, plain_reaction};
ghost use Rattle.caf_scripted.specs.Relay as relay;
ghost use Rattle.caf_scripted.specs.Relay.{relay_rules, AnyRelay};
ghost use Rattle.caf_scripted.specs.Scripted.{scripted_entries, ignore, number_content};

use crate::rows::Number;
use caf_actor::{Answer, Behavior, Input, Origin, Output, Reaction};
use caf_message::{Entries, Message, MessageFault};
use caf_signature::Interface;
use caf_types::{Memory, Places, Sec, Seq, TypeId, TypeIds, TypeTable};
use std::alloc::Global;

/// The number that a relay writes in place of each that it is given.
pub const RELAYED: u64 = 9;

/// Writes [`RELAYED`] into the message of each number that it is given, and tells that message to its
/// peer. It answers requests with the error `Failed`.
#[derive(Debug, Drop)]
pub struct Relay {
    /// Its own place.
    pub place: u32,
    /// Whom it tells.
    pub peer: u32,
    /// The places of its children.
    pub reserve: Places,
    /// What it takes.
    pub interface: Interface,
}

impl Entries for Relay {
    ghost entries = { scripted_entries };
}

impl Behavior for Relay {
    ghost rules = { relay_rules };

    ghost is_valid = { AnyRelay };

    fn interface(&self) -> &Interface {
        &self.interface
    }

    fn reserve(&self) -> &Places {
        &self.reserve
    }

    fn delegates(&self, _types: &TypeIds) -> bool {
        false
    }

    fn skips(&self, _types: &TypeIds) -> bool {
        false
    }

    fn react(
        &mut self,
        alloc: Global,
        _table: &TypeTable,
        input: Input,
    ) -> Result<Reaction, Memory> {
        match input {
            Input::Content(origin, message) => self.pass_on(alloc, origin, message),
            Input::Start
            | Input::Stop
            | Input::Tick
            | Input::Response(_, _)
            | Input::Failed(_, _)
            | Input::Down(_, _) => Ok(nothing(alloc)),
        }
    }

    ghost stays_valid = { relay.stays_valid };

    ghost stays_same_actor = { relay.stays_same_actor };

    ghost skips_inputs = { relay.skips_inputs };

    ghost fits_its_table = { relay.fits_its_table };

    ghost fits_its_entries = { relay.fits_its_entries };

    ghost answers_requests = { relay.answers_requests };

    ghost answers_as_declared = { relay.answers_as_declared };

    ghost delegates_as_told = { relay.delegates_as_told };

    ghost sends_to_peers = { relay.sends_to_peers };

    ghost sends_few = { relay.sends_few };

    ghost ticks_at_ticks = { relay.ticks_at_ticks };

    ghost stops_with_exits = { relay.stops_with_exits };
}

impl Relay {
    fn pass_on(&self, alloc: Global, origin: Origin, message: Message) -> Result<Reaction, Memory>
        ensures { IfOk result (λ reaction. plain_reaction reaction ≡ relay.relayed self.now origin message.content) }
    {
        let mut message = message;
        let mut outputs = Seq::new(alloc);
        if is_number(&mut message) {
            write(alloc, &mut message)?;
            outputs.push(Output::Tell(self.peer, origin.priority, message))?;
        }
        Ok(Reaction {
            outputs,
            answer: ignore(&origin),
            quit: None,
        })
    }
}

fn nothing(alloc: Global) -> Reaction
    ensures { plain_reaction result ≡ relay.nothing }
{
    Reaction {
        outputs: Seq::new(alloc),
        answer: Answer::Nothing,
        quit: None,
    }
}

fn ignore(origin: &Origin) -> Answer
    ensures { plain_answer result ≡ ignore origin.now }
{
    if origin.mid.number > 0 {
        return Answer::Error(Sec::Failed);
    }
    Answer::Nothing
}

/// Whether the content is one element of type `unsigned`.
fn is_number(message: &mut Message) -> bool
    ensures answer { result ≡ relay.is_number message.old.content }
    ensures kept { message.new.content ≡ message.old.content }
{
    message.has_types([TypeId(2)].as_slice())
}

fn write(alloc: Global, message: &mut Message) -> Result<(), Memory>
    requires { relay.is_number message.old.content ≡ true }
    ensures { OnOk result (message.new.content ≡ number_content RELAYED) }
{
    match message.replace(alloc, &Number(RELAYED)) {
        Ok(_) => Ok(()),
        Err(MessageFault::Memory) => Err(Memory),
        Err(MessageFault::Large) => unreachable!(),
    }
}
