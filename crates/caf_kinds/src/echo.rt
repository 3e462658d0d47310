//! An echo answers a text with itself; while it sleeps it keeps texts for later.
ghost use Rattle.std.specs.Prelude.{◌≡◌, IfOk};
ghost use Rattle.caf_words.specs.Several.{ids_of};
ghost use Rattle.caf_actor.specs.PlainForms.{plain_input, plain_reaction};
ghost use Rattle.caf_kinds.specs.Echo as echo;

use crate::asking::{answers, done, failed, has, has_same_ids, interface, quiet, takes};
use crate::{Identity, One, Rest, Text, Typed, Unit, Wake};
use caf_actor::{Answer, Input, Reaction};
use caf_message::Message;
use caf_signature::Interface;
use caf_types::{Memory, Seq, TypeId, TypeIds};
use std::alloc::Global;

/// What every echo takes.
#[derive(Debug, Drop)]
pub struct EchoKind;

impl Typed for EchoKind {
    ghost interface = { echo.interface };

    fn interface(alloc: Global) -> Result<Interface, Memory> {
        let mut signatures = Seq::new(alloc);
        takes::<One<Text>, One<Text>>(alloc, &mut signatures)?;
        takes::<One<Wake>, One<Unit>>(alloc, &mut signatures)?;
        takes::<One<Rest>, One<Unit>>(alloc, &mut signatures)?;
        interface(alloc, signatures)
    }
}

/// Answers a text with itself. While it sleeps it keeps texts for later.
#[derive(Debug, Drop)]
pub struct Echo {
    pub(crate) identity: Identity<EchoKind>,
    pub(crate) is_asleep: bool,
}

impl Echo {
    pub(crate) fn react(&mut self, alloc: Global, input: Input) -> Result<Reaction, Memory>
        ensures { IfOk result (λ reaction. (self.new, plain_reaction reaction) ≡ echo.reacted self.old (plain_input input)) }
    {
        match input {
            Input::Content(_, message) => self.take(alloc, message),
            Input::Start
            | Input::Stop
            | Input::Tick
            | Input::Response(_, _)
            | Input::Failed(_, _)
            | Input::Down(_, _) => Ok(quiet(alloc)),
        }
    }

    fn take(&mut self, alloc: Global, message: Message) -> Result<Reaction, Memory>
        ensures { IfOk result (λ reaction. (self.new, plain_reaction reaction) ≡ echo.given self.old message.content) }
    {
        let mut message = message;
        if has::<One<Text>>(alloc, &mut message)? {
            return Ok(answers(alloc, Answer::Value(message)));
        }
        if has::<One<Wake>>(alloc, &mut message)? {
            self.is_asleep = false;
            return Ok(answers(alloc, done(alloc)?));
        }
        if has::<One<Rest>>(alloc, &mut message)? {
            self.is_asleep = true;
            return Ok(answers(alloc, done(alloc)?));
        }
        Ok(answers(alloc, failed()))
    }

    /// Whether it keeps content of these types for later.
    pub(crate) fn skips(&self, types: &TypeIds) -> bool
        ensures { result ≡ echo.skips self.now (ids_of types.now) }
    {
        self.is_asleep && has_same_ids([TypeId(4)].as_slice(), types.as_slice())
    }
}
