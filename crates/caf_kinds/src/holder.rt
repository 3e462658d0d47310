//! A holder holds the texts that it is asked, and delivers them when it is told to settle.
ghost use Rattle.std.specs.Prelude.{◌≡◌, IfOk};
ghost use Rattle.caf_kinds.specs.Asking.{of_text, asked};
ghost use Rattle.caf_types.specs.TypeTable.{seen};
ghost use Rattle.caf_types.specs.Table.{shape_at};
ghost use Rattle.caf_message.specs.Entries.{HasEntries};
ghost use Rattle.caf_message.specs.Fits.{FitsTable};
ghost use Rattle.caf_actor.specs.PlainForms.{plain_input, plain_reaction};
ghost use Rattle.caf_actor.specs.Rules.{InputFits};
ghost use Rattle.caf_kinds.specs.Core.{core_entries};
ghost use Rattle.caf_kinds.specs.Held.{AreTexts};
ghost use Rattle.caf_kinds.specs.Holder as holder;

use crate::asking::{answers, failed, has, interface, quiet, row_in, takes, unsigned};
use crate::{HeldTexts, Identity, One, Settle, Text, Typed, Unsigned};
use caf_actor::{Answer, Input, Origin, Reaction};
use caf_message::Message;
use caf_signature::Interface;
use caf_types::{Memory, Places, Seq, TypeTable};
use std::alloc::Global;
use std::mem;

/// What every holder takes.
#[derive(Debug, Drop)]
pub struct HolderKind;

impl Typed for HolderKind {
    ghost interface = { holder.interface };

    fn interface(alloc: Global) -> Result<Interface, Memory> {
        let mut signatures = Seq::new(alloc);
        takes::<One<Text>, One<Text>>(alloc, &mut signatures)?;
        takes::<One<Settle>, One<Unsigned>>(alloc, &mut signatures)?;
        interface(alloc, signatures)
    }
}

/// Holds the texts that it is asked, and delivers them when it is told to settle.
#[derive(Debug, Drop)]
pub struct Holder {
    pub(crate) identity: Identity<HolderKind>,
    pub(crate) held: HeldTexts,
}

impl Holder {
    pub(crate) fn interface(&self) -> &Interface
        ensures value { result.now ≡ holder.interface }
        ensures valid { AreTexts self.now.held }
    {
        self.held.know();
        self.identity.interface()
    }

    pub(crate) fn reserve(&self) -> &Places
        ensures value { result.now ≡ self.now.identity.reserve }
        ensures valid { AreTexts self.now.held }
    {
        self.held.know();
        self.identity.reserve()
    }

    pub(crate) fn react(
        &mut self,
        alloc: Global,
        table: &TypeTable,
        input: Input,
    ) -> Result<Reaction, Memory>
        requires entries { HasEntries (seen table.now) core_entries }
        requires fits { InputFits (shape_at (seen table.now)) (plain_input input) }
        ensures { IfOk result (λ reaction. (self.new, plain_reaction reaction) ≡ holder.reacted self.old (plain_input input)) }
    {
        match input {
            Input::Content(origin, message) => self.take(alloc, table, origin, message),
            Input::Start
            | Input::Stop
            | Input::Tick
            | Input::Response(_, _)
            | Input::Failed(_, _)
            | Input::Down(_, _) => Ok(quiet(alloc)),
        }
    }

    fn take(
        &mut self,
        alloc: Global,
        table: &TypeTable,
        origin: Origin,
        message: Message,
    ) -> Result<Reaction, Memory>
        requires entries { HasEntries (seen table.now) core_entries }
        requires fits { FitsTable (seen table.now) message.content }
        ensures { IfOk result (λ reaction. (self.new, plain_reaction reaction) ≡ holder.given self.old origin message.content) }
    {
        let mut message = message;
        if has::<One<Text>>(alloc, &mut message)? {
            if origin.mid.number > 0 {
                return self.hold(alloc, table, origin, message);
            }
            return Ok(quiet(alloc));
        }
        if has::<One<Settle>>(alloc, &mut message)? {
            return self.settle(alloc);
        }
        Ok(answers(alloc, failed()))
    }

    fn hold(
        &mut self,
        alloc: Global,
        table: &TypeTable,
        origin: Origin,
        message: Message,
    ) -> Result<Reaction, Memory>
        requires entries { HasEntries (seen table.now) core_entries }
        requires fits { FitsTable (seen table.now) message.content }
        ensures { IfOk result (λ reaction. (self.new, plain_reaction reaction) ≡ holder.holds self.old origin (asked of_text message.content)) }
    {
        let mut message = message;
        match row_in::<One<Text>>(alloc, table, &mut message)? {
            Some(_) => {
                self.held.hold(origin, message)?;
                Ok(answers(alloc, Answer::Hold))
            }
            None => Ok(answers(alloc, failed())),
        }
    }

    fn settle(&mut self, alloc: Global) -> Result<Reaction, Memory>
        ensures { IfOk result (λ reaction. (self.new, plain_reaction reaction) ≡ holder.settles self.old) }
    {
        let number = self.held.len();
        let held = mem::replace(&mut self.held, HeldTexts::new(alloc));
        Ok(Reaction {
            outputs: held.deliver_all(alloc)?,
            answer: unsigned(alloc, number)?,
            quit: None,
        })
    }
}
