//! A cell keeps the number that it was given last, 0 at first, and answers it.
ghost use Rattle.std.specs.Prelude.{◌≡◌, true, IfOk};
ghost use Rattle.std.specs.Option.{option_map};
ghost use Rattle.caf_types.specs.TypeTable.{seen};
ghost use Rattle.caf_types.specs.Table.{shape_at};
ghost use Rattle.caf_words.specs.Datum.{is_i64};
ghost use Rattle.caf_message.specs.Entries.{HasEntries};
ghost use Rattle.caf_message.specs.Fits.{FitsTable};
ghost use Rattle.caf_actor.specs.PlainForms.{plain_input, plain_reaction};
ghost use Rattle.caf_actor.specs.Rules.{InputFits};
ghost use Rattle.caf_kinds.specs.Core.{core_entries};
ghost use Rattle.caf_kinds.specs.Cell as cell;

use crate::asking::{answers, done, failed, has, interface, quiet, row_in, signed, takes};
use crate::{Get, Identity, One, Put, Signed, Two, Typed, Unit};
use caf_actor::{Input, Reaction};
use caf_message::Message;
use caf_signature::Interface;
use caf_types::{Memory, Places, Seq, TypeTable};
use caf_words::Row;
use std::alloc::Global;

/// What every cell takes.
#[derive(Debug, Drop)]
pub struct CellKind;

impl Typed for CellKind {
    ghost interface = { cell.interface };

    fn interface(alloc: Global) -> Result<Interface, Memory> {
        let mut signatures = Seq::new(alloc);
        takes::<Two<Put, Signed>, One<Unit>>(alloc, &mut signatures)?;
        takes::<One<Get>, One<Signed>>(alloc, &mut signatures)?;
        interface(alloc, signatures)
    }
}

/// Keeps the number that it was given last, 0 at first, and answers it.
#[derive(Debug, Drop)]
pub struct Cell {
    pub(crate) identity: Identity<CellKind>,
    pub(crate) value: i64,
}

impl Cell {
    pub(crate) fn interface(&self) -> &Interface
        ensures value { result.now ≡ cell.interface }
        ensures valid { is_i64 self.now.value ≡ true }
    {
        know(self.value);
        self.identity.interface()
    }

    pub(crate) fn reserve(&self) -> &Places
        ensures value { result.now ≡ self.now.identity.reserve }
        ensures valid { is_i64 self.now.value ≡ true }
    {
        know(self.value);
        self.identity.reserve()
    }

    pub(crate) fn react(
        &mut self,
        alloc: Global,
        table: &TypeTable,
        input: Input,
    ) -> Result<Reaction, Memory>
        requires entries { HasEntries (seen table.now) core_entries }
        requires fits { InputFits (shape_at (seen table.now)) (plain_input input) }
        ensures { IfOk result (λ reaction. (self.new, plain_reaction reaction) ≡ cell.reacted self.old (plain_input input)) }
    {
        match input {
            Input::Content(_, message) => self.take(alloc, table, message),
            Input::Start
            | Input::Stop
            | Input::Tick
            | Input::Response(_, _)
            | Input::Failed(_, _)
            | Input::Down(_, _) => Ok(quiet(alloc)),
        }
    }

    fn take(
        &mut self,
        alloc: Global,
        table: &TypeTable,
        message: Message,
    ) -> Result<Reaction, Memory>
        requires entries { HasEntries (seen table.now) core_entries }
        requires fits { FitsTable (seen table.now) message.content }
        ensures { IfOk result (λ reaction. (self.new, plain_reaction reaction) ≡ cell.given self.old message.content) }
    {
        let mut message = message;
        if has::<Two<Put, Signed>>(alloc, &mut message)? {
            let asked = row_in(alloc, table, &mut message)?;
            return self.put(alloc, asked);
        }
        if has::<One<Get>>(alloc, &mut message)? {
            return Ok(answers(alloc, signed(alloc, self.value)?));
        }
        Ok(answers(alloc, failed()))
    }

    fn put(&mut self, alloc: Global, asked: Option<Two<Put, Signed>>) -> Result<Reaction, Memory>
        ensures { IfOk result (λ reaction. (self.new, plain_reaction reaction) ≡ cell.put self.old (option_map ⟦<Two<Put, Signed> as Row>⟧.means asked)) }
    {
        match asked {
            Some(Two(_, Signed(value))) => {
                self.value = value;
                Ok(answers(alloc, done(alloc)?))
            }
            None => Ok(answers(alloc, failed())),
        }
    }
}

/// That a number has 64 bits.
fn know(value: i64)
    ensures { is_i64 value ≡ true }
{
    let _ = value;
}
