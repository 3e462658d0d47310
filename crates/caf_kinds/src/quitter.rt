//! A quitter quits for the reason that it is told, and answers a text with itself.
ghost use Rattle.std.specs.Prelude.{◌≡◌, IfOk};
ghost use Rattle.std.specs.Option.{option_map};
ghost use Rattle.caf_types.specs.TypeTable.{seen};
ghost use Rattle.caf_types.specs.Table.{shape_at};
ghost use Rattle.caf_message.specs.Entries.{HasEntries};
ghost use Rattle.caf_message.specs.Fits.{FitsTable};
ghost use Rattle.caf_actor.specs.PlainForms.{plain_input, plain_reaction};
ghost use Rattle.caf_actor.specs.Rules.{InputFits};
ghost use Rattle.caf_kinds.specs.Core.{core_entries};
ghost use Rattle.caf_kinds.specs.Quitter as quitter;

use crate::asking::{answers, done, failed, has, interface, quiet, row_in, takes};
use crate::{Identity, Leave, One, Text, Two, Typed, Unit};
use caf_actor::{Answer, Input, Reaction};
use caf_message::Message;
use caf_signature::Interface;
use caf_types::{Memory, Reason, Seq, TypeTable};
use caf_words::Row;
use std::alloc::Global;

/// What every quitter takes.
#[derive(Debug, Drop)]
pub struct QuitterKind;

impl Typed for QuitterKind {
    ghost interface = { quitter.interface };

    fn interface(alloc: Global) -> Result<Interface, Memory> {
        let mut signatures = Seq::new(alloc);
        takes::<Two<Leave, Text>, One<Unit>>(alloc, &mut signatures)?;
        takes::<One<Text>, One<Text>>(alloc, &mut signatures)?;
        interface(alloc, signatures)
    }
}

/// Quits for the reason that it is told, and answers a text with itself.
#[derive(Debug, Drop)]
pub struct Quitter {
    pub(crate) identity: Identity<QuitterKind>,
}

impl Quitter {
    pub(crate) fn react(
        &mut self,
        alloc: Global,
        table: &TypeTable,
        input: Input,
    ) -> Result<Reaction, Memory>
        requires entries { HasEntries (seen table.now) core_entries }
        requires fits { InputFits (shape_at (seen table.now)) (plain_input input) }
        ensures { IfOk result (λ reaction. (self.new, plain_reaction reaction) ≡ quitter.reacted self.old (plain_input input)) }
    {
        match input {
            Input::Content(_, message) => reaction_to(alloc, table, message),
            Input::Start
            | Input::Stop
            | Input::Tick
            | Input::Response(_, _)
            | Input::Failed(_, _)
            | Input::Down(_, _) => Ok(quiet(alloc)),
        }
    }
}

fn reaction_to(alloc: Global, table: &TypeTable, message: Message) -> Result<Reaction, Memory>
    requires entries { HasEntries (seen table.now) core_entries }
    requires fits { FitsTable (seen table.now) message.content }
    ensures { IfOk result (λ reaction. plain_reaction reaction ≡ quitter.reaction_to message.content) }
{
    let mut message = message;
    if has::<Two<Leave, Text>>(alloc, &mut message)? {
        let asked = row_in(alloc, table, &mut message)?;
        return leave(alloc, asked);
    }
    if has::<One<Text>>(alloc, &mut message)? {
        return Ok(answers(alloc, Answer::Value(message)));
    }
    Ok(answers(alloc, failed()))
}

fn leave(alloc: Global, asked: Option<Two<Leave, Text>>) -> Result<Reaction, Memory>
    ensures { IfOk result (λ reaction. plain_reaction reaction ≡ quitter.leaves (option_map ⟦<Two<Leave, Text> as Row>⟧.means asked)) }
{
    match asked {
        Some(Two(_, Text(name))) => quit(alloc, Reason::named(name.as_str())),
        None => Ok(answers(alloc, failed())),
    }
}

/// A name that is no reason is answered by the error `failed`.
fn quit(alloc: Global, reason: Option<Reason>) -> Result<Reaction, Memory>
    ensures { IfOk result (λ reaction. plain_reaction reaction ≡ quitter.quits reason) }
{
    match reason {
        Some(reason) => Ok(Reaction {
            outputs: Seq::new(alloc),
            answer: done(alloc)?,
            quit: Some(reason),
        }),
        None => Ok(answers(alloc, failed())),
    }
}
