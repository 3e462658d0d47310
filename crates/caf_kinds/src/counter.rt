//! A counter tells its peer the postings of each chunk, and counts the chunks.
ghost use Rattle.std.specs.Prelude.{◌≡◌, map, IfOk};
ghost use Rattle.std.specs.Option.{option_map};
ghost use Rattle.caf_types.specs.TypeTable.{seen};
ghost use Rattle.caf_types.specs.Table.{shape_at};
ghost use Rattle.caf_message.specs.Entries.{HasEntries};
ghost use Rattle.caf_message.specs.Fits.{FitsTable};
ghost use Rattle.caf_actor.specs.PlainForms.{plain_input, plain_reaction};
ghost use Rattle.caf_actor.specs.Rules.{InputFits};
ghost use Rattle.caf_kinds.specs.Core.{core_entries};
ghost use Rattle.caf_kinds.specs.Pipeline.{chunk_in, postings_content};
ghost use Rattle.caf_kinds.specs.Counter as counter;

use crate::asking::{answers, failed, has, interface, quiet, row_in, sends, takes, unsigned};
use crate::{Chunk, Count, Identity, Item, One, Postings, Typed, Unit, Unsigned};
use caf_actor::{Input, Reaction};
use caf_index::{Posting, postings};
use caf_message::{Message, MessageFault};
use caf_signature::Interface;
use caf_types::{Memory, Seq, TypeTable};
use caf_words::Row;
use std::alloc::Global;

/// What every counter takes.
#[derive(Debug, Drop)]
pub struct CounterKind;

impl Typed for CounterKind {
    ghost interface = { counter.interface };

    fn interface(alloc: Global) -> Result<Interface, Memory> {
        let mut signatures = Seq::new(alloc);
        takes::<One<Chunk>, One<Unit>>(alloc, &mut signatures)?;
        takes::<One<Count>, One<Unsigned>>(alloc, &mut signatures)?;
        interface(alloc, signatures)
    }
}

/// Tells its peer the postings of each chunk, and counts the chunks.
#[derive(Debug, Drop)]
pub struct Counter {
    pub(crate) identity: Identity<CounterKind>,
    pub(crate) count: u64,
}

impl Counter {
    pub(crate) fn react(
        &mut self,
        alloc: Global,
        table: &TypeTable,
        input: Input,
    ) -> Result<Reaction, Memory>
        requires entries { HasEntries (seen table.now) core_entries }
        requires fits { InputFits (shape_at (seen table.now)) (plain_input input) }
        ensures { IfOk result (λ reaction. (self.new, plain_reaction reaction) ≡ counter.reacted self.old (plain_input input)) }
    {
        match input {
            Input::Content(_, message) => self.take(alloc, table, message),
            Input::Start
            | Input::Stop
            | Input::Tick
            | Input::Response(_, _)
            | Input::Failed(_, _)
            | Input::Down(_, _) => Ok(quiet(alloc)),
        }
    }

    fn take(
        &mut self,
        alloc: Global,
        table: &TypeTable,
        message: Message,
    ) -> Result<Reaction, Memory>
        requires entries { HasEntries (seen table.now) core_entries }
        requires fits { FitsTable (seen table.now) message.content }
        ensures { IfOk result (λ reaction. (self.new, plain_reaction reaction) ≡ counter.given self.old message.content) }
    {
        let mut message = message;
        if has::<One<Chunk>>(alloc, &mut message)? {
            let asked = row_in(alloc, table, &mut message)?;
            return self.take_chunk(alloc, asked);
        }
        if has::<One<Count>>(alloc, &mut message)? {
            return Ok(answers(alloc, unsigned(alloc, self.count)?));
        }
        Ok(answers(alloc, failed()))
    }

    fn take_chunk(&mut self, alloc: Global, asked: Option<One<Chunk>>) -> Result<Reaction, Memory>
        ensures { IfOk result (λ reaction. (self.new, plain_reaction reaction) ≡ counter.on_chunk self.old (chunk_in (option_map ⟦<One<Chunk> as Row>⟧.means asked))) }
    {
        match asked {
            Some(One(chunk)) => {
                self.count = self.count.saturating_add(1);
                let postings = postings_at(alloc, &chunk)?;
                self.tell(alloc, postings)
            }
            None => Ok(answers(alloc, failed())),
        }
    }

    /// Tells the peer the postings. Where these are too large for a message, it tells nothing, and
    /// answers the error `failed`.
    fn tell(&self, alloc: Global, postings: Postings) -> Result<Reaction, Memory>
        ensures { IfOk result (λ reaction. plain_reaction reaction ≡ counter.told self.now (postings_content postings)) }
    {
        match Message::of(alloc, &One(postings)) {
            Ok(message) => sends(alloc, self.identity.peers().get(0), message),
            Err(MessageFault::Large) => Ok(answers(alloc, failed())),
            Err(MessageFault::Memory) => Err(Memory),
        }
    }
}

/// The postings of the chunk's bytes, from its line on.
fn postings_at(alloc: Global, chunk: &Chunk) -> Result<Postings, Memory>
    ensures { IfOk result (λ postings. postings ≡ counter.postings_at chunk.now) }
{
    let listed = postings(alloc, chunk.line, chunk.bytes.as_slice())?;
    Ok(Postings {
        file: chunk.file,
        items: items_of(alloc, listed)?,
    })
}

fn items_of(alloc: Global, postings: Seq<Posting>) -> Result<Seq<Item>, Memory>
    ensures { IfOk result (λ items. items ≡ map counter.item_of postings) }
{
    let mut items = Seq::new(alloc);
    for posting in postings.into_vec() {
        let Posting { word, line } = posting;
        items.push(Item { word, line })?;
    }
    Ok(items)
}
