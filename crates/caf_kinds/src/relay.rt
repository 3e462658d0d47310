//! A relay hands each chunk on, in lower case, to one of its peers in turn.
ghost use Rattle.std.specs.Prelude.{◌≡◌, map, IfOk};
ghost use Rattle.std.specs.Option.{option_map, option_copied};
ghost use Rattle.caf_types.specs.TypeTable.{seen};
ghost use Rattle.caf_types.specs.Table.{shape_at};
ghost use Rattle.caf_words.specs.Several.{ids_of};
ghost use Rattle.caf_message.specs.Content.{ids_in};
ghost use Rattle.caf_message.specs.Entries.{HasEntries};
ghost use Rattle.caf_message.specs.Fits.{FitsTable};
ghost use Rattle.caf_actor.specs.PlainForms.{plain_input, plain_reaction};
ghost use Rattle.caf_actor.specs.Rules.{InputFits};
ghost use Rattle.caf_index.specs.Words.{lower_case};
ghost use Rattle.caf_kinds.specs.Core.{core_entries};
ghost use Rattle.caf_kinds.specs.Asking.{type_ids};
ghost use Rattle.caf_kinds.specs.Pipeline.{of_chunk, chunk_in, chunk_content};
ghost use Rattle.caf_kinds.specs.Relay as relay;

use crate::asking::{
    answers, failed, has, has_same_ids, interface, passed_to, quiet, row_in, sends, takes,
};
use crate::{Chunk, Count, Identity, One, Typed, Unit, Unsigned};
use caf_actor::{Input, Reaction};
use caf_message::Message;
use caf_signature::Interface;
use caf_types::{Memory, Octets, Places, Seq, TypeId, TypeIds, TypeTable};
use caf_words::Row;
use std::alloc::Global;

/// What every relay takes.
#[derive(Debug, Drop)]
pub struct RelayKind;

impl Typed for RelayKind {
    ghost interface = { relay.interface };

    fn interface(alloc: Global) -> Result<Interface, Memory> {
        let mut signatures = Seq::new(alloc);
        takes::<One<Chunk>, One<Unit>>(alloc, &mut signatures)?;
        takes::<One<Count>, One<Unsigned>>(alloc, &mut signatures)?;
        interface(alloc, signatures)
    }
}

/// Hands each chunk on, in lower case, to one of its peers in turn.
#[derive(Debug, Drop)]
pub struct Relay {
    pub(crate) identity: Identity<RelayKind>,
}

impl Relay {
    pub(crate) fn react(
        &mut self,
        alloc: Global,
        table: &TypeTable,
        input: Input,
    ) -> Result<Reaction, Memory>
        requires entries { HasEntries (seen table.now) core_entries }
        requires fits { InputFits (shape_at (seen table.now)) (plain_input input) }
        ensures { IfOk result (λ reaction. (self.new, plain_reaction reaction) ≡ relay.reacted self.old (plain_input input)) }
    {
        match input {
            Input::Content(_, message) => self.take(alloc, table, message),
            Input::Start
            | Input::Stop
            | Input::Tick
            | Input::Response(_, _)
            | Input::Failed(_, _)
            | Input::Down(_, _) => Ok(quiet(alloc)),
        }
    }

    fn take(&self, alloc: Global, table: &TypeTable, message: Message) -> Result<Reaction, Memory>
        requires entries { HasEntries (seen table.now) core_entries }
        requires fits { FitsTable (seen table.now) message.content }
        ensures { IfOk result (λ reaction. plain_reaction reaction ≡ relay.given self.now message.content) }
    {
        let mut message = message;
        if has::<One<Chunk>>(alloc, &mut message)? {
            let asked = row_in(alloc, table, &mut message)?;
            return self.hand_on(alloc, message, asked);
        }
        if has::<One<Count>>(alloc, &mut message)? {
            return Ok(answers(alloc, passed_to(self.identity.peers().get(0))));
        }
        Ok(answers(alloc, failed()))
    }

    /// Changes the chunk in its message, and tells the message to the chunk's peer.
    fn hand_on(
        &self,
        alloc: Global,
        message: Message,
        asked: Option<One<Chunk>>,
    ) -> Result<Reaction, Memory>
        requires { ids_in message.content ≡ type_ids of_chunk }
        ensures { IfOk result (λ reaction. plain_reaction reaction ≡ relay.on_chunk self.now (chunk_in (option_map ⟦<One<Chunk> as Row>⟧.means asked))) }
    {
        match asked {
            Some(One(chunk)) => {
                let number = chunk.number;
                let message = lowered(alloc, message, chunk)?;
                sends(alloc, peer_for(self.identity.peers(), number), message)
            }
            None => Ok(answers(alloc, failed())),
        }
    }
}

/// The message of the chunk with `A` to `Z` as `a` to `z`, which takes the place of what stood in it.
fn lowered(alloc: Global, message: Message, chunk: Chunk) -> Result<Message, Memory>
    requires { ids_in message.content ≡ type_ids of_chunk }
    ensures { IfOk result (λ message. message.content ≡ chunk_content (relay.lowered chunk)) }
{
    let mut message = message;
    let row = One(in_lower_case(chunk));
    match message.replace(alloc, &row) {
        Ok(_) => Ok(message),
        // The length stays, so that it is never too large.
        Err(_) => Err(Memory),
    }
}

fn in_lower_case(chunk: Chunk) -> Chunk
    ensures { result ≡ relay.lowered chunk }
{
    let Chunk {
        file,
        number,
        line,
        bytes,
    } = chunk;
    Chunk {
        file,
        number,
        line,
        bytes: lower_bytes(bytes),
    }
}

fn lower_bytes(bytes: Octets) -> Octets
    ensures { result ≡ map lower_case bytes }
{
    let mut bytes = bytes.into_vec();
    bytes.make_ascii_lowercase();
    Seq::of_vec(bytes)
}

/// The peer at the position (number modulo the number of peers).
fn peer_for(peers: &Places, number: u64) -> Option<&u32>
    ensures { option_copied result ≡ relay.peer_for peers.now number }
{
    let count = peers.len();
    if count == 0 {
        return None;
    }
    peers.get(number % count)
}

/// Whether content of these types is passed on: that is [count].
pub(crate) fn delegates(types: &TypeIds) -> bool
    ensures { result ≡ relay.delegates (ids_of types.now) }
{
    has_same_ids([TypeId(210)].as_slice(), types.as_slice())
}
