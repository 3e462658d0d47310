//! A lines tells its peer how many lines and bytes each chunk has.
ghost use Rattle.std.specs.Prelude.{◌≡◌, length, count_by, IfOk};
ghost use Rattle.std.specs.Option.{option_map};
ghost use Rattle.caf_types.specs.TypeTable.{seen};
ghost use Rattle.caf_types.specs.Table.{shape_at};
ghost use Rattle.caf_message.specs.Entries.{HasEntries};
ghost use Rattle.caf_message.specs.Fits.{FitsTable};
ghost use Rattle.caf_actor.specs.PlainForms.{plain_input, plain_reaction};
ghost use Rattle.caf_actor.specs.Rules.{InputFits};
ghost use Rattle.caf_index.specs.Words.{is_line_end};
ghost use Rattle.caf_index.specs.Chunks.{lines_of};
ghost use Rattle.caf_kinds.specs.Core.{core_entries};
ghost use Rattle.caf_kinds.specs.Pipeline.{chunk_in};
ghost use Rattle.caf_kinds.specs.Lines as lines;

use crate::asking::{answers, failed, has, interface, quiet, row_in, sends, small_message, takes};
use crate::{Chunk, Extent, Identity, One, Typed, Unit};
use caf_actor::{Input, Reaction};
use caf_message::Message;
use caf_signature::Interface;
use caf_types::{Memory, Seq, TypeTable};
use caf_words::Row;
use std::alloc::Global;

/// What every lines takes.
#[derive(Debug, Drop)]
pub struct LinesKind;

impl Typed for LinesKind {
    ghost interface = { lines.interface };

    fn interface(alloc: Global) -> Result<Interface, Memory> {
        let mut signatures = Seq::new(alloc);
        takes::<One<Chunk>, One<Unit>>(alloc, &mut signatures)?;
        interface(alloc, signatures)
    }
}

/// Tells its peer how many lines and bytes each chunk has.
#[derive(Debug, Drop)]
pub struct Lines {
    pub(crate) identity: Identity<LinesKind>,
}

impl Lines {
    pub(crate) fn react(
        &mut self,
        alloc: Global,
        table: &TypeTable,
        input: Input,
    ) -> Result<Reaction, Memory>
        requires entries { HasEntries (seen table.now) core_entries }
        requires fits { InputFits (shape_at (seen table.now)) (plain_input input) }
        ensures { IfOk result (λ reaction. (self.new, plain_reaction reaction) ≡ lines.reacted self.old (plain_input input)) }
    {
        match input {
            Input::Content(_, message) => self.take(alloc, table, message),
            Input::Start
            | Input::Stop
            | Input::Tick
            | Input::Response(_, _)
            | Input::Failed(_, _)
            | Input::Down(_, _) => Ok(quiet(alloc)),
        }
    }

    fn take(&self, alloc: Global, table: &TypeTable, message: Message) -> Result<Reaction, Memory>
        requires entries { HasEntries (seen table.now) core_entries }
        requires fits { FitsTable (seen table.now) message.content }
        ensures { IfOk result (λ reaction. plain_reaction reaction ≡ lines.given self.now message.content) }
    {
        let mut message = message;
        if has::<One<Chunk>>(alloc, &mut message)? {
            let asked = row_in(alloc, table, &mut message)?;
            return self.measure(alloc, asked);
        }
        Ok(answers(alloc, failed()))
    }

    fn measure(&self, alloc: Global, asked: Option<One<Chunk>>) -> Result<Reaction, Memory>
        ensures { IfOk result (λ reaction. plain_reaction reaction ≡ lines.on_chunk self.now (chunk_in (option_map ⟦<One<Chunk> as Row>⟧.means asked))) }
    {
        match asked {
            Some(One(chunk)) => {
                let extent = extent_of(&chunk);
                let message = small_message(alloc, &One(extent))?;
                sends(alloc, self.identity.peers().get(0), message)
            }
            None => Ok(answers(alloc, failed())),
        }
    }
}

fn extent_of(chunk: &Chunk) -> Extent
    ensures { result ≡ lines.extent_of chunk.now }
{
    Extent {
        file: chunk.file,
        lines: line_count(chunk.bytes.as_slice()),
        bytes: chunk.bytes.len(),
    }
}

/// How many lines bytes have: as many as line ends, and one more where the last one has no end.
fn line_count(bytes: &[u8]) -> u64
    ensures { result ≡ length (lines_of bytes.now) }
{
    let ended = line_ends(bytes);
    if ends_open(bytes) { ended + 1 } else { ended }
}

fn line_ends(bytes: &[u8]) -> u64
    ensures { result ≡ count_by is_line_end bytes.now }
{
    bytes.iter().filter(|byte| **byte == b'\n').count() as u64
}

/// Whether the last line has no end.
fn ends_open(bytes: &[u8]) -> bool
    ensures { result ≡ lines.ends_open bytes.now }
{
    match bytes.last() {
        Some(byte) => *byte != b'\n',
        None => false,
    }
}
