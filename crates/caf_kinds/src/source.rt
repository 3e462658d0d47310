//! A source tells the chunks of its files to its takers, some at a time, and then to its last peer how
//! many there were.
ghost use Rattle.std.specs.Prelude.{◌≡◌, [], ◌∷◌, ◌+◌, ◌<◌, ◌≤◌, ◌++◌, true, length, map, slice_index_or, IfOk, OnOk};
ghost use Rattle.std.specs.List.{AllByRecursion};
ghost use Rattle.std.specs.Option.{option_copied};
ghost use Rattle.caf_actor.specs.PlainForms.{plain_input, plain_reaction, plain_output};
ghost use Rattle.caf_kinds.specs.Starting.{has_short_lines};
ghost use Rattle.caf_kinds.specs.declared.contents.Chunk.{Chunk};
ghost use Rattle.caf_kinds.specs.Pipeline.{finish_content};
ghost use Rattle.caf_kinds.specs.Source as source;

use crate::asking::{
    answers, done, failed, has, interface, quiet, sends, small_message, takes, tell,
};
use crate::{FileChunks, Finish, Identity, More, One, Start, Typed, Unit};
use caf_actor::{Input, Output, Reaction};
use caf_message::Message;
use caf_signature::Interface;
use caf_types::{Memory, Octets, Places, Priority, Seq};
use std::alloc::Global;
use std::marker::Model;

/// How many chunks one [more] tells at most.
const BATCH: u64 = 32;

/// What every source takes.
#[derive(Debug, Drop)]
pub struct SourceKind;

impl Typed for SourceKind {
    ghost interface = { source.interface };

    fn interface(alloc: Global) -> Result<Interface, Memory> {
        let mut signatures = Seq::new(alloc);
        takes::<One<Start>, One<Unit>>(alloc, &mut signatures)?;
        takes::<One<More>, One<Unit>>(alloc, &mut signatures)?;
        interface(alloc, signatures)
    }
}

/// How far a source is.
#[derive(Clone, Copy, Debug, PartialEq, Eq, Drop)]
pub enum Stage {
    /// No [start] has come.
    Waiting,
    /// It tells chunks.
    Telling,
    /// All were told.
    Done,
}

/// Tells the chunks of its files to its takers, which are all peers but the last, some at a time, and
/// then to its last peer how many there were.
#[derive(Debug, Drop)]
pub struct Source {
    identity: Identity<SourceKind>,
    chunks: FileChunks,
    told: u64,
    stage: Stage,
}

impl Model for Source {
    ghost use Rattle.std.specs.Prelude.{◌≤◌, length};
    ghost use Rattle.caf_kinds.specs.Source.{Sourced};

    ghost Value = { Sourced };

    ghost view = { λ it. record { identity = it.identity; chunks = it.chunks; told = it.told; stage = it.stage } };

    ghost invariant = { λ it. length it.identity.peers ≤ 17 };
}

impl Source {
    /// A source of these files, which has told nothing.
    pub(crate) fn new(
        alloc: Global,
        identity: Identity<SourceKind>,
        files: Seq<Octets>,
    ) -> Result<Source, Memory>
        requires peers { length identity.peers ≤ 17 }
        requires lines { AllByRecursion (λ bytes. has_short_lines 0 bytes ≡ true) files }
        ensures { IfOk result (λ it. it ≡ source.started identity files) }
    {
        let chunks = FileChunks::of(alloc, files)?;
        Ok(Source {
            identity,
            chunks,
            told: 0,
            stage: Stage::Waiting,
        })
    }

    pub(crate) fn interface(&self) -> &Interface
        ensures value { result.now ≡ source.interface }
        ensures valid { source.IsValid self.now }
    {
        self.chunks.know();
        self.identity.interface()
    }

    pub(crate) fn reserve(&self) -> &Places
        ensures value { result.now ≡ self.now.identity.reserve }
        ensures valid { source.IsValid self.now }
    {
        self.chunks.know();
        self.identity.reserve()
    }

    pub(crate) fn react(&mut self, alloc: Global, input: Input) -> Result<Reaction, Memory>
        ensures { IfOk result (λ reaction. (self.new, plain_reaction reaction) ≡ source.reacted self.old (plain_input input)) }
    {
        match input {
            Input::Content(_, message) => self.take(alloc, message),
            Input::Start
            | Input::Stop
            | Input::Tick
            | Input::Response(_, _)
            | Input::Failed(_, _)
            | Input::Down(_, _) => Ok(quiet(alloc)),
        }
    }

    fn take(&mut self, alloc: Global, message: Message) -> Result<Reaction, Memory>
        ensures { IfOk result (λ reaction. (self.new, plain_reaction reaction) ≡ source.given self.old message.content) }
    {
        let mut message = message;
        if has::<One<Start>>(alloc, &mut message)? {
            return self.start(alloc);
        }
        if has::<One<More>>(alloc, &mut message)? {
            return self.take_more(alloc);
        }
        Ok(answers(alloc, failed()))
    }

    fn start(&mut self, alloc: Global) -> Result<Reaction, Memory>
        ensures { IfOk result (λ reaction. (self.new, plain_reaction reaction) ≡ source.on_start self.old.stage self.old) }
    {
        match self.stage {
            Stage::Waiting => {
                self.stage = Stage::Telling;
                let place = self.identity.place();
                sends(alloc, Some(&place), more(alloc)?)
            }
            Stage::Telling | Stage::Done => Ok(answers(alloc, done(alloc)?)),
        }
    }

    fn take_more(&mut self, alloc: Global) -> Result<Reaction, Memory>
        ensures { IfOk result (λ reaction. (self.new, plain_reaction reaction) ≡ source.on_more self.old.stage self.old) }
    {
        match self.stage {
            Stage::Telling => self.go_on(alloc),
            Stage::Waiting | Stage::Done => Ok(answers(alloc, done(alloc)?)),
        }
    }

    /// Tells the next chunks, and what follows them.
    fn go_on(&mut self, alloc: Global) -> Result<Reaction, Memory>
        ensures { IfOk result (λ reaction. (self.new, plain_reaction reaction) ≡ source.goes_on self.old) }
    {
        let end = self.batch_end();
        let reaction = self.told_on(alloc, end)?;
        let stage = self.stage_after(end);
        self.told = end;
        self.stage = stage;
        Ok(reaction)
    }

    fn told_on(&self, alloc: Global, end: u64) -> Result<Reaction, Memory>
        requires { end ≡ self.now.told + length (source.next_chunks self.now) }
        ensures { IfOk result (λ reaction. plain_reaction reaction ≡ source.reaction_on self.now) }
    {
        let mut outputs = self.next_told(alloc, end)?;
        self.follow(alloc, end, &mut outputs)?;
        Ok(Reaction {
            outputs,
            answer: done(alloc)?,
            quit: None,
        })
    }

    fn stage_after(&self, end: u64) -> Stage
        requires { end ≡ self.now.told + length (source.next_chunks self.now) }
        ensures { result ≡ source.stage_with (source.chunks_left self.now) }
    {
        let chunks = self.chunks.len();
        if end < chunks {
            Stage::Telling
        } else {
            Stage::Done
        }
    }

    /// How many chunks will be told after this time.
    fn batch_end(&self) -> u64
        ensures { result ≡ self.now.told + length (source.next_chunks self.now) }
    {
        let left = self.chunks.len().saturating_sub(self.told);
        if left < BATCH {
            self.told + left
        } else {
            self.told + BATCH
        }
    }

    /// The next chunks, each told to all takers.
    fn next_told(&self, alloc: Global, end: u64) -> Result<Seq<Output>, Memory>
        requires { end ≡ self.now.told + length (source.next_chunks self.now) }
        ensures { IfOk result (λ outputs. map plain_output outputs ≡ map (source.tells_all self.now) (source.next_chunks self.now)) }
    {
        let mut outputs = Seq::new(alloc);
        for number in self.told..end {
            outputs.push(self.told_to_all(alloc, number)?)?;
        }
        Ok(outputs)
    }

    /// The chunk, told to all takers in one message.
    fn told_to_all(&self, alloc: Global, number: u64) -> Result<Output, Memory>
        requires { number < length self.now.chunks }
        ensures { IfOk result (λ output. (c : Chunk) → plain_output output ≡ source.tells_all self.now (slice_index_or self.now.chunks number c)) }
    {
        let takers = self.takers(alloc)?;
        let message = self.chunks.message(alloc, number)?;
        Ok(Output::TellMany(takers, Priority::Normal, message))
    }

    /// All peers but the last.
    fn takers(&self, alloc: Global) -> Result<Places, Memory>
        ensures { IfOk result (λ takers. takers ≡ source.takers self.now) }
    {
        let peers = self.identity.peers().as_slice();
        let takers = &peers[..peers.len().saturating_sub(1)];
        Ok(Seq::of_vec(Vec::from_slice(alloc, takers)?))
    }

    /// Adds what follows the chunks of this time: [more] to itself where some are left, else [finish] to
    /// the last peer.
    fn follow(&self, alloc: Global, end: u64, outputs: &mut Seq<Output>) -> Result<(), Memory>
        requires { end ≡ self.now.told + length (source.next_chunks self.now) }
        ensures { OnOk result (map plain_output outputs.new ≡ map plain_output outputs.old ++ source.follows self.now (source.chunks_left self.now)) }
    {
        let chunks = self.chunks.len();
        if end < chunks {
            self.tell_itself(alloc, outputs)
        } else {
            self.tell_last(alloc, outputs)
        }
    }

    fn tell_itself(&self, alloc: Global, outputs: &mut Seq<Output>) -> Result<(), Memory>
        ensures { OnOk result (map plain_output outputs.new ≡ map plain_output outputs.old ++ source.tells_itself self.now ∷ []) }
    {
        let place = self.identity.place();
        tell(outputs, Some(&place), more(alloc)?)
    }

    fn tell_last(&self, alloc: Global, outputs: &mut Seq<Output>) -> Result<(), Memory>
        ensures { OnOk result (map plain_output outputs.new ≡ map plain_output outputs.old ++ source.follows self.now []) }
    {
        let finish = finish(alloc, self.chunks.len())?;
        tell(outputs, self.last_peer(), finish)
    }

    fn last_peer(&self) -> Option<&u32>
        ensures { option_copied result ≡ source.last_peer self.now }
    {
        let peers = self.identity.peers();
        peers.get(peers.len().saturating_sub(1))
    }
}

/// The message [more].
fn more(alloc: Global) -> Result<Message, Memory>
    ensures { IfOk result (λ message. message.content ≡ source.more_content) }
{
    small_message(alloc, &One(More::new()))
}

/// The message [finish] with that number of chunks.
fn finish(alloc: Global, chunks: u64) -> Result<Message, Memory>
    ensures { IfOk result (λ message. message.content ≡ finish_content (source.finish_of chunks)) }
{
    small_message(alloc, &One(Finish { chunks }))
}
