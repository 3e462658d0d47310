//! One scripted actor on a stage: letters go in, and lines that say what it sent come out.
ghost use Rattle.std.specs.Prelude.{◌≡◌, ◌≢◌, ◌<◌, [], IfOk, OnOk, map, min};
ghost use Rattle.std.specs.List.{AllByRecursion};
ghost use Rattle.caf_types.specs.Table.{built_in, shape_at};
ghost use Rattle.caf_message.specs.Envelope.{plain_envelope, plain_body, EnvelopeFits, BodyFits};
ghost use Rattle.caf_message.specs.declared.envelope.Taken.{Taken};

use crate::rows::{Nothing, Number};
use crate::{Act, Cue, Note, Scripted};
use caf_actor::{Actor, Post};
use caf_message::{Batch, Body, Envelope, Message, MessageFault};
use caf_signature::{Interface, Signature};
use caf_types::{
    Memory, Mid, Notice, PLACES, Places, Priority, Reason, Sec, Seq, TypeId, TypeIds, TypeTable,
};
use std::alloc::Global;
use std::marker::Model;

/// What stands in a letter or a line.
#[derive(Clone, Copy, Debug, PartialEq, Eq, Drop)]
pub enum What {
    /// Content of type `unsigned`.
    Number(u64),
    /// Content of type `unit`.
    Nothing,
    /// An error that answers a request.
    Failure(Sec),
    /// A notice.
    Told(Notice),
    /// Content of other types. In a letter it stands for content of type `unit`.
    Other,
}

/// What the actor takes.
#[derive(Clone, Copy, Debug, PartialEq, Eq, Drop)]
pub struct Letter {
    /// The place that sent it.
    pub sender: u32,
    /// Its sender's number for it.
    pub seq: u64,
    /// Whose request it is or answers, if it is or does.
    pub mid: Mid,
    /// Which of the two lists it goes to.
    pub priority: Priority,
    /// Its sender's stamp.
    pub stamp: u32,
    /// What stands in it.
    pub what: What,
    /// The number of the batch that it comes in, below 8.
    pub batch: u8,
}

/// What the actor sent.
#[derive(Clone, Copy, Debug, PartialEq, Eq, Drop)]
pub struct Line {
    /// The place that it goes to.
    pub to: u32,
    /// The actor's number for it at that place.
    pub seq: u64,
    /// Whose request it is or answers, if it is or does.
    pub mid: Mid,
    /// Which of the two lists it goes to.
    pub priority: Priority,
    /// The stamp of the batch at which it was sent.
    pub stamp: u64,
    /// What stands in it.
    pub what: What,
}

impl Line {
    /// The line of the actor at the place `sender`, as a letter of that batch. The stamp stops at
    /// 2^32 - 1.
    pub fn letter(&self, sender: u32, batch: u8) -> Letter
        ensures { result ≡ record { sender = sender; seq = self.now.seq; mid = self.now.mid; priority = self.now.priority; stamp = min self.now.stamp 4294967295; what = self.now.what; batch = batch } }
    {
        Letter {
            sender,
            seq: self.seq,
            mid: self.mid,
            priority: self.priority,
            stamp: self.stamp.min(4_294_967_295) as u32,
            what: self.what,
            batch,
        }
    }
}

/// What the actor is.
#[derive(Clone, Copy, Debug)]
pub struct Part<'a> {
    /// Its place.
    pub place: u32,
    /// Whom it sends to.
    pub peers: &'a [u32],
    /// The places of its children.
    pub reserve: &'a [u32],
    /// Whether it is a child that nobody has started.
    pub is_vacant: bool,
    /// What it does, content by content.
    pub acts: &'a [Act],
    /// What it does at the other inputs, input by input.
    pub cues: &'a [Cue],
    /// Whether it keeps the first input of its interface for later.
    pub is_asleep: bool,
    /// Whether its interface has [unit] to [unit] beside [unsigned] to [unsigned].
    pub takes_unit: bool,
}

/// What came of a play.
#[derive(Debug, Drop)]
pub struct Played {
    /// What the actor sent, in order.
    pub lines: Seq<Line>,
    /// What it was given besides content.
    pub notes: Seq<Note>,
    /// How many envelopes it handled.
    pub handled: u64,
    /// How many batches it took.
    pub batches: u64,
    /// Why it quit, if it did.
    pub quit: Option<Reason>,
    /// The place where it is.
    pub place: u32,
    /// The stamp of its last batch, 0 before the first one.
    pub stamp: u64,
}

/// A scripted actor and the table of the built-in types.
#[derive(Drop)]
pub struct Stage {
    alloc: Global,
    table: TypeTable,
    actor: Actor<Scripted>,
}

impl Model for Stage {
    ghost use Rattle.caf_actor.specs.Actor.{ActorState, CachesFit};
    ghost use Rattle.caf_types.specs.Table.{built_in, shape_at};
    ghost use Rattle.caf_types.specs.TypeTable.{seen};
    ghost use Rattle.caf_scripted.specs.declared.scripted.Scripted.{Scripted};
    ghost use Rattle.std.specs.Prelude.{◌≡◌, false};

    ghost Value = { ActorState Scripted };

    ghost view = { λ stage. stage.actor };

    ghost invariant = { λ stage. (seen stage.table ≡ built_in) × (stage.actor.is_broken ≡ false → CachesFit (shape_at built_in) stage.actor.snapshot.caches) };
}

/// A new actor takes the letters, batch by batch: first those of batch 0, last those of batch 7.
pub fn play(alloc: Global, part: Part, letters: &[Letter]) -> Result<Played, MessageFault> {
    let mut stage = Stage::new(alloc, part)?;
    let mut lines = Seq::new(alloc);
    for batch in 0..8 {
        stage.take(batch, letters, &mut lines)?;
    }
    Ok(stage.played(lines)?)
}

impl Stage {
    /// The actor at its beginning. A place beyond the last one is the last one.
    pub fn new(alloc: Global, part: Part) -> Result<Stage, Memory> {
        let table = TypeTable::new(alloc)?;
        let place = if part.place < PLACES {
            part.place
        } else {
            PLACES - 1
        };
        let scripted = Scripted {
            place,
            peers: Places::of_vec(Vec::from_slice(alloc, part.peers)?),
            reserve: Places::of_vec(Vec::from_slice(alloc, part.reserve)?),
            interface: interface(alloc, part.takes_unit)?,
            acts: Seq::of_vec(Vec::from_slice(alloc, part.acts)?),
            cues: Seq::of_vec(Vec::from_slice(alloc, part.cues)?),
            done: 0,
            is_asleep: part.is_asleep,
            notes: Seq::new(alloc),
        };
        let actor = if part.is_vacant {
            Actor::vacant(alloc, place, scripted, 0)?
        } else {
            Actor::new(alloc, place, scripted, 0)?
        };
        Ok(Stage {
            alloc,
            table,
            actor,
        })
    }

    /// The actor takes the letters of that batch, and its lines come behind the others.
    pub fn take(
        &mut self,
        number: u8,
        letters: &[Letter],
        lines: &mut Seq<Line>,
    ) -> Result<(), MessageFault> {
        let batch = batch_of(self.alloc, number, letters)?;
        let posts = self.take_batch(batch)?;
        add_lines(self.alloc, lines, posts)?;
        Ok(())
    }

    /// The actor takes a batch, where it isn't empty and the actor's stamp is below 2^40. What it
    /// sends comes back in order.
    pub fn take_batch(&mut self, batch: Batch) -> Result<Seq<Post>, MessageFault>
        requires fits { AllByRecursion (EnvelopeFits (shape_at built_in)) (map plain_envelope batch) }
        requires stamps { AllByRecursion (λ (e : Taken). e.stamp < 1099511627776) (map plain_envelope batch) }
    {
        if batch.as_slice().is_empty() || self.actor.stamp() >= 1 << 40 {
            return Ok(Seq::new(self.alloc));
        }
        let posts = self.actor.batch(self.alloc, &self.table, batch)?;
        Ok(posts)
    }

    /// What came of it, with these lines.
    pub fn played(self, lines: Seq<Line>) -> Result<Played, Memory> {
        let behavior = self.actor.behavior();
        let notes = Vec::from_slice(self.alloc, behavior.notes.as_slice())?;
        Ok(Played {
            lines,
            notes: Seq::of_vec(notes),
            handled: self.actor.handled(),
            batches: self.actor.journal().len(),
            quit: self.actor.quit(),
            place: self.actor.place(),
            stamp: self.actor.stamp(),
        })
    }
}

/// [unsigned] to [unsigned], and [unit] to [unit] where `takes_unit`.
pub(crate) fn interface(alloc: Global, takes_unit: bool) -> Result<Interface, Memory> {
    let mut signatures = Seq::new(alloc);
    signatures.push(signature(alloc, 2)?)?;
    if takes_unit {
        signatures.push(signature(alloc, 0)?)?;
    }
    match Interface::new(alloc, signatures) {
        Ok(interface) => Ok(interface),
        Err(_) => Err(Memory),
    }
}

/// The type as its own result.
fn signature(alloc: Global, id: u16) -> Result<Signature, Memory> {
    Ok(Signature {
        input: types(alloc, id)?,
        result: types(alloc, id)?,
    })
}

fn types(alloc: Global, id: u16) -> Result<TypeIds, Memory> {
    let mut types = TypeIds::new(alloc);
    types.push(TypeId(id))?;
    Ok(types)
}

/// The letters of that batch, in order.
pub fn batch_of(alloc: Global, number: u8, letters: &[Letter]) -> Result<Batch, MessageFault>
    ensures fits { IfOk result (λ batch. AllByRecursion (EnvelopeFits (shape_at built_in)) (map plain_envelope batch)) }
    ensures stamps { IfOk result (λ batch. AllByRecursion (λ (e : Taken). e.stamp < 1099511627776) (map plain_envelope batch)) }
{
    let mut batch = Batch::new(alloc);
    for i in 0..letters.len() {
        add_letter(alloc, &mut batch, number, &letters[i])?;
    }
    Ok(batch)
}

/// Adds the letter to the batch, if it comes in it.
fn add_letter(
    alloc: Global,
    batch: &mut Batch,
    number: u8,
    letter: &Letter,
) -> Result<(), MessageFault>
    requires fits { AllByRecursion (EnvelopeFits (shape_at built_in)) (map plain_envelope batch.old) }
    requires stamps { AllByRecursion (λ (e : Taken). e.stamp < 1099511627776) (map plain_envelope batch.old) }
    ensures fits { OnOk result (AllByRecursion (EnvelopeFits (shape_at built_in)) (map plain_envelope batch.new)) }
    ensures stamps { OnOk result (AllByRecursion (λ (e : Taken). e.stamp < 1099511627776) (map plain_envelope batch.new)) }
{
    if letter.batch != number {
        return Ok(());
    }
    let envelope = envelope_of(alloc, letter)?;
    batch.push(envelope)?;
    Ok(())
}

fn envelope_of(alloc: Global, letter: &Letter) -> Result<Envelope, MessageFault>
    ensures fits { IfOk result (λ envelope. EnvelopeFits (shape_at built_in) (plain_envelope envelope)) }
    ensures stamp { IfOk result (λ envelope. envelope.stamp < 1099511627776) }
{
    let body = body_of(alloc, letter.what)?;
    Ok(Envelope {
        sender: letter.sender,
        seq: letter.seq,
        mid: letter.mid,
        priority: letter.priority,
        stamp: letter.stamp as u64,
        body,
    })
}

fn body_of(alloc: Global, what: What) -> Result<Body, MessageFault>
    ensures { IfOk result (λ body. BodyFits (shape_at built_in) (plain_body body)) }
{
    match what {
        What::Number(number) => Ok(Body::Content(Message::of(alloc, &Number(number))?)),
        What::Nothing | What::Other => Ok(Body::Content(Message::of(alloc, &Nothing)?)),
        What::Failure(sec) => Ok(Body::Failure(sec)),
        What::Told(notice) => Ok(Body::System(notice)),
    }
}

/// Adds the posts to the lines.
pub fn add_lines(alloc: Global, lines: &mut Seq<Line>, posts: Seq<Post>) -> Result<(), Memory> {
    for post in posts.into_vec() {
        lines.push(line_of(alloc, post)?)?;
    }
    Ok(())
}

fn line_of(alloc: Global, post: Post) -> Result<Line, Memory> {
    let Post { to, envelope } = post;
    let Envelope {
        seq,
        mid,
        priority,
        stamp,
        body,
        ..
    } = envelope;
    let what = match body {
        Body::Content(message) => content_of(alloc, message)?,
        Body::Failure(sec) => What::Failure(sec),
        Body::System(notice) => What::Told(notice),
    };
    Ok(Line {
        to,
        seq,
        mid,
        priority,
        stamp,
        what,
    })
}

fn content_of(alloc: Global, message: Message) -> Result<What, Memory> {
    let mut message = message;
    let words = message.words(alloc)?;
    Ok(match words.as_slice() {
        [1, 2, number] => What::Number(*number),
        [1, 0, 0] => What::Nothing,
        _ => What::Other,
    })
}
