//! A chunk on its way from a source to lines and to a relay, each of which takes it in a batch of its own.
ghost use Rattle.std.specs.Prelude.{◌≡◌, IfOk, OnOk, IfSome};
ghost use Rattle.std.specs.List.{AllByRecursion};
ghost use Rattle.caf_types.specs.TypeTable.{seen};
ghost use Rattle.caf_message.specs.Entries.{entry_shape};
ghost use Rattle.caf_message.specs.Fits.{Fits};
ghost use Rattle.caf_kinds.specs.Core.{core, core_entries};
ghost use Rattle.caf_rows.specs.Fitting.{IsFitting, AreFitting, KeepsFitting};

use crate::RunFault;
use crate::files::are_short;
use caf_actor::{Actor, Post};
use caf_kinds::{Kind, One, Start, core_table};
use caf_message::{Batch, Body, Envelope, Message, MessageFault};
use caf_opening::opening_actors;
use caf_scenario::builtin;
use caf_types::{LATEST_STAMP, Memory, Mid, Octets, Priority, Seq, TypeTable};
use caf_typing::laws::builtin_opens;
use std::alloc::Global;
use std::test::Fail;

/// The rooms of the chunk's message: where lines and the relay get it, and where the relay tells it on.
#[derive(Clone, Copy, Debug, PartialEq, Eq, Drop)]
struct Rooms {
    lines: u64,
    relay: u64,
    told: u64,
}

/// The rooms, where lines take the chunk before the relay does, or not at all.
fn way_of_a_chunk(alloc: Global, lines_first: bool) -> Result<Option<Rooms>, RunFault> {
    let table = core_table(alloc)?;
    let mut actors = pipeline(alloc)?;
    let (_, _) = (last_actor(&mut actors), last_actor(&mut actors));
    let (Some(mut relay), Some(mut lines)) = (last_actor(&mut actors), last_actor(&mut actors))
    else {
        return Ok(None);
    };
    let Some(mut source) = last_actor(&mut actors) else {
        return Ok(None);
    };
    let mut posts = chunk_posts(alloc, &table, &mut source)?;
    let (Some(to_relay), Some(to_lines)) = (last_post(&mut posts), last_post(&mut posts)) else {
        return Ok(None);
    };
    let (lines_room, relay_room) = (room_of(&to_lines), room_of(&to_relay));
    let told = if lines_first {
        take(alloc, &table, &mut lines, to_lines)?;
        told_room(alloc, &table, &mut relay, to_relay)?
    } else {
        let told = told_room(alloc, &table, &mut relay, to_relay)?;
        drop(to_lines);
        told
    };
    Ok(Some(Rooms {
        lines: lines_room,
        relay: relay_room,
        told,
    }))
}

/// The actors that index a file of one chunk: a conductor, a source, lines, a relay, a counter and a collector.
fn pipeline(alloc: Global) -> Result<Vec<Actor<Kind>>, RunFault>
    ensures { IfOk result (λ actors. AllByRecursion KeepsFitting actors.items) }
{
    let mut files = Seq::new(alloc);
    files.push(one_line(alloc)?)?;
    if !are_short(&files) {
        return Err(RunFault::Range);
    }
    let scenario = builtin(alloc, 1)?;
    builtin_opens();
    let actors = opening_actors(alloc, &scenario.setups, &scenario.script, files)?;
    Ok(actors.into_vec())
}

fn one_line(alloc: Global) -> Result<Octets, Memory> {
    let mut bytes = Vec::new(alloc);
    bytes.extend_from_slice(b"Ab\n")?;
    Ok(Seq::of_vec(bytes))
}

/// What the source tells lines and the relay of its one chunk, behind what it tells before.
fn chunk_posts(
    alloc: Global,
    table: &TypeTable,
    source: &mut Actor<Kind>,
) -> Result<Vec<Post>, RunFault>
    requires table { seen table.now ≡ core }
    requires kept { KeepsFitting source.old }
    ensures { IfOk result (λ posts. AreFitting posts.items) }
{
    let begin = start(alloc)?;
    let mut posts = take(alloc, table, source, begin)?;
    let Some(more) = last_post(&mut posts) else {
        return Ok(posts);
    };
    let mut posts = take(alloc, table, source, more)?;
    let _finish = last_post(&mut posts);
    Ok(posts)
}

/// The content [start] of place 0.
fn start(alloc: Global) -> Result<Envelope, RunFault>
    ensures { IfOk result IsFitting }
{
    match Message::of(alloc, &One(Start::new())) {
        Ok(message) => Ok(envelope_of(message)),
        Err(MessageFault::Memory) => Err(RunFault::Memory),
        Err(MessageFault::Large) => Err(RunFault::Range),
    }
}

fn envelope_of(message: Message) -> Envelope
    requires { Fits (entry_shape core_entries) message.content }
    ensures { IsFitting result }
{
    Envelope {
        sender: 0,
        seq: 0,
        mid: Mid {
            requester: 0,
            number: 0,
            response: false,
        },
        priority: Priority::Normal,
        stamp: 1,
        body: Body::Content(message),
    }
}

/// What the actor posts at a batch of that envelope.
fn take(
    alloc: Global,
    table: &TypeTable,
    actor: &mut Actor<Kind>,
    envelope: Envelope,
) -> Result<Vec<Post>, Memory>
    requires table { seen table.now ≡ core }
    requires kept { KeepsFitting actor.old }
    requires fits { IsFitting envelope }
    ensures kept { OnOk result (KeepsFitting actor.new) }
    ensures fits { IfOk result (λ posts. AreFitting posts.items) }
{
    if actor.stamp() >= LATEST_STAMP || envelope.stamp >= LATEST_STAMP {
        return Err(Memory);
    }
    let mut batch = Batch::new(alloc);
    batch.push(envelope)?;
    let posts = actor.batch(alloc, table, batch)?;
    Ok(posts.into_vec())
}

/// The room of the message that the relay tells on.
fn told_room(
    alloc: Global,
    table: &TypeTable,
    relay: &mut Actor<Kind>,
    chunk: Envelope,
) -> Result<u64, Memory>
    requires table { seen table.now ≡ core }
    requires kept { KeepsFitting relay.old }
    requires fits { IsFitting chunk }
{
    let mut posts = take(alloc, table, relay, chunk)?;
    match last_post(&mut posts) {
        Some(told) => Ok(room_of(&told)),
        None => Ok(0),
    }
}

/// Takes the last actor out.
fn last_actor(actors: &mut Vec<Actor<Kind>>) -> Option<Actor<Kind>>
    requires { AllByRecursion KeepsFitting actors.old.items }
    ensures others { AllByRecursion KeepsFitting actors.new.items }
    ensures last { IfSome result KeepsFitting }
{
    let actor = actors.pop()?;
    Some(actor)
}

/// Takes the last post's envelope out.
fn last_post(posts: &mut Vec<Post>) -> Option<Envelope>
    requires { AreFitting posts.old.items }
    ensures others { AreFitting posts.new.items }
    ensures last { IfSome result IsFitting }
{
    let post = posts.pop()?;
    Some(post.envelope)
}

/// The room of the message in the envelope; 0 where it has none.
fn room_of(envelope: &Envelope) -> u64 {
    match &envelope.body {
        Body::Content(message) => message.room(),
        Body::Failure(_) | Body::System(_) => 0,
    }
}

#[test]
fn a_chunk_is_shared_and_changed_in_place_once_it_is_alone(rt: HostRuntime) -> Result<(), Fail> {
    // Of the room of a new message, 2^62, the relay's reference has 2^51, and that of lines what is left but one.
    let shared = Rooms {
        lines: (1 << 62) - (1 << 51) - 1,
        relay: 1 << 51,
        told: 1 << 51,
    };
    assert_eq!(rt; way_of_a_chunk(rt.alloc(), true)?, Some(shared));
    let copied = Rooms {
        told: 1 << 62,
        ..shared
    };
    assert_eq!(rt; way_of_a_chunk(rt.alloc(), false)?, Some(copied));
    Ok(())
}
