//! What actors took and were given, in plain values.
use crate::{Final, JournalLine};
use caf_actor::{Actor, Plain, Taken, TakenBatch};
use caf_scripted::{Note, Scripted, What};
use caf_types::{Memory, Seq};
use std::alloc::Global;

/// What the actors took, one after the other.
pub(crate) fn lines_of(
    alloc: Global,
    actors: &[Actor<Scripted>],
) -> Result<Seq<JournalLine>, Memory> {
    let mut lines = Seq::new(alloc);
    for actor in actors {
        add_journal(&mut lines, actor.place(), actor.journal().as_slice())?;
    }
    Ok(lines)
}

fn add_journal(
    lines: &mut Seq<JournalLine>,
    place: u32,
    batches: &[TakenBatch],
) -> Result<(), Memory> {
    for batch in batches {
        add_batch(lines, place, batch)?;
    }
    Ok(())
}

fn add_batch(lines: &mut Seq<JournalLine>, place: u32, batch: &TakenBatch) -> Result<(), Memory> {
    for envelope in batch.taken.as_slice() {
        lines.push(line_of(place, batch.stamp, envelope))?;
    }
    Ok(())
}

fn line_of(place: u32, batch: u64, envelope: &Taken) -> JournalLine {
    JournalLine {
        place,
        batch,
        sender: envelope.sender,
        seq: envelope.seq,
        mid: envelope.mid,
        priority: envelope.priority,
        stamp: envelope.stamp,
        what: what_of(&envelope.body),
    }
}

fn what_of(body: &Plain) -> What {
    match body {
        Plain::Content(words) => content_of(words.as_slice()),
        Plain::Failure(sec) => What::Failure(*sec),
        Plain::System(notice) => What::Told(*notice),
    }
}

fn content_of(words: &[u64]) -> What {
    match words {
        [1, 2, number] => What::Number(*number),
        [1, 0, 0] => What::Nothing,
        _ => What::Other,
    }
}

/// What the actors were given besides content, one after the other.
pub(crate) fn notes_of(
    alloc: Global,
    actors: &[Actor<Scripted>],
) -> Result<Seq<(u32, Note)>, Memory> {
    let mut notes = Seq::new(alloc);
    for actor in actors {
        add_notes(&mut notes, actor.place(), actor.behavior())?;
    }
    Ok(notes)
}

fn add_notes(notes: &mut Seq<(u32, Note)>, place: u32, behavior: &Scripted) -> Result<(), Memory> {
    for note in behavior.notes.as_slice() {
        notes.push((place, *note))?;
    }
    Ok(())
}

/// Where the actors ended, one after the other.
pub(crate) fn finals_of(alloc: Global, actors: &[Actor<Scripted>]) -> Result<Seq<Final>, Memory> {
    let mut finals = Seq::new(alloc);
    for actor in actors {
        finals.push(Final {
            stamp: actor.stamp(),
            handled: actor.handled(),
            quit: actor.quit(),
        })?;
    }
    Ok(finals)
}
