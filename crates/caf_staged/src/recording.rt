//! The record of a run, out of its actors.
use crate::PlayFault;
use caf_actor::{Actor, Journal, Plain, Taken, TakenBatch};
use caf_record::{RunRecord, trace_text};
use caf_scripted::Scripted;
use caf_types::{Memory, Notice, Octets, PLACES, Seq, Words};
use std::alloc::Global;

/// The trace of what the actors took, who began with these stamps.
pub(crate) fn trace_of(
    alloc: Global,
    starts: Words,
    actors: &[Actor<Scripted>],
) -> Result<Octets, PlayFault> {
    let kept = RunRecord {
        journals: journals_of(alloc, actors)?,
        starts,
        cut: cut_of(actors),
    };
    if kept.journals.len() > u64::from(PLACES) {
        return Err(PlayFault::Roles);
    }
    let trace = trace_text(alloc, &kept)?;
    Ok(trace)
}

/// Which batch of place 0 holds Stop.
pub(crate) fn cut_of(actors: &[Actor<Scripted>]) -> Option<u64> {
    match actors.first() {
        Some(actor) => cut_in(actor.journal().as_slice()),
        None => None,
    }
}

/// The number of the first batch that holds Stop.
fn cut_in(journal: &[TakenBatch]) -> Option<u64> {
    let at = journal
        .iter()
        .position(|batch| holds_stop(batch.taken.as_slice()))?;
    Some(at as u64)
}

fn holds_stop(taken: &[Taken]) -> bool {
    taken.iter().any(|envelope| is_stop(&envelope.body))
}

fn is_stop(body: &Plain) -> bool {
    matches!(body, Plain::System(Notice::Stop))
}

fn journals_of(alloc: Global, actors: &[Actor<Scripted>]) -> Result<Seq<Journal>, Memory> {
    let mut journals = Seq::new(alloc);
    for actor in actors {
        journals.push(journal_copy(alloc, actor.journal().as_slice())?)?;
    }
    Ok(journals)
}

fn journal_copy(alloc: Global, batches: &[TakenBatch]) -> Result<Journal, Memory> {
    let mut journal = Seq::new(alloc);
    for batch in batches {
        journal.push(TakenBatch {
            stamp: batch.stamp,
            taken: taken_copies(alloc, batch.taken.as_slice())?,
        })?;
    }
    Ok(journal)
}

fn taken_copies(alloc: Global, envelopes: &[Taken]) -> Result<Seq<Taken>, Memory> {
    let mut copies = Seq::new(alloc);
    for envelope in envelopes {
        copies.push(taken_copy(alloc, envelope)?)?;
    }
    Ok(copies)
}

fn taken_copy(alloc: Global, envelope: &Taken) -> Result<Taken, Memory> {
    Ok(Taken {
        sender: envelope.sender,
        seq: envelope.seq,
        mid: envelope.mid,
        priority: envelope.priority,
        stamp: envelope.stamp,
        body: body_copy(alloc, &envelope.body)?,
    })
}

fn body_copy(alloc: Global, body: &Plain) -> Result<Plain, Memory> {
    Ok(match body {
        Plain::Content(words) => {
            Plain::Content(Words::of_vec(Vec::from_slice(alloc, words.as_slice())?))
        }
        Plain::Failure(sec) => Plain::Failure(*sec),
        Plain::System(notice) => Plain::System(*notice),
    })
}
