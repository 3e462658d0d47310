//! The parts of the actors of a run that is over.
ghost use Rattle.std.specs.Prelude.{◌≡◌, ◌+◌, ◌<◌, ◌^◌, length, map, IfOk};
ghost use Rattle.std.specs.List.{AllByRecursion, position};
ghost use Rattle.caf_message.specs.Outside as outside;
ghost use Rattle.caf_actor.specs.Record as record_;
ghost use Rattle.caf_record.specs.RunRecord.{journal_at};
ghost use Rattle.caf_play.specs.Parting.{HasParted, kinds_of};

use crate::{PlayEnd, Played};
use caf_actor::{Actor, Journal, Plain, Taken, TakenBatch};
use caf_kinds::Kind;
use caf_record::RunRecord;
use caf_types::{Memory, Notice, OUTSIDE, Seq, Words};
use std::alloc::Global;

/// What came of the run of these actors, which are those of the setups and a conductor.
pub(crate) fn parted(
    alloc: Global,
    setups: u64,
    actors: Seq<Actor<Kind>>,
    end: PlayEnd,
) -> Result<Played, Memory>
    requires { setups < 2 ^ 32 }
    ensures { IfOk result (HasParted setups actors end) }
{
    if actors.len() != setups + 1 {
        return Err(Memory);
    }
    let starts = first_stamps(alloc, actors.len())?;
    let (kinds, journals) = parts_of(alloc, actors)?;
    let cut = cut_of(journals.as_slice());
    Ok(Played {
        end,
        kinds,
        kept: RunRecord {
            journals,
            starts,
            cut,
        },
    })
}

/// As many stamps: each place began with 0.
fn first_stamps(alloc: Global, count: u64) -> Result<Words, Memory>
    ensures count { IfOk result (λ stamps. length stamps ≡ count) }
    ensures zeros { IfOk result (λ stamps. AllByRecursion (λ stamp. stamp ≡ 0) stamps) }
{
    let mut stamps = Words::new(alloc);
    for place in 0..count {
        stamps.push(0)?;
    }
    Ok(stamps)
}

/// The behaviours of the actors, and their journals.
fn parts_of(alloc: Global, actors: Seq<Actor<Kind>>) -> Result<(Seq<Kind>, Seq<Journal>), Memory>
    ensures kinds { IfOk result (λ parts. parts.0 ≡ kinds_of actors) }
    ensures journals { IfOk result (λ parts. parts.1 ≡ map (λ a. a.journal) actors) }
{
    let mut kinds = Seq::new(alloc);
    let mut journals = Seq::new(alloc);
    for actor in actors.into_vec() {
        let (kind, journal) = actor.into_parts();
        kinds.push(kind)?;
        journals.push(journal)?;
    }
    Ok((kinds, journals))
}

/// Which batch of place 0 holds Stop.
fn cut_of(journals: &[Journal]) -> Option<u64>
    ensures { result ≡ record_.cut_in (journal_at journals.now 0) }
{
    match journals.first() {
        Some(journal) => cut_in(journal.as_slice()),
        None => None,
    }
}

/// The number of the first batch that holds Stop.
fn cut_in(journal: &[TakenBatch]) -> Option<u64>
    ensures { result ≡ record_.cut_in journal.now }
{
    match first_stop(journal) {
        Some(at) => Some(at as u64),
        None => None,
    }
}

fn first_stop(journal: &[TakenBatch]) -> Option<usize>
    ensures { result ≡ position (λ b. outside.holds_stop b.taken) journal.now }
{
    journal
        .iter()
        .position(|batch| holds_stop(batch.taken.as_slice()))
}

fn holds_stop(taken: &[Taken]) -> bool
    ensures { result ≡ outside.holds_stop taken.now }
{
    taken.iter().any(|envelope| is_stop(envelope))
}

fn is_stop(envelope: &Taken) -> bool
    ensures { result ≡ outside.is_stop envelope.now }
{
    envelope.sender == OUTSIDE && is_stop_body(&envelope.body)
}

fn is_stop_body(body: &Plain) -> bool
    ensures { result ≡ outside.is_stop_body body.now }
{
    matches!(body, Plain::System(Notice::Stop))
}
