ghost use Rattle.std.specs.Prelude.{◌≡◌, ◌++◌, ◌≤◌, ◌^◌, length, map as each, IfOk, OnOk};
ghost use Rattle.caf_record.specs.Merged.{numbered, entries_from, merged, merge_of, turns_at, HasRisingStamps, AreItsMerge};
ghost use Rattle.caf_record.specs.Listed.{listed_of};

use crate::RunRecord;
use caf_actor::{Journal, TakenBatch};
use caf_types::{Memory, Seq};
use std::alloc::{AllocError, Global};

/// A batch in the order of the merge: by stamp, then by place, then by its number at that place.
#[derive(Clone, Copy, Debug, PartialEq, Eq, PartialOrd, Ord)]
pub(crate) struct Listed {
    pub stamp: u64,
    pub place: u32,
    pub number: u64,
}

/// The merge of the record: place and number of each of its batches, by stamp, then by place. The
/// batches of a place are numbered from 0, and those of one place and one stamp, which no run has, stay
/// in their order. Of a legal record this is the order in which one thread could have taken the batches
/// ([`laws::merge_is_a_run`](crate::laws::merge_is_a_run)).
///
/// A place is a number of 32 bits, so there are no more journals than these. The one refusal is want of
/// memory. The journals are runs in rising order of stamps, which a merge sort joins: n batches of p
/// places cost n log p steps.
pub fn merge(alloc: Global, kept: &RunRecord) -> Result<Seq<(u32, u64)>, Memory>
    requires { length kept.now.journals ≤ 2 ^ 32 }
    ensures listed { IfOk result (λ list. list ≡ merge_of kept.now) }
    ensures merged { IfOk result (λ list. HasRisingStamps kept.now → AreItsMerge kept.now (turns_at kept.now list)) }
{
    let batches = all_in_order(alloc, kept)?;
    let list = places_and_numbers(alloc, &batches)?;
    Ok(Seq::of_vec(list))
}

/// Place and number of each.
fn places_and_numbers(alloc: Global, batches: &[Listed]) -> Result<Vec<(u32, u64)>, AllocError>
    ensures { IfOk result (λ list. list.items ≡ each (λ b. (b.place, b.number)) batches.now) }
{
    batches
        .iter()
        .map(|batch| (batch.place, batch.number))
        .collect(alloc)
}

/// All batches of the record, in the order of the merge.
pub(crate) fn all_in_order(alloc: Global, kept: &RunRecord) -> Result<Vec<Listed>, AllocError>
    requires { length kept.now.journals ≤ 2 ^ 32 }
    ensures { IfOk result (λ list. list.items ≡ each listed_of (merged kept.now.journals)) }
{
    let mut batches = all_by_place(alloc, kept.journals.as_slice())?;
    batches.sort()?;
    Ok(batches)
}

/// All batches, place by place.
fn all_by_place(alloc: Global, journals: &[Journal]) -> Result<Vec<Listed>, AllocError>
    requires { length journals.now ≤ 2 ^ 32 }
    ensures { IfOk result (λ list. list.items ≡ each listed_of (entries_from 0 journals.now)) }
{
    let mut batches = Vec::new(alloc);
    for (place, journal) in journals.iter().enumerate() {
        list_place(&mut batches, place as u32, journal.as_slice())?;
    }
    Ok(batches)
}

/// Adds the batches of a place.
fn list_place(
    batches: &mut Vec<Listed>,
    place: u32,
    journal: &[TakenBatch],
) -> Result<(), AllocError>
    ensures { OnOk result (batches.new.items ≡ batches.old.items ++ each listed_of (numbered place 0 journal.now)) }
{
    for (number, batch) in journal.iter().enumerate() {
        batches.push(Listed {
            stamp: batch.stamp,
            place,
            number: number as u64,
        })?;
    }
    Ok(())
}
