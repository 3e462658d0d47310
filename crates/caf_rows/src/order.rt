//! In which order responses came.
use caf_actor::{Plain, Taken};
use caf_record::RunRecord;
use caf_types::{Memory, Words};
use std::alloc::Global;

/// The numbers of the requests whose responses place 0 took, in that order.
pub(crate) fn answers_of(alloc: Global, kept: &RunRecord) -> Result<Words, Memory> {
    let mut numbers = Words::new(alloc);
    let Some(journal) = kept.journals.get(0) else {
        return Ok(numbers);
    };
    for batch in journal.as_slice() {
        for envelope in batch.taken.as_slice() {
            if is_response(envelope) {
                numbers.push(envelope.mid.number)?;
            }
        }
    }
    Ok(numbers)
}

fn is_response(envelope: &Taken) -> bool {
    match &envelope.body {
        Plain::System(_) => false,
        _ => envelope.mid.response,
    }
}
