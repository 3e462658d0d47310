ghost use Rattle.std.specs.Prelude.{◌≡◌, ◌==◌, ◌++◌, ◌≤◌, ◌^◌, length, slice_get, flat_map, IfOk, OnOk, IsSome};
ghost use Rattle.std.specs.List.{prefix_len};
ghost use Rattle.caf_record.specs.RunRecord.{journal_at};
ghost use Rattle.caf_record.specs.Trace.{runs_of, number_text, run_text, line_of, trace_of};

use crate::RunRecord;
use crate::merged::{Listed, all_in_order};
use caf_actor::{Taken, TakenBatch};
use caf_types::{Memory, Octets, Seq};
use itoa::Buffer;
use std::alloc::{AllocError, Global};

/// The trace of the record: a line for each batch, in the order of [`merge`](crate::merge). A line is
/// `t`, the place, the stamp, and the batch's envelopes as runs of one sender: the sender and, for a run
/// of two or more, `*` and its length. The outside is the sender 256.
///
/// There are no more journals than places, which are numbers of 32 bits. The one refusal is want of
/// memory. The text is written into one buffer.
pub fn trace_text(alloc: Global, kept: &RunRecord) -> Result<Octets, Memory>
    requires { length kept.now.journals ≤ 2 ^ 32 }
    ensures { IfOk result (λ text. text ≡ trace_of kept.now) }
{
    let batches = all_in_order(alloc, kept)?;
    let mut text = Vec::new(alloc);
    for batch in &batches {
        push_line(&mut text, batch.place, batch_of(kept, batch))?;
    }
    Ok(Seq::of_vec(text))
}

/// The batch itself.
fn batch_of<'a>(kept: &'a RunRecord, batch: &Listed) -> &'a TakenBatch
    requires { IsSome (slice_get (journal_at kept.now.journals batch.now.place) batch.now.number) }
    ensures { slice_get (journal_at kept.now.journals batch.now.place) batch.now.number ≡ Some result.now }
{
    let journal = &kept.journals.as_slice()[batch.place as usize];
    &journal.as_slice()[batch.number as usize]
}

/// Adds the line of a batch.
fn push_line(text: &mut Vec<u8>, place: u32, batch: &TakenBatch) -> Result<(), AllocError>
    ensures { OnOk result (text.new.items ≡ text.old.items ++ line_of (record { place = place; batch = batch.now })) }
{
    text.push(b't')?;
    push_number(text, u64::from(place))?;
    push_number(text, batch.stamp)?;
    push_runs(text, batch.taken.as_slice())?;
    text.push(b'\n')?;
    Ok(())
}

/// Adds the runs of one sender, in the order taken.
fn push_runs(text: &mut Vec<u8>, taken: &[Taken]) -> Result<(), AllocError>
    ensures { OnOk result (text.new.items ≡ text.old.items ++ flat_map run_text (runs_of taken.now)) }
{
    let mut rest = taken;
    while let Some(first) = rest.first() {
        let (run, later) = rest.split_at(run_length(rest, first.sender));
        push_run(text, first.sender, run.len() as u64)?;
        rest = later;
    }
    Ok(())
}

/// How many envelopes from the front on are of this sender.
fn run_length(taken: &[Taken], sender: u32) -> usize
    ensures count { result ≡ prefix_len (λ e. e.sender == sender) taken.now }
    ensures bound { result ≤ length taken.now }
{
    taken
        .iter()
        .take_while(|envelope| envelope.sender == sender)
        .count()
}

/// Adds one run.
fn push_run(text: &mut Vec<u8>, sender: u32, count: u64) -> Result<(), AllocError>
    ensures { OnOk result (text.new.items ≡ text.old.items ++ run_text (record { sender = sender; count = count })) }
{
    push_number(text, u64::from(sender))?;
    if count < 2 {
        return Ok(());
    }
    let mut buffer = Buffer::new();
    text.push(b'*')?;
    text.extend_from_slice(buffer.format(count).as_bytes())
}

/// Adds a space and the number.
fn push_number(text: &mut Vec<u8>, number: u64) -> Result<(), AllocError>
    ensures { OnOk result (text.new.items ≡ text.old.items ++ number_text number) }
{
    let mut buffer = Buffer::new();
    text.push(b' ')?;
    text.extend_from_slice(buffer.format(number).as_bytes())
}
