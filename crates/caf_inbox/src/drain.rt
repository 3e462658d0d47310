//! Popping until a batch is full or the queue is empty.
ghost use Rattle.std.specs.Prelude.{◌≡◌, ◌≢◌, ◌≤◌, List, [], map, IfOk, MatchOption, MatchResult};
ghost use Rattle.std.specs.List.{AllByRecursion};
ghost use Rattle.crossbeam_queue.specs.SegTies.{IsSegPassOf};
ghost use Rattle.caf_message.specs.Entries.{entry_shape};
ghost use Rattle.caf_message.specs.Envelope.{plain_envelope, EnvelopeFits};
ghost use Rattle.caf_message.specs.declared.envelope.Taken.{Taken};
ghost use Rattle.caf_inbox.specs.declared.view.Role.TheVariants.{Reading};
ghost use Rattle.caf_inbox.specs.Ends.{Rose};
ghost use Rattle.caf_inbox.specs.Senders.{AreWithin};
ghost use Rattle.caf_inbox.specs.Views.{HasTaken};

use crate::limits::MOST_IN_BATCH;
use crate::pops::Counted;
use crate::queue::Shared;
use caf_message::{Batch, Entries};
use caf_types::{Memory, Seq};
use std::alloc::Global;
use std::sync::Wait;

/// Pops until a pop finds nothing, or the batch is full. What it answers is empty only where its first pop found
/// nothing. After want of memory what was popped is gone.
pub fn drain<E: Entries, R: Wait>(
    rt: &R,
    alloc: Global,
    shared: &Shared<E>,
    ends: &mut Counted<E>,
) -> Result<Batch, Memory>
    requires { IsSegPassOf shared.now.queue ends.old.pass × (ends.old.pass.me.view.client.role ≡ Reading) }
    ensures pass { IsSegPassOf shared.now.queue ends.new.pass }
    ensures count { ends.old.empties ≤ ends.new.empties }
    ensures taken { MatchResult result
        (λ batch. HasTaken ends.old.pass.me.view.client ends.new.pass.me.view.client (map plain_envelope batch)
        × AllByRecursion (EnvelopeFits (entry_shape E.entries)) (map plain_envelope batch))
        (λ _. (popped : List Taken) × HasTaken ends.old.pass.me.view.client ends.new.pass.me.view.client popped) }
    ensures none { IfOk result (λ batch. batch ≡ []
        → Rose ends.old.empties ends.new.empties × AreWithin ends.old.pass.me.view.client.log ends.old.pass.me.view.client.met) }
{
    let mut batch = Seq::new(alloc);
    let Some(first) = ends.pop(rt, shared) else {
        return Ok(batch);
    };
    batch.push(first)?;
    for _ in 1..MOST_IN_BATCH {
        match ends.pop(rt, shared) {
            Some(envelope) => batch.push(envelope)?,
            None => return Ok(batch),
        }
    }
    Ok(batch)
}

/// The batch, unless it is empty.
pub fn offered(batch: Batch) -> Option<Batch>
    ensures { MatchOption result (batch ≡ []) (λ b. (b ≡ batch) × (b ≢ [])) }
{
    if batch.is_empty() { None } else { Some(batch) }
}
