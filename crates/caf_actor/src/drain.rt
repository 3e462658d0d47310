//! What an actor does with a batch.
ghost use Rattle.std.specs.Prelude.{◌≡◌, ◌<◌, ◌^◌, map, OnOk};
ghost use Rattle.std.specs.List.{AllByRecursion};
ghost use Rattle.caf_types.specs.Table.{shape_at};
ghost use Rattle.caf_types.specs.TypeTable.{seen};
ghost use Rattle.caf_message.specs.Entries.{HasEntries};
ghost use Rattle.caf_message.specs.Envelope.{plain_envelope};
ghost use Rattle.caf_message.specs.declared.envelope.Taken.{Taken};
ghost use Rattle.caf_actor.specs.Actor.{CachesFit};
ghost use Rattle.caf_actor.specs.Drain.{with_batch};
ghost use Rattle.caf_actor.specs.PlainForms.{reached};
ghost use Rattle.caf_actor.specs.Effect as effects;
ghost use Rattle.caf_actor.specs.Drain as definitions;

use crate::handling::Effect;
use crate::post::Posts;
use crate::{Behavior, Snapshot};
use caf_mailbox::Passed;
use caf_message::{Batch, Envelope};
use caf_types::{LATEST_STAMP, Memory, TypeTable};
use std::alloc::Global;

/// One more than the greatest of the actor's stamp and the envelopes' stamps.
pub(crate) fn stamp_due(stamp: u64, batch: &[Envelope]) -> u64
    requires stamp { stamp < LATEST_STAMP }
    requires stamps { AllByRecursion (λ (e : Taken). e.stamp < LATEST_STAMP) (map plain_envelope batch.now) }
    ensures { result ≡ definitions.stamp_due stamp (map plain_envelope batch.now) }
{
    let mut greatest = stamp;
    for envelope in batch {
        greatest = greatest.max(envelope.stamp);
    }
    greatest + 1
}

/// Which contents are known not to be eligible, after an envelope of that effect.
fn passed_after(effect: Effect, passed: Passed) -> Passed
    ensures { result ≡ effects.passed_after effect passed }
{
    match effect {
        Effect::Same => passed,
        Effect::Changed => Passed::new(),
    }
}

impl<B> Snapshot<B> {
    /// Puts a batch into the lists, and takes its stamp.
    pub(crate) fn file(&mut self, batch: Batch) -> Result<(), Memory>
        requires stamp { self.old.stamp < LATEST_STAMP }
        requires stamps { AllByRecursion (λ (e : Taken). e.stamp < LATEST_STAMP) (map plain_envelope batch) }
        ensures { OnOk result (self.new ≡ with_batch self.old (map plain_envelope batch)) }
    {
        self.stamp = stamp_due(self.stamp, batch.as_slice());
        match self.caches.add(batch) {
            Ok(()) => Ok(()),
            Err((_, memory)) => Err(memory),
        }
    }
}

impl<B: Behavior> Snapshot<B> {
    /// Handles the next envelope, again and again, until none is eligible. The contents that the
    /// behaviour skips are looked at once after each envelope that may change which they are.
    pub(crate) fn drain(
        &mut self,
        alloc: Global,
        table: &TypeTable,
        posts: &mut Posts,
    ) -> Result<(), Memory>
        requires entries { HasEntries (seen table.now) B.entries }
        requires fits { CachesFit (shape_at (seen table.now)) self.old.caches }
        ensures { OnOk result (definitions.drain B.rules (reached self.old posts.old) ≡ reached self.new posts.new) }
    {
        let mut passed = Passed::new();
        while let Some(envelope) = self.take_next(&mut passed) {
            let effect = self.handle(alloc, table, posts, envelope)?;
            passed = passed_after(effect, passed);
        }
        Ok(())
    }
}
