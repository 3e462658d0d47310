//! An actor with the ends of inboxes that it uses.
ghost use Rattle.std.specs.Prelude.{◌≡◌, ◌<◌, false, map, OnOk};
ghost use Rattle.std.specs.List.{AllByRecursion};
ghost use Rattle.caf_types.specs.Limits.{latest_stamp};
ghost use Rattle.caf_types.specs.TypeTable.{seen};
ghost use Rattle.caf_message.specs.declared.envelope.Taken.{Taken};
ghost use Rattle.caf_message.specs.Entries.{HasEntries};
ghost use Rattle.caf_message.specs.Envelope.{plain_envelope};
ghost use Rattle.caf_system.specs.Station.{IsStation, GoesOn};

use crate::sending::send;
use caf_actor::{Actor, Behavior};
use caf_inbox::{Lane, MOST_IN_BATCH, Reader};
use caf_message::Batch;
use caf_types::{LATEST_STAMP, Memory, Places, Seq, TypeTable};
use std::alloc::Global;
use std::marker::Model;
use std::sync::Wait;

/// The actor, the reader of its inbox, a lane to each place, and a batch that was taken from the inbox and that no actor
/// may take: the actor's own stamp, or one of those in it, is the last one.
#[derive(Drop)]
pub(crate) struct Station<B: Behavior> {
    pub(crate) actor: Actor<B>,
    pub(crate) reader: Reader<B>,
    pub(crate) lanes: Vec<Lane<B>>,
    pub(crate) held: Batch,
}

impl<B: Behavior> Model for Station<B> {
    ghost use Rattle.std.specs.Prelude.{map};
    ghost use Rattle.caf_message.specs.Envelope.{plain_envelope};
    ghost use Rattle.caf_system.specs.Station.{StationSeen};

    ghost Value = { StationSeen B };

    ghost view = { λ s. record { actor = s.actor; reader = s.reader; lanes = s.lanes.items; held = map plain_envelope s.held } };
}

impl<B: Behavior> Station<B> {
    /// The actor takes a batch from the inbox, if there is one, and what it posts is pushed on the lanes. The places
    /// that were sent to come back, each once, and the own place where more may be left in the inbox.
    pub(crate) fn turn<R: Wait>(
        &mut self,
        rt: &R,
        alloc: Global,
        table: &TypeTable,
    ) -> Result<Places, Memory>
        requires station { IsStation B.entries self.old }
        requires entries { HasEntries (seen table.now) B.entries }
        ensures station { OnOk result (IsStation B.entries self.new) }
        ensures goes_on { OnOk result (GoesOn B.rules self.old self.new) }
    {
        let mut places = Places::new(alloc);
        if !self.held.is_empty() {
            return Ok(places);
        }
        let Some(batch) = self.reader.take(rt, alloc)? else {
            return Ok(places);
        };
        if self.actor.stamp() >= LATEST_STAMP || has_last_stamp(&batch) {
            self.held = batch;
            return Ok(places);
        }
        if batch.len() >= u64::from(MOST_IN_BATCH) {
            places.push(self.actor.place())?;
        }
        let posts = self.actor.batch(alloc, table, batch)?;
        send(rt, &mut self.lanes, posts.into_vec(), &mut places)?;
        Ok(places)
    }
}

/// Whether one of the envelopes has the last stamp.
fn has_last_stamp(batch: &Batch) -> bool
    ensures { result ≡ false → AllByRecursion (λ (e : Taken). e.stamp < latest_stamp) (map plain_envelope batch.now) }
{
    for envelope in batch {
        if envelope.stamp >= LATEST_STAMP {
            return true;
        }
    }
    false
}
