//! What a crew gives turns to.
ghost use Rattle.std.specs.Prelude.{◌≡◌, [], false};
ghost use Rattle.caf_types.specs.TypeTable.{seen};
ghost use Rattle.caf_message.specs.Entries.{HasEntries};
ghost use Rattle.caf_system.specs.Body.{HasMark};
ghost use Rattle.caf_system.specs.Station.{AreLanesOf};

use crate::station::Station;
use caf_actor::{Actor, Behavior};
use caf_inbox::{Lane, Reader};
use caf_sched::Work;
use caf_turns::Marked;
use caf_types::{Memory, Places, Seq, TypeTable};
use std::alloc::Global;
use std::marker::Model;
use std::sync::Wait;

/// An actor with the ends of inboxes that it uses. After want of memory it is broken: each later turn answers the same
/// and changes nothing.
#[derive(Drop)]
pub struct Body<B: Behavior> {
    pub(crate) station: Station<B>,
    pub(crate) is_broken: bool,
}

impl<B: Behavior> Model for Body<B> {
    ghost use Rattle.std.specs.Prelude.{◌≡◌, false};
    ghost use Rattle.caf_system.specs.Body.{BodySeen};
    ghost use Rattle.caf_system.specs.Station.{IsStation};

    ghost Value = { BodySeen B };

    ghost view = { λ b. record { station = b.station; is_broken = b.is_broken } };

    ghost invariant = { λ b. b.is_broken ≡ false → IsStation B.entries b.station };
}

/// The marks of a body are the bodies that it may have been before.
impl<B: Behavior> Marked for Body<B> {
    type Mark = Body<B>;

    ghost use Rattle.caf_system.specs.Body.{HasMark};

    ghost has_mark = { λ b m. HasMark B.rules b m };
}

impl<B: Behavior> Work for Body<B> {
    ghost has_entries = { λ table m. HasEntries table B.entries };

    fn turn<R: Wait>(
        &mut self,
        rt: &R,
        alloc: Global,
        table: &TypeTable,
        _due: u64,
    ) -> Result<Places, Memory> {
        if self.is_broken {
            return Err(Memory);
        }
        self.is_broken = true;
        let places = self.station.turn(rt, alloc, table)?;
        self.is_broken = false;
        Ok(places)
    }

    fn spent(&self) -> u64 {
        self.station.actor.handled()
    }
}

impl<B: Behavior> Body<B> {
    /// A body of an actor that took nothing yet, with the reader of its inbox, from which nothing was taken, and its own
    /// lanes by the place that each leads to.
    pub fn new(alloc: Global, actor: Actor<B>, reader: Reader<B>, lanes: Vec<Lane<B>>) -> Body<B>
        requires actor { (actor.is_broken ≡ false) × (actor.journal ≡ []) }
        requires reader { reader.taken ≡ [] }
        requires lanes { AreLanesOf actor.snapshot.place lanes.items }
        ensures { result ≡ record { station = record { actor = actor; reader = reader; lanes = lanes.items; held = [] }; is_broken = false } }
    {
        // Asking for the place tells what holds of every actor.
        let _ = actor.place();
        let station = Station {
            actor,
            reader,
            lanes,
            held: Seq::new(alloc),
        };
        Body {
            station,
            is_broken: false,
        }
    }

    /// The actor. Where the body is broken, nothing is said of it.
    pub fn actor(&self) -> &Actor<B>
        ensures { result.now ≡ self.now.station.actor }
    {
        &self.station.actor
    }

    /// The reader of its inbox.
    pub fn reader(&self) -> &Reader<B>
        ensures { result.now ≡ self.now.station.reader }
    {
        &self.station.reader
    }

    /// Whether memory was wanted in a turn.
    pub fn is_broken(&self) -> bool
        ensures { result ≡ self.now.is_broken }
    {
        self.is_broken
    }
}
