//! The one end of an inbox that takes.
ghost use Rattle.std.specs.Prelude.{◌≡◌, ◌≢◌, ◌≤◌, true, false, [], ◌∷◌, ◌++◌, map, IfOk, OnOk, OnErr, IfSome, IfNone, MatchOption};
ghost use Rattle.std.specs.List.{AllByRecursion};
ghost use Rattle.caf_message.specs.Entries.{entry_shape};
ghost use Rattle.caf_message.specs.Envelope.{plain_envelope, EnvelopeFits};
ghost use Rattle.caf_inbox.specs.Ends.{Rose};
ghost use Rattle.caf_inbox.specs.Senders.{AreFrom, AreWithin, IsPrefix};

use crate::drain::{drain, offered};
use crate::notes::{LaneNote, ReaderNote};
use crate::pops::Counted;
use crate::queue::Shared;
use crate::rule::{MeetsLane, NotesReader};
use caf_message::{Batch, Entries};
use caf_types::Memory;
use std::alloc::Global;
use std::marker::Model;
use std::sync::{Arc, Wait};

/// The one end of an inbox that takes. Contracts see what it took, in plain form, the notes of lanes that it has met,
/// and the number of its empty pops.
#[derive(Drop)]
pub struct Reader<E: Entries> {
    pub(crate) shared: Arc<Shared<E>, Global>,
    pub(crate) ends: Counted<E>,
    pub(crate) is_broken: bool,
}

impl<E: Entries> Model for Reader<E> {
    ghost use Rattle.std.specs.Prelude.{◌≡◌};
    ghost use Rattle.std.specs.Arc.{arc_value};
    ghost use Rattle.crossbeam_queue.specs.SegTies.{IsSegPassOf};
    ghost use Rattle.caf_inbox.specs.declared.view.Role.TheVariants.{Reading};
    ghost use Rattle.caf_inbox.specs.Ends.{ReaderSeen};

    ghost Value = { ReaderSeen };

    ghost view = { λ r. record {
      inbox = r.ends.pass.web;
      senders = r.ends.pass.me.view.client.senders;
      taken = r.ends.pass.me.view.client.log;
      met = r.ends.pass.me.view.client.met;
      empties = r.ends.empties;
      is_broken = r.is_broken;
    } };

    ghost invariant = { λ r. IsSegPassOf (arc_value r.shared).queue r.ends.pass × (r.ends.pass.me.view.client.role ≡ Reading) };
}

impl<E: Entries> Reader<E> {
    /// A batch of what this call popped, in order, one envelope at a time: until a pop finds nothing, or until there
    /// are [`MOST_IN_BATCH`](crate::MOST_IN_BATCH).
    ///
    /// `None` only where a pop of this call found nothing, and then each lane's note that the reader has met is a
    /// prefix of what it took of that sender. After want of memory the reader is broken, and every later call answers
    /// the same.
    pub fn take<R: Wait>(&mut self, rt: &R, alloc: Global) -> Result<Option<Batch>, Memory>
        ensures same { self.new ≡ record self.old { taken = self.new.taken; empties = self.new.empties; is_broken = self.new.is_broken } }
        ensures count { self.old.empties ≤ self.new.empties }
        ensures taken { IfOk result (λ answer. MatchOption answer
            (self.new.taken ≡ self.old.taken)
            (λ batch. (batch ≢ []) × (self.new.taken ≡ self.old.taken ++ map plain_envelope batch))) }
        ensures none { IfOk result (λ answer. IfNone answer
            (Rose self.old.empties self.new.empties × AreWithin self.new.taken self.new.met)) }
        ensures fits { IfOk result (λ answer. IfSome answer
            (λ batch. AllByRecursion (EnvelopeFits (entry_shape E.entries)) (map plain_envelope batch))) }
        ensures senders { IfOk result (λ answer. IfSome answer
            (λ batch. AreFrom self.new.senders (map plain_envelope batch))) }

        ensures whole { OnOk result ((self.old.is_broken ≡ false) × (self.new.is_broken ≡ false)) }
        ensures broken { OnErr result (self.new.is_broken ≡ true) }
        ensures lost { OnErr result (IsPrefix self.old.taken self.new.taken) }
    {
        if self.is_broken {
            return Err(Memory);
        }
        self.is_broken = true;
        let batch = drain(rt, alloc, &self.shared, &mut self.ends)?;
        self.is_broken = false;
        Ok(offered(batch))
    }

    /// What was taken so far, for a lane of this inbox to meet.
    pub fn note<R: Wait>(&mut self, rt: &R) -> ReaderNote<E>
        ensures same { self.new ≡ self.old }
        ensures note { result ≡ record { inbox = self.old.inbox; taken = self.old.taken } }
    {
        let _ = rt;
        let pass = self
            .shared
            .queue
            .another::<NotesReader>(&mut self.ends.pass);
        ReaderNote { pass }
    }

    /// Takes in the note of a lane of this inbox: what the lane had pushed is a prefix of what this reader took and
    /// what the inbox holds of that sender. So a later `None` tells that it was taken.
    pub fn meet<R: Wait>(&mut self, rt: &R, note: LaneNote<E>)
        requires { note.inbox ≡ self.old.inbox }
        ensures { self.new ≡ record self.old { met = self.old.met ++ record { sender = note.sender; pushed = note.pushed } ∷ [] } }
    {
        let _ = rt;
        let LaneNote { pass } = note;
        self.shared
            .queue
            .absorb::<MeetsLane>(&mut self.ends.pass, pass);
    }
}
