//! The ends of an inbox that push, one for each sender.
ghost use Rattle.std.specs.Prelude.{◌≡◌, [], ◌∷◌, ◌++◌, IfErr, OnOk};
ghost use Rattle.caf_message.specs.Entries.{entry_shape};
ghost use Rattle.caf_message.specs.Envelope.{plain_envelope, EnvelopeFits};
ghost use Rattle.caf_inbox.specs.Senders.{from_sender, IsPrefix};

use crate::held::Held;
use crate::notes::{LaneNote, ReaderNote};
use crate::queue::{Pass, Shared};
use crate::rule::{MeetsReader, NotesLane, Pushed};
use caf_message::{Entries, Envelope};
use caf_types::Memory;
use std::alloc::Global;
use std::marker::Model;
use std::sync::{Arc, Wait};

/// The end of an inbox that pushes for one sender. Contracts see what it pushed, in plain form, and the notes of the
/// reader that it has met. What was taken of its sender is a prefix of what it pushed, by each of these notes.
#[derive(Drop)]
pub struct Lane<E: Entries> {
    pub(crate) shared: Arc<Shared<E>, Global>,
    pub(crate) pass: Pass<E>,
    pub(crate) sender: u32,
}

impl<E: Entries> Model for Lane<E> {
    ghost use Rattle.std.specs.Prelude.{◌≡◌};
    ghost use Rattle.std.specs.Arc.{arc_value};
    ghost use Rattle.crossbeam_queue.specs.SegTies.{IsSegPassOf};
    ghost use Rattle.caf_inbox.specs.declared.view.Role.TheVariants.{Sending};
    ghost use Rattle.caf_inbox.specs.Ends.{LaneSeen};
    ghost use Rattle.caf_inbox.specs.Senders.{AreBehind};

    ghost Value = { LaneSeen };

    ghost view = { λ l. record {
      inbox = l.pass.web;
      sender = l.pass.me.view.client.sender;
      pushed = l.pass.me.view.client.log;
      met = l.pass.me.view.client.heard;
    } };

    ghost invariant = { λ l. IsSegPassOf (arc_value l.shared).queue l.pass
        × (l.pass.me.view.client.role ≡ Sending)
        × AreBehind l.pass.me.view.client.sender l.pass.me.view.client.log l.pass.me.view.client.heard
        × (l.sender ≡ l.pass.me.view.client.sender) };
}

impl<E: Entries> Lane<E> {
    /// The sender whose lane it is.
    pub fn sender(&self) -> u32
        ensures { result ≡ self.now.sender }
    {
        self.sender
    }

    /// Sends an envelope of the lane's sender, whose content, where it has one, fits the inbox's entries: one push on
    /// the inbox. After want of memory the lane is as before, and the envelope comes back as it was.
    pub fn push<R: Wait>(&mut self, rt: &R, envelope: Envelope) -> Result<(), (Envelope, Memory)>
        requires sender { envelope.sender ≡ self.old.sender }
        requires fits { EnvelopeFits (entry_shape E.entries) (plain_envelope envelope) }
        ensures pushed { OnOk result (self.new ≡ record self.old { pushed = self.old.pushed ++ plain_envelope envelope ∷ [] }) }
        ensures refused { IfErr result (λ r. (r.0 ≡ envelope) × (self.new ≡ self.old)) }
    {
        let held = Held::new(envelope);
        match self
            .shared
            .queue
            .push_as::<Pushed, R>(rt, &mut self.pass, held)
        {
            Ok(()) => Ok(()),
            Err(held) => Err((held.open(), Memory)),
        }
    }

    /// What was pushed so far, for the reader of this inbox to meet.
    pub fn note<R: Wait>(&mut self, rt: &R) -> LaneNote<E>
        ensures same { self.new ≡ self.old }
        ensures note { result ≡ record { inbox = self.old.inbox; sender = self.old.sender; pushed = self.old.pushed } }
    {
        let _ = rt;
        let pass = self.shared.queue.another::<NotesLane>(&mut self.pass);
        LaneNote { pass }
    }

    /// Takes in a note of the reader of this inbox: what was taken of the lane's sender is a prefix of what the lane
    /// pushed.
    pub fn meet<R: Wait>(&mut self, rt: &R, note: ReaderNote<E>)
        requires { note.inbox ≡ self.old.inbox }
        ensures met { self.new ≡ record self.old { met = self.old.met ++ note.taken ∷ [] } }
        ensures before { IsPrefix (from_sender self.old.sender note.taken) self.old.pushed }
    {
        let ReaderNote { pass } = note;
        self.shared
            .queue
            .absorb::<MeetsReader>(&mut self.pass, pass);
        self.shared
            .queue
            .len_as::<MeetsReader, R>(rt, &mut self.pass);
    }
}
