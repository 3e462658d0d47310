//! The rule of an inbox, and what each step on its queue tells.

use crate::held::Held;
use crate::view::View;
use caf_message::Entries;
use crossbeam_queue::protocol::{Join, Lesson, Outcome, Protocol, Split};
use std::marker::{Brand, PhantomData};

/// Nothing is lost, and the order of each sender stays.
pub struct InOrder;

impl<E: Entries> Protocol<Held<E>, View> for InOrder {
    ghost use Rattle.caf_inbox.specs.Rule.{InboxRule};
    ghost use Rattle.caf_inbox.specs.Views.{new_reader};

    ghost holds = { λ held views. InboxRule held views };

    ghost first = { new_reader };
}

/// A lane pushes: the envelope is the last that it pushed.
pub struct Pushed;

impl<E: Entries> Outcome<Held<E>, View> for Pushed {
    ghost use Rattle.std.specs.Prelude.{◌≡◌};
    ghost use Rattle.caf_message.specs.Envelope.{plain_envelope};
    ghost use Rattle.caf_inbox.specs.Views.{logged};

    ghost then = { λ v e w. w ≡ logged v (plain_envelope e) };
}

/// A reader pops: the envelope is the last that it took, and came from a lane.
pub struct Popped;

impl<E: Entries> Outcome<Held<E>, View> for Popped {
    ghost use Rattle.std.specs.Prelude.{◌≡◌, Contains};
    ghost use Rattle.caf_message.specs.Envelope.{plain_envelope};
    ghost use Rattle.caf_inbox.specs.Views.{logged};

    ghost then = { λ v e w. (w ≡ logged v (plain_envelope e)) × Contains v.senders e.sender };
}

/// Of an empty queue a reader learns that it took all that the notes tell of.
impl<E: Entries> Lesson<Held<E>, View> for Popped {
    ghost use Rattle.std.specs.Prelude.{◌≡◌, []};
    ghost use Rattle.caf_inbox.specs.Senders.{AreWithin};

    ghost fact = { λ v held. held ≡ [] → AreWithin v.log v.met };
}

/// The sender of a lane that is made.
pub trait Named {
    ghost use Rattle.std.specs.Prelude.{ℕ};

    ghost sender: { ℕ };
}

impl Named for Brand {
    ghost sender = { 0 };
}

/// A lane is cut from the reader.
pub struct ForLane<N> {
    named: PhantomData<N>,
}

impl<N: Named> Split<View> for ForLane<N> {
    ghost use Rattle.caf_inbox.specs.Views.{with_lane, new_lane};

    ghost left = { λ v. with_lane N.sender v };

    ghost right = { λ v. new_lane N.sender };
}

/// A lane makes a note.
pub struct NotesLane;

impl Split<View> for NotesLane {
    ghost use Rattle.caf_inbox.specs.Views.{lane_note};

    ghost left = { λ v. v };

    ghost right = { λ v. lane_note v };
}

/// A reader makes a note.
pub struct NotesReader;

impl Split<View> for NotesReader {
    ghost use Rattle.caf_inbox.specs.Views.{reader_note};

    ghost left = { λ v. v };

    ghost right = { λ v. reader_note v };
}

/// A reader meets the note of a lane.
pub struct MeetsLane;

impl Join<View> for MeetsLane {
    ghost use Rattle.caf_inbox.specs.Views.{with_lane_note, spent};

    ghost both = { with_lane_note };

    ghost spent = { spent };
}

/// A lane meets the note of a reader.
pub struct MeetsReader;

impl Join<View> for MeetsReader {
    ghost use Rattle.caf_inbox.specs.Views.{with_reader_note, spent};

    ghost both = { with_reader_note };

    ghost spent = { spent };
}

/// A lane learns that what was taken of its sender is a prefix of what it pushed, of each note that it has met.
impl<E: Entries> Lesson<Held<E>, View> for MeetsReader {
    ghost use Rattle.caf_inbox.specs.Senders.{AreBehind};

    ghost fact = { λ v held. AreBehind v.sender v.log v.heard };
}
