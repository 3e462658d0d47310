use crate::Outcome;
use caf_scripted::{Note, What};
use caf_types::{Mid, Octets, Priority, Reason, Seq};

/// What came of a play.
#[derive(Debug, Drop)]
pub struct Played {
    /// What came of each move.
    pub outcomes: Seq<Outcome>,
    /// What each place took, place by place, in the order taken.
    pub lines: Seq<JournalLine>,
    /// What each place was given besides content, place by place.
    pub notes: Seq<(u32, Note)>,
    /// Where each place ended, place by place.
    pub finals: Seq<Final>,
    /// Which batch of place 0 holds Stop, counted from 0.
    pub cut: Option<u64>,
    /// The trace of what was taken.
    pub trace: Octets,
}

/// An envelope that a place took.
#[derive(Clone, Copy, Debug, PartialEq, Eq, Drop)]
pub struct JournalLine {
    /// The place.
    pub place: u32,
    /// The stamp of the batch in which it was taken.
    pub batch: u64,
    /// Its sender.
    pub sender: u32,
    /// Its number among what its sender sent to this place.
    pub seq: u64,
    /// Whose request it is or answers, if it is or does.
    pub mid: Mid,
    /// Which of the two lists it went to.
    pub priority: Priority,
    /// The stamp with which it was sent.
    pub stamp: u64,
    /// What stood in it.
    pub what: What,
}

/// Where a place ended.
#[derive(Clone, Copy, Debug, PartialEq, Eq, Drop)]
pub struct Final {
    /// The stamp of its last batch, or the one with which it began.
    pub stamp: u64,
    /// How many envelopes it handled.
    pub handled: u64,
    /// Why it quit, if it did.
    pub quit: Option<Reason>,
}
