use caf_kinds::Kind;
use caf_record::RunRecord;
use caf_types::Seq;

/// How a play ended.
#[derive(Clone, Copy, Debug, PartialEq, Eq)]
pub enum PlayEnd {
    /// All ticks of the script and Stop were taken, and all is at rest.
    Done,
    /// Something waits, Stop wasn't sent, and at least as many envelopes as the budget were handled.
    Budget,
    /// This is the least place for which something waits while its own stamp, or that of something that waits
    /// for it, is the last one.
    Exhausted(u32),
}

/// What came of a play.
#[derive(Debug, Drop)]
pub struct Played {
    /// How it ended.
    pub end: PlayEnd,
    /// What each actor is at its end, by place.
    pub kinds: Seq<Kind>,
    /// What all places took.
    pub kept: RunRecord,
}
