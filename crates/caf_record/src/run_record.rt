use caf_actor::Journal;
use caf_types::{Seq, Words};

/// What was taken in a run: the journals of all places, and what they began with. Beside it stand the
/// snapshots that the places began with, which only the definitions know (`record_of`).
#[derive(Debug, Drop)]
pub struct RunRecord {
    /// What each place took, by place.
    pub journals: Seq<Journal>,
    /// The stamp that each place began with, by place.
    pub starts: Words,
    /// Which batch of place 0 holds Stop, counted from 0; None where Stop wasn't taken.
    pub cut: Option<u64>,
}
