use crate::end::End;
use caf_record::RunRecord;

/// What came of a run of the program.
#[derive(Debug, Drop)]
pub struct Outcome {
    /// The exit status.
    pub status: u8,
    /// The end that the status stands for.
    pub end: End,
    /// What all places took, for `run` alone, where the run was played to an end: with the statuses 0, 5, 7 and 8.
    pub kept: Option<RunRecord>,
}
