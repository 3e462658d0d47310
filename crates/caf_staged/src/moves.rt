use caf_driver::{DriveEnd, SenderRun};

/// Who takes next in a play, and from whom.
#[derive(Clone, Copy, Debug, PartialEq, Eq, Drop)]
pub enum Choice {
    /// [`RoundRobin`](caf_driver::RoundRobin).
    RoundRobin,
    /// [`LastPlace`](crate::LastPlace).
    LastPlace,
    /// [`SendersInTurn`](crate::SendersInTurn).
    SendersInTurn,
    /// [`Always`](crate::Always), with this place and this sender.
    Always(u32, Option<u32>),
}

/// What comes next in a play.
#[derive(Clone, Copy, Debug)]
pub enum Move<'a> {
    /// The outside sends Start, first and once.
    Start,
    /// The places take batches, with that budget.
    Drive(u64),
    /// The place takes the batch that the runs name, where it may.
    Step(u32, &'a [SenderRun]),
    /// The outside sends a tick, at a rest.
    Tick,
    /// The outside sends Stop, at a rest, last and once.
    Stop,
}

/// What came of a move.
#[derive(Clone, Copy, Debug, PartialEq, Eq, Drop)]
pub enum Outcome {
    /// The notice was played.
    Played,
    /// The drive ended so.
    Ended(DriveEnd),
    /// The batch was taken at that stamp; None where it may not be taken.
    Stepped(Option<u64>),
    /// The move may not be made here, and nothing was done.
    Refused,
}
