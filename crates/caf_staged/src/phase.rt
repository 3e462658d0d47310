ghost use Rattle.std.specs.Prelude.{◌≡◌};
ghost use Rattle.caf_staged.specs.Phase.{is_whole, is_fresh, is_going, is_resting, phase_at, phase_after, phase_stepped};

use caf_driver::DriveEnd;

/// How far a run is.
#[derive(Clone, Copy, Debug, Drop)]
pub(crate) enum Phase {
    /// Nothing was played.
    Fresh,
    /// Something may wait, and Stop wasn't played.
    Going,
    /// Nothing waits, and Stop wasn't played.
    Resting,
    /// Stop was played.
    Stopped,
    /// A move is being made, or memory was wanted.
    Broken,
}

impl Phase {
    /// Whether memory wasn't wanted.
    pub(crate) fn is_whole(self) -> bool
        ensures { result ≡ is_whole self }
    {
        !matches!(self, Phase::Broken)
    }

    /// Whether nothing was played.
    pub(crate) fn is_fresh(self) -> bool
        ensures { result ≡ is_fresh self }
    {
        matches!(self, Phase::Fresh)
    }

    /// Whether Start was played.
    pub(crate) fn is_going(self) -> bool
        ensures { result ≡ is_going self }
    {
        matches!(self, Phase::Going | Phase::Resting | Phase::Stopped)
    }

    /// Whether a tick or Stop may be played.
    pub(crate) fn is_resting(self) -> bool
        ensures { result ≡ is_resting self }
    {
        matches!(self, Phase::Resting)
    }

    /// How far the run is after a batch that was named and taken.
    pub(crate) fn stepped(self) -> Phase
        ensures { result ≡ phase_stepped self }
    {
        match self {
            Phase::Fresh => Phase::Fresh,
            Phase::Going | Phase::Resting => Phase::Going,
            Phase::Stopped => Phase::Stopped,
            Phase::Broken => Phase::Broken,
        }
    }

    /// How far the run is after a drive.
    pub(crate) fn after(self, end: DriveEnd) -> Phase
        ensures { result ≡ phase_after self end }
    {
        match self {
            Phase::Stopped => Phase::Stopped,
            Phase::Fresh | Phase::Going | Phase::Resting | Phase::Broken => phase_at(end),
        }
    }
}

/// How far a run is where Stop wasn't played.
fn phase_at(end: DriveEnd) -> Phase
    ensures { result ≡ phase_at end }
{
    match end {
        DriveEnd::Rest => Phase::Resting,
        DriveEnd::Budget | DriveEnd::Exhausted(_) => Phase::Going,
    }
}
