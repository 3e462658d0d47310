ghost use Rattle.std.specs.Prelude.{◌≡◌};
ghost use Rattle.caf_script.specs.Step.{plain_step, waits_for};

use caf_actor::Output;
use caf_types::TypeIds;

/// A step of a script.
#[derive(Debug, Drop)]
pub enum Planned {
    /// What is sent, and has no answer.
    Send(Output),
    /// A request, whose tag is the step's number from 1, and the types of its answer.
    Ask(Output, TypeIds),
    /// No step is played until none of the script's requests waits.
    Sync,
    /// No step is played until a tick has come for this one.
    Tick,
}

/// What a step waits for.
#[derive(Clone, Copy, Debug, PartialEq, Eq, Drop)]
pub enum Wait {
    /// For nothing.
    Nothing,
    /// Until none of the script's requests waits.
    Replies,
    /// For a tick that no earlier step has used.
    Tick,
}

impl Planned {
    /// What the step waits for.
    pub(crate) fn waits_for(&self) -> Wait
        ensures { result ≡ waits_for (plain_step self.now) }
    {
        match self {
            Planned::Send(_) | Planned::Ask(_, _) => Wait::Nothing,
            Planned::Sync => Wait::Replies,
            Planned::Tick => Wait::Tick,
        }
    }
}
