use caf_types::{Letters, Memory, Name};
use thiserror::Error;

/// Why the bytes are no scenario. A path is written as names of members and positions from 0, joined by
/// dots; that of the whole document is empty.
#[derive(Error, Debug, Drop)]
pub enum ScenarioFault {
    /// They aren't JSON.
    #[error("not JSON")]
    Malformed,
    /// What stands at this path is missing, has another form than it must have, or is one too many.
    #[error("field {}", .0.as_str())]
    Field(Letters),
    /// No actor is of that kind.
    #[error("kind {}", .0.as_str())]
    Kind(Letters),
    /// An earlier actor has that name, or it is the conductor's.
    #[error("name {0} twice")]
    Twice(Name),
    /// No actor has that name.
    #[error("unknown {0}")]
    Unknown(Name),
    /// The actor, or the conductor, asks more of its peer or target, named second, than that one takes.
    #[error("interface of {1} for {0}")]
    Interface(Name, Name),
    /// There are too many actors, sources or steps.
    #[error("too many")]
    Many,
    /// Want of memory.
    #[error("out of memory")]
    Memory,
}

impl From<Memory> for ScenarioFault {
    ghost use Rattle.std.specs.Prelude.{◌≡◌};
    ghost use Rattle.caf_scenario.specs.declared.fault.ScenarioFault.TheVariants as faults;

    ghost from_gives = { λ _ fault. fault ≡ faults.Memory };

    fn from(_: Memory) -> ScenarioFault {
        ScenarioFault::Memory
    }
}
