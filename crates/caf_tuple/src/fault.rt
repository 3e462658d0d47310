ghost use Rattle.std.specs.Prelude.{◌≡◌};
ghost use Rattle.caf_tuple.specs.declared.fault.TupleFault.TheVariants.{Memory as OutOfMemory};

use caf_types::Memory;
use thiserror::Error;

/// Why a tuple was not made.
#[derive(Error, Clone, Copy, Debug, PartialEq, Eq, Drop)]
pub enum TupleFault {
    /// There are more words than a tuple holds.
    #[error("more than 4194304 words")]
    Large,
    /// There was no memory.
    #[error("out of memory")]
    Memory,
}

impl From<Memory> for TupleFault {
    ghost from_gives = { λ _ fault. fault ≡ OutOfMemory };

    fn from(_: Memory) -> TupleFault {
        TupleFault::Memory
    }
}
