ghost use Rattle.std.specs.Prelude.{◌≡◌};
ghost use Rattle.caf_response.specs.declared.fault.IssueFault.TheVariants as issue_faults;

use caf_types::Memory;
use thiserror::Error;

/// Why a request got no number.
#[derive(Error, Clone, Copy, Debug, PartialEq, Eq, Drop)]
pub enum IssueFault {
    /// All 2^63 numbers were given.
    #[error("no request number is left")]
    Spent,
    /// Want of memory.
    #[error("out of memory")]
    Memory,
}

impl From<Memory> for IssueFault {
    ghost from_gives = { λ _ fault. fault ≡ issue_faults.Memory };

    fn from(_: Memory) -> IssueFault {
        IssueFault::Memory
    }
}
