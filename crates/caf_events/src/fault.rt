ghost use Rattle.std.specs.Prelude.{◌≡◌};
ghost use Rattle.caf_events.specs.declared.fault.LoadFault.TheVariants as faults;

use caf_types::{Memory, Seq};
use std::alloc::{AllocError, AllocFailed};
use thiserror::Error;

/// Why no value was read.
#[derive(Error, Debug, Drop)]
pub enum LoadFault {
    /// The input is no form of the type's shape. The numbers tell where, each form in its own way:
    /// for words the one place of the first fault; for JSON the positions that lead down to the
    /// first part that is missing or isn't of its shape; for text the length in bytes of the longest
    /// prefix of the text that is a prefix of some text form of the shape.
    #[error("not a form of the type, at {:?}", .0.as_slice())]
    Unfit(Seq<u64>),
    /// Want of memory.
    #[error("out of memory")]
    Memory,
}

impl From<Memory> for LoadFault {
    ghost from_gives = { λ _ fault. fault ≡ faults.Memory };

    fn from(_: Memory) -> LoadFault {
        LoadFault::Memory
    }
}

impl From<AllocError> for LoadFault {
    ghost from_gives = { λ _ fault. fault ≡ faults.Memory };

    fn from(_: AllocError) -> LoadFault {
        LoadFault::Memory
    }
}

impl<T: Drop> From<AllocFailed<T>> for LoadFault {
    ghost from_gives = { λ _ fault. fault ≡ faults.Memory };

    fn from(_: AllocFailed<T>) -> LoadFault {
        LoadFault::Memory
    }
}
