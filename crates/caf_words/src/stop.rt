ghost use Rattle.std.specs.Prelude.{◌≡◌};
ghost use Rattle.caf_words.specs.declared.stop.Stop.TheVariants.{Memory as memory};

use caf_types::Memory;
use std::alloc::{AllocError, AllocFailed};
use thiserror::Error;

/// Why words were not read.
#[derive(Error, Clone, Copy, Debug, PartialEq, Eq, Drop)]
pub enum SpellFault {
    /// The words are no spellings of values of the types. The number is the place of the first fault:
    /// that of a word without a meaning, of a filling that isn't zero, of the length of a text that
    /// isn't UTF-8, or of a word after the last value, and the number of words where they end too soon.
    #[error("no spelling: fault at word {0}")]
    At(u64),
    /// Want of memory.
    #[error("out of memory")]
    Memory,
}

/// Why a reader stopped.
#[derive(Clone, Copy, Debug, Drop)]
pub enum Stop {
    /// Want of memory. It has no cause.
    Memory,
    /// The input is no form of a value: so many words (for a reader of text, bytes) are left, from the
    /// faulty one on.
    Left(u64),
}

impl From<AllocError> for Stop {
    ghost from_gives = { λ _ e. e ≡ memory };

    fn from(_: AllocError) -> Stop {
        Stop::Memory
    }
}

impl<T: Drop> From<AllocFailed<T>> for Stop {
    ghost from_gives = { λ _ e. e ≡ memory };

    fn from(_: AllocFailed<T>) -> Stop {
        Stop::Memory
    }
}

impl From<Memory> for Stop {
    ghost from_gives = { λ _ e. e ≡ memory };

    fn from(_: Memory) -> Stop {
        Stop::Memory
    }
}
