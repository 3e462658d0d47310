use std::alloc::{AllocError, AllocFailed};
use thiserror::Error;

/// Want of memory: the one refusal that no contract ties to a cause.
///
/// A call that answers it leaves everything it was lent as it was, unless its own contract says otherwise.
#[derive(Error, Clone, Copy, Debug, PartialEq, Eq, Drop)]
#[error("out of memory")]
pub struct Memory;

impl From<AllocError> for Memory {
    fn from(_: AllocError) -> Memory {
        Memory
    }
}

/// What could not be stored is let go.
impl<T: Drop> From<AllocFailed<T>> for Memory {
    fn from(_: AllocFailed<T>) -> Memory {
        Memory
    }
}
