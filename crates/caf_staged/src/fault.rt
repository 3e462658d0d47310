use caf_types::Memory;
use thiserror::Error;

/// Why there was no play.
#[derive(Error, Clone, Copy, Debug, PartialEq, Eq, Drop)]
pub enum PlayFault {
    /// The number of roles isn't from 1 to 256.
    #[error("the roles are not 1 to 256")]
    Roles,
    /// The first role that says another place than its own, has a peer or a child at no place of the
    /// play, or begins past the latest stamp.
    #[error("the role at place {0} fits no place")]
    Role(u32),
    /// Want of memory.
    #[error("out of memory")]
    Memory,
}

impl From<Memory> for PlayFault {
    fn from(_: Memory) -> PlayFault {
        PlayFault::Memory
    }
}
