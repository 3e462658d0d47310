use thiserror::Error;

/// A fault of the outside: a read or a write didn't do what it was to do.
///
/// It says nothing else. That there was a fault is told by the count that rose.
#[derive(Error, Clone, Copy, Debug, PartialEq, Eq, Drop)]
#[error("a read or a write failed")]
pub struct Failed;
