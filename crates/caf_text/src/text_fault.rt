use thiserror::Error;

/// Why no value was read.
#[derive(Error, Clone, Copy, Debug, PartialEq, Eq, Drop)]
pub enum TextFault {
    /// The input is no text form of the shape. The number is the length in bytes of the longest front
    /// of the input that is the front of some text form of the shape.
    #[error("no text form: fault behind byte {0}")]
    At(u64),
    /// Want of memory.
    #[error("out of memory")]
    Memory,
}
