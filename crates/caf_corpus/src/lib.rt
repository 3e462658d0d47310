//! The files of a command, read in order, as long as lines and corpus keep within their limits.
//!
//! Model: a corpus is the list of its files' bytes. Where a limit is passed is said of bytes alone: the first
//! byte, in reading order, that its line or the corpus may not have.
//!
//! The contract that the layer above rests on: what [`read_corpus`] answers are the told files, whole, in order
//! and within the limits; a limit that it tells is the first that is passed, at the file and the line told.
#![tactic(auto)]

mod corpus;
mod file;
mod scan;

pub use corpus::{CorpusFault, read_corpus};
pub use scan::{LARGEST_CORPUS, LONGEST_LINE, Passed};

#[cfg(test)]
mod tests;
