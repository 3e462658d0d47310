//! Generated files: a large input that a number of lines alone determines.
//!
//! Model: the files are a list of lists of bytes, made of numbers that follow from one another (`number_at`
//! of the specifications).
//!
//! The contract that the layer above rests on: [`generated_files`] gives exactly the files of so many lines
//! that the definition `files_of` says, and [`make_line`] the line of six counts.
#![tactic(auto)]

mod counts;
mod files;
mod numbers;

pub use counts::{Counts, make_line};
pub use files::generated_files;

#[cfg(test)]
mod tests;
