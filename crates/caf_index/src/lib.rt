//! Words, lines and the index: which word stands in which lines of which files; files in chunks of
//! whole lines, and the postings of each.
//!
//! Model: contracts see an [`Index`] as a finite map from words (lists of bytes) to finite maps from
//! file numbers to sets of line numbers, a file as the list of its bytes, and chunks and postings as
//! lists of records.
//!
//! The contract above which later layers build: [`plain_index`] answers the index whose entries are
//! exactly the (word, file number, line number) where the word stands in that line of that file, and
//! [`index_text`] its text. By the [`laws`], an index that is filled with the [`postings`] of all
//! [`chunks`] of the files, in whatever order, is that index.
#![tactic(auto)]

mod chunk;
mod index;
pub mod laws;
mod number_map;
mod plain;
mod posting;
#[cfg(test)]
mod tests;
mod text;
mod words;

pub use chunk::{Chunk, chunks};
pub use index::Index;
pub use plain::plain_index;
pub use posting::{Posting, postings};
pub use text::index_text;
