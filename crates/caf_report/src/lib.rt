//! The text of a record: what `caf run` prints when a run is over.
//!
//! Model: the replies of a script's requests are their spellings, read by the types with which the actors that
//! were asked answer; indexes are finite maps; a text is the list of its bytes.
//!
//! The contract that the layer above rests on: [`record_text`] gives exactly the text that `text_of` of the
//! specifications defines: of each request in order what became of it, and then, where it is wanted, the trace.
#![tactic(auto)]

mod lines;
mod report;
#[cfg(test)]
mod tests;
mod values;

pub use report::record_text;
