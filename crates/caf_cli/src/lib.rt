//! The top call: the words of the command line in, what their command writes out.
//!
//! Model: the words are a list of texts; files and the sink are what `caf_io` makes of them, so that contracts
//! speak of the bytes that were told and written, and of counts of faults.
//!
//! The contract that the program rests on is that of [`run_main`]: each end has its cause. Where a run ends with
//! [`End::Done`], what was written is the text of its record, which is complete, and of which `KeepsWord` says
//! what a user relies on.
#![tactic(auto)]

mod checking;
mod end;
mod making;
mod outcome;
mod plain;
mod playing;
mod promises;
mod reading;
mod running;
#[cfg(test)]
mod tests;
mod top;
mod writing;

pub use caf_command::WordList;
pub use end::{End, LimitKind, end_line};
pub use outcome::Outcome;
pub use top::{run_main, run_quiet};
