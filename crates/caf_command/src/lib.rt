//! The words of the command line: what they ask for, and which words ask for nothing.
//!
//! Model: the words are a list of texts, and a command is what it says. `AsksFor` of the specifications
//! relates the two, rule by rule.
//!
//! The contract that the layer above rests on: [`command_of`] answers a command only where the words ask for
//! it, and [`CommandFault::Usage`] only where they ask for none. The same words never ask for two commands.
#![tactic(auto)]

mod command;
mod given;
mod law;
mod matched;
mod number;
mod options;
mod parsing;
mod reading;
mod run_words;

pub use command::{Command, CommandFault, WordList, command_of};
pub use law::ask_for_one_command;
pub use run_words::RunWords;

#[cfg(test)]
mod tests;
