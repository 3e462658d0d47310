ghost use Rattle.std.specs.Prelude.{◌≡◌, ℕ, List, [], ◌∷◌, true, false, Err, IfOk};
ghost use Rattle.caf_command.specs.Command.{AsksFor, AreFiles, AsksRun};
ghost use Rattle.caf_command.specs.Words.{is_plain};
ghost use Rattle.caf_command.specs.Number.{IsNumberIn};
ghost use Rattle.caf_command.specs.declared.command.Command.{Command};
ghost use Rattle.caf_command.specs.declared.run_words.RunWords.{RunWords};

use crate::number::number_in;
use crate::options;
use crate::run_words::{RunWords, run_words};
use caf_types::{Letters, Memory, Seq};
use std::alloc::{AllocError, Global};
use thiserror::Error;

/// The words of the command line, without the program's name.
pub type WordList = Seq<Letters>;

/// What the words of the command line ask for.
#[derive(Debug, Drop)]
pub enum Command {
    /// `run`: a run of actors.
    Run(RunWords),
    /// `check FILE`: whether a file is a scenario.
    Check(Letters),
    /// `plain FILE..`: the plain index of files.
    Plain(Seq<Letters>),
    /// `make NUMBER`: a run over so many generated lines, 1 to 100,000.
    Make(u32),
}

/// Why words were not made a command.
#[derive(Error, Clone, Copy, Debug, PartialEq, Eq, Drop)]
pub enum CommandFault {
    /// The words ask for no command.
    #[error("the words are not understood")]
    Usage,
    /// Want of memory.
    #[error("out of memory")]
    Memory,
}

impl From<Memory> for CommandFault {
    ghost use Rattle.std.specs.Prelude.{◌≡◌};
    ghost use Rattle.caf_command.specs.declared.command.CommandFault.TheVariants as faults;

    ghost from_gives = { λ _ fault. fault ≡ faults.Memory };

    fn from(_: Memory) -> CommandFault {
        CommandFault::Memory
    }
}

impl From<AllocError> for CommandFault {
    ghost use Rattle.std.specs.Prelude.{◌≡◌};
    ghost use Rattle.caf_command.specs.declared.command.CommandFault.TheVariants as faults;

    ghost from_gives = { λ _ fault. fault ≡ faults.Memory };

    fn from(_: AllocError) -> CommandFault {
        CommandFault::Memory
    }
}

/// The command that the words ask for. `Usage` comes exactly where they ask for none.
///
/// How many files there are is not looked at.
pub fn command_of(alloc: Global, words: &WordList) -> Result<Command, CommandFault>
    ensures asks { IfOk result (λ command. AsksFor words.now command) }
    ensures refused { result ≡ Err CommandFault.Usage → (command : Command) → ¬ AsksFor words.now command }
{
    match words.as_slice() {
        [] => Err(CommandFault::Usage),
        [first, rest @ ..] => named(alloc, first.as_str(), rest),
    }
}

/// The command of this name with these words behind it.
fn named(alloc: Global, name: &str, rest: &[Letters]) -> Result<Command, CommandFault>
    ensures asks { IfOk result (λ command. AsksFor (name.now ∷ rest.now) command) }
    ensures refused { result ≡ Err CommandFault.Usage → (command : Command) → ¬ AsksFor (name.now ∷ rest.now) command }
{
    if name == "run" {
        Ok(Command::Run(run_words(alloc, rest)?))
    } else if name == "check" {
        Ok(Command::Check(one_file(alloc, rest)?))
    } else if name == "plain" {
        Ok(Command::Plain(files(alloc, rest)?))
    } else if name == "make" {
        Ok(Command::Make(lines(rest)?))
    } else {
        Err(CommandFault::Usage)
    }
}

/// The one file that the words name.
fn one_file(alloc: Global, words: &[Letters]) -> Result<Letters, CommandFault>
    ensures asks { IfOk result (λ file. (words.now ≡ file ∷ []) × (is_plain file ≡ true)) }
    ensures refused { result ≡ Err CommandFault.Usage → (file : List ℕ) → words.now ≡ file ∷ [] → is_plain file ≡ false }
{
    match words {
        [file] => {
            let file = file.as_str();
            if !options::is_plain(file) {
                return Err(CommandFault::Usage);
            }
            Ok(Letters::of(alloc, file)?)
        }
        _ => Err(CommandFault::Usage),
    }
}

/// The files that the words name, at least one.
fn files(alloc: Global, words: &[Letters]) -> Result<Seq<Letters>, CommandFault>
    ensures asks { IfOk result (λ files. (files ≡ words.now) × AreFiles files) }
    ensures refused { result ≡ Err CommandFault.Usage → ¬ AreFiles words.now }
{
    if words.is_empty() {
        return Err(CommandFault::Usage);
    }
    let mut files = Seq::new(alloc);
    for word in words {
        let word = word.as_str();
        if !options::is_plain(word) {
            return Err(CommandFault::Usage);
        }
        files.push(Letters::of(alloc, word)?)?;
    }
    Ok(files)
}

/// The number of lines that the one word writes.
fn lines(words: &[Letters]) -> Result<u32, CommandFault>
    ensures asks { IfOk result (λ n. (text : List ℕ) × (words.now ≡ text ∷ []) × IsNumberIn 1 100000 text n) }
    ensures refused { result ≡ Err CommandFault.Usage → (text : List ℕ) (n : ℕ) → words.now ≡ text ∷ [] → ¬ IsNumberIn 1 100000 text n }
{
    match words {
        [text] => match number_in(text.as_str(), 1, MOST_LINES) {
            None => Err(CommandFault::Usage),
            Some(n) => Ok(n as u32),
        },
        _ => Err(CommandFault::Usage),
    }
}

/// The most lines that are made.
const MOST_LINES: u64 = 100_000;
