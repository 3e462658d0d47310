ghost use Rattle.std.specs.Prelude.{◌≡◌, ◌≤◌, ℕ, length, Err, IfOk, IfErr, MatchResult};
ghost use Rattle.caf_command.specs.Command.{AsksRun, IsRun, IsNumberOr, listed, IsGiven};
ghost use Rattle.caf_command.specs.declared.run_words.RunWords.{RunWords};

use crate::command::CommandFault;
use crate::given::Given;
use crate::matched::given_of;
use crate::number::number_in;
use crate::parsing::run_matches;
use crate::reading::{are_known, texts_of};
use caf_types::{Letters, Seq};
use std::alloc::Global;

/// How many workers there are where the words don't say it.
const WORKERS: u64 = 4;

/// The most workers.
const MOST_WORKERS: u64 = 64;

/// How many messages may be handled where the words don't say it.
const BUDGET: u64 = 10_000_000;

/// The most messages that may be handled.
const MOST_BUDGET: u64 = 4_294_967_296;

/// What the words behind `run` ask for.
#[derive(Debug, Drop)]
pub struct RunWords {
    /// The file of the scenario; None for the built-in one.
    pub scenario: Option<Letters>,
    /// The number of workers, 1 to 64.
    pub workers: u32,
    /// Whether the trace is to be written.
    pub is_traced: bool,
    /// The most messages that may be handled, 1 to 4,294,967,296.
    pub budget: u64,
    /// The names of the files, in order.
    pub files: Seq<Letters>,
}

/// What these words behind `run` ask for.
pub(crate) fn run_words(alloc: Global, words: &[Letters]) -> Result<RunWords, CommandFault>
    ensures asks { IfOk result (λ run. AsksRun words.now run) }
    ensures refused { result ≡ Err CommandFault.Usage → (run : RunWords) → ¬ AsksRun words.now run }
{
    if !are_known(words) {
        return Err(CommandFault::Usage);
    }
    let texts = texts_of(alloc, words)?;
    let matches = run_matches(alloc, texts.as_slice())?;
    let given = given_of(alloc, &matches)?;
    run_of(given)
}

/// The run of which options and files say this.
fn run_of(given: Given) -> Result<RunWords, CommandFault>
    ensures asks { IfOk result (λ run. IsGiven given run) }
    ensures refused { result ≡ Err CommandFault.Usage → (run : RunWords) → ¬ IsGiven given run }
{
    let Given {
        scenarios,
        workers,
        budgets,
        traces,
        files,
    } = given;
    let scenario = only(scenarios)?;
    let workers = number_or(workers, MOST_WORKERS, WORKERS)?;
    let budget = number_or(budgets, MOST_BUDGET, BUDGET)?;
    if traces > 1 || (scenario.is_none() && files.is_empty()) {
        return Err(CommandFault::Usage);
    }
    Ok(RunWords {
        scenario,
        workers: workers as u32,
        is_traced: traces == 1,
        budget,
        files,
    })
}

/// The one value that was given, or none.
fn only(values: Seq<Letters>) -> Result<Option<Letters>, CommandFault>
    ensures { MatchResult result (λ value. values ≡ listed value) (λ _. 2 ≤ length values) }
{
    let mut values = values.into_vec();
    let last = values.pop();
    if !values.is_empty() {
        return Err(CommandFault::Usage);
    }
    Ok(last)
}

/// The number that was given, from 1, or what stands for it where none was.
fn number_or(values: Seq<Letters>, most: u64, otherwise: u64) -> Result<u64, CommandFault>
    ensures asks { IfOk result (λ n. IsNumberOr most otherwise values n) }
    ensures refused { IfErr result (λ _. (n : ℕ) → ¬ IsNumberOr most otherwise values n) }
{
    match only(values)? {
        None => Ok(otherwise),
        Some(text) => match number_in(text.as_str(), 1, most) {
            None => Err(CommandFault::Usage),
            Some(n) => Ok(n),
        },
    }
}
