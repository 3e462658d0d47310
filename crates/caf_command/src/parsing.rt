ghost use Rattle.std.specs.Prelude.{◌≡◌, [], map, Err, IfOk};
ghost use Rattle.clap.specs.Words.{app_of, found_of, rows_of};
ghost use Rattle.clap.specs.Faults.{fault_of};
ghost use Rattle.clap.specs.Simple.{matches_of};
ghost use Rattle.caf_command.specs.Clap.{run_app};

use crate::command::CommandFault;
use clap::error::ErrorKind;
use clap::{Arg, ArgAction, ArgMatches, Command};
use std::alloc::{AllocError, Global};

/// The one simple command that reads the words behind `run`.
fn run_command<'a>(alloc: Global) -> Result<Command<'a>, AllocError>
    ensures { IfOk result (λ command. app_of command ≡ run_app) }
{
    let scenario = Arg::new(alloc, "scenario")
        .long("scenario")
        .action(ArgAction::Set);
    let workers = Arg::new(alloc, "workers")
        .long("workers")
        .action(ArgAction::Set);
    let budget = Arg::new(alloc, "max-messages")
        .long("max-messages")
        .action(ArgAction::Set);
    let trace = Arg::new(alloc, "trace")
        .long("trace")
        .action(ArgAction::SetTrue);
    let files = Arg::new(alloc, "files").action(ArgAction::Append);
    let command = Command::new(alloc, "run")
        .no_binary_name(true)
        .disable_help_flag(true)
        .disable_version_flag(true);
    let command = command.arg(scenario)?;
    let command = command.arg(workers)?;
    let command = command.arg(budget)?;
    let command = command.arg(trace)?;
    command.arg(files)
}

/// What `clap` matches of the words behind `run`.
pub(crate) fn run_matches<'a>(
    alloc: Global,
    words: &'a [&'a str],
) -> Result<ArgMatches<'a>, CommandFault>
    ensures matches { IfOk result (λ m. rows_of (found_of m) ≡ matches_of run_app (map (λ word. word.now) words.entry.now)) }
    ensures taken { IfOk result (λ _. fault_of run_app (map (λ word. word.now) words.entry.now) ≡ []) }
    ensures refused { result ≡ Err CommandFault.Usage → fault_of run_app (map (λ word. word.now) words.entry.now) ≡ [] → ⊥ }
{
    let command = run_command(alloc)?;
    match command.try_get_matches_from(words) {
        Ok(matches) => Ok(matches),
        Err(error) => {
            if error.kind() == ErrorKind::OutOfMemory {
                Err(CommandFault::Memory)
            } else {
                Err(CommandFault::Usage)
            }
        }
    }
}
