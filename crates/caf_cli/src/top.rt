//! The top call.
ghost use Rattle.std.specs.Prelude.{◌≡◌, ◌≢◌, ℕ, ◌≤◌, List, false, None};
ghost use Rattle.caf_io.specs.Faults.{Rose};
ghost use Rattle.caf_command.specs.Command.{AsksFor};
ghost use Rattle.caf_command.specs.declared.command.Command.{Command};
ghost use Rattle.caf_command.specs.declared.command.CommandFault.TheVariants as faults;
ghost use Rattle.caf_cli.specs.End.{status_of, has_written};
ghost use Rattle.caf_cli.specs.Commands.{QuietEnds, CommandEnds};

use crate::checking::check;
use crate::end::End;
use crate::making::make;
use crate::outcome::Outcome;
use crate::plain::plain;
use crate::running::{Ended, run};
use caf_command::{Command, CommandFault, WordList, ask_for_one_command, command_of};
use caf_io::{Files, Sink};
use std::alloc::Global;

/// Does what the words of the command line ask for, over these files and this sink, and returns.
///
/// `run` plays a scenario over files, and writes the text of its record; `plain` writes the plain index of files,
/// `check` how many actors and steps a scenario has, and `make` how large an index of generated lines is. Refusals
/// are looked for in this order: the words, the number of files, the scenario, the files in order, the run, and
/// writing. What each command promises of its end is `CommandEnds` of the specifications.
pub fn run_main<F: Files, S: Sink>(
    alloc: Global,
    words: &WordList,
    files: &mut F,
    out: &mut S,
) -> Outcome
    ensures status { result.status ≡ status_of result.end }

    // what each command promises
    ensures asked { (command : Command) → AsksFor words.now command → CommandEnds (F.told files.old) command result.kept (S.written out.old) (S.written out.new) result.end }

    // when the words are no command
    ensures usage { result.end ≡ End.Usage → (command : Command) → ¬ AsksFor words.now command }
    ensures understood { result.end ≢ End.Usage → result.end ≢ End.Memory → (command : Command) × AsksFor words.now command }
    ensures unread { result.end ≡ End.Usage → files.new ≡ files.old }

    // what reads and writes tell of it
    ensures nothing { has_written result.end ≡ false → out.new ≡ out.old }
    ensures read { (name : List ℕ) → result.end ≡ End.Read name → Rose (F.faults files.old name) (F.faults files.new name) }
    ensures write { result.end ≡ End.Write → Rose (S.faults out.old) (S.faults out.new) }
    ensures no_read_failed { result.end ≡ End.Done → (name : List ℕ) → F.faults files.new name ≡ F.faults files.old name }
    ensures no_write_failed { result.end ≡ End.Done → S.faults out.new ≡ S.faults out.old }

    // what stays
    ensures same_content { F.told files.new ≡ F.told files.old }
    ensures none_falls { (name : List ℕ) → F.faults files.old name ≤ F.faults files.new name }
    ensures never_falls { S.faults out.old ≤ S.faults out.new }
{
    ask_for_one_command();
    match command_of(alloc, words) {
        Ok(Command::Run(words)) => outcome(run(alloc, &words, files, out)),
        Ok(command) => outcome(silent(quiet(alloc, &command, files, out))),
        Err(fault) => outcome(silent(end_of(fault))),
    }
}

/// Does what the words ask for, where that is `plain`, `check` or `make`. To `run` the end is [`End::Usage`]. It
/// returns, also where later a run over threads may not.
pub fn run_quiet<F: Files, S: Sink>(
    alloc: Global,
    words: &WordList,
    files: &mut F,
    out: &mut S,
) -> Outcome
    ensures status { result.status ≡ status_of result.end }
    ensures asked { (command : Command) → AsksFor words.now command → QuietEnds (F.told files.old) command (S.written out.old) (S.written out.new) result.end }
    ensures kept { result.kept ≡ None }
    ensures understood { result.end ≢ End.Usage → result.end ≢ End.Memory → (command : Command) × AsksFor words.now command }
    ensures unread { result.end ≡ End.Usage → files.new ≡ files.old }
    ensures nothing { has_written result.end ≡ false → out.new ≡ out.old }
    ensures read { (name : List ℕ) → result.end ≡ End.Read name → Rose (F.faults files.old name) (F.faults files.new name) }
    ensures write { result.end ≡ End.Write → Rose (S.faults out.old) (S.faults out.new) }
    ensures no_read_failed { result.end ≡ End.Done → (name : List ℕ) → F.faults files.new name ≡ F.faults files.old name }
    ensures no_write_failed { result.end ≡ End.Done → S.faults out.new ≡ S.faults out.old }
    ensures same_content { F.told files.new ≡ F.told files.old }
    ensures none_falls { (name : List ℕ) → F.faults files.old name ≤ F.faults files.new name }
    ensures never_falls { S.faults out.old ≤ S.faults out.new }
{
    ask_for_one_command();
    match command_of(alloc, words) {
        Ok(command) => outcome(silent(quiet(alloc, &command, files, out))),
        Err(fault) => outcome(silent(end_of(fault))),
    }
}

/// Does what the command says, where it is no `run`.
fn quiet<F: Files, S: Sink>(alloc: Global, command: &Command, files: &mut F, out: &mut S) -> End
    ensures ends { QuietEnds (F.told files.old) command.now (S.written out.old) (S.written out.new) result }
    ensures nothing { has_written result ≡ false → out.new ≡ out.old }
    ensures unread { result ≡ End.Usage → files.new ≡ files.old }
    ensures read { (name : List ℕ) → result ≡ End.Read name → Rose (F.faults files.old name) (F.faults files.new name) }
    ensures write { result ≡ End.Write → Rose (S.faults out.old) (S.faults out.new) }
    ensures no_read_failed { result ≡ End.Done → (name : List ℕ) → F.faults files.new name ≡ F.faults files.old name }
    ensures no_write_failed { result ≡ End.Done → S.faults out.new ≡ S.faults out.old }
    ensures same_content { F.told files.new ≡ F.told files.old }
    ensures none_falls { (name : List ℕ) → F.faults files.old name ≤ F.faults files.new name }
    ensures never_falls { S.faults out.old ≤ S.faults out.new }
{
    match command {
        Command::Run(_) => End::Usage,
        Command::Check(name) => check(alloc, name, files, out),
        Command::Plain(names) => plain(alloc, names, files, out),
        Command::Make(lines) => make(alloc, *lines, out),
    }
}

/// The end of words that were made no command.
fn end_of(fault: CommandFault) -> End
    ensures usage { fault ≡ faults.Usage → result ≡ End.Usage }
    ensures memory { fault ≡ faults.Memory → result ≡ End.Memory }
{
    match fault {
        CommandFault::Usage => End::Usage,
        CommandFault::Memory => End::Memory,
    }
}

/// An end of which no record is kept.
fn silent(end: End) -> Ended
    ensures end { result.end ≡ end }
    ensures kept { result.kept ≡ None }
{
    Ended { end, kept: None }
}

fn outcome(ended: Ended) -> Outcome
    ensures status { result.status ≡ status_of ended.end }
    ensures end { result.end ≡ ended.end }
    ensures kept { result.kept ≡ ended.kept }
{
    let Ended { end, kept } = ended;
    Outcome {
        status: end.status(),
        end,
        kept,
    }
}
