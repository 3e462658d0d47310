//! The command `run`.
ghost use Rattle.std.specs.Prelude.{◌≡◌, ℕ, ◌≤◌, ◌^◌, List, length, false, Some, IfOk, IfErr, OnOk};
ghost use Rattle.caf_types.specs.TypeTable.{seen};
ghost use Rattle.caf_io.specs.Faults.{Rose};
ghost use Rattle.caf_kinds.specs.Core.{core};
ghost use Rattle.caf_cli.specs.End.{has_written};
ghost use Rattle.caf_cli.specs.Promises.{IsChosen};
ghost use Rattle.caf_cli.specs.Run.{NoneIsChosen, IsRun, IsNotRun, IsTold, RunEnds};

use crate::end::{End, LimitKind};
use crate::playing::play_over;
use crate::promises::{know_files, runs_keep_their_word};
use crate::reading::{are_few, corpus_of, scenario_in};
use crate::writing::write_text;
use caf_command::RunWords;
use caf_io::{Files, Sink};
use caf_kinds::core_table;
use caf_play::{PlayEnd, Played};
use caf_record::RunRecord;
use caf_report::record_text;
use caf_scenario::{Scenario, builtin};
use caf_types::{Letters, TypeTable};
use caf_typing::laws::{builtin_opens, valid_scenario_opens};
use std::alloc::Global;

/// How many counters the built-in scenario has.
pub(crate) const COUNTERS: u32 = 4;

/// How a command ended, and the record that it keeps.
pub(crate) struct Ended {
    pub(crate) end: End,
    pub(crate) kept: Option<RunRecord>,
}

/// A run that was played to an end, and the scenario whose script it played.
struct Ran {
    scenario: Scenario,
    played: Played,
}

/// Plays the scenario that the words choose over their files, and writes the text of the record.
pub(crate) fn run<F: Files, S: Sink>(
    alloc: Global,
    words: &RunWords,
    files: &mut F,
    out: &mut S,
) -> Ended
    ensures ends { RunEnds (F.told files.old) words.now result.kept (S.written out.old) (S.written out.new) result.end }
    ensures nothing { has_written result.end ≡ false → out.new ≡ out.old }
    ensures read { (name : List ℕ) → result.end ≡ End.Read name → Rose (F.faults files.old name) (F.faults files.new name) }
    ensures write { result.end ≡ End.Write → Rose (S.faults out.old) (S.faults out.new) }
    ensures no_read_failed { result.end ≡ End.Done → (name : List ℕ) → F.faults files.new name ≡ F.faults files.old name }
    ensures no_write_failed { result.end ≡ End.Done → S.faults out.new ≡ S.faults out.old }
    ensures same_content { F.told files.new ≡ F.told files.old }
    ensures none_falls { (name : List ℕ) → F.faults files.old name ≤ F.faults files.new name }
    ensures never_falls { S.faults out.old ≤ S.faults out.new }
{
    let Ok(table) = core_table(alloc) else {
        return Ended {
            end: End::Memory,
            kept: None,
        };
    };
    match played(alloc, &table, words, files) {
        Ok(ran) => told(alloc, &table, words, ran, out),
        Err(end) => Ended { end, kept: None },
    }
}

/// The run, or why there is none. Nothing is written yet.
fn played<F: Files>(
    alloc: Global,
    table: &TypeTable,
    words: &RunWords,
    files: &mut F,
) -> Result<Ran, End>
    requires { seen table.now ≡ core }
    ensures run { IfOk result (λ ran. IsRun (F.told files.old) words.now ran.scenario ran.played) }
    ensures not_run { IfErr result (IsNotRun (F.told files.old) words.now) }
    ensures read { (name : List ℕ) → result ≡ Err (End.Read name) → Rose (F.faults files.old name) (F.faults files.new name) }
    ensures no_fault { OnOk result ((name : List ℕ) → F.faults files.new name ≡ F.faults files.old name) }
    ensures same_content { F.told files.new ≡ F.told files.old }
    ensures none_falls { (name : List ℕ) → F.faults files.old name ≤ F.faults files.new name }
{
    valid_scenario_opens();
    builtin_opens();
    runs_keep_their_word();
    if !are_few(&words.files) {
        return Err(End::Limit(LimitKind::Files, 0, 0));
    }
    let scenario = chosen(alloc, table, files, &words.scenario)?;
    let corpus = corpus_of(alloc, files, &words.files)?;
    know_files(corpus.as_slice());
    let played = play_over(alloc, table, &scenario, corpus, words.budget)?;
    Ok(Ran { scenario, played })
}

/// The scenario in the file of this name, or the built-in one.
fn chosen<F: Files>(
    alloc: Global,
    table: &TypeTable,
    files: &mut F,
    name: &Option<Letters>,
) -> Result<Scenario, End>
    requires { seen table.now ≡ core }
    ensures chosen { IfOk result (IsChosen (F.told files.old) name.now) }
    ensures none { IfErr result (NoneIsChosen (F.told files.old) name.now) }
    ensures read { (other : List ℕ) → result ≡ Err (End.Read other) → Rose (F.faults files.old other) (F.faults files.new other) }
    ensures no_fault { OnOk result ((other : List ℕ) → F.faults files.new other ≡ F.faults files.old other) }
    ensures same_content { F.told files.new ≡ F.told files.old }
    ensures none_falls { (other : List ℕ) → F.faults files.old other ≤ F.faults files.new other }
{
    match name {
        Some(name) => scenario_in(alloc, table, files, name),
        None => Ok(builtin(alloc, COUNTERS)?),
    }
}

/// Writes the text of the record, where it is complete.
fn told<S: Sink>(alloc: Global, table: &TypeTable, words: &RunWords, ran: Ran, out: &mut S) -> Ended
    requires table { seen table.now ≡ core }
    requires few { length ran.played.kept.journals ≤ 2 ^ 32 }
    ensures told { IsTold words.now ran.scenario ran.played result.kept (S.written out.old) (S.written out.new) result.end }
    ensures nothing { has_written result.end ≡ false → out.new ≡ out.old }
    ensures write { result.end ≡ End.Write → Rose (S.faults out.old) (S.faults out.new) }
    ensures no_write_failed { result.end ≡ End.Done → S.faults out.new ≡ S.faults out.old }
    ensures never_falls { S.faults out.old ≤ S.faults out.new }
{
    let Ran { scenario, played } = ran;
    let Played { end, kinds, kept } = played;
    match end {
        PlayEnd::Budget => keeping(End::Budget, kept),
        PlayEnd::Exhausted(place) => keeping(End::Exhausted(place), kept),
        PlayEnd::Done => {
            let text = record_text(
                alloc,
                table,
                &scenario.script,
                &words.files,
                &kinds,
                &kept,
                words.is_traced,
            );
            match text {
                Ok(text) => keeping(write_text(out, text.as_slice()), kept),
                Err(_) => Ended {
                    end: End::Memory,
                    kept: None,
                },
            }
        }
    }
}

/// An end of which the record is kept.
fn keeping(end: End, kept: RunRecord) -> Ended
    ensures end { result.end ≡ end }
    ensures kept { result.kept ≡ Some kept }
{
    Ended {
        end,
        kept: Some(kept),
    }
}
