//! What is read before anything is done: the file of a scenario, and the files of a command.
ghost use Rattle.std.specs.Prelude.{◌≡◌, ℕ, ◌≤◌, List, length, true, false, ◌<◌, IfOk, IfErr, OnOk};
ghost use Rattle.caf_types.specs.TypeTable.{seen};
ghost use Rattle.caf_io.specs.Faults.{Rose};
ghost use Rattle.caf_kinds.specs.Core.{core};
ghost use Rattle.caf_cli.specs.Reading.{IsShortFile, CannotRead, IsReadFrom, IsRefused, IsCorpus, HasNoCorpus};

use crate::end::{End, LimitKind};
use caf_corpus::{CorpusFault, read_corpus};
use caf_io::{Files, ReadFault, read_file};
use caf_scenario::{Scenario, ScenarioFault, read_scenario};
use caf_types::{Letters, Octets, Seq, TypeTable};
use std::alloc::Global;

/// The most files that a command may name.
const MOST_FILES: u64 = 1024;

/// The most bytes of a scenario's file.
const LONGEST_SCENARIO: u64 = 1_048_576;

/// The scenario that the file of this name says.
pub(crate) fn scenario_in<F: Files>(
    alloc: Global,
    table: &TypeTable,
    files: &mut F,
    name: &Letters,
) -> Result<Scenario, End>
    requires { seen table.now ≡ core }
    ensures reads { IfOk result (IsReadFrom (F.told files.old) name.now) }
    ensures refused { IfErr result (IsRefused (F.told files.old) name.now) }
    ensures read { (other : List ℕ) → result ≡ Err (End.Read other) → Rose (F.faults files.old other) (F.faults files.new other) }
    ensures no_fault { OnOk result ((other : List ℕ) → F.faults files.new other ≡ F.faults files.old other) }
    ensures same_content { F.told files.new ≡ F.told files.old }
    ensures none_falls { (other : List ℕ) → F.faults files.old other ≤ F.faults files.new other }
{
    let bytes = bytes_in(alloc, files, name)?;
    match read_scenario(alloc, table, bytes.as_slice()) {
        Ok(scenario) => Ok(scenario),
        Err(ScenarioFault::Memory) => Err(End::Memory),
        Err(fault) => Err(End::Scenario(fault)),
    }
}

/// The bytes of the scenario's file of this name.
fn bytes_in<F: Files>(alloc: Global, files: &mut F, name: &Letters) -> Result<Octets, End>
    ensures reads { IfOk result (IsShortFile (F.told files.old) name.now) }
    ensures refused { IfErr result (CannotRead (F.told files.old) name.now) }
    ensures read { (other : List ℕ) → result ≡ Err (End.Read other) → Rose (F.faults files.old other) (F.faults files.new other) }
    ensures no_fault { OnOk result ((other : List ℕ) → F.faults files.new other ≡ F.faults files.old other) }
    ensures same_content { F.told files.new ≡ F.told files.old }
    ensures none_falls { (other : List ℕ) → F.faults files.old other ≤ F.faults files.new other }
{
    match read_file(alloc, files, name.as_str(), LONGEST_SCENARIO) {
        Ok(bytes) => Ok(Seq::of_vec(bytes)),
        Err(ReadFault::Failed) => Err(End::Read(Letters::of(alloc, name.as_str())?)),
        Err(ReadFault::Limit) => Err(End::Limit(LimitKind::Scenario, 0, 0)),
        Err(ReadFault::Memory) => Err(End::Memory),
    }
}

/// Whether a command may name that many files.
pub(crate) fn are_few(names: &Seq<Letters>) -> bool
    ensures few { result ≡ true → length names.now ≤ 1024 }
    ensures many { result ≡ false → 1024 < length names.now }
{
    names.len() <= MOST_FILES
}

/// The bytes of the files of these names, in order.
pub(crate) fn corpus_of<F: Files>(
    alloc: Global,
    files: &mut F,
    names: &Seq<Letters>,
) -> Result<Seq<Octets>, End>
    requires { length names.now ≤ 1024 }
    ensures reads { IfOk result (IsCorpus (F.told files.old) names.now) }
    ensures refused { IfErr result (HasNoCorpus (F.told files.old) names.now) }
    ensures read { (other : List ℕ) → result ≡ Err (End.Read other) → Rose (F.faults files.old other) (F.faults files.new other) }
    ensures no_fault { OnOk result ((other : List ℕ) → F.faults files.new other ≡ F.faults files.old other) }
    ensures same_content { F.told files.new ≡ F.told files.old }
    ensures none_falls { (other : List ℕ) → F.faults files.old other ≤ F.faults files.new other }
{
    match read_corpus(alloc, files, names) {
        Ok(corpus) => Ok(corpus),
        Err(CorpusFault::Read(name)) => Err(End::Read(name)),
        Err(CorpusFault::Line(file, line)) => Err(End::Limit(LimitKind::Line, file, line)),
        Err(CorpusFault::Corpus(file, line)) => Err(End::Limit(LimitKind::Corpus, file, line)),
        Err(CorpusFault::Memory) => Err(End::Memory),
    }
}
