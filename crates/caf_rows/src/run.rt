//! A whole run: a scenario is read or built, opened, played, and its record written.
ghost use Rattle.std.specs.Prelude.{◌≡◌, ◌≤◌, ◌^◌, length, IfOk};
ghost use Rattle.caf_types.specs.TypeTable.{seen};
ghost use Rattle.caf_message.specs.Entries.{HasEntries};
ghost use Rattle.caf_kinds.specs.Core.{core, core_entries};
ghost use Rattle.caf_opening.specs.Opening.{CanOpen};

use crate::files::are_short;
use crate::order::answers_of;
use crate::{Choice, OneEach};
use caf_driver::RoundRobin;
use caf_kinds::core_table;
use caf_play::{PlayEnd, Played, play};
use caf_report::record_text;
use caf_scenario::{Scenario, ScenarioFault, builtin, read_scenario};
use caf_staged::LastPlace;
use caf_types::{Letters, Memory, Octets, Seq, TypeTable, Words};
use caf_typing::laws::{builtin_opens, valid_scenario_opens};
use std::alloc::Global;
use thiserror::Error;

/// No run here handles so many envelopes.
const BUDGET: u64 = 1000000;

/// What came of a run.
#[derive(Debug, Drop)]
pub struct Run {
    /// The text of its record.
    pub text: Octets,
    /// The requests of place 0 in the order in which it took their responses.
    pub answered: Words,
}

/// Why there was no run.
#[derive(Error, Debug, Drop)]
pub enum RunFault {
    /// The bytes are no scenario.
    #[error("{0}")]
    Scenario(ScenarioFault),
    /// There are not 1 to 200 counters, or a file is longer than a line may be.
    #[error("out of range")]
    Range,
    /// It didn't come to its end.
    #[error("no end")]
    Endless,
    /// Want of memory.
    #[error("out of memory")]
    Memory,
}

impl From<Memory> for RunFault {
    fn from(_: Memory) -> RunFault {
        RunFault::Memory
    }
}

impl From<ScenarioFault> for RunFault {
    fn from(fault: ScenarioFault) -> RunFault {
        RunFault::Scenario(fault)
    }
}

/// The run of the scenario that the bytes are, over no file.
pub fn run_scenario(
    alloc: Global,
    bytes: &[u8],
    choice: Choice,
    is_traced: bool,
) -> Result<Run, RunFault> {
    let table = core_table(alloc)?;
    let scenario = read_scenario(alloc, &table, bytes)?;
    valid_scenario_opens();
    run_of(
        alloc,
        &table,
        &scenario,
        Seq::new(alloc),
        &Seq::new(alloc),
        choice,
        is_traced,
    )
}

/// The run of the built-in scenario over so many counters, which indexes the files of these names.
pub fn run_index(
    alloc: Global,
    counters: u32,
    files: Seq<Octets>,
    names: &Seq<Letters>,
    choice: Choice,
) -> Result<Run, RunFault> {
    if counters < 1 || counters > 200 || !are_short(&files) {
        return Err(RunFault::Range);
    }
    let table = core_table(alloc)?;
    let scenario = builtin(alloc, counters)?;
    builtin_opens();
    run_of(alloc, &table, &scenario, files, names, choice, false)
}

/// The run of a scenario that may be opened.
fn run_of(
    alloc: Global,
    table: &TypeTable,
    scenario: &Scenario,
    files: Seq<Octets>,
    names: &Seq<Letters>,
    choice: Choice,
    is_traced: bool,
) -> Result<Run, RunFault>
    requires table { seen table.now ≡ core }
    requires opens { CanOpen scenario.now.setups scenario.now.script files }
{
    let played = played_by(alloc, table, scenario, files, choice)?;
    if played.end != PlayEnd::Done {
        return Err(RunFault::Endless);
    }
    let answered = answers_of(alloc, &played.kept)?;
    let text = record_text(
        alloc,
        table,
        &scenario.script,
        names,
        &played.kinds,
        &played.kept,
        is_traced,
    )?;
    Ok(Run { text, answered })
}

/// The play, as the choice says.
fn played_by(
    alloc: Global,
    table: &TypeTable,
    scenario: &Scenario,
    files: Seq<Octets>,
    choice: Choice,
) -> Result<Played, Memory>
    requires entries { HasEntries (seen table.now) core_entries }
    requires opens { CanOpen scenario.now.setups scenario.now.script files }
    ensures { IfOk result (λ played. length played.kept.journals ≤ 2 ^ 32) }
{
    let (setups, script) = (&scenario.setups, &scenario.script);
    match choice {
        Choice::RoundRobin => {
            let mut chooser = RoundRobin::new();
            play(alloc, table, setups, script, files, &mut chooser, BUDGET)
        }
        Choice::LastPlace => {
            let mut chooser = LastPlace::new();
            play(alloc, table, setups, script, files, &mut chooser, BUDGET)
        }
        Choice::OneEach => {
            let mut chooser = OneEach::new();
            play(alloc, table, setups, script, files, &mut chooser, BUDGET)
        }
    }
}
