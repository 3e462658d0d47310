//! The play of a scenario over files, on one thread.
ghost use Rattle.std.specs.Prelude.{◌≡◌, List, IfOk};
ghost use Rattle.caf_types.specs.TypeTable.{seen};
ghost use Rattle.caf_kinds.specs.Core.{core};
ghost use Rattle.caf_opening.specs.Opening.{CanOpen};
ghost use Rattle.caf_cli.specs.Play.{IsPlay};

use caf_driver::RoundRobin;
use caf_play::{Played, play};
use caf_scenario::Scenario;
use caf_types::{Memory, Octets, Seq, TypeTable};
use std::alloc::Global;

/// Plays the scenario over the files: the places take all that waits for them, in turn.
pub(crate) fn play_over(
    alloc: Global,
    table: &TypeTable,
    scenario: &Scenario,
    files: Seq<Octets>,
    budget: u64,
) -> Result<Played, Memory>
    requires table { seen table.now ≡ core }
    requires opens { CanOpen scenario.now.setups scenario.now.script files }
    ensures { IfOk result (IsPlay scenario.now files budget) }
{
    let mut chooser = RoundRobin::new();
    play(
        alloc,
        table,
        &scenario.setups,
        &scenario.script,
        files,
        &mut chooser,
        budget,
    )
}
