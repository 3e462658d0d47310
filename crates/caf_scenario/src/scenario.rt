//! Scenarios, and the one call that reads them.
ghost use Rattle.std.specs.Prelude.{◌≡◌, ◌+◌, ◌++◌, ◌≤◌, map, length, IfOk};
ghost use Rattle.std.specs.BTreeMap.{get_by_text};
ghost use Rattle.serde_json.specs.View.{view};
ghost use Rattle.caf_types.specs.TypeTable.{seen};
ghost use Rattle.caf_kinds.specs.Core.{core};
ghost use Rattle.caf_scenario.specs.declared.written.WrittenActor.{WrittenActor};
ghost use Rattle.caf_scenario.specs.Written.{document_seen};
ghost use Rattle.caf_scenario.specs.Many.{all_children, places_used};
ghost use Rattle.caf_scenario.specs.Peers.{peers_fault};
ghost use Rattle.caf_scenario.specs.Scenario.{IsSaid, IsSaidBy, setups_said, children};
ghost use Rattle.caf_scenario.specs.Valid.{json_of, first_fault, found_fault, later_fault, IsScenarioOf};
ghost use Rattle.caf_scenario.specs.Read.{Gives, Passes, malformed, or_cause};

use crate::ScenarioFault;
use crate::document_form::document_of;
use crate::many::{is_many, places_left};
use crate::names::{Names, names_of};
use crate::setups::{push_children, setups_of};
use crate::steps::steps_of;
use crate::written::{Written, WrittenActor};
use caf_kinds::{Setup, Step};
use caf_types::{Memory, Name, Seq, TypeTable};
use serde_json::Value as Json;
use std::alloc::Global;

/// Actors, and the script that the conductor plays with them.
#[derive(Debug, Drop)]
pub struct Scenario {
    /// The names of the actors, the first of which is at place 1.
    pub names: Seq<Name>,
    /// How the actors are set up, and after them their children's places.
    pub setups: Seq<Setup>,
    /// The steps.
    pub script: Seq<Step>,
}

/// The scenario that the bytes are. The table is that of the kinds of actors.
///
/// The document is looked through in six passes, and the first fault of the first pass that has one is
/// answered: whether it is JSON; whether each member is there, in form, and none too many; whether there are
/// too many actors, sources or steps; whether each actor has a kind, a name of its own and a number of peers
/// that its kind may have; whether each peer is there and takes what is asked of it; whether each step's
/// target is there and takes its message.
pub fn read_scenario(
    alloc: Global,
    table: &TypeTable,
    bytes: &[u8],
) -> Result<Scenario, ScenarioFault>
    requires { seen table.now ≡ core }
    ensures { Passes (IsScenarioOf bytes.now) result (first_fault bytes.now) }
{
    let json = json_of(alloc, bytes)?;
    let written = document_of(alloc, &json)?;
    scenario_of(alloc, table, &written)
}

fn json_of(alloc: Global, bytes: &[u8]) -> Result<Json, ScenarioFault>
    ensures { Gives (λ json. view json) result (or_cause malformed (json_of bytes.now)) }
{
    match Json::from_slice(alloc, bytes) {
        Ok(json) => Ok(json),
        Err(error) => {
            if error.is_memory() {
                Err(ScenarioFault::Memory)
            } else {
                Err(ScenarioFault::Malformed)
            }
        }
    }
}

/// The scenario that a document in form says.
fn scenario_of(
    alloc: Global,
    table: &TypeTable,
    written: &Written<'_>,
) -> Result<Scenario, ScenarioFault>
    requires { seen table.now ≡ core }
    ensures { Passes (IsSaid (document_seen written.now)) result (later_fault (document_seen written.now)) }
{
    if is_many(written) {
        return Err(ScenarioFault::Many);
    }
    let names = names_of(alloc, written.actors.as_slice())?;
    played_by(alloc, table, &names, written)
}

/// The scenario, where peers and targets are looked for under these names.
fn played_by(
    alloc: Global,
    table: &TypeTable,
    names: &Names,
    written: &Written<'_>,
) -> Result<Scenario, ScenarioFault>
    requires table { seen table.now ≡ core }
    requires few { places_used written.now.actors ≤ 255 }
    ensures { Passes (IsSaidBy (get_by_text names.now) (document_seen written.now)) result (found_fault (get_by_text names.now) (document_seen written.now)) }
{
    let actors = written.actors.as_slice();
    let setups = all_setups(alloc, names, actors)?;
    let script = steps_of(alloc, table, names, written.script.as_slice())?;
    let names = copied_names(alloc, actors)?;
    Ok(Scenario {
        names,
        setups,
        script,
    })
}

/// The setups of the actors and of their children.
fn all_setups(
    alloc: Global,
    names: &Names,
    actors: &[WrittenActor],
) -> Result<Seq<Setup>, ScenarioFault>
    requires { places_used actors.now ≤ 255 }
    ensures { Passes (λ setups. setups ≡ setups_said (get_by_text names.now) (length actors.now + 1) actors.now ++ children (all_children actors.now)) result
        (peers_fault (get_by_text names.now) actors.now) }
{
    let mut setups = setups_of(alloc, names, actors)?;
    push_children(alloc, &mut setups, children_of(actors))?;
    Ok(setups)
}

/// How many children the actors have together.
fn children_of(actors: &[WrittenActor]) -> u32
    requires { places_used actors.now ≤ 255 }
    ensures { result ≡ all_children actors.now }
{
    match places_left(actors) {
        Some(left) => 255 - actors.len() as u32 - left,
        None => unreachable!(),
    }
}

fn copied_names(alloc: Global, actors: &[WrittenActor]) -> Result<Seq<Name>, Memory>
    ensures { IfOk result (λ names. names ≡ map (λ (actor : WrittenActor). actor.name) actors.now) }
{
    let mut names = Seq::new(alloc);
    for actor in actors {
        names.push(Name::of(alloc, actor.name.as_str())?)?;
    }
    Ok(names)
}
