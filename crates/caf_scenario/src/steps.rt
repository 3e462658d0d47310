//! Targets that nobody is, messages that are none, and targets that don't take what they are sent; steps.
ghost use Rattle.std.specs.Prelude.{◌≡◌, map, bytes_eq, is_some};
ghost use Rattle.std.specs.BTreeMap.{get_by_text};
ghost use Rattle.serde_json.specs.View.{view};
ghost use Rattle.caf_types.specs.TypeTable.{seen};
ghost use Rattle.caf_words.specs.Datum.{data_of};
ghost use Rattle.caf_words.specs.Several.{ids_of};
ghost use Rattle.caf_words.specs.Value.{datum};
ghost use Rattle.caf_actor.specs.Rules.{is_input};
ghost use Rattle.caf_kinds.specs.Core.{core};
ghost use Rattle.caf_scenario.specs.Path.{spot_path};
ghost use Rattle.caf_scenario.specs.Written.{step_seen, send};
ghost use Rattle.caf_scenario.specs.Elements.{elements_of};
ghost use Rattle.caf_scenario.specs.Contents.{AreContents};
ghost use Rattle.caf_scenario.specs.Steps.{message_fault, sent_fault, step_fault, steps_fault};
ghost use Rattle.caf_scenario.specs.Scenario.{place_of, exits, plain_step, step_said, sent_said};
ghost use Rattle.caf_scenario.specs.Read.{Passes, unknown, unless};

use crate::ScenarioFault;
use crate::elements::{Contents, contents_of, is_large};
use crate::names::Names;
use crate::setups::{interface_fault, unknown_fault};
use crate::spot::{ListName, Spot};
use crate::written::{Way, WrittenStep};
use caf_kinds::{KindName, Step};
use caf_signature::Interface;
use caf_types::{Name, Priority, Reason, Seq, TypeId, TypeTable};
use serde_json::Value as Json;
use std::alloc::Global;

/// The steps, whose targets are looked for under these names.
pub(crate) fn steps_of(
    alloc: Global,
    table: &TypeTable,
    names: &Names,
    steps: &[WrittenStep<'_>],
) -> Result<Seq<Step>, ScenarioFault>
    requires { seen table.now ≡ core }
    ensures { Passes (λ script. map plain_step script ≡ map (step_said (get_by_text names.now)) (map step_seen steps.now)) result
        (steps_fault (get_by_text names.now) (map step_seen steps.now)) }
{
    let mut script = Seq::new(alloc);
    for (i, step) in steps.iter().enumerate() {
        let step = step_of(alloc, table, names, i as u64, step)?;
        script.push(step)?;
    }
    Ok(script)
}

fn step_of(
    alloc: Global,
    table: &TypeTable,
    names: &Names,
    position: u64,
    step: &WrittenStep<'_>,
) -> Result<Step, ScenarioFault>
    requires { seen table.now ≡ core }
    ensures { Passes (λ made. plain_step made ≡ step_said (get_by_text names.now) (step_seen step.now)) result
        (step_fault (get_by_text names.now) position (step_seen step.now)) }
{
    match step {
        WrittenStep::Send(way, to, message, priority) => {
            let spot = Spot {
                list: ListName::Script,
                position,
            };
            send_of(alloc, table, names, spot, *way, to, *message, *priority)
        }
        WrittenStep::Exit(to, reason) => exit_of(alloc, names, to, *reason),
        WrittenStep::Sync => Ok(Step::Sync),
        WrittenStep::Tick => Ok(Step::Tick),
    }
}

/// The step that sends the exit notice.
fn exit_of(alloc: Global, names: &Names, to: &Name, reason: Reason) -> Result<Step, ScenarioFault>
    ensures { Passes (λ made. plain_step made ≡ exits (place_of (get_by_text names.now) to.now) reason) result
        (unless (is_some (get_by_text names.now to.now)) (unknown to.now)) }
{
    match names.get(to.as_str()) {
        None => Err(unknown_fault(alloc, to)),
        Some(found) => Ok(Step::Exit(found.0, reason)),
    }
}

/// The step that sends the message.
fn send_of(
    alloc: Global,
    table: &TypeTable,
    names: &Names,
    spot: Spot,
    way: Way,
    to: &Name,
    message: &[Json],
    priority: Priority,
) -> Result<Step, ScenarioFault>
    requires { seen table.now ≡ core }
    ensures { Passes (λ made. plain_step made ≡ step_said (get_by_text names.now) (send way to.now (map view message.now) priority)) result
        (sent_fault (spot_path spot) to.now (map view message.now) (get_by_text names.now to.now)) }
{
    match names.get(to.as_str()) {
        None => Err(unknown_fault(alloc, to)),
        Some(found) => {
            let contents = message_of(alloc, table, spot, found.1, to, message)?;
            Ok(sent(way, found.0, priority, contents))
        }
    }
}

/// The contents of the message, which an actor of that kind takes.
fn message_of(
    alloc: Global,
    table: &TypeTable,
    spot: Spot,
    kind: KindName,
    to: &Name,
    message: &[Json],
) -> Result<Contents, ScenarioFault>
    requires { seen table.now ≡ core }
    ensures { Passes (λ contents. AreContents contents.types contents.values (elements_of (map view message.now))) result
        (message_fault (spot_path spot) to.now (map view message.now) kind) }
{
    let contents = contents_of(alloc, table, spot, message)?;
    if is_large(alloc, &contents)? {
        return Err(spot.member_fault(alloc, "message"));
    }
    let interface = kind.interface(alloc)?;
    if !takes(&interface, contents.types.as_slice()) {
        return Err(interface_fault(alloc, "conductor", to));
    }
    Ok(contents)
}

fn sent(way: Way, to: u32, priority: Priority, contents: Contents) -> Step
    ensures { plain_step result ≡ sent_said way to priority (ids_of contents.types) (data_of (map datum contents.values)) }
{
    let Contents { types, values } = contents;
    match way {
        Way::Tell => Step::Tell(to, priority, types, values),
        Way::Request(mode) => Step::Request(to, priority, mode, types, values),
        Way::Within(mode, ticks) => Step::Within(to, priority, mode, types, values, ticks),
    }
}

/// Whether content of these types is an input of the interface.
fn takes(interface: &Interface, types: &[TypeId]) -> bool
    ensures { result ≡ is_input interface.now (ids_of types.now) }
{
    for signature in interface.signatures().as_slice() {
        if has_same_ids(signature.input.as_slice(), types) {
            return true;
        }
    }
    false
}

fn has_same_ids(input: &[TypeId], types: &[TypeId]) -> bool
    ensures { result ≡ bytes_eq (ids_of input.now) (ids_of types.now) }
{
    input == types
}
