//! Steps in form.
ghost use Rattle.std.specs.Prelude.{◌≡◌, map, codes};
ghost use Rattle.serde_json.specs.View.{view};
ghost use Rattle.serde_json.specs.Find.{get};
ghost use Rattle.caf_scenario.specs.Path.{at_member, spot_path};
ghost use Rattle.caf_scenario.specs.StepForm.{tell_in, way_of, request_in, exit_in, deed_done, step_of};
ghost use Rattle.caf_scenario.specs.Surplus.{surplus_in, nothing_more};
ghost use Rattle.caf_scenario.specs.Written.{step_seen};
ghost use Rattle.caf_scenario.specs.Read.{Gives, each_of, field};

use crate::ScenarioFault;
use crate::forms::{Deed, deed_at, message_at, name_at, number_in, priority_at, reason_at};
use crate::spot::{ListName, Spot};
use crate::surplus::{Bearer, surplus_in};
use crate::written::{Way, WrittenStep};
use caf_response::Mode;
use caf_types::Seq;
use serde_json::Value as Json;
use std::alloc::Global;

/// The steps.
pub(crate) fn script_of(
    alloc: Global,
    elements: &[Json],
) -> Result<Seq<WrittenStep<'_>>, ScenarioFault>
    ensures { Gives (λ steps. map step_seen steps) result (each_of step_of 0 (map view elements.now)) }
{
    let mut steps = Seq::new(alloc);
    for (i, element) in elements.iter().enumerate() {
        let step = step_of(alloc, i as u64, element)?;
        steps.push(step)?;
    }
    Ok(steps)
}

fn step_of(alloc: Global, position: u64, json: &Json) -> Result<WrittenStep<'_>, ScenarioFault>
    ensures { Gives (λ step. step_seen step) result (step_of position (view json.now)) }
{
    let spot = Spot {
        list: ListName::Script,
        position,
    };
    if json.as_object().is_none() {
        return Err(spot.fault(alloc));
    }
    let deed = deed_at(alloc, spot, json, "do")?;
    deed_done(alloc, spot, deed, json)
}

fn deed_done(
    alloc: Global,
    spot: Spot,
    deed: Deed,
    json: &Json,
) -> Result<WrittenStep<'_>, ScenarioFault>
    ensures { Gives (λ step. step_seen step) result (deed_done deed (spot_path spot) (view json.now)) }
{
    match deed {
        Deed::Tell => tell_in(alloc, spot, json),
        Deed::Request => request_in(alloc, spot, Mode::Multiplexed, json),
        Deed::Await => request_in(alloc, spot, Mode::Awaited, json),
        Deed::Exit => exit_in(alloc, spot, json),
        Deed::Sync => alone(alloc, spot, Bearer::Bare, WrittenStep::Sync, json),
        Deed::Tick => alone(alloc, spot, Bearer::Bare, WrittenStep::Tick, json),
    }
}

fn tell_in(alloc: Global, spot: Spot, json: &Json) -> Result<WrittenStep<'_>, ScenarioFault>
    ensures { Gives (λ step. step_seen step) result (tell_in (spot_path spot) (view json.now)) }
{
    let to = name_at(alloc, spot, json, "to")?;
    let message = message_at(alloc, spot, json, "message")?;
    let priority = priority_at(alloc, spot, json, "priority")?;
    let step = WrittenStep::Send(Way::Tell, to, message, priority);
    alone(alloc, spot, Bearer::Tell, step, json)
}

fn request_in(
    alloc: Global,
    spot: Spot,
    mode: Mode,
    json: &Json,
) -> Result<WrittenStep<'_>, ScenarioFault>
    ensures { Gives (λ step. step_seen step) result (request_in mode (spot_path spot) (view json.now)) }
{
    let to = name_at(alloc, spot, json, "to")?;
    let message = message_at(alloc, spot, json, "message")?;
    let priority = priority_at(alloc, spot, json, "priority")?;
    let way = way_of(alloc, spot, mode, json)?;
    let step = WrittenStep::Send(way, to, message, priority);
    alone(alloc, spot, Bearer::Request, step, json)
}

/// A request within so many ticks, where that is said.
fn way_of(alloc: Global, spot: Spot, mode: Mode, json: &Json) -> Result<Way, ScenarioFault>
    ensures { Gives (λ way. way) result (way_of mode (field (at_member (spot_path spot) (codes "within"))) (get (codes "within") (view json.now))) }
{
    match json.get("within") {
        None => Ok(Way::Request(mode)),
        Some(member) => match number_in(member, 1, 1000) {
            None => Err(spot.member_fault(alloc, "within")),
            Some(ticks) => Ok(Way::Within(mode, ticks)),
        },
    }
}

fn exit_in(alloc: Global, spot: Spot, json: &Json) -> Result<WrittenStep<'_>, ScenarioFault>
    ensures { Gives (λ step. step_seen step) result (exit_in (spot_path spot) (view json.now)) }
{
    let to = name_at(alloc, spot, json, "to")?;
    let reason = reason_at(alloc, spot, json, "reason")?;
    alone(
        alloc,
        spot,
        Bearer::Exit,
        WrittenStep::Exit(to, reason),
        json,
    )
}

/// The step, where no member is too many.
fn alone<'a>(
    alloc: Global,
    spot: Spot,
    bearer: Bearer,
    step: WrittenStep<'a>,
    json: &Json,
) -> Result<WrittenStep<'a>, ScenarioFault>
    ensures { Gives (λ step. step_seen step) result (nothing_more (at_member (spot_path spot)) (surplus_in bearer (view json.now)) (step_seen step.entry)) }
{
    match surplus_in(bearer, json) {
        None => Ok(step),
        Some(surplus) => Err(spot.member_fault(alloc, surplus)),
    }
}
