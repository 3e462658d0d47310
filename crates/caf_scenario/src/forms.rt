//! The forms of members, and members that must or may be there.
ghost use Rattle.std.specs.Prelude.{◌≡◌, map, false, IfOk};
ghost use Rattle.std.specs.Option.{option_map};
ghost use Rattle.serde_json.specs.View.{view};
ghost use Rattle.serde_json.specs.Find.{as_str, as_bool};
ghost use Rattle.caf_scenario.specs.Forms.{name_in, number_in, priority_in, priority_named, reason_in, deed_in, deed_named, elements_in, message_in, must_have, may_have};
ghost use Rattle.caf_scenario.specs.Path.{spot_path};
ghost use Rattle.caf_scenario.specs.Read.{Gives};

use crate::ScenarioFault;
use crate::spot::Spot;
use caf_types::{Letters, Memory, Name, NameFault, Priority, Reason};
use serde_json::Value as Json;
use std::alloc::Global;

/// What a step does.
#[derive(Clone, Copy, Debug, PartialEq, Eq, Drop)]
pub(crate) enum Deed {
    /// It sends content.
    Tell,
    /// It sends a request whose response is handled when it comes.
    Request,
    /// It sends a request whose response is waited for.
    Await,
    /// It sends an exit notice.
    Exit,
    /// It waits until no request waits.
    Sync,
    /// It waits for a tick.
    Tick,
}

/// The name that the member is, which must be there.
pub(crate) fn name_at(
    alloc: Global,
    spot: Spot,
    json: &Json,
    name: &str,
) -> Result<Name, ScenarioFault>
    ensures { Gives (λ text. text) result (must_have name_in (spot_path spot) name.now (view json.now)) }
{
    match json.get(name).and_then(Json::as_str) {
        None => Err(spot.member_fault(alloc, name)),
        Some(text) => match Name::new(alloc, text) {
            Ok(name) => Ok(name),
            Err(NameFault::Form) => Err(spot.member_fault(alloc, name)),
            Err(NameFault::Memory) => Err(ScenarioFault::Memory),
        },
    }
}

/// The text that the member is, which must be there.
pub(crate) fn text_at(
    alloc: Global,
    spot: Spot,
    json: &Json,
    name: &str,
) -> Result<Letters, ScenarioFault>
    ensures { Gives (λ text. text) result (must_have as_str (spot_path spot) name.now (view json.now)) }
{
    match json.get(name).and_then(Json::as_str) {
        None => Err(spot.member_fault(alloc, name)),
        Some(text) => {
            let text = Letters::of(alloc, text)?;
            Ok(text)
        }
    }
}

/// The reason whose name the member is, which must be there.
pub(crate) fn reason_at(
    alloc: Global,
    spot: Spot,
    json: &Json,
    name: &str,
) -> Result<Reason, ScenarioFault>
    ensures { Gives (λ reason. reason) result (must_have reason_in (spot_path spot) name.now (view json.now)) }
{
    match json
        .get(name)
        .and_then(Json::as_str)
        .and_then(Reason::named)
    {
        None => Err(spot.member_fault(alloc, name)),
        Some(reason) => Ok(reason),
    }
}

/// What the member says that the step does, which must be there.
pub(crate) fn deed_at(
    alloc: Global,
    spot: Spot,
    json: &Json,
    name: &str,
) -> Result<Deed, ScenarioFault>
    ensures { Gives (λ deed. deed) result (must_have deed_in (spot_path spot) name.now (view json.now)) }
{
    match json.get(name).and_then(Json::as_str).and_then(deed_named) {
        None => Err(spot.member_fault(alloc, name)),
        Some(deed) => Ok(deed),
    }
}

/// The elements of the array that the member is, which must be there and not be empty.
pub(crate) fn message_at<'a>(
    alloc: Global,
    spot: Spot,
    json: &'a Json,
    name: &str,
) -> Result<&'a [Json], ScenarioFault>
    ensures { Gives (λ elements. map view elements.now) result (must_have message_in (spot_path spot) name.now (view json.now)) }
{
    match json.get(name).and_then(elements_in) {
        None => Err(spot.member_fault(alloc, name)),
        Some(elements) => {
            if elements.is_empty() {
                return Err(spot.member_fault(alloc, name));
            }
            Ok(elements)
        }
    }
}

/// The priority that the member names; a normal one where it is left out.
pub(crate) fn priority_at(
    alloc: Global,
    spot: Spot,
    json: &Json,
    name: &str,
) -> Result<Priority, ScenarioFault>
    ensures { Gives (λ priority. priority) result (may_have priority_in Priority.Normal (spot_path spot) name.now (view json.now)) }
{
    match json.get(name) {
        None => Ok(Priority::Normal),
        Some(member) => match member.as_str().and_then(priority_named) {
            None => Err(spot.member_fault(alloc, name)),
            Some(priority) => Ok(priority),
        },
    }
}

/// The flag that the member is; false where it is left out.
pub(crate) fn flag_at(
    alloc: Global,
    spot: Spot,
    json: &Json,
    name: &str,
) -> Result<bool, ScenarioFault>
    ensures { Gives (λ flag. flag) result (may_have as_bool false (spot_path spot) name.now (view json.now)) }
{
    match json.get(name) {
        None => Ok(false),
        Some(member) => match member.as_bool() {
            None => Err(spot.member_fault(alloc, name)),
            Some(flag) => Ok(flag),
        },
    }
}

/// The elements of an array; None exactly where it is none.
pub(crate) fn elements_in(json: &Json) -> Option<&[Json]>
    ensures { option_map (λ elements. map view elements.now) result ≡ elements_in (view json.now) }
{
    match json.as_array() {
        None => None,
        Some(elements) => Some(elements.as_slice()),
    }
}

/// The name that a text is; None exactly where it is none.
pub(crate) fn name_in(alloc: Global, json: &Json) -> Result<Option<Name>, Memory>
    ensures { IfOk result (λ name. option_map (λ name. name) name ≡ name_in (view json.now)) }
{
    match json.as_str() {
        None => Ok(None),
        Some(text) => match Name::new(alloc, text) {
            Ok(name) => Ok(Some(name)),
            Err(NameFault::Form) => Ok(None),
            Err(NameFault::Memory) => Err(Memory),
        },
    }
}

/// The whole number that it is, from the one to the other; None exactly where it is none.
pub(crate) fn number_in(json: &Json, low: u32, high: u32) -> Option<u32>
    ensures { result ≡ number_in low high (view json.now) }
{
    match json.as_u64() {
        None => None,
        Some(number) => {
            if low as u64 <= number && number <= high as u64 {
                Some(number as u32)
            } else {
                None
            }
        }
    }
}

fn priority_named(text: &str) -> Option<Priority>
    ensures { result ≡ priority_named text.now }
{
    if text == "normal" {
        Some(Priority::Normal)
    } else if text == "urgent" {
        Some(Priority::Urgent)
    } else {
        None
    }
}

fn deed_named(text: &str) -> Option<Deed>
    ensures { result ≡ deed_named text.now }
{
    if text == "tell" {
        Some(Deed::Tell)
    } else if text == "request" {
        Some(Deed::Request)
    } else if text == "await" {
        Some(Deed::Await)
    } else if text == "exit" {
        Some(Deed::Exit)
    } else if text == "sync" {
        Some(Deed::Sync)
    } else if text == "tick" {
        Some(Deed::Tick)
    } else {
        None
    }
}
