//! Documents in form.
ghost use Rattle.std.specs.Prelude.{map as each};
ghost use Rattle.serde_json.specs.View.{view};
ghost use Rattle.caf_scenario.specs.DocumentForm.{actors_in, script_in, document_of};
ghost use Rattle.caf_scenario.specs.Written.{step_seen, document_seen};
ghost use Rattle.caf_scenario.specs.Read.{Gives};

use crate::ScenarioFault;
use crate::actor_form::actors_of;
use crate::forms::elements_in;
use crate::spot::field_at;
use crate::step_form::script_of;
use crate::surplus::{Bearer, surplus_in};
use crate::written::{Written, WrittenActor, WrittenStep};
use caf_types::Seq;
use serde_json::Value as Json;
use std::alloc::Global;

/// What the document says, where all of it is in form.
pub(crate) fn document_of(alloc: Global, json: &Json) -> Result<Written<'_>, ScenarioFault>
    ensures { Gives (λ written. document_seen written) result (document_of (view json.now)) }
{
    if json.as_object().is_none() {
        return Err(field_at(alloc, ""));
    }
    let actors = actors_in(alloc, json)?;
    let script = script_in(alloc, json)?;
    if let Some(surplus) = surplus_in(Bearer::Document, json) {
        return Err(field_at(alloc, surplus));
    }
    Ok(Written { actors, script })
}

fn actors_in(alloc: Global, json: &Json) -> Result<Seq<WrittenActor>, ScenarioFault>
    ensures { Gives (λ actors. actors) result (actors_in (view json.now)) }
{
    match json.get("actors").and_then(elements_in) {
        None => Err(field_at(alloc, "actors")),
        Some(elements) => actors_of(alloc, elements),
    }
}

fn script_in(alloc: Global, json: &Json) -> Result<Seq<WrittenStep<'_>>, ScenarioFault>
    ensures { Gives (λ steps. each step_seen steps) result (script_in (view json.now)) }
{
    match json.get("script").and_then(elements_in) {
        None => Err(field_at(alloc, "script")),
        Some(elements) => script_of(alloc, elements),
    }
}
