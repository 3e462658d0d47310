//! Actors in form.
ghost use Rattle.std.specs.Prelude.{◌≡◌, map, codes};
ghost use Rattle.serde_json.specs.View.{view};
ghost use Rattle.caf_scenario.specs.Path.{at_member, spot_path};
ghost use Rattle.caf_scenario.specs.ActorForm.{peer_of, peers_of, is_echo, is_spawner, children_of, asleep_of, bearer_of, actor_of, actor_in};
ghost use Rattle.caf_scenario.specs.Read.{Gives, each_of};

use crate::ScenarioFault;
use crate::forms::{elements_in, flag_at, name_at, name_in, number_in, text_at};
use crate::spot::{ListName, Spot};
use crate::surplus::{Bearer, surplus_in};
use crate::written::WrittenActor;
use caf_types::{Name, Seq};
use serde_json::Value as Json;
use std::alloc::Global;

/// The actors.
pub(crate) fn actors_of(
    alloc: Global,
    elements: &[Json],
) -> Result<Seq<WrittenActor>, ScenarioFault>
    ensures { Gives (λ actors. actors) result (each_of actor_of 0 (map view elements.now)) }
{
    let mut actors = Seq::new(alloc);
    for (i, element) in elements.iter().enumerate() {
        let actor = actor_of(alloc, i as u64, element)?;
        actors.push(actor)?;
    }
    Ok(actors)
}

fn actor_of(alloc: Global, position: u64, json: &Json) -> Result<WrittenActor, ScenarioFault>
    ensures { Gives (λ actor. actor) result (actor_of position (view json.now)) }
{
    let spot = Spot {
        list: ListName::Actors,
        position,
    };
    if json.as_object().is_none() {
        return Err(spot.fault(alloc));
    }
    actor_in(alloc, spot, json)
}

fn actor_in(alloc: Global, spot: Spot, json: &Json) -> Result<WrittenActor, ScenarioFault>
    ensures { Gives (λ actor. actor) result (actor_in (spot_path spot) (view json.now)) }
{
    let name = name_at(alloc, spot, json, "name")?;
    let kind = text_at(alloc, spot, json, "kind")?;
    let peers = peers_of(alloc, spot, json)?;
    let children = children_of(alloc, spot, kind.as_str(), json)?;
    let asleep = asleep_of(alloc, spot, kind.as_str(), json)?;
    if let Some(surplus) = surplus_in(bearer_of(kind.as_str()), json) {
        return Err(spot.member_fault(alloc, surplus));
    }
    Ok(WrittenActor {
        name,
        kind,
        peers,
        children,
        asleep,
    })
}

/// The names of its peers; none where the member is left out.
fn peers_of(alloc: Global, spot: Spot, json: &Json) -> Result<Seq<Name>, ScenarioFault>
    ensures { Gives (λ peers. peers) result (peers_of (spot_path spot) (view json.now)) }
{
    match json.get("peers") {
        None => Ok(Seq::new(alloc)),
        Some(member) => match elements_in(member) {
            None => Err(spot.member_fault(alloc, "peers")),
            Some(elements) => names_of(alloc, spot, elements),
        },
    }
}

fn names_of(alloc: Global, spot: Spot, elements: &[Json]) -> Result<Seq<Name>, ScenarioFault>
    ensures { Gives (λ peers. peers) result (each_of (peer_of (at_member (spot_path spot) (codes "peers"))) 0 (map view elements.now)) }
{
    let mut peers = Seq::new(alloc);
    for (i, element) in elements.iter().enumerate() {
        let peer = peer_of(alloc, spot, i as u64, element)?;
        peers.push(peer)?;
    }
    Ok(peers)
}

fn peer_of(alloc: Global, spot: Spot, position: u64, json: &Json) -> Result<Name, ScenarioFault>
    ensures { Gives (λ peer. peer) result (peer_of (at_member (spot_path spot) (codes "peers")) position (view json.now)) }
{
    match name_in(alloc, json)? {
        None => Err(spot.item_fault(alloc, "peers", position)),
        Some(name) => Ok(name),
    }
}

/// How many places it reserves for children, which a spawner alone may do.
fn children_of(alloc: Global, spot: Spot, kind: &str, json: &Json) -> Result<u32, ScenarioFault>
    ensures { Gives (λ children. children) result (children_of (spot_path spot) kind.now (view json.now)) }
{
    if !is_spawner(kind) {
        return Ok(0);
    }
    match json.get("children") {
        None => Ok(0),
        Some(member) => match number_in(member, 0, 254) {
            None => Err(spot.member_fault(alloc, "children")),
            Some(children) => Ok(children),
        },
    }
}

/// Whether it is asleep at first, as an echo alone may be.
fn asleep_of(alloc: Global, spot: Spot, kind: &str, json: &Json) -> Result<bool, ScenarioFault>
    ensures { Gives (λ asleep. asleep) result (asleep_of (spot_path spot) kind.now (view json.now)) }
{
    if !is_echo(kind) {
        return Ok(false);
    }
    flag_at(alloc, spot, json, "asleep")
}

fn bearer_of(kind: &str) -> Bearer
    ensures { result ≡ bearer_of kind.now }
{
    if is_echo(kind) {
        Bearer::Echo
    } else if is_spawner(kind) {
        Bearer::Spawner
    } else {
        Bearer::Actor
    }
}

fn is_echo(kind: &str) -> bool
    ensures { result ≡ is_echo kind.now }
{
    kind == "echo"
}

fn is_spawner(kind: &str) -> bool
    ensures { result ≡ is_spawner kind.now }
{
    kind == "spawner"
}
