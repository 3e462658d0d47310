//! Which actor has which name, place and kind; kinds that are none, names that stand twice, and numbers of peers.
ghost use Rattle.std.specs.Prelude.{◌≡◌, ◌≢◌, ◌+◌, ◌≤◌, ◌<◌, ℕ, List, Some, false, not, is_some, OnOk, length};
ghost use Rattle.caf_scenario.specs.Entered.{IsEntered};
ghost use Rattle.std.specs.BTreeMap.{get_by_text};
ghost use Rattle.caf_scenario.specs.Actors.{kind_named, kind_of, is_taken, actor_named, actor_fault, actors_fault};
ghost use Rattle.caf_scenario.specs.Read.{Passes, IsFault, kind, twice, unless};

use crate::ScenarioFault;
use crate::spot::{ListName, Spot};
use crate::written::WrittenActor;
use caf_kinds::KindName;
use caf_types::{Letters, Memory, Name};
use std::alloc::Global;
use std::collections::BTreeMap;

/// The places and the kinds of actors, by their names.
pub(crate) type Names = BTreeMap<String, (u32, KindName)>;

/// The actors by their names, where each has a kind, a name of its own and a number of peers that its
/// kind may have.
pub(crate) fn names_of(alloc: Global, actors: &[WrittenActor]) -> Result<Names, ScenarioFault>
    requires { length actors.now ≤ 255 }
    ensures { Passes (λ names. (name : List ℕ) → get_by_text names name ≡ actor_named actors.now name) result (actors_fault actors.now) }
{
    let mut names = BTreeMap::new(alloc);
    for (i, actor) in actors.iter().enumerate() {
        enter(alloc, &mut names, i as u64, actor)?;
    }
    Ok(names)
}

/// Enters the actor at that position among those before it.
fn enter(
    alloc: Global,
    names: &mut Names,
    position: u64,
    actor: &WrittenActor,
) -> Result<(), ScenarioFault>
    requires { position < 255 }
    ensures { Passes (λ _. IsEntered actor.now.name (position + 1, kind_of actor.now) (get_by_text names.old) (get_by_text names.new)) result
        (actor_fault (get_by_text names.old) position actor.now) }
{
    let kind = known_kind(alloc, actor.kind.as_str())?;
    free_name(alloc, names, &actor.name)?;
    if !kind.may_have_peers(actor.peers.len()) {
        let spot = Spot {
            list: ListName::Actors,
            position,
        };
        return Err(spot.member_fault(alloc, "peers"));
    }
    insert(alloc, names, actor.name.as_str(), position as u32 + 1, kind)?;
    Ok(())
}

fn known_kind(alloc: Global, text: &str) -> Result<KindName, ScenarioFault>
    ensures { Passes (λ found. kind_named text.now ≡ Some found) result (unless (is_some (kind_named text.now)) (kind text.now)) }
{
    match kind_named(text) {
        Some(kind) => Ok(kind),
        None => Err(kind_fault(alloc, text)),
    }
}

/// The name is neither the conductor's nor that of one of the actors.
fn free_name(alloc: Global, names: &Names, name: &Name) -> Result<(), ScenarioFault>
    ensures { Passes (λ _. is_taken (get_by_text names.now) name.now ≡ false) result (unless (not (is_taken (get_by_text names.now) name.now)) (twice name.now)) }
{
    if is_taken(names, name.as_str()) {
        return Err(twice_fault(alloc, name));
    }
    Ok(())
}

fn is_taken(names: &Names, name: &str) -> bool
    ensures { result ≡ is_taken (get_by_text names.now) name.now }
{
    name == "conductor" || names.get(name).is_some()
}

/// Puts the actor under its name, which nobody has.
fn insert(
    alloc: Global,
    names: &mut Names,
    name: &str,
    place: u32,
    kind: KindName,
) -> Result<(), Memory>
    ensures there { OnOk result (get_by_text names.new name.now ≡ Some (place, kind)) }
    ensures others { OnOk result ((other : List ℕ) → other ≢ name.now → get_by_text names.new other ≡ get_by_text names.old other) }
{
    let key = String::from_str(alloc, name)?;
    names.insert(key, (place, kind))?;
    Ok(())
}

/// The kind of an actor; what names no kind is taken for a calc.
pub(crate) fn kind_of(actor: &WrittenActor) -> KindName
    ensures { result ≡ kind_of actor.now }
{
    match kind_named(actor.kind.as_str()) {
        Some(kind) => kind,
        None => KindName::Calc,
    }
}

fn kind_named(text: &str) -> Option<KindName>
    ensures { result ≡ kind_named text.now }
{
    if text == "echo" {
        Some(KindName::Echo)
    } else if text == "cell" {
        Some(KindName::Cell)
    } else if text == "calc" {
        Some(KindName::Calc)
    } else if text == "holder" {
        Some(KindName::Holder)
    } else if text == "quitter" {
        Some(KindName::Quitter)
    } else if text == "source" {
        Some(KindName::Source)
    } else if text == "relay" {
        Some(KindName::Relay)
    } else if text == "counter" {
        Some(KindName::Counter)
    } else if text == "lines" {
        Some(KindName::Lines)
    } else if text == "collector" {
        Some(KindName::Collector)
    } else if text == "watcher" {
        Some(KindName::Watcher)
    } else if text == "spawner" {
        Some(KindName::Spawner)
    } else if text == "alarm" {
        Some(KindName::Alarm)
    } else {
        None
    }
}

fn kind_fault(alloc: Global, text: &str) -> ScenarioFault
    ensures { IsFault result (kind text.now) }
{
    match Letters::of(alloc, text) {
        Ok(text) => ScenarioFault::Kind(text),
        Err(Memory) => ScenarioFault::Memory,
    }
}

fn twice_fault(alloc: Global, name: &Name) -> ScenarioFault
    ensures { IsFault result (twice name.now) }
{
    match Name::of(alloc, name.as_str()) {
        Ok(name) => ScenarioFault::Twice(name),
        Err(Memory) => ScenarioFault::Memory,
    }
}
