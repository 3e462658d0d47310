ghost use Rattle.std.specs.Prelude.{◌≡◌, ◌≢◌, ◌+◌, ◌==◌, [], ◌++◌, length, false, IfOk, OnOk};
ghost use Rattle.std.specs.List.{list_any};
ghost use Rattle.caf_driver.specs.Opening.{AreFresh};
ghost use Rattle.caf_kinds.specs.Kinds.{kind_rules};
ghost use Rattle.caf_kinds.specs.Starting.{CanStart};
ghost use Rattle.caf_kinds.specs.declared.setup.KindName.TheVariants as name;
ghost use Rattle.caf_opening.specs.Opening.{CanOpen};
ghost use Rattle.caf_opening.specs.Opening as opening;

use caf_actor::Actor;
use caf_kinds::{Kind, KindName, Setup, Step};
use caf_types::{Memory, Octets, Places, Seq};
use std::alloc::Global;
use std::mem;

/// A conductor of the script at place 0, and behind it an actor for each setup, from place 1 on. An actor whose
/// place is kept for a child of another one hasn't begun. The files are those of the first source.
pub fn opening_actors(
    alloc: Global,
    places: &Seq<Setup>,
    script: &Seq<Step>,
    files: Seq<Octets>,
) -> Result<Seq<Actor<Kind>>, Memory>
    requires { CanOpen places.now script.now files }
    ensures actors { IfOk result (λ actors. actors ≡ opening.opening_of places.now script.now files) }
    ensures count { IfOk result (λ actors. length actors ≡ length places.now + 1) }
    ensures fresh { IfOk result (λ actors. AreFresh kind_rules actors) }
    ensures known { IfOk result (λ actors. opening.AreKnown actors) }
{
    let mut actors = Seq::new(alloc);
    actors.push(conductor(alloc, places, script)?)?;
    add_others(alloc, places, script, files, &mut actors)?;
    Ok(actors)
}

fn conductor(alloc: Global, places: &Seq<Setup>, script: &Seq<Step>) -> Result<Actor<Kind>, Memory>
    requires { CanOpen places.now script.now [] }
    ensures actor { IfOk result (λ actor. actor ≡ opening.conductor_at_0 places.now script.now) }
    ensures known { IfOk result (λ actor. opening.IsKnown actor) }
{
    let setup = Setup {
        kind: KindName::Conductor,
        peers: Places::new(alloc),
        asleep: false,
        reserve: Places::new(alloc),
    };
    let behavior = Kind::start(alloc, 0, &setup, places, script, Seq::new(alloc))?;
    Ok(known(Actor::new(alloc, 0, behavior, 0)?))
}

/// Adds the actors behind the conductor.
fn add_others(
    alloc: Global,
    places: &Seq<Setup>,
    script: &Seq<Step>,
    files: Seq<Octets>,
    actors: &mut Seq<Actor<Kind>>,
) -> Result<(), Memory>
    requires opens { CanOpen places.now script.now files }
    requires known { opening.AreKnown actors.old }
    ensures added { OnOk result (actors.new ≡ actors.old ++ opening.actors_from places.now script.now 1 places.now files) }
    ensures known { OnOk result (opening.AreKnown actors.new) }
{
    let mut left = files;
    let setups = places.as_slice();
    for before in 0..setups.len() {
        let setup = &setups[before];
        let own = take_files(alloc, setup.kind, &mut left);
        let actor = actor_at(alloc, before as u32 + 1, setup, places, script, own)?;
        actors.push(actor)?;
    }
    Ok(())
}

/// The files of an actor of the kind. They are gone from those that are left.
fn take_files(alloc: Global, kind: KindName, left: &mut Seq<Octets>) -> Seq<Octets>
    ensures own { result ≡ opening.own_files kind left.old }
    ensures left { left.new ≡ opening.files_left kind left.old }
{
    match kind {
        KindName::Source => mem::replace(left, Seq::new(alloc)),
        _ => Seq::new(alloc),
    }
}

/// The actor at that place.
fn actor_at(
    alloc: Global,
    place: u32,
    setup: &Setup,
    places: &Seq<Setup>,
    script: &Seq<Step>,
    files: Seq<Octets>,
) -> Result<Actor<Kind>, Memory>
    requires start { CanStart place setup.now places.now script.now files }
    requires kind { setup.now.kind ≢ name.Conductor }
    ensures actor { IfOk result (λ actor. actor ≡ opening.actor_at places.now script.now place setup.now files) }
    ensures known { IfOk result (λ actor. opening.IsKnown actor) }
{
    let behavior = Kind::start(alloc, place, setup, places, script, files)?;
    if is_child(places.as_slice(), place) {
        return Ok(known(Actor::vacant(alloc, place, behavior, 0)?));
    }
    Ok(known(Actor::new(alloc, place, behavior, 0)?))
}

/// The actor, unchanged.
fn known(actor: Actor<Kind>) -> Actor<Kind>
    requires { actor.is_broken ≡ false }
    ensures same { result ≡ actor }
    ensures known { opening.IsKnown actor }
{
    // Asking for the place tells what holds of every actor.
    let _ = actor.place();
    actor
}

/// Whether the place is kept for a child of one of the actors.
fn is_child(places: &[Setup], place: u32) -> bool
    ensures { result ≡ opening.is_child places.now place }
{
    places.iter().any(|setup| keeps(setup, place))
}

fn keeps(setup: &Setup, place: u32) -> bool
    ensures { result ≡ list_any (λ q. q == place) setup.now.reserve }
{
    setup.reserve.as_slice().iter().any(|child| *child == place)
}
