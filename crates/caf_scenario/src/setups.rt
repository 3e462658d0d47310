//! Peers that nobody is, and peers that don't take what is asked of them; setups.
ghost use Rattle.std.specs.Prelude.{◌≡◌, ◌+◌, ◌++◌, ◌≤◌, map, length, IsTrue, IfOk, OnOk};
ghost use Rattle.caf_types.specs.Name.{is_name};
ghost use Rattle.std.specs.List.{range_with_len};
ghost use Rattle.std.specs.BTreeMap.{get_by_text};
ghost use Rattle.caf_scenario.specs.Many.{places_used};
ghost use Rattle.caf_scenario.specs.Peers.{peer_fault, peers_fault_of, peers_fault};
ghost use Rattle.caf_scenario.specs.Scenario.{place_of, setups_said, children};
ghost use Rattle.caf_scenario.specs.Scenario as said;
ghost use Rattle.caf_scenario.specs.Read.{Passes, IsFault, unknown, interface};

use crate::ScenarioFault;
use crate::names::{Names, kind_of};
use crate::written::WrittenActor;
use caf_kinds::{KindName, Setup};
use caf_signature::assignable;
use caf_types::{Memory, Name, Places, Seq};
use std::alloc::Global;

/// The setups of the actors, whose reserved places follow the places of all actors.
pub(crate) fn setups_of(
    alloc: Global,
    names: &Names,
    actors: &[WrittenActor],
) -> Result<Seq<Setup>, ScenarioFault>
    requires { places_used actors.now ≤ 255 }
    ensures { Passes (λ setups. setups ≡ setups_said (get_by_text names.now) (length actors.now + 1) actors.now) result (peers_fault (get_by_text names.now) actors.now) }
{
    let mut setups = Seq::new(alloc);
    let mut first = actors.len() as u32 + 1;
    for actor in actors {
        let peers = peers_of(alloc, names, actor)?;
        let reserve = reserve_of(alloc, first, actor.children)?;
        let setup = Setup {
            kind: kind_of(actor),
            peers,
            asleep: actor.asleep,
            reserve,
        };
        setups.push(setup)?;
        first += actor.children;
    }
    Ok(setups)
}

/// The places of the actor's peers.
fn peers_of(alloc: Global, names: &Names, actor: &WrittenActor) -> Result<Places, ScenarioFault>
    ensures { Passes (λ places. places ≡ map (place_of (get_by_text names.now)) actor.now.peers) result (peers_fault_of (get_by_text names.now) actor.now) }
{
    let mut places = Seq::new(alloc);
    let peers = actor.peers.as_slice();
    for (i, peer) in peers.iter().enumerate() {
        let place = peer_of(alloc, names, actor, i as u64, peer)?;
        places.push(place)?;
    }
    Ok(places)
}

/// The place of one of the actor's peers, which takes what the actor's kind asks of it.
fn peer_of(
    alloc: Global,
    names: &Names,
    actor: &WrittenActor,
    position: u64,
    peer: &Name,
) -> Result<u32, ScenarioFault>
    ensures { Passes (λ place. place ≡ place_of (get_by_text names.now) peer.now) result (peer_fault (get_by_text names.now) actor.now position peer.now) }
{
    match names.get(peer.as_str()) {
        None => Err(unknown_fault(alloc, peer)),
        Some(found) => {
            let interface = found.1.interface(alloc)?;
            let wanted = kind_of(actor).wanted(alloc, actor.peers.len(), position)?;
            if !assignable(&interface, &wanted) {
                return Err(interface_fault(alloc, actor.name.as_str(), peer));
            }
            Ok(found.0)
        }
    }
}

/// So many places, from the first on.
pub(crate) fn reserve_of(alloc: Global, first: u32, count: u32) -> Result<Places, Memory>
    requires { first + count ≤ 256 }
    ensures { IfOk result (λ places. places ≡ range_with_len first count) }
{
    let mut places = Seq::new(alloc);
    for i in 0..count {
        places.push(first + i)?;
    }
    Ok(places)
}

/// Adds the setups of so many reserved places.
pub(crate) fn push_children(
    alloc: Global,
    setups: &mut Seq<Setup>,
    count: u32,
) -> Result<(), Memory>
    ensures { OnOk result (setups.new ≡ setups.old ++ children count) }
{
    for _ in 0..count {
        setups.push(child(alloc))?;
    }
    Ok(())
}

fn child(alloc: Global) -> Setup
    ensures { result ≡ said.child }
{
    Setup {
        kind: KindName::Calc,
        peers: Seq::new(alloc),
        asleep: false,
        reserve: Seq::new(alloc),
    }
}

pub(crate) fn unknown_fault(alloc: Global, name: &Name) -> ScenarioFault
    ensures { IsFault result (unknown name.now) }
{
    match Name::of(alloc, name.as_str()) {
        Ok(name) => ScenarioFault::Unknown(name),
        Err(Memory) => ScenarioFault::Memory,
    }
}

/// One asks more of the other than it takes.
pub(crate) fn interface_fault(alloc: Global, asking: &str, asked: &Name) -> ScenarioFault
    requires { IsTrue (is_name asking.now) }
    ensures { IsFault result (interface asking.now asked.now) }
{
    match names_pair(alloc, asking, asked) {
        Ok((asking, asked)) => ScenarioFault::Interface(asking, asked),
        Err(Memory) => ScenarioFault::Memory,
    }
}

fn names_pair(alloc: Global, asking: &str, asked: &Name) -> Result<(Name, Name), Memory>
    requires { IsTrue (is_name asking.now) }
    ensures { IfOk result (λ pair. (pair.0 ≡ asking.now) × (pair.1 ≡ asked.now)) }
{
    let asking = Name::of(alloc, asking)?;
    let asked = Name::of(alloc, asked.as_str())?;
    Ok((asking, asked))
}
