//! The actors of a play at its beginning.
ghost use Rattle.std.specs.Prelude.{◌≡◌, ◌<◌, ◌≤◌, length, IfOk};
ghost use Rattle.caf_types.specs.Limits.{places};
ghost use Rattle.caf_driver.specs.Opening.{IsFresh, AreFresh};
ghost use Rattle.caf_scripted.specs.Scripted.{scripted_rules};
ghost use Rattle.caf_staged.specs.Opening.{are_below, belongs};

use crate::{PlayFault, Role};
use caf_actor::Actor;
use caf_scripted::{Part, Scripted};
use caf_signature::{Interface, Signature};
use caf_types::{LATEST_STAMP, Memory, PLACES, Places, Seq, TypeId, TypeIds};
use std::alloc::Global;

/// An actor for each role, each at its place, that took nothing yet and sends to these places alone.
pub fn opening_actors(alloc: Global, roles: &[Role]) -> Result<Seq<Actor<Scripted>>, PlayFault>
    ensures each { IfOk result (λ actors. length actors ≡ length roles.now) }
    ensures some { IfOk result (λ actors. 0 < length actors) }
    ensures few { IfOk result (λ actors. length actors ≤ places) }
    ensures fresh { IfOk result (λ actors. AreFresh scripted_rules actors) }
{
    let count = roles.len();
    if count == 0 || count > PLACES as usize {
        return Err(PlayFault::Roles);
    }
    let mut actors = Seq::new(alloc);
    for (place, role) in roles.iter().enumerate() {
        let actor = actor_of(alloc, place as u32, count as u32, role)?;
        actors.push(actor)?;
    }
    Ok(actors)
}

/// The actor of the role at that place, of so many places.
fn actor_of(
    alloc: Global,
    place: u32,
    count: u32,
    role: &Role,
) -> Result<Actor<Scripted>, PlayFault>
    requires place { place < count }
    requires count { count ≤ places }
    ensures { IfOk result (λ actor. IsFresh scripted_rules count place actor) }
{
    let behavior = behavior_of(alloc, &role.part)?;
    if !belongs(&behavior, place, count) || role.stamp > LATEST_STAMP {
        return Err(PlayFault::Role(place));
    }
    if role.part.is_vacant {
        return Ok(Actor::vacant(alloc, place, behavior, role.stamp)?);
    }
    Ok(Actor::new(alloc, place, behavior, role.stamp)?)
}

/// Whether the behaviour is of that place, and sends to these places alone.
fn belongs(behavior: &Scripted, place: u32, count: u32) -> bool
    ensures { result ≡ belongs behavior.now place count }
{
    behavior.place == place
        && are_below(behavior.peers.as_slice(), count)
        && are_below(behavior.reserve.as_slice(), count)
}

fn are_below(list: &[u32], count: u32) -> bool
    ensures { result ≡ are_below count list.now }
{
    list.iter().all(|place| *place < count)
}

/// The behaviour before its first input.
fn behavior_of(alloc: Global, part: &Part) -> Result<Scripted, Memory> {
    Ok(Scripted {
        place: part.place,
        peers: Places::of_vec(Vec::from_slice(alloc, part.peers)?),
        reserve: Places::of_vec(Vec::from_slice(alloc, part.reserve)?),
        interface: interface(alloc, part.takes_unit)?,
        acts: Seq::of_vec(Vec::from_slice(alloc, part.acts)?),
        cues: Seq::of_vec(Vec::from_slice(alloc, part.cues)?),
        done: 0,
        is_asleep: part.is_asleep,
        notes: Seq::new(alloc),
    })
}

/// [unsigned] to [unsigned], and [unit] to [unit] where `takes_unit`.
fn interface(alloc: Global, takes_unit: bool) -> Result<Interface, Memory> {
    let mut signatures = Seq::new(alloc);
    signatures.push(signature(alloc, 2)?)?;
    if takes_unit {
        signatures.push(signature(alloc, 0)?)?;
    }
    match Interface::new(alloc, signatures) {
        Ok(interface) => Ok(interface),
        Err(_) => Err(Memory),
    }
}

/// The type as its own result.
fn signature(alloc: Global, id: u16) -> Result<Signature, Memory> {
    Ok(Signature {
        input: types(alloc, id)?,
        result: types(alloc, id)?,
    })
}

fn types(alloc: Global, id: u16) -> Result<TypeIds, Memory> {
    let mut types = TypeIds::new(alloc);
    types.push(TypeId(id))?;
    Ok(types)
}
