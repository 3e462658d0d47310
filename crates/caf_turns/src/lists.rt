//! Bodies into their slots and out of them.
ghost use Rattle.std.specs.Prelude.{◌≡◌, ◌≢◌, ◌≤◌, [], length, map, Some, None, IfOk, IfErr, vec_capacity};
ghost use Rattle.std.specs.List.{AllByRecursion};

use caf_types::Memory;
use std::alloc::Global;

/// Keeps that one of two empty lists which has more room.
pub fn keep_roomier<T: Drop>(room: &mut Vec<T>, other: Vec<T>)
    requires { (room.old.items ≡ []) × (other.items ≡ []) }
    ensures empty { room.new.items ≡ [] }
    ensures room { (vec_capacity room.old ≤ vec_capacity room.new) × (vec_capacity other ≤ vec_capacity room.new) }
{
    if room.capacity() < other.capacity() {
        *room = other;
    }
}

/// Each body in a slot of its own.
pub fn filled<T: Drop>(alloc: Global, bodies: Vec<T>) -> Result<Vec<Option<T>>, (Vec<T>, Memory)>
    ensures ok { IfOk result (λ v. v.items ≡ map Some bodies.items) }
    ensures err { IfErr result (λ e. e.0.items ≡ bodies.items) }
{
    let Ok(mut slots) = Vec::with_capacity(alloc, bodies.len()) else {
        return Err((bodies, Memory));
    };
    for body in bodies {
        let Ok(()) = slots.push(Some(body)) else {
            unreachable!()
        };
    }
    Ok(slots)
}

/// The bodies out of their slots, in a list that has room for them.
pub fn emptied<T: Drop>(slots: Vec<Option<T>>, mut room: Vec<T>) -> Vec<T>
    requires full { AllByRecursion (λ o. o ≢ None) slots.items }
    requires room { (room.items ≡ []) × (length slots.items ≤ vec_capacity room) }
    ensures { map Some result.items ≡ slots.items }
{
    for slot in slots {
        let Some(body) = slot else { unreachable!() };
        let Ok(()) = room.push(body) else {
            unreachable!()
        };
    }
    room
}
