//! A batch comes into the two lists.
ghost use Rattle.std.specs.Prelude.{◌≡◌, ◌<◌, ◌^◌, ◌+◌, [], ◌∷◌, ◌++◌, List, map, filter, length, OnOk, OnErr, IfErr};
ghost use Rattle.caf_message.specs.declared.envelope.Taken.{Taken};
ghost use Rattle.caf_message.specs.Envelope.{plain_envelope};
ghost use Rattle.caf_mailbox.specs.Caches.{is_urgent, is_normal};
ghost use Rattle.caf_mailbox.specs.Line.{in_line, HasRoom, HasSameItems, HasNoPlaces};
ghost use Rattle.caf_mailbox.specs.Places.{place_in, places_for, BeginsWith};
ghost use Rattle.caf_mailbox.specs.Kept.{IsKept};

use crate::late::{file_late, make_late_room};
use crate::line::{Line, make_room, put_in};
use crate::tally::make_places;
use caf_message::{Batch, Envelope};
use caf_types::{Memory, Priority};
use std::collections::VecDeque;

/// Puts the urgent envelopes of the batch at the end of one list, and its normal ones at the end of
/// the other. They get numbers of arrival, where enough are left and no earlier one went without.
pub(crate) fn add_batch(
    urgent: &mut Line,
    normal: &mut Line,
    next: &mut u64,
    batch: Batch,
) -> Result<(), (Batch, Memory)>
    requires kept { IsKept next.old urgent.old normal.old }
    requires urgent_places { HasNoPlaces urgent.old }
    requires normal_places { HasNoPlaces normal.old }
    ensures urgent { OnOk result (in_line urgent.new ≡ in_line urgent.old ++ filter is_urgent (map plain_envelope batch)) }
    ensures normal { OnOk result (in_line normal.new ≡ in_line normal.old ++ filter is_normal (map plain_envelope batch)) }
    ensures batch { IfErr result (λ refused. refused.0 ≡ batch) }
    ensures urgent_kept { OnErr result (in_line urgent.new ≡ in_line urgent.old) }
    ensures normal_kept { OnErr result (in_line normal.new ≡ in_line normal.old) }
    ensures kept { IsKept next.new urgent.new normal.new }
    ensures urgent_places { HasNoPlaces urgent.new }
    ensures normal_places { HasNoPlaces normal.new }
{
    let is_numbered = urgent.late.is_empty() && normal.late.is_empty();
    if !is_numbered || batch.len() > u64::MAX - *next {
        return add_late(&mut urgent.late, &mut normal.late, batch);
    }
    match make_rooms(urgent, normal, *next, batch.as_slice()) {
        Ok(()) => {
            *next = file(urgent, normal, *next, batch.into_vec());
            Ok(())
        }
        Err(memory) => Err((batch, memory)),
    }
}

/// Puts the batch behind all that have numbers.
fn add_late(
    urgent: &mut VecDeque<Envelope>,
    normal: &mut VecDeque<Envelope>,
    batch: Batch,
) -> Result<(), (Batch, Memory)>
    ensures urgent { OnOk result (map plain_envelope urgent.new.items ≡ map plain_envelope urgent.old.items ++ filter is_urgent (map plain_envelope batch)) }
    ensures normal { OnOk result (map plain_envelope normal.new.items ≡ map plain_envelope normal.old.items ++ filter is_normal (map plain_envelope batch)) }
    ensures batch { IfErr result (λ refused. refused.0 ≡ batch) }
    ensures urgent_kept { OnErr result (urgent.new.items ≡ urgent.old.items) }
    ensures normal_kept { OnErr result (normal.new.items ≡ normal.old.items) }
{
    match make_late_room(urgent, normal, batch.as_slice()) {
        Ok(()) => {
            file_late(urgent, normal, batch.into_vec());
            Ok(())
        }
        Err(memory) => Err((batch, memory)),
    }
}

/// Makes room for the urgent envelopes of the batch in one list, and for its normal ones in the other.
/// After want of memory no place is left.
pub(crate) fn make_rooms(
    urgent: &mut Line,
    normal: &mut Line,
    next: u64,
    batch: &[Envelope],
) -> Result<(), Memory>
    requires kept { IsKept next urgent.old normal.old }
    requires urgent_places { HasNoPlaces urgent.old }
    requires normal_places { HasNoPlaces normal.old }
    requires numbers { next + length batch.now < 2 ^ 64 }
    ensures urgent_room { OnOk result (HasRoom (filter is_urgent (map plain_envelope batch.now)) urgent.new) }
    ensures normal_room { OnOk result (HasRoom (filter is_normal (map plain_envelope batch.now)) normal.new) }
    ensures urgent_places { OnOk result (urgent.new.responses.room ≡ places_for is_urgent next (map plain_envelope batch.now)) }
    ensures normal_places { OnOk result (normal.new.responses.room ≡ places_for is_normal next (map plain_envelope batch.now)) }
    ensures no_urgent_places { OnErr result (HasNoPlaces urgent.new) }
    ensures no_normal_places { OnErr result (HasNoPlaces normal.new) }
    ensures urgent { HasSameItems urgent.old urgent.new }
    ensures normal { HasSameItems normal.old normal.new }
{
    match try_make_rooms(urgent, normal, next, batch) {
        Ok(()) => Ok(()),
        Err(memory) => {
            urgent.responses.give_up_places();
            normal.responses.give_up_places();
            Err(memory)
        }
    }
}

/// The same, but that after want of memory some places are left.
fn try_make_rooms(
    urgent: &mut Line,
    normal: &mut Line,
    next: u64,
    batch: &[Envelope],
) -> Result<(), Memory>
    requires kept { IsKept next urgent.old normal.old }
    requires urgent_places { HasNoPlaces urgent.old }
    requires normal_places { HasNoPlaces normal.old }
    requires numbers { next + length batch.now < 2 ^ 64 }
    ensures urgent_room { OnOk result (HasRoom (filter is_urgent (map plain_envelope batch.now)) urgent.new) }
    ensures normal_room { OnOk result (HasRoom (filter is_normal (map plain_envelope batch.now)) normal.new) }
    ensures urgent_places { OnOk result (urgent.new.responses.room ≡ places_for is_urgent next (map plain_envelope batch.now)) }
    ensures normal_places { OnOk result (normal.new.responses.room ≡ places_for is_normal next (map plain_envelope batch.now)) }
    ensures urgent { HasSameItems urgent.old urgent.new }
    ensures normal { HasSameItems normal.old normal.new }
{
    let tallies = make_places(&mut urgent.responses, &mut normal.responses, next, batch)?;
    make_room(urgent, tallies.0)?;
    make_room(normal, tallies.1)
}

/// Puts each envelope at the end of the list of its priority, with the numbers from `next` on, and
/// says which number is next. Both lists have room, and no late envelopes; there is a place for each
/// response, and no other one.
pub(crate) fn file(urgent: &mut Line, normal: &mut Line, next: u64, batch: Vec<Envelope>) -> u64
    requires urgent_room { HasRoom (filter is_urgent (map plain_envelope batch.items)) urgent.old }
    requires normal_room { HasRoom (filter is_normal (map plain_envelope batch.items)) normal.old }
    requires urgent_places { urgent.old.responses.room ≡ places_for is_urgent next (map plain_envelope batch.items) }
    requires normal_places { normal.old.responses.room ≡ places_for is_normal next (map plain_envelope batch.items) }
    requires kept { IsKept next urgent.old normal.old }
    requires urgent_late { urgent.old.late.items ≡ [] }
    requires normal_late { normal.old.late.items ≡ [] }
    requires numbers { next + length batch.items < 2 ^ 64 }
    ensures urgent { in_line urgent.new ≡ in_line urgent.old ++ filter is_urgent (map plain_envelope batch.items) }
    ensures normal { in_line normal.new ≡ in_line normal.old ++ filter is_normal (map plain_envelope batch.items) }
    ensures kept { IsKept result urgent.new normal.new }
    ensures urgent_places { HasNoPlaces urgent.new }
    ensures normal_places { HasNoPlaces normal.new }
{
    let mut number = next;
    for envelope in batch {
        file_one(urgent, normal, number, envelope);
        number += 1;
    }
    number
}

/// Puts one envelope at the end of the list of its priority.
fn file_one(urgent: &mut Line, normal: &mut Line, number: u64, envelope: Envelope)
    requires urgent_room { HasRoom (filter is_urgent (plain_envelope envelope ∷ [])) urgent.old }
    requires normal_room { HasRoom (filter is_normal (plain_envelope envelope ∷ [])) normal.old }
    requires urgent_place { BeginsWith (place_in is_urgent number (plain_envelope envelope)) urgent.old.responses.room }
    requires normal_place { BeginsWith (place_in is_normal number (plain_envelope envelope)) normal.old.responses.room }
    requires kept { IsKept number urgent.old normal.old }
    requires urgent_late { urgent.old.late.items ≡ [] }
    requires normal_late { normal.old.late.items ≡ [] }
    ensures urgent { in_line urgent.new ≡ in_line urgent.old ++ filter is_urgent (plain_envelope envelope ∷ []) }
    ensures normal { in_line normal.new ≡ in_line normal.old ++ filter is_normal (plain_envelope envelope ∷ []) }
    ensures kept { IsKept (number + 1) urgent.new normal.new }
    ensures urgent_late { urgent.new.late.items ≡ [] }
    ensures normal_late { normal.new.late.items ≡ [] }
    ensures urgent_room { (rest : List Taken) → HasRoom (filter is_urgent (plain_envelope envelope ∷ rest)) urgent.old → HasRoom (filter is_urgent rest) urgent.new }
    ensures normal_room { (rest : List Taken) → HasRoom (filter is_normal (plain_envelope envelope ∷ rest)) normal.old → HasRoom (filter is_normal rest) normal.new }
    ensures urgent_places { urgent.old.responses.room ≡ place_in is_urgent number (plain_envelope envelope) ++ urgent.new.responses.room }
    ensures normal_places { normal.old.responses.room ≡ place_in is_normal number (plain_envelope envelope) ++ normal.new.responses.room }
{
    match envelope.priority {
        Priority::Urgent => put_in(urgent, number, envelope),
        Priority::Normal => put_in(normal, number, envelope),
    }
}
