//! What a batch needs of the two lists.
ghost use Rattle.std.specs.Prelude.{◌≡◌, ◌<◌, ◌+◌, ◌^◌, [], map, filter, length, IfOk, OnOk};
ghost use Rattle.caf_message.specs.Envelope.{plain_envelope};
ghost use Rattle.caf_mailbox.specs.Caches.{is_urgent, is_normal};
ghost use Rattle.caf_mailbox.specs.Order.{AreBelow};
ghost use Rattle.caf_mailbox.specs.Places.{no_tally, places_for, IsTally, IsOneMore};

use crate::class::{Class, class_of};
use crate::responses::Responses;
use caf_message::Envelope;
use caf_types::{Memory, Priority};

/// How many notices and contents come into a list.
#[derive(Clone, Copy, Debug)]
pub(crate) struct Tally {
    pub(crate) notices: usize,
    pub(crate) contents: usize,
}

/// Goes over the batch once: counts its notices and contents by list, and makes a place for each of its
/// responses, under the numbers of arrival from `next` on. After want of memory some places are made.
pub(crate) fn make_places(
    urgent: &mut Responses,
    normal: &mut Responses,
    next: u64,
    batch: &[Envelope],
) -> Result<(Tally, Tally), Memory>
    requires urgent { AreBelow next urgent.old.here }
    requires normal { AreBelow next normal.old.here }
    requires urgent_places { urgent.old.room ≡ [] }
    requires normal_places { normal.old.room ≡ [] }
    requires numbers { next + length batch.now < 2 ^ 64 }
    ensures urgent { urgent.new.here ≡ urgent.old.here }
    ensures normal { normal.new.here ≡ normal.old.here }
    ensures urgent_places { OnOk result (urgent.new.room ≡ places_for is_urgent next (map plain_envelope batch.now)) }
    ensures normal_places { OnOk result (normal.new.room ≡ places_for is_normal next (map plain_envelope batch.now)) }
    ensures tallies { IfOk result (λ tallies. IsTally (filter is_urgent (map plain_envelope batch.now)) tallies.0 × IsTally (filter is_normal (map plain_envelope batch.now)) tallies.1) }
{
    let none = Tally {
        notices: 0,
        contents: 0,
    };
    let mut urgent_tally = none;
    let mut normal_tally = none;
    let mut number = next;
    for envelope in batch {
        match envelope.priority {
            Priority::Urgent => add_one(&mut urgent_tally, urgent, number, envelope)?,
            Priority::Normal => add_one(&mut normal_tally, normal, number, envelope)?,
        }
        number += 1;
    }
    Ok((urgent_tally, normal_tally))
}

/// Counts one envelope, or makes a place for it.
fn add_one(
    tally: &mut Tally,
    responses: &mut Responses,
    number: u64,
    envelope: &Envelope,
) -> Result<(), Memory>
    requires notices { tally.old.notices + 1 < 2 ^ 64 }
    requires contents { tally.old.contents + 1 < 2 ^ 64 }
    requires here { AreBelow number responses.old.here }
    requires room { AreBelow number responses.old.room }
    ensures here { responses.new.here ≡ responses.old.here }
    ensures more { OnOk result (IsOneMore number (plain_envelope envelope.now) tally.old tally.new responses.old.room responses.new.room) }
{
    match class_of(envelope) {
        Class::Notice => tally.notices += 1,
        Class::Response => responses.make_place(number, envelope.mid.number)?,
        Class::Content => tally.contents += 1,
    }
    Ok(())
}
