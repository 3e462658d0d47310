//! Envelopes that come when no number of arrival is left.
ghost use Rattle.std.specs.Prelude.{◌≡◌, ◌<◌, ◌≤◌, ◌+◌, [], ◌∷◌, ◌++◌, map, filter, count_by, OnOk};
ghost use Rattle.std.specs.VecDeque.{deque_len, deque_capacity};
ghost use Rattle.caf_message.specs.Envelope.{plain_envelope};
ghost use Rattle.caf_mailbox.specs.Caches.{is_normal};
ghost use Rattle.caf_mailbox.specs.Caches as definitions;

use crate::class::is_urgent;
use caf_message::Envelope;
use caf_types::{Memory, Priority};
use std::collections::VecDeque;

/// Makes room for the urgent envelopes of the batch in one list, and for its normal ones in the other.
pub(crate) fn make_late_room(
    urgent: &mut VecDeque<Envelope>,
    normal: &mut VecDeque<Envelope>,
    batch: &[Envelope],
) -> Result<(), Memory>
    ensures urgent { urgent.new.items ≡ urgent.old.items }
    ensures normal { normal.new.items ≡ normal.old.items }
    ensures urgent_room { OnOk result
        (deque_len urgent.new + count_by (λ e. definitions.is_urgent (plain_envelope e)) batch.now ≤ deque_capacity urgent.new) }
    ensures normal_room { OnOk result
        (deque_len normal.new + count_by (λ e. is_normal (plain_envelope e)) batch.now ≤ deque_capacity normal.new) }
{
    let urgent_count = count_urgent(batch);
    urgent.reserve(urgent_count)?;
    normal.reserve(batch.len() - urgent_count)?;
    Ok(())
}

/// How many of the envelopes are urgent.
fn count_urgent(envelopes: &[Envelope]) -> usize
    ensures { result ≡ count_by (λ e. definitions.is_urgent (plain_envelope e)) envelopes.now }
{
    let mut count = 0;
    for envelope in envelopes {
        if is_urgent(envelope) {
            count += 1;
        }
    }
    count
}

/// Puts each envelope at the end of the list of its priority. Both lists have room.
pub(crate) fn file_late(
    urgent: &mut VecDeque<Envelope>,
    normal: &mut VecDeque<Envelope>,
    batch: Vec<Envelope>,
)
    requires urgent_room { deque_len urgent.old + count_by (λ e. definitions.is_urgent (plain_envelope e)) batch.items ≤ deque_capacity urgent.old }
    requires normal_room { deque_len normal.old + count_by (λ e. is_normal (plain_envelope e)) batch.items ≤ deque_capacity normal.old }
    ensures urgent { map plain_envelope urgent.new.items
        ≡ map plain_envelope urgent.old.items ++ filter definitions.is_urgent (map plain_envelope batch.items) }
    ensures normal { map plain_envelope normal.new.items
        ≡ map plain_envelope normal.old.items ++ filter is_normal (map plain_envelope batch.items) }
{
    for envelope in batch {
        match envelope.priority {
            Priority::Urgent => put(urgent, envelope),
            Priority::Normal => put(normal, envelope),
        }
    }
}

/// Puts an envelope at the end of a list that has room.
fn put(list: &mut VecDeque<Envelope>, envelope: Envelope)
    requires { deque_len list.old < deque_capacity list.old }
    ensures items { list.new.items ≡ list.old.items ++ envelope ∷ [] }
    ensures len { deque_len list.new ≡ deque_len list.old + 1 }
    ensures capacity { deque_capacity list.new ≡ deque_capacity list.old }
{
    let _ = list.push_back(envelope);
}
