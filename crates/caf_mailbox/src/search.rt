ghost use Rattle.std.specs.Prelude.{◌≡◌, map, MatchOption, IfNone, None};
ghost use Rattle.std.specs.Option.{option_map};
ghost use Rattle.caf_message.specs.Envelope.{plain_envelope};
ghost use Rattle.caf_message.specs.Lists.{pick};
ghost use Rattle.caf_mailbox.specs.Search.{taken_at};

use crate::Eligible;
use caf_message::Envelope;
use std::collections::VecDeque;

/// Takes out the first eligible envelope. Those before it are looked at in place, and stay there.
pub(crate) fn take_eligible<E: Eligible>(
    list: &mut VecDeque<Envelope>,
    test: &E,
) -> Option<Envelope>
    ensures taken { option_map (λ envelope. (plain_envelope envelope, map plain_envelope list.new.items)) result
        ≡ pick (E.test test.now) (map plain_envelope list.old.items) }
    ensures kept { IfNone result (map plain_envelope list.new.items ≡ map plain_envelope list.old.items) }
{
    match first_eligible(list, test) {
        Some(position) => take_out(list, position),
        None => None,
    }
}

/// Where the first eligible envelope stands.
fn first_eligible<E: Eligible>(list: &mut VecDeque<Envelope>, test: &E) -> Option<usize>
    ensures found { let envelopes = map plain_envelope list.old.items in
        MatchOption result
        (pick (E.test test.now) envelopes ≡ None)
        (λ i. pick (E.test test.now) envelopes ≡ taken_at envelopes i) }
    ensures kept { map plain_envelope list.new.items ≡ map plain_envelope list.old.items }
{
    for i in 0..list.len() {
        let envelope = &mut list[i];
        if test.eligible(envelope) {
            return Some(i);
        }
    }
    None
}

/// Takes out the envelope at `position`, if there is one.
fn take_out(list: &mut VecDeque<Envelope>, position: usize) -> Option<Envelope>
    ensures taken { option_map (λ envelope. (plain_envelope envelope, map plain_envelope list.new.items)) result
        ≡ taken_at (map plain_envelope list.old.items) position }
    ensures kept { IfNone result (list.new.items ≡ list.old.items) }
{
    list.remove(position)
}
