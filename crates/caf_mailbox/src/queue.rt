//! One queue of a line: the envelopes of one class.
ghost use Rattle.std.specs.Prelude.{◌≡◌, ◌+◌, ◌<◌, ◌≤◌, ◌∷◌, [], ◌++◌, true, length, IfNone, IfSome};
ghost use Rattle.std.specs.List.{AllByRecursion};
ghost use Rattle.std.specs.Option.{option_map};
ghost use Rattle.std.specs.VecDeque.{deque_len, deque_capacity};
ghost use Rattle.caf_message.specs.Envelope.{plain_envelope, is_content};
ghost use Rattle.caf_message.specs.Lists.{pick};
ghost use Rattle.caf_mailbox.specs.Arrived.{arrived, all_arrived, at_arrived};
ghost use Rattle.caf_mailbox.specs.Line.{taken_where, IsFound};
ghost use Rattle.caf_mailbox.specs.Line as line;
ghost use Rattle.caf_mailbox.specs.Order as order;
ghost use Rattle.caf_mailbox.specs.Passed.{NonePass};

use crate::Eligible;
use crate::class::Class;
use caf_message::Envelope;
use std::collections::VecDeque;

/// An envelope with its number of arrival.
#[derive(Debug, Drop)]
pub(crate) struct Numbered {
    pub(crate) number: u64,
    pub(crate) envelope: Envelope,
}

/// Where an envelope stands in its queue, and its number of arrival.
#[derive(Clone, Copy, Debug)]
pub(crate) struct Found {
    pub(crate) position: usize,
    pub(crate) number: u64,
}

/// Puts an envelope at the end of a queue that has room.
pub(crate) fn put(queue: &mut VecDeque<Numbered>, number: u64, envelope: Envelope)
    requires { deque_len queue.old < deque_capacity queue.old }
    ensures items { all_arrived queue.new.items ≡ all_arrived queue.old.items ++ (number, plain_envelope envelope) ∷ [] }
    ensures len { deque_len queue.new ≡ deque_len queue.old + 1 }
    ensures capacity { deque_capacity queue.new ≡ deque_capacity queue.old }
{
    queue.push_back_reserved(Numbered { number, envelope });
}

/// The first eligible one. Those before `from` are known not to be eligible.
pub(crate) fn first_from<E: Eligible>(
    queue: &mut VecDeque<Numbered>,
    test: &E,
    from: usize,
) -> Option<Found>
    requires within { from ≤ deque_len queue.old }
    requires passed { NonePass (at_arrived (E.test test.now)) (all_arrived queue.old.items) from }
    ensures found { IsFound (E.test test.now) (all_arrived queue.old.items) result }
    ensures passed { IfSome result (λ f. NonePass (at_arrived (E.test test.now)) (all_arrived queue.old.items) f.position) }
    ensures within { IfSome result (λ f. f.position ≤ deque_len queue.old) }
    ensures none { IfNone result (NonePass (at_arrived (E.test test.now)) (all_arrived queue.old.items) (deque_len queue.old)) }
    ensures kept { all_arrived queue.new.items ≡ all_arrived queue.old.items }
    ensures len { deque_len queue.new ≡ deque_len queue.old }
{
    for i in from..queue.len() {
        let one = &mut queue[i];
        let number = one.number;
        if test.eligible(&mut one.envelope) {
            return Some(Found {
                position: i,
                number,
            });
        }
    }
    None
}

/// The first eligible content. `passed` of them are known not to be eligible, and more afterwards.
pub(crate) fn first_content<E: Eligible>(
    queue: &mut VecDeque<Numbered>,
    test: &E,
    passed: &mut usize,
) -> Option<Found>
    requires class { AllByRecursion (λ z. is_content z.1 ≡ true) (all_arrived queue.old.items) }
    requires passed { NonePass (at_arrived (E.test test.now)) (all_arrived queue.old.items) passed.old }
    ensures found { IsFound (E.test test.now) (all_arrived queue.old.items) result }
    ensures passed { NonePass (at_arrived (E.test test.now)) (all_arrived queue.old.items) passed.new }
    ensures within { passed.new ≤ deque_len queue.old }
    ensures before { IfSome result (λ f. passed.new ≤ f.position) }
    ensures kept { all_arrived queue.new.items ≡ all_arrived queue.old.items }
{
    *passed = (*passed).min(queue.len());
    if !test.takes_contents() {
        return None;
    }
    let found = first_from(queue, test, *passed);
    *passed = match &found {
        Some(found) => found.position,
        None => queue.len(),
    };
    found
}

/// Takes out the one that was found, if one was.
pub(crate) fn take_at(queue: &mut VecDeque<Numbered>, found: Option<Found>) -> Option<Numbered>
    ensures taken { option_map (λ one. (arrived one, all_arrived queue.new.items)) result ≡ taken_where (all_arrived queue.old.items) found }
    ensures kept { IfNone result (all_arrived queue.new.items ≡ all_arrived queue.old.items) }
{
    match found {
        Some(found) => {
            if found.position == 0 {
                return queue.pop_front();
            }
            queue.remove(found.position)
        }
        None => None,
    }
}

/// Takes out the first eligible content, with `passed` as in the search.
pub(crate) fn take_content<E: Eligible>(
    queue: &mut VecDeque<Numbered>,
    test: &E,
    passed: &mut usize,
) -> Option<Numbered>
    requires class { AllByRecursion (λ z. is_content z.1 ≡ true) (all_arrived queue.old.items) }
    requires passed { NonePass (at_arrived (E.test test.now)) (all_arrived queue.old.items) passed.old }
    ensures taken { option_map (λ one. (arrived one, all_arrived queue.new.items)) result ≡ pick (at_arrived (E.test test.now)) (all_arrived queue.old.items) }
    ensures kept { IfNone result (all_arrived queue.new.items ≡ all_arrived queue.old.items) }
    ensures passed { NonePass (at_arrived (E.test test.now)) (all_arrived queue.new.items) passed.new }
    ensures within { passed.new ≤ length queue.new.items }
{
    let found = first_content(queue, test, passed);
    take_at(queue, found)
}

/// The number of arrival of the one that was found, if one was.
pub(crate) fn number_of(found: &Option<Found>) -> Option<u64>
    ensures { result ≡ line.number_of found.now }
{
    match found {
        Some(found) => Some(found.number),
        None => None,
    }
}

/// The class of the one that comes first, by the numbers of arrival of the first ones of each class.
/// Each may be missing.
pub(crate) fn first_class(notice: Option<u64>, response: Option<u64>, content: Option<u64>) -> Class
    ensures { result ≡ line.first_class notice response content }
{
    if is_before(response, content) {
        if is_before(notice, response) {
            return Class::Notice;
        }
        return Class::Response;
    }
    if is_before(notice, content) {
        return Class::Notice;
    }
    Class::Content
}

/// Whether the first one comes before the second one. Each may be missing.
fn is_before(first: Option<u64>, second: Option<u64>) -> bool
    ensures { result ≡ order.is_before first second }
{
    match (first, second) {
        (Some(first), Some(second)) => first <= second,
        (Some(_), None) => true,
        (None, _) => false,
    }
}
