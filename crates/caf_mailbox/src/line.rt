//! One of the two lists.
ghost use Rattle.std.specs.Prelude.{◌≡◌, ◌+◌, ◌≤◌, length, ◌∷◌, [], ◌++◌, List, filter, IfNone, OnOk};
ghost use Rattle.std.specs.Option.{option_map};
ghost use Rattle.caf_message.specs.declared.envelope.Taken.{Taken};
ghost use Rattle.caf_message.specs.Envelope.{plain_envelope, is_content};
ghost use Rattle.caf_message.specs.Lists.{pick};
ghost use Rattle.caf_mailbox.specs.Arrived.{arrived, all_arrived, at_arrived};
ghost use Rattle.caf_mailbox.specs.Line.{numbered, in_line, IsSorted, IsUpTo, HasRoom, HasSameItems, HasNoPlaces, KeepsBounds};
ghost use Rattle.caf_mailbox.specs.Places.{place_for, BeginsWith, IsTally};
ghost use Rattle.caf_mailbox.specs.Responses.{no_responses};
ghost use Rattle.std.specs.Bool.{OnTrue};
ghost use Rattle.caf_mailbox.specs.Passed.{NonePass};

use crate::Eligible;
use crate::class::{Class, class_of};
use crate::queue::{
    Numbered, first_class, first_content, first_from, number_of, put, take_at, take_content,
};
use crate::responses::Responses;
use crate::search::take_eligible;
use crate::tally::Tally;
use caf_message::Envelope;
use caf_types::Memory;
use std::alloc::Global;
use std::collections::VecDeque;

/// One of the two lists. Each class of envelopes stands in a queue of its own, so that none is passed
/// over to find one of another class; the numbers of arrival keep the order of all.
#[derive(Debug, Drop)]
pub(crate) struct Line {
    pub(crate) notices: VecDeque<Numbered>,
    pub(crate) responses: Responses,
    pub(crate) contents: VecDeque<Numbered>,
    /// Those that came when no number was left, behind all others.
    pub(crate) late: VecDeque<Envelope>,
}

/// An empty list.
pub(crate) fn empty_line(alloc: Global) -> Line
    ensures empty { in_line result ≡ [] }
    ensures sorted { IsSorted result }
    ensures up_to { IsUpTo 0 result }
    ensures places { HasNoPlaces result }
{
    Line {
        notices: VecDeque::new(alloc),
        responses: Responses::new(alloc),
        contents: VecDeque::new(alloc),
        late: VecDeque::new(alloc),
    }
}

/// Makes room for so many notices and contents.
pub(crate) fn make_room(line: &mut Line, tally: Tally) -> Result<(), Memory>
    ensures room { (es : List Taken) → IsTally es tally → OnOk result (HasRoom es line.new) }
    ensures kept { HasSameItems line.old line.new }
    ensures responses { line.new.responses ≡ line.old.responses }
{
    line.notices.reserve(tally.notices)?;
    line.contents.reserve(tally.contents)?;
    Ok(())
}

/// Puts an envelope at the end of the list. There is room, or a place for it, and no late one.
pub(crate) fn put_in(line: &mut Line, number: u64, envelope: Envelope)
    requires room { HasRoom (plain_envelope envelope ∷ []) line.old }
    requires place { BeginsWith (place_for number (plain_envelope envelope)) line.old.responses.room }
    requires sorted { IsSorted line.old }
    requires up_to { IsUpTo number line.old }
    requires late { line.old.late.items ≡ [] }
    ensures added { in_line line.new ≡ in_line line.old ++ plain_envelope envelope ∷ [] }
    ensures sorted { IsSorted line.new }
    ensures up_to { IsUpTo (number + 1) line.new }
    ensures late { line.new.late.items ≡ [] }
    ensures room { (rest : List Taken) → HasRoom (plain_envelope envelope ∷ rest) line.old → HasRoom rest line.new }
    ensures places { line.old.responses.room ≡ place_for number (plain_envelope envelope) ++ line.new.responses.room }
{
    match class_of(&envelope) {
        Class::Notice => put(&mut line.notices, number, envelope),
        Class::Response => line.responses.put_in(number, envelope),
        Class::Content => put(&mut line.contents, number, envelope),
    }
}

/// Takes out the first eligible envelope. `passed` contents at the front are known not to be
/// eligible, and are not looked at; afterwards they may be more.
pub(crate) fn take_next<E: Eligible>(
    line: &mut Line,
    test: &E,
    passed: &mut usize,
) -> Option<Envelope>
    requires sorted { IsSorted line.old }
    requires places { HasNoPlaces line.old }
    requires passed { NonePass (E.test test.now) (filter is_content (in_line line.old)) passed.old }
    ensures taken { option_map (λ envelope. (plain_envelope envelope, in_line line.new)) result ≡ pick (E.test test.now) (in_line line.old) }
    ensures kept { IfNone result (in_line line.new ≡ in_line line.old) }
    ensures sorted { IsSorted line.new }
    ensures up_to { KeepsBounds line.old line.new }
    ensures places { HasNoPlaces line.new }
    ensures passed { NonePass (E.test test.now) (filter is_content (in_line line.new)) passed.new }
{
    match take_numbered(line, test, passed) {
        Some(one) => Some(one.envelope),
        None => take_eligible(&mut line.late, test),
    }
}

/// Takes out the first eligible envelope among those with a number.
fn take_numbered<E: Eligible>(line: &mut Line, test: &E, passed: &mut usize) -> Option<Numbered>
    requires sorted { IsSorted line.old }
    requires places { HasNoPlaces line.old }
    requires passed { NonePass (at_arrived (E.test test.now)) (all_arrived line.old.contents.items) passed.old }
    ensures taken { option_map (λ one. (arrived one, numbered line.new)) result ≡ pick (at_arrived (E.test test.now)) (numbered line.old) }
    ensures kept { IfNone result (numbered line.new ≡ numbered line.old) }
    ensures late { line.new.late ≡ line.old.late }
    ensures sorted { IsSorted line.new }
    ensures up_to { KeepsBounds line.old line.new }
    ensures places { HasNoPlaces line.new }
    ensures passed { NonePass (at_arrived (E.test test.now)) (all_arrived line.new.contents.items) passed.new }
    ensures within { passed.new ≤ length line.new.contents.items }
{
    // Mostly contents alone are there.
    if has_contents_alone(line) {
        return take_content(&mut line.contents, test, passed);
    }
    take_of_classes(line, test, passed)
}

/// Whether there is neither a notice nor a response.
fn has_contents_alone(line: &Line) -> bool
    ensures { OnTrue result ((line.now.notices.items ≡ []) × (line.now.responses ≡ no_responses)) }
{
    if line.notices.is_empty() {
        return line.responses.is_empty();
    }
    false
}

/// The same, where all three queues are looked through.
fn take_of_classes<E: Eligible>(line: &mut Line, test: &E, passed: &mut usize) -> Option<Numbered>
    requires sorted { IsSorted line.old }
    requires places { HasNoPlaces line.old }
    requires passed { NonePass (at_arrived (E.test test.now)) (all_arrived line.old.contents.items) passed.old }
    ensures taken { option_map (λ one. (arrived one, numbered line.new)) result ≡ pick (at_arrived (E.test test.now)) (numbered line.old) }
    ensures kept { IfNone result (numbered line.new ≡ numbered line.old) }
    ensures late { line.new.late ≡ line.old.late }
    ensures sorted { IsSorted line.new }
    ensures up_to { KeepsBounds line.old line.new }
    ensures places { HasNoPlaces line.new }
    ensures passed { NonePass (at_arrived (E.test test.now)) (all_arrived line.new.contents.items) passed.new }
    ensures within { passed.new ≤ length line.new.contents.items }
{
    let notice = first_from(&mut line.notices, test, 0);
    let response = line.responses.first(test.awaits());
    let content = first_content(&mut line.contents, test, passed);
    match first_class(number_of(&notice), response, number_of(&content)) {
        Class::Notice => take_at(&mut line.notices, notice),
        Class::Response => line.responses.take(response),
        Class::Content => take_at(&mut line.contents, content),
    }
}
