ghost use Rattle.std.specs.Prelude.{◌≡◌};
ghost use Rattle.caf_message.specs.Envelope.{plain_envelope};
ghost use Rattle.caf_message.specs.Envelope as classes;
ghost use Rattle.caf_mailbox.specs.Awaited as awaits;

use crate::{Awaited, Caches, Eligible, Passed};
use caf_message::{Batch, Body, Envelope, MessageBuilder};
use caf_types::{Memory, Mid, Notice, Priority, Sec, Seq};
use std::alloc::Global;
use std::cell::Cell;
use std::test::Fail;

fn is_response(envelope: &Envelope) -> bool
    ensures { result ≡ classes.is_response (plain_envelope envelope.now) }
{
    match &envelope.body {
        Body::System(_) => false,
        Body::Failure(_) => true,
        Body::Content(_) => envelope.mid.response,
    }
}

fn is_awaited(awaited: Awaited, number: u64) -> bool
    ensures { result ≡ awaits.is_awaited awaited number }
{
    match awaited {
        Awaited::Any => true,
        Awaited::Only(only) => number == only,
        Awaited::Nothing => false,
    }
}

/// Every notice, awaited responses, and contents from one sequence number on. It counts its looks.
#[derive(Drop)]
struct Looks {
    awaited: Awaited,
    takes_contents: bool,
    from: u64,
    count: Cell<u64>,
}

impl Eligible for Looks {
    ghost use Rattle.std.specs.Prelude.{◌&&◌, nat_le, true, if◌then◌else◌};
    ghost use Rattle.caf_message.specs.Envelope.{is_response, is_content};
    ghost use Rattle.caf_mailbox.specs.Awaited.{is_awaited};

    ghost test = { λ looks envelope. if is_response envelope then is_awaited looks.awaited envelope.mid.number else if is_content envelope then looks.takes_contents && nat_le looks.from envelope.seq else true };

    fn awaits(&self) -> Awaited {
        self.awaited
    }

    fn takes_contents(&self) -> bool {
        self.takes_contents
    }

    fn eligible(&self, envelope: &mut Envelope) -> bool {
        self.count.set(self.count.get().saturating_add(1));
        if is_response(envelope) {
            return is_awaited(self.awaited, envelope.mid.number);
        }
        match &envelope.body {
            Body::Content(_) => self.takes_contents && self.from <= envelope.seq,
            _ => true,
        }
    }
}

/// The notices from one sequence number up to another, and awaited responses.
#[derive(Drop)]
struct Between {
    first: u64,
    end: u64,
    awaited: Awaited,
}

impl Eligible for Between {
    ghost use Rattle.std.specs.Prelude.{◌&&◌, nat_le, nat_lt, if◌then◌else◌};
    ghost use Rattle.caf_message.specs.Envelope.{is_response, is_content};
    ghost use Rattle.caf_mailbox.specs.Awaited.{is_awaited};

    ghost test = { λ between envelope. if is_response envelope then is_awaited between.awaited envelope.mid.number else nat_le between.first envelope.seq && nat_lt envelope.seq between.end };

    fn awaits(&self) -> Awaited {
        self.awaited
    }

    fn takes_contents(&self) -> bool {
        true
    }

    fn eligible(&self, envelope: &mut Envelope) -> bool {
        if is_response(envelope) {
            return is_awaited(self.awaited, envelope.mid.number);
        }
        self.first <= envelope.seq && envelope.seq < self.end
    }
}

/// Envelopes by their sequence numbers, each with whether it is urgent.
fn batch(alloc: Global, rows: &[(u64, bool)]) -> Result<Batch, Memory> {
    let mut batch = Seq::new(alloc);
    for (seq, is_urgent) in rows {
        let priority = if *is_urgent {
            Priority::Urgent
        } else {
            Priority::Normal
        };
        batch.push(Envelope {
            sender: 1,
            seq: *seq,
            mid: Mid {
                requester: 1,
                number: 0,
                response: false,
            },
            priority,
            stamp: 0,
            body: Body::System(Notice::Link(1)),
        })?;
    }
    Ok(batch)
}

fn add(caches: &mut Caches, alloc: Global, rows: &[(u64, bool)]) -> Result<(), Memory> {
    let batch = batch(alloc, rows)?;
    match caches.add(batch) {
        Ok(()) => Ok(()),
        Err((_, memory)) => Err(memory),
    }
}

fn seq_of(envelope: Option<Envelope>) -> Option<u64> {
    match envelope {
        Some(envelope) => Some(envelope.seq),
        None => None,
    }
}

fn next_between(caches: &mut Caches, first: u64, end: u64) -> Option<u64> {
    seq_of(caches.next(&Between {
        first,
        end,
        awaited: Awaited::Nothing,
    }))
}

fn next_any(caches: &mut Caches) -> Option<u64> {
    seq_of(caches.pop_any())
}

#[test]
fn the_first_eligible_one_is_taken_and_skipped_ones_stay(rt: HostRuntime) -> Result<(), Fail> {
    let alloc = rt.alloc();
    let mut caches = Caches::new(alloc);
    assert_eq!(rt; next_between(&mut caches, 0, 9), None);
    let rows = [(1, false), (2, true), (3, false), (4, true), (5, false)];
    add(&mut caches, alloc, &rows)?;
    let taken = [
        (0, 9, Some(2)),
        (2, 4, Some(3)),
        (6, 9, None),
        (0, 9, Some(4)),
        (0, 9, Some(1)),
        (0, 5, None),
        (0, 9, Some(5)),
        (0, 9, None),
    ];
    for (first, end, seq) in taken {
        assert_eq!(rt;
            next_between(&mut caches, first, end),
            seq,
            "from {first} to {end}"
        );
    }
    Ok(())
}

#[test]
fn batches_are_kept_in_order_and_urgent_ones_leave_first(rt: HostRuntime) -> Result<(), Fail> {
    let alloc = rt.alloc();
    let mut caches = Caches::new(alloc);
    assert_eq!(rt; next_any(&mut caches), None);
    add(&mut caches, alloc, &[(1, false), (2, true)])?;
    add(&mut caches, alloc, &[(3, true), (4, false), (5, true)])?;
    for seq in [Some(2), Some(3), Some(5), Some(1), Some(4), None] {
        assert_eq!(rt; next_any(&mut caches), seq, "after the others");
    }
    Ok(())
}

/// What an envelope of the rows below is.
#[derive(Clone, Copy)]
enum Kind {
    Notice,
    Content,
    Failure(u64),
    Reply(u64),
}

fn body(alloc: Global, kind: Kind) -> Result<Body, Memory> {
    match kind {
        Kind::Notice => Ok(Body::System(Notice::Link(1))),
        Kind::Failure(_) => Ok(Body::Failure(Sec::RequestReceiverDown)),
        Kind::Content | Kind::Reply(_) => match MessageBuilder::new(alloc).finish() {
            Ok(message) => Ok(Body::Content(message)),
            Err(_) => Err(Memory),
        },
    }
}

/// Normal envelopes with sequence numbers from 0 on.
fn add_kinds(caches: &mut Caches, alloc: Global, kinds: &[Kind]) -> Result<(), Memory> {
    let mut batch = Seq::new(alloc);
    let mut seq = 0u64;
    for kind in kinds {
        let (number, response) = match *kind {
            Kind::Notice | Kind::Content => (0, false),
            Kind::Failure(number) | Kind::Reply(number) => (number, true),
        };
        batch.push(Envelope {
            sender: 1,
            seq,
            mid: Mid {
                requester: 1,
                number,
                response,
            },
            priority: Priority::Normal,
            stamp: 0,
            body: body(alloc, *kind)?,
        })?;
        seq = seq.saturating_add(1);
    }
    match caches.add(batch) {
        Ok(()) => Ok(()),
        Err((_, memory)) => Err(memory),
    }
}

fn counting(awaited: Awaited, takes_contents: bool, from: u64) -> Looks {
    Looks {
        awaited,
        takes_contents,
        from,
        count: Cell::new(0),
    }
}

#[test]
fn the_classes_keep_their_order_of_arrival(rt: HostRuntime) -> Result<(), Fail> {
    let alloc = rt.alloc();
    let mut caches = Caches::new(alloc);
    let kinds = [
        Kind::Content,
        Kind::Notice,
        Kind::Failure(5),
        Kind::Content,
        Kind::Reply(3),
        Kind::Notice,
    ];
    add_kinds(&mut caches, alloc, &kinds)?;
    let all = counting(Awaited::Any, true, 0);
    for seq in [Some(0), Some(1), Some(2), Some(3), Some(4), Some(5), None] {
        assert_eq!(rt; seq_of(caches.next(&all)), seq, "after the others");
    }
    Ok(())
}

#[test]
fn an_awaited_response_is_found_behind_others_and_no_content_is_looked_at(
    rt: HostRuntime,
) -> Result<(), Fail> {
    let alloc = rt.alloc();
    let mut caches = Caches::new(alloc);
    let kinds = [
        Kind::Content,
        Kind::Content,
        Kind::Reply(9),
        Kind::Reply(7),
        Kind::Failure(7),
        Kind::Notice,
    ];
    add_kinds(&mut caches, alloc, &kinds)?;
    let seven = counting(Awaited::Only(7), false, 0);
    for seq in [Some(3), Some(4), Some(5), None] {
        assert_eq!(rt; seq_of(caches.next(&seven)), seq, "for number 7");
    }
    // The notice alone, at each of the first three calls.
    assert_eq!(rt; seven.count.get(), 3);
    let nothing = counting(Awaited::Nothing, false, 0);
    assert_eq!(rt; seq_of(caches.next(&nothing)), None);
    assert_eq!(rt; nothing.count.get(), 0);
    let any = counting(Awaited::Any, true, 0);
    for seq in [Some(0), Some(1), Some(2), None] {
        assert_eq!(rt; seq_of(caches.next(&any)), seq, "with nothing awaited");
    }
    Ok(())
}

#[test]
fn awaited_responses_are_found_in_another_order(rt: HostRuntime) -> Result<(), Fail> {
    let alloc = rt.alloc();
    let mut caches = Caches::new(alloc);
    let kinds = [
        Kind::Reply(1),
        Kind::Reply(2),
        Kind::Content,
        Kind::Reply(3),
        Kind::Failure(2),
    ];
    add_kinds(&mut caches, alloc, &kinds)?;
    let rows = [
        (3, Some(3)),
        (2, Some(1)),
        (2, Some(4)),
        (2, None),
        (9, None),
        (1, Some(0)),
        (1, None),
    ];
    for (number, seq) in rows {
        let awaited = counting(Awaited::Only(number), false, 0);
        assert_eq!(rt; seq_of(caches.next(&awaited)), seq, "for number {number}");
    }
    assert_eq!(rt; next_any(&mut caches), Some(2));
    assert_eq!(rt; next_any(&mut caches), None);
    Ok(())
}

#[test]
fn a_content_that_is_passed_is_looked_at_once(rt: HostRuntime) -> Result<(), Fail> {
    let alloc = rt.alloc();
    let mut caches = Caches::new(alloc);
    let kinds = [
        Kind::Content,
        Kind::Content,
        Kind::Content,
        Kind::Content,
        Kind::Content,
    ];
    add_kinds(&mut caches, alloc, &kinds)?;
    let late = counting(Awaited::Any, true, 3);
    let mut passed = Passed::new();
    assert_eq!(rt; seq_of(caches.next_past(&late, &mut passed)), Some(3));
    assert_eq!(rt; late.count.get(), 4);
    assert_eq!(rt; seq_of(caches.next_past(&late, &mut passed)), Some(4));
    assert_eq!(rt; late.count.get(), 5);
    assert_eq!(rt; seq_of(caches.next_past(&late, &mut passed)), None);
    assert_eq!(rt; late.count.get(), 5);
    // With nothing known the three are looked at again.
    assert_eq!(rt; seq_of(caches.next(&late)), None);
    assert_eq!(rt; late.count.get(), 8);
    Ok(())
}
