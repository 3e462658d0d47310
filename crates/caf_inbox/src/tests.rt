//! Envelopes through an inbox: on one thread, and from four threads to one reader at once.
ghost use Rattle.std.specs.Prelude.{◌≡◌, ℕ, true, IfOk, Option};
ghost use Rattle.caf_types.specs.ShapeTree.{ShapeTree};
ghost use Rattle.caf_message.specs.Envelope.{plain_envelope, EnvelopeFits};
ghost use Rattle.caf_inbox.specs.Senders.{from_sender};

use crate::{Inbox, Lane, Reader, all_was_taken};
use caf_message::{Batch, Body, Entries, Envelope};
use caf_types::{Memory, Mid, Notice, Priority};
use std::alloc::Global;
use std::sync::Wait;
use std::test::Fail;
use std::thread;

// How many envelopes each of the four threads sends.
const EACH: u64 = 100_000;

// How many envelopes the reader waits for.
const ALL: u64 = 400_000;

// An inbox whose envelopes have no content.
#[derive(Drop)]
struct NoContent;

impl Entries for NoContent {
    ghost use Rattle.std.specs.FinMap as finite;

    ghost entries = { finite.empty };
}

fn notice(sender: u32, seq: u64) -> Envelope
    ensures sender { result.sender ≡ sender }
    ensures fits { (shape_of : ℕ → Option ShapeTree) → EnvelopeFits shape_of (plain_envelope result) }
{
    Envelope {
        sender,
        seq,
        mid: Mid {
            requester: sender,
            number: 0,
            response: false,
        },
        priority: Priority::Urgent,
        stamp: 0,
        body: Body::System(Notice::Link(sender)),
    }
}

// Sends as many, numbered from 0; the lane, and whether none was refused.
fn send<R: Wait>(rt: &R, mut lane: Lane<NoContent>, count: u64) -> (Lane<NoContent>, bool)
    ensures { (result.0.inbox ≡ lane.inbox) × (result.0.sender ≡ lane.sender) }
{
    let sender = lane.sender();
    let mut all_went = true;
    for seq in 0..count {
        if lane.push(rt, notice(sender, seq)).is_err() {
            all_went = false;
        }
    }
    (lane, all_went)
}

// Whether each envelope has the next number of its sender, of those that came.
fn are_next(next: &mut [u64; 4], batch: &Batch) -> bool {
    let mut are = true;
    for envelope in batch {
        match next.get_mut(envelope.sender as usize) {
            Some(expected) => {
                are = are && *expected == envelope.seq;
                *expected = expected.saturating_add(1);
            }
            None => are = false,
        }
    }
    are
}

// Takes until there are so many; the reader, how many came from each sender, and whether all came in order.
fn take<R: Wait>(
    rt: &R,
    alloc: Global,
    mut reader: Reader<NoContent>,
    count: u64,
) -> (Reader<NoContent>, [u64; 4], bool)
    ensures { result.0.inbox ≡ reader.inbox }
{
    let mut next = [0u64; 4];
    let mut in_order = true;
    let mut taken = 0u64;
    for _ in rt.forever() {
        if taken >= count {
            break;
        }
        match reader.take(rt, alloc) {
            Ok(Some(batch)) => {
                taken = taken.saturating_add(batch.len());
                in_order = are_next(&mut next, &batch) && in_order;
            }
            Ok(None) => thread::yield_now(),
            Err(Memory) => break,
        }
    }
    (reader, next, in_order)
}

// What a thread does, and what it gives back.
#[derive(Drop)]
enum Job {
    Sends(Lane<NoContent>),
    Takes(Reader<NoContent>),
}

#[derive(Drop)]
enum Done {
    Sent(bool),
    Took([u64; 4], bool),
}

fn run<R: Wait>(rt: &R, alloc: Global, job: Job) -> Done {
    match job {
        Job::Sends(lane) => Done::Sent(send(rt, lane, EACH).1),
        Job::Takes(reader) => {
            let (_, next, in_order) = take(rt, alloc, reader, ALL);
            Done::Took(next, in_order)
        }
    }
}

// The lanes of the four senders, and behind them the reader.
fn jobs(alloc: Global) -> Result<Vec<Job>, Memory> {
    let (reader, lanes) = Inbox::make::<NoContent>(alloc, &[0, 1, 2, 3])?;
    let mut jobs = Vec::new(alloc);
    for lane in lanes.into_vec() {
        jobs.push(Job::Sends(lane))?;
    }
    jobs.push(Job::Takes(reader))?;
    Ok(jobs)
}

#[test]
fn four_threads_lose_nothing_and_keep_their_order(rt: HostRuntime) -> Result<(), Fail> {
    let alloc: Global = rt.alloc();
    let jobs = jobs(alloc)?;
    let mut back = thread::map_vec(&rt, jobs, &|job: Job| -> Done { run(&rt, alloc, job) })?;
    let Some(Done::Took(next, in_order)) = back.pop() else {
        return Err("the reader isn't the last".into());
    };
    assert!(rt; in_order);
    assert_eq!(rt; next, [100_000, 100_000, 100_000, 100_000]);
    for sent in back {
        assert!(rt; matches!(sent, Done::Sent(true)));
    }
    Ok(())
}

// A reader, and the lanes of the senders 0 and 1.
fn pair(alloc: Global) -> Result<(Reader<NoContent>, Lane<NoContent>, Lane<NoContent>), Memory>
    ensures inboxes { IfOk result (λ r. (r.1.inbox ≡ r.0.inbox) × (r.2.inbox ≡ r.0.inbox)) }
    ensures senders { IfOk result (λ r. (r.1.sender ≡ 0) × (r.2.sender ≡ 1)) }
{
    let (reader, lanes) = Inbox::make::<NoContent>(alloc, &[0, 1])?;
    let mut lanes = lanes.into_vec();
    let (Some(one), Some(zero)) = (lanes.pop(), lanes.pop()) else {
        return Err(Memory);
    };
    Ok((reader, zero, one))
}

// Whether a take finds nothing once the lane's note was met; if so, the lane meets the reader's, and all that it pushed
// was taken.
fn all_came<R: Wait>(
    rt: &R,
    alloc: Global,
    reader: &mut Reader<NoContent>,
    lane: &mut Lane<NoContent>,
) -> Result<bool, Memory>
    requires { lane.old.inbox ≡ reader.old.inbox }
    ensures reader { reader.new.inbox ≡ reader.old.inbox }
    ensures all { IfOk result (λ all. all ≡ true → from_sender lane.new.sender reader.new.taken ≡ lane.new.pushed) }
{
    let note = lane.note(rt);
    reader.meet(rt, note);
    if reader.take(rt, alloc)?.is_some() {
        return Ok(false);
    }
    let note = reader.note(rt);
    lane.meet(rt, note);
    all_was_taken(reader, lane);
    Ok(true)
}

// Two envelopes of sender 0 and one of sender 1 are sent and taken: how many came of each, whether in order, and
// whether a take then found nothing.
fn play<R: Wait>(rt: &R, alloc: Global) -> Result<([u64; 4], bool, bool), Memory> {
    let (reader, zero, one) = pair(alloc)?;
    let (mut zero, zero_went) = send(rt, zero, 2);
    let (mut one, one_went) = send(rt, one, 1);
    let (mut reader, next, in_order) = take(rt, alloc, reader, 3);
    let zero_came = all_came(rt, alloc, &mut reader, &mut zero)?;
    let one_came = all_came(rt, alloc, &mut reader, &mut one)?;
    Ok((
        next,
        in_order && zero_went && one_went,
        zero_came && one_came,
    ))
}

#[test]
fn two_senders_keep_their_order(rt: HostRuntime) -> Result<(), Fail> {
    let (next, in_order, all_came) = play(&rt, rt.alloc())?;
    assert_eq!(rt; next, [2, 1, 0, 0]);
    assert!(rt; in_order);
    assert!(rt; all_came);
    Ok(())
}
