use crate::{Delays, Holds, IssueFault, Mode, Pending, Promise};
use caf_message::{Body, MessageBuilder};
use caf_types::{Mid, Priority, Sec, Seq, TypeId, TypeIds};
use std::alloc::Global;
use std::test::Fail;

/// The list of this one type.
fn one_type(alloc: Global, id: u16) -> Result<TypeIds, Fail> {
    let mut types = Seq::new(alloc);
    types.push(TypeId(id))?;
    Ok(types)
}

/// Issues a request that expects a value of that type.
fn issue(alloc: Global, pending: &mut Pending, mode: Mode, tag: u32, id: u16) -> Result<u64, Fail> {
    let number = pending.issue(mode, tag, one_type(alloc, id)?)?;
    Ok(number)
}

/// Number, tag and first expected type of the request that resolves, if one does.
fn resolve(pending: &mut Pending, number: u64) -> Option<(u64, u32, u16)> {
    let waiting = pending.resolve(number)?;
    let id = match waiting.expected.get(0) {
        Some(id) => id.0,
        None => 0,
    };
    Some((waiting.number, waiting.tag, id))
}

#[test]
fn awaited_requests_form_a_stack_and_multiplexed_ones_resolve_in_any_order(
    rt: HostRuntime,
) -> Result<(), Fail> {
    let alloc = rt.alloc();
    let mut pending = Pending::new(alloc);
    assert_eq!(rt; pending.top(), None);
    assert_eq!(rt; issue(alloc, &mut pending, Mode::Awaited, 70, 3)?, 1);
    assert_eq!(rt; issue(alloc, &mut pending, Mode::Awaited, 80, 4)?, 2);
    assert_eq!(rt; pending.top(), Some(2));
    assert_eq!(rt; issue(alloc, &mut pending, Mode::Multiplexed, 90, 5)?, 3);
    assert_eq!(rt; issue(alloc, &mut pending, Mode::Multiplexed, 91, 6)?, 4);
    assert_eq!(rt; issue(alloc, &mut pending, Mode::Multiplexed, 92, 7)?, 5);
    assert_eq!(rt; pending.top(), Some(2));
    assert_eq!(rt; resolve(&mut pending, 4), Some((4, 91, 6)));
    assert_eq!(rt; resolve(&mut pending, 2), Some((2, 80, 4)));
    assert_eq!(rt; resolve(&mut pending, 2), None);
    assert_eq!(rt; pending.top(), Some(1));
    assert_eq!(rt; resolve(&mut pending, 1), Some((1, 70, 3)));
    assert_eq!(rt; pending.top(), None);
    assert_eq!(rt; resolve(&mut pending, 5), Some((5, 92, 7)));
    assert_eq!(rt; resolve(&mut pending, 6), None);
    pending.forget();
    assert_eq!(rt; resolve(&mut pending, 3), None);
    assert_eq!(rt; issue(alloc, &mut pending, Mode::Awaited, 93, 8)?, 6);
    Ok(())
}

/// Issues a request that is due at that count.
fn issue_within(alloc: Global, pending: &mut Pending, mode: Mode, due: u64) -> Result<u64, Fail> {
    let number = pending.issue_within(mode, 7, one_type(alloc, 3)?, due)?;
    Ok(number)
}

/// The number of the request that expires, if one does.
fn expire(pending: &mut Pending, now: u64) -> Option<u64> {
    let waiting = pending.expire(now)?;
    Some(waiting.number)
}

#[test]
fn requests_expire_by_due_count_then_number_and_end_once(rt: HostRuntime) -> Result<(), Fail> {
    let alloc = rt.alloc();
    let mut pending = Pending::new(alloc);
    assert_eq!(rt; issue_within(alloc, &mut pending, Mode::Multiplexed, 3)?, 1);
    assert_eq!(rt; issue_within(alloc, &mut pending, Mode::Awaited, 2)?, 2);
    assert_eq!(rt; expire(&mut pending, 1), None);
    assert_eq!(rt; expire(&mut pending, 3), Some(2));
    assert_eq!(rt; expire(&mut pending, 3), Some(1));
    assert_eq!(rt; expire(&mut pending, 3), None);
    assert_eq!(rt; resolve(&mut pending, 1), None);
    assert_eq!(rt; issue_within(alloc, &mut pending, Mode::Awaited, 5)?, 3);
    assert_eq!(rt; issue_within(alloc, &mut pending, Mode::Multiplexed, 5)?, 4);
    assert_eq!(rt; issue(alloc, &mut pending, Mode::Multiplexed, 9, 4)?, 5);
    assert_eq!(rt; resolve(&mut pending, 3), Some((3, 7, 3)));
    assert_eq!(rt; expire(&mut pending, u64::MAX), Some(4));
    assert_eq!(rt; expire(&mut pending, u64::MAX), None);
    assert_eq!(rt; resolve(&mut pending, 5), Some((5, 9, 4)));
    assert_eq!(rt; issue_within(alloc, &mut pending, Mode::Awaited, 1)?, 6);
    pending.forget();
    assert_eq!(rt; expire(&mut pending, u64::MAX), None);
    Ok(())
}

/// Place and priority of the message that is due, if there is one.
fn next_due(delays: &mut Delays, now: u64) -> Option<(u32, Priority)> {
    let (to, priority, _) = delays.next(now)?;
    Some((to, priority))
}

/// Delays a message to that place.
fn delay(alloc: Global, delays: &mut Delays, due: u64, to: u32) -> Result<(), Fail> {
    let message = MessageBuilder::new(alloc).finish()?;
    match delays.add(due, to, Priority::Urgent, message) {
        Ok(()) => Ok(()),
        Err((_, memory)) => Err(memory.into()),
    }
}

#[test]
fn delayed_messages_come_by_due_count_then_in_order_of_adding(rt: HostRuntime) -> Result<(), Fail> {
    let alloc = rt.alloc();
    let mut delays = Delays::new(alloc);
    delay(alloc, &mut delays, 2, 4)?;
    delay(alloc, &mut delays, 2, 3)?;
    delay(alloc, &mut delays, 1, 5)?;
    assert_eq!(rt; next_due(&mut delays, 0), None);
    assert_eq!(rt; next_due(&mut delays, 1), Some((5, Priority::Urgent)));
    assert_eq!(rt; next_due(&mut delays, 1), None);
    assert_eq!(rt; next_due(&mut delays, 2), Some((4, Priority::Urgent)));
    assert_eq!(rt; next_due(&mut delays, 2), Some((3, Priority::Urgent)));
    assert_eq!(rt; next_due(&mut delays, u64::MAX), None);
    Ok(())
}

#[test]
fn faults_have_texts(rt: HostRuntime) -> Result<(), Fail> {
    for (fault, text) in [
        (IssueFault::Spent, "no request number is left"),
        (IssueFault::Memory, "out of memory"),
    ] {
        assert_eq!(rt; format!(in rt.alloc(); "{fault}")?.as_str(), text);
    }
    Ok(())
}

/// Holds the promise to that request. Its priority tells it from others of the same number.
fn hold(holds: &mut Holds, requester: u32, number: u64, priority: Priority) -> Result<(), Fail> {
    let mid = Mid {
        requester,
        number,
        response: false,
    };
    match Promise::of(mid, priority).hold(holds) {
        Ok(()) => Ok(()),
        Err((promise, memory)) => {
            let _ = promise.fail(Sec::BrokenPromise);
            Err(memory.into())
        }
    }
}

/// Requester, number and priority of the request that the promise answers, if there is one.
fn answered(promise: Option<Promise>) -> Option<(u32, u64, Priority)> {
    match promise {
        Some(promise) => {
            let reply = promise.fail(Sec::Failed);
            Some((reply.to, reply.mid.number, reply.priority))
        }
        None => None,
    }
}

#[test]
fn holds_go_by_number_then_requester_then_arrival(rt: HostRuntime) -> Result<(), Fail> {
    let mut holds = Holds::new(rt.alloc());
    hold(&mut holds, 4, 1, Priority::Normal)?;
    hold(&mut holds, 2, 1, Priority::Normal)?;
    assert_eq!(rt; answered(holds.take(9, 9)), None);
    assert_eq!(rt; answered(holds.first()), Some((2, 1, Priority::Normal)));
    hold(&mut holds, 3, 2, Priority::Urgent)?;
    hold(&mut holds, 3, 2, Priority::Normal)?;
    hold(&mut holds, 1, 3, Priority::Normal)?;
    hold(&mut holds, 3, 2, Priority::Urgent)?;
    assert_eq!(rt; answered(holds.take(3, 2)), Some((3, 2, Priority::Urgent)));
    assert_eq!(rt; answered(holds.first()), Some((4, 1, Priority::Normal)));
    assert_eq!(rt; answered(holds.first()), Some((3, 2, Priority::Normal)));
    assert_eq!(rt; answered(holds.take(3, 2)), Some((3, 2, Priority::Urgent)));
    assert_eq!(rt; answered(holds.take(3, 2)), None);
    assert_eq!(rt; answered(holds.first()), Some((1, 3, Priority::Normal)));
    assert_eq!(rt; answered(holds.first()), None);
    Ok(())
}

#[test]
fn a_promise_answers_its_requester_or_goes_on(rt: HostRuntime) -> Result<(), Fail> {
    let alloc = rt.alloc();
    let request = Mid {
        requester: 7,
        number: 12,
        response: false,
    };
    let response = Mid {
        requester: 7,
        number: 12,
        response: true,
    };
    let message = MessageBuilder::new(alloc).finish()?;
    let reply = Promise::of(request, Priority::Urgent).deliver(message);
    assert_eq!(rt;
        (reply.to, reply.mid, reply.priority),
        (7, response, Priority::Urgent)
    );
    let Body::Content(mut content) = reply.body else {
        return Err("the value is missing".into());
    };
    assert_eq!(rt; content.words(alloc)?.as_slice(), [0].as_slice());
    let reply = Promise::of(request, Priority::Normal).fail(Sec::BrokenPromise);
    assert_eq!(rt;
        (reply.to, reply.mid, reply.priority),
        (7, response, Priority::Normal)
    );
    let Body::Failure(sec) = reply.body else {
        return Err("the error is missing".into());
    };
    assert_eq!(rt; sec, Sec::BrokenPromise);
    let mut handoff = Promise::of(request, Priority::Urgent).delegate(9, content);
    assert_eq!(rt;
        (handoff.to, handoff.mid, handoff.priority),
        (9, request, Priority::Urgent)
    );
    assert_eq!(rt; handoff.message.words(alloc)?.as_slice(), [0].as_slice());
    Ok(())
}
