//! Requests on their way through several places.
use super::{
    Expected, THROUGH, WITH_A_TICK, ask, assert_played, does, failed, last, mid, rested, role,
    sends, seven, told,
};
use crate::{Choice, Move, Outcome, Role, play};
use caf_driver::DriveEnd;
use caf_response::Mode;
use caf_scripted::{Act, Cue, Note, Part, Reply, Sending, Signal};
use caf_types::{Notice, Reason, Sec, TypeId};
use std::test::Fail;

/// Places 1 and 2 pass the request on. Place 3 holds it, tells itself the number, and quits at that.
#[test]
fn a_request_passed_on_twice_is_broken_once(rt: HostRuntime) -> Result<(), Fail> {
    let cues = [sends(ask(5))];
    let pass = [Act::only(Reply::Delegate)];
    let leave = Act {
        quit: Some(Reason::Failed),
        ..Act::only(Reply::Ignore)
    };
    let hold = [does(Some(Sending::Tell), Reply::Hold), leave];
    let roles = [
        role(0, &[1], &[], cues.as_slice()),
        role(1, &[2], pass.as_slice(), &[]),
        role(2, &[3], pass.as_slice(), &[]),
        role(3, &[], hold.as_slice(), &[]),
    ];
    let played = play(
        rt.alloc(),
        roles.as_slice(),
        Choice::RoundRobin,
        THROUGH.as_slice(),
    )?;
    assert!(rt; rested(&played));
    let expected = Expected {
        lines: &[
            told(0, 1, 256, 0, 0, Notice::Start),
            failed(0, 6, 3, 5, Sec::BrokenPromise),
            told(0, 7, 256, 1, 6, Notice::Stop),
            seven(1, 2, 0, 0, mid(0, 1, false), 1),
            seven(2, 3, 1, 0, mid(0, 1, false), 2),
            seven(3, 4, 2, 0, mid(0, 1, false), 3),
            seven(3, 5, 3, 0, mid(3, 0, false), 4),
        ],
        notes: &[
            (0, Note::Started),
            (0, Note::Failed(5, Sec::BrokenPromise)),
            (0, Note::Stopped),
        ],
        finals: &[
            last(7, 3, None),
            last(2, 1, None),
            last(3, 1, None),
            last(5, 2, Some(Reason::Failed)),
        ],
        cut: Some(2),
        trace: "t 0 1 256\nt 1 2 0\nt 2 3 1\nt 3 4 2\nt 3 5 3\nt 0 6 3\nt 0 7 256\n",
    };
    assert_played(&rt, &played, expected);
    Ok(())
}

/// Place 1 sleeps and keeps the request. At the tick place 0 sends it an exit.
#[test]
fn a_request_cached_at_a_quit_is_answered_once(rt: HostRuntime) -> Result<(), Fail> {
    let at_tick = Cue {
        signal: Some(Signal::Exit(Reason::Failed)),
        ..Cue::none()
    };
    let cues = [sends(ask(5)), at_tick];
    let sleeper = role(1, &[], &[], &[]);
    let roles = [
        role(0, &[1], &[], cues.as_slice()),
        Role {
            part: Part {
                is_asleep: true,
                ..sleeper.part
            },
            ..sleeper
        },
    ];
    let played = play(
        rt.alloc(),
        roles.as_slice(),
        Choice::RoundRobin,
        WITH_A_TICK.as_slice(),
    )?;
    assert!(rt; rested(&played));
    let expected = Expected {
        lines: &[
            told(0, 1, 256, 0, 0, Notice::Start),
            told(0, 3, 256, 1, 2, Notice::Tick(256)),
            failed(0, 5, 1, 4, Sec::RequestReceiverDown),
            told(0, 6, 256, 2, 5, Notice::Stop),
            seven(1, 2, 0, 0, mid(0, 1, false), 1),
            told(1, 4, 0, 1, 3, Notice::Exit(0, Reason::Failed)),
        ],
        notes: &[
            (0, Note::Started),
            (0, Note::Ticked),
            (0, Note::Failed(5, Sec::RequestReceiverDown)),
            (0, Note::Stopped),
        ],
        finals: &[last(6, 4, None), last(4, 2, Some(Reason::Failed))],
        cut: Some(3),
        trace: "t 0 1 256\nt 1 2 0\nt 0 3 256\nt 1 4 0\nt 0 5 1\nt 0 6 256\n",
    };
    assert_played(&rt, &played, expected);
    Ok(())
}

/// Place 1 asks place 2, which holds the request and tells itself the number after a tick. At the tick
/// place 0 sends place 1 an exit, and hands the tick to both. Then place 2 delivers: nobody waits for it.
#[test]
fn a_quit_requester_is_given_no_response(rt: HostRuntime) -> Result<(), Fail> {
    let at_tick = Cue {
        sending: Some(Sending::Exit(Reason::Kill)),
        signal: Some(Signal::Tick),
        ..Cue::none()
    };
    let cues = [sends(Some(Sending::Tell)), at_tick];
    let hold = [
        does(Some(Sending::Delay(1)), Reply::Hold),
        does(Some(Sending::Deliver(1, 1)), Reply::Ignore),
    ];
    let asking = [does(ask(6), Reply::Ignore)];
    let roles = [
        role(0, &[1, 2], &[], cues.as_slice()),
        role(1, &[2], asking.as_slice(), &[]),
        role(2, &[], hold.as_slice(), &[]),
    ];
    let played = play(
        rt.alloc(),
        roles.as_slice(),
        Choice::RoundRobin,
        WITH_A_TICK.as_slice(),
    )?;
    assert!(rt; rested(&played));
    let expected = Expected {
        lines: &[
            told(0, 1, 256, 0, 0, Notice::Start),
            told(0, 4, 256, 1, 3, Notice::Tick(256)),
            told(0, 8, 256, 2, 7, Notice::Stop),
            seven(1, 2, 0, 0, mid(0, 0, false), 1),
            told(1, 5, 0, 1, 4, Notice::Exit(0, Reason::Kill)),
            told(1, 5, 0, 2, 4, Notice::Tick(0)),
            seven(1, 7, 2, 0, mid(1, 1, true), 6),
            seven(2, 3, 1, 0, mid(1, 1, false), 2),
            told(2, 5, 0, 0, 4, Notice::Tick(0)),
            seven(2, 6, 2, 0, mid(2, 0, false), 5),
        ],
        notes: &[(0, Note::Started), (0, Note::Ticked), (0, Note::Stopped)],
        finals: &[
            last(8, 3, None),
            last(7, 4, Some(Reason::Kill)),
            last(6, 3, None),
        ],
        cut: Some(2),
        trace: "t 0 1 256\nt 1 2 0\nt 2 3 1\nt 0 4 256\nt 1 5 0*2\nt 2 5 0\nt 2 6 2\nt 1 7 2\nt 0 8 256\n",
    };
    assert_played(&rt, &played, expected);
    Ok(())
}

/// Place 0 asks within a tick. Place 1 holds the request, tells itself the number after a tick, and
/// delivers then: the response comes late and is dropped.
#[test]
fn a_response_after_the_time_is_dropped(rt: HostRuntime) -> Result<(), Fail> {
    let within = Sending::AskWithin(1, Mode::Multiplexed, 5, TypeId(2));
    let at_tick = Cue {
        signal: Some(Signal::Tick),
        ..Cue::none()
    };
    let cues = [sends(Some(within)), Cue::none(), at_tick];
    let hold = [
        does(Some(Sending::Delay(1)), Reply::Hold),
        does(Some(Sending::Deliver(0, 1)), Reply::Ignore),
    ];
    let roles = [
        role(0, &[1], &[], cues.as_slice()),
        role(1, &[], hold.as_slice(), &[]),
    ];
    let played = play(
        rt.alloc(),
        roles.as_slice(),
        Choice::RoundRobin,
        WITH_A_TICK.as_slice(),
    )?;
    assert!(rt; rested(&played));
    let expected = Expected {
        lines: &[
            told(0, 1, 256, 0, 0, Notice::Start),
            told(0, 3, 256, 1, 2, Notice::Tick(256)),
            seven(0, 6, 1, 0, mid(0, 1, true), 5),
            told(0, 7, 256, 2, 6, Notice::Stop),
            seven(1, 2, 0, 0, mid(0, 1, false), 1),
            told(1, 4, 0, 1, 3, Notice::Tick(0)),
            seven(1, 5, 1, 0, mid(1, 0, false), 4),
        ],
        notes: &[
            (0, Note::Started),
            (0, Note::Failed(5, Sec::RequestTimeout)),
            (0, Note::Ticked),
            (0, Note::Stopped),
        ],
        finals: &[last(7, 4, None), last(5, 3, None)],
        cut: Some(3),
        trace: "t 0 1 256\nt 1 2 0\nt 0 3 256\nt 1 4 0\nt 1 5 1\nt 0 6 1\nt 0 7 256\n",
    };
    assert_played(&rt, &played, expected);
    Ok(())
}

/// Place 1 asks place 2 and passes request 1 of place 0 on to it. Place 2 holds both, tells itself the
/// number, and then delivers that of place 1 and breaks that of place 0.
#[test]
fn requests_of_one_number_go_to_their_requesters(rt: HostRuntime) -> Result<(), Fail> {
    let cues = [sends(ask(5))];
    let settle = Act {
        sending: Some(Sending::Deliver(1, 1)),
        afterwards: Some(Sending::Break(0, 1, Sec::Failed)),
        ..Act::only(Reply::Ignore)
    };
    let hold = [
        Act::only(Reply::Hold),
        does(Some(Sending::Tell), Reply::Hold),
        settle,
    ];
    let both = [does(ask(6), Reply::Delegate)];
    let roles = [
        role(0, &[1], &[], cues.as_slice()),
        role(1, &[2], both.as_slice(), &[]),
        role(2, &[], hold.as_slice(), &[]),
    ];
    let played = play(
        rt.alloc(),
        roles.as_slice(),
        Choice::RoundRobin,
        THROUGH.as_slice(),
    )?;
    assert!(rt; rested(&played));
    let expected = Expected {
        lines: &[
            told(0, 1, 256, 0, 0, Notice::Start),
            failed(0, 5, 2, 4, Sec::Failed),
            told(0, 6, 256, 1, 5, Notice::Stop),
            seven(1, 2, 0, 0, mid(0, 1, false), 1),
            seven(1, 5, 2, 0, mid(1, 1, true), 4),
            seven(2, 3, 1, 0, mid(1, 1, false), 2),
            seven(2, 3, 1, 1, mid(0, 1, false), 2),
            seven(2, 4, 2, 0, mid(2, 0, false), 3),
        ],
        notes: &[
            (0, Note::Started),
            (0, Note::Failed(5, Sec::Failed)),
            (0, Note::Stopped),
            (1, Note::Responded(6)),
        ],
        finals: &[last(6, 3, None), last(5, 2, None), last(4, 3, None)],
        cut: Some(2),
        trace: "t 0 1 256\nt 1 2 0\nt 2 3 1*2\nt 2 4 2\nt 0 5 2\nt 1 5 2\nt 0 6 256\n",
    };
    assert_played(&rt, &played, expected);
    Ok(())
}

/// Place 1 passes the request back to place 0, which answers itself.
#[test]
fn a_request_passed_back_is_answered_by_its_requester(rt: HostRuntime) -> Result<(), Fail> {
    let cues = [sends(ask(5))];
    let back = [Act::only(Reply::Delegate)];
    let roles = [
        role(0, &[1], &[], cues.as_slice()),
        role(1, &[0], back.as_slice(), &[]),
    ];
    let played = play(
        rt.alloc(),
        roles.as_slice(),
        Choice::RoundRobin,
        THROUGH.as_slice(),
    )?;
    assert!(rt; rested(&played));
    let expected = Expected {
        lines: &[
            told(0, 1, 256, 0, 0, Notice::Start),
            seven(0, 3, 1, 0, mid(0, 1, false), 2),
            seven(0, 4, 0, 0, mid(0, 1, true), 3),
            told(0, 5, 256, 1, 4, Notice::Stop),
            seven(1, 2, 0, 0, mid(0, 1, false), 1),
        ],
        notes: &[
            (0, Note::Started),
            (0, Note::Responded(5)),
            (0, Note::Stopped),
        ],
        finals: &[last(5, 4, None), last(2, 1, None)],
        cut: Some(3),
        trace: "t 0 1 256\nt 1 2 0\nt 0 3 1\nt 0 4 0\nt 0 5 256\n",
    };
    assert_played(&rt, &played, expected);
    Ok(())
}

/// Place 1 passes the request on to itself again and again.
#[test]
fn a_request_passed_round_ends_in_budget(rt: HostRuntime) -> Result<(), Fail> {
    let cues = [sends(ask(5))];
    let again = [Act::only(Reply::Delegate); 64];
    let roles = [
        role(0, &[1], &[], cues.as_slice()),
        role(1, &[], again.as_slice(), &[]),
    ];
    let moves = [Move::Start, Move::Drive(4), Move::Drive(6)];
    let played = play(
        rt.alloc(),
        roles.as_slice(),
        Choice::RoundRobin,
        moves.as_slice(),
    )?;
    let budget = Outcome::Ended(DriveEnd::Budget);
    let outcomes = [Outcome::Played, budget, budget];
    assert_eq!(rt; played.outcomes.as_slice(), outcomes.as_slice());
    let expected = Expected {
        lines: &[
            told(0, 1, 256, 0, 0, Notice::Start),
            seven(1, 2, 0, 0, mid(0, 1, false), 1),
            seven(1, 3, 1, 0, mid(0, 1, false), 2),
            seven(1, 4, 1, 1, mid(0, 1, false), 3),
            seven(1, 5, 1, 2, mid(0, 1, false), 4),
            seven(1, 6, 1, 3, mid(0, 1, false), 5),
        ],
        notes: &[(0, Note::Started)],
        finals: &[last(1, 1, None), last(6, 5, None)],
        cut: None,
        trace: "t 0 1 256\nt 1 2 0\nt 1 3 1\nt 1 4 1\nt 1 5 1\nt 1 6 1\n",
    };
    assert_played(&rt, &played, expected);
    Ok(())
}
