//! Who takes next, how a drive ends, and the traces of whole runs.
use super::{
    Expected, THROUGH, ask, assert_played, does, last, mid, rested, role, sends, seven, told,
};
use crate::{Choice, Move, Outcome, PlayFault, Played, Role, play};
use caf_driver::{DriveEnd, SenderRun};
use caf_scripted::{Act, Cue, Note, Part, Reply, Sending, Signal};
use caf_types::{Notice, Reason, Seq};
use std::alloc::Global;
use std::test::Fail;

/// Place 0 asks place 1, which tells the number to 0, to 2 and to 0 again, and then answers. Place 2
/// tells it to 0. At Stop place 0 ends both.
fn three(alloc: Global, choice: Choice, moves: &[Move]) -> Result<Played, PlayFault> {
    let at_stop = Cue {
        signal: Some(Signal::Exit(Reason::Kill)),
        ..Cue::none()
    };
    let cues = [sends(ask(5)), Cue::none(), at_stop];
    let spread = Act {
        sending: Some(Sending::Fan),
        afterwards: Some(Sending::Tell),
        ..Act::only(Reply::Echo)
    };
    let first = [spread];
    let second = [does(Some(Sending::Tell), Reply::Ignore)];
    let roles = [
        role(0, &[1, 2], &[], cues.as_slice()),
        role(1, &[0, 2], first.as_slice(), &[]),
        role(2, &[0], second.as_slice(), &[]),
    ];
    play(alloc, roles.as_slice(), choice, moves)
}

/// After place 1's batch three wait for 0 and one for 2. Place 2 is next round the places, and then 0 takes
/// all four.
#[test]
fn goes_round_the_places(rt: HostRuntime) -> Result<(), Fail> {
    let played = three(rt.alloc(), Choice::RoundRobin, THROUGH.as_slice())?;
    assert!(rt; rested(&played));
    let expected = Expected {
        lines: &[
            told(0, 1, 256, 0, 0, Notice::Start),
            seven(0, 4, 1, 0, mid(1, 0, false), 2),
            seven(0, 4, 1, 1, mid(1, 0, false), 2),
            seven(0, 4, 1, 2, mid(0, 1, true), 2),
            seven(0, 4, 2, 0, mid(2, 0, false), 3),
            told(0, 5, 256, 1, 4, Notice::Stop),
            seven(1, 2, 0, 0, mid(0, 1, false), 1),
            told(1, 6, 0, 1, 5, Notice::Exit(0, Reason::Kill)),
            seven(2, 3, 1, 0, mid(1, 0, false), 2),
            told(2, 6, 0, 0, 5, Notice::Exit(0, Reason::Kill)),
        ],
        notes: &[
            (0, Note::Started),
            (0, Note::Responded(5)),
            (0, Note::Stopped),
        ],
        finals: &[
            last(5, 6, None),
            last(6, 2, Some(Reason::Kill)),
            last(6, 2, Some(Reason::Kill)),
        ],
        cut: Some(2),
        trace: "t 0 1 256\nt 1 2 0\nt 2 3 1\nt 0 4 1*3 2\nt 0 5 256\nt 1 6 0\nt 2 6 0\n",
    };
    assert_played(&rt, &played, expected);
    Ok(())
}

/// Place 2 is the last one offered; then 0 takes what waits of 2, and then what waits of 1.
#[test]
fn takes_one_sender_from_the_last_place(rt: HostRuntime) -> Result<(), Fail> {
    let played = three(rt.alloc(), Choice::LastPlace, THROUGH.as_slice())?;
    assert!(rt; rested(&played));
    let expected = Expected {
        lines: &[
            told(0, 1, 256, 0, 0, Notice::Start),
            seven(0, 4, 2, 0, mid(2, 0, false), 3),
            seven(0, 5, 1, 0, mid(1, 0, false), 2),
            seven(0, 5, 1, 1, mid(1, 0, false), 2),
            seven(0, 5, 1, 2, mid(0, 1, true), 2),
            told(0, 6, 256, 1, 5, Notice::Stop),
            seven(1, 2, 0, 0, mid(0, 1, false), 1),
            told(1, 7, 0, 1, 6, Notice::Exit(0, Reason::Kill)),
            seven(2, 3, 1, 0, mid(1, 0, false), 2),
            told(2, 7, 0, 0, 6, Notice::Exit(0, Reason::Kill)),
        ],
        notes: &[
            (0, Note::Started),
            (0, Note::Responded(5)),
            (0, Note::Stopped),
        ],
        finals: &[
            last(6, 6, None),
            last(7, 2, Some(Reason::Kill)),
            last(7, 2, Some(Reason::Kill)),
        ],
        cut: Some(3),
        trace: "t 0 1 256\nt 1 2 0\nt 2 3 1\nt 0 4 2\nt 0 5 1*3\nt 0 6 256\nt 1 7 0\nt 2 7 0\n",
    };
    assert_played(&rt, &played, expected);
    Ok(())
}

/// What wasn't offered counts as the first offered: place 0 before 2, and all of its senders. Where a batch
/// is to end at once, it has the first envelope of the first sender.
#[test]
fn takes_what_is_first_for_a_choice_not_offered(rt: HostRuntime) -> Result<(), Fail> {
    let rows = [
        (
            Choice::Always(999, Some(999)),
            "t 0 1 256\nt 1 2 0\nt 0 3 1*3\nt 2 3 1\nt 0 4 2\nt 0 5 256\nt 1 6 0\nt 2 6 0\n",
        ),
        (
            Choice::Always(0, None),
            "t 0 1 256\nt 1 2 0\nt 0 3 1\nt 2 3 1\nt 0 4 1\nt 0 5 1\nt 0 6 2\nt 0 7 256\nt 1 8 0\nt 2 8 0\n",
        ),
    ];
    for (choice, text) in rows {
        let played = three(rt.alloc(), choice, THROUGH.as_slice())?;
        assert!(rt; rested(&played), "{text}");
        assert_eq!(rt; played.trace.as_slice(), text.as_bytes(), "{text}");
    }
    Ok(())
}

/// Place 1 tells the number to 3, to 2 and to 3 again, and place 2 tells it to 3. Place 3 takes one
/// envelope of each sender in turn: of 1, of 2 and of 1.
#[test]
fn writes_two_runs_of_one_sender_apart(rt: HostRuntime) -> Result<(), Fail> {
    let cues = [sends(Some(Sending::Tell))];
    let spread = Act {
        sending: Some(Sending::Fan),
        afterwards: Some(Sending::Tell),
        ..Act::only(Reply::Ignore)
    };
    let first = [spread];
    let second = [does(Some(Sending::Tell), Reply::Ignore)];
    let roles = [
        role(0, &[1], &[], cues.as_slice()),
        role(1, &[3, 2], first.as_slice(), &[]),
        role(2, &[3], second.as_slice(), &[]),
        role(3, &[], &[], &[]),
    ];
    let played = play(
        rt.alloc(),
        roles.as_slice(),
        Choice::SendersInTurn,
        THROUGH.as_slice(),
    )?;
    assert!(rt; rested(&played));
    let text = "t 0 1 256\nt 1 2 0\nt 2 3 1\nt 3 4 1 2 1\nt 0 5 256\n";
    assert_eq!(rt; played.trace.as_slice(), text.as_bytes());
    Ok(())
}

fn outcomes_of(alloc: Global, moves: &[Move]) -> Result<Seq<Outcome>, PlayFault> {
    let played = three(alloc, Choice::RoundRobin, moves)?;
    Ok(played.outcomes)
}

/// One envelope was handled after place 0's batch, two after place 1's, seven at the rest, and ten in
/// all. A rest is looked for before the budget.
#[test]
fn ends_at_a_rest_or_at_its_budget(rt: HostRuntime) -> Result<(), Fail> {
    let budget = Outcome::Ended(DriveEnd::Budget);
    let rest = Outcome::Ended(DriveEnd::Rest);
    let moves = [
        Move::Drive(100),
        Move::Tick,
        Move::Start,
        Move::Start,
        Move::Stop,
        Move::Drive(0),
        Move::Drive(2),
        Move::Drive(2),
        Move::Drive(3),
        Move::Tick,
        Move::Drive(7),
        Move::Drive(0),
        Move::Stop,
        Move::Tick,
        Move::Drive(7),
        Move::Drive(100),
        Move::Stop,
    ];
    let expected = [
        Outcome::Refused,
        Outcome::Refused,
        Outcome::Played,
        Outcome::Refused,
        Outcome::Refused,
        budget,
        budget,
        budget,
        budget,
        Outcome::Refused,
        rest,
        rest,
        Outcome::Played,
        Outcome::Refused,
        budget,
        rest,
        Outcome::Refused,
    ];
    let outcomes = outcomes_of(rt.alloc(), moves.as_slice())?;
    assert_eq!(rt; outcomes.as_slice(), expected.as_slice());
    Ok(())
}

/// Place 0 asks place 1; the places begin with these stamps.
fn two_from(alloc: Global, first: u64, second: u64, moves: &[Move]) -> Result<Played, PlayFault> {
    let cues = [sends(ask(5))];
    let roles = [
        Role {
            stamp: first,
            ..role(0, &[1], &[], cues.as_slice())
        },
        Role {
            stamp: second,
            ..role(1, &[], &[], &[])
        },
    ];
    play(alloc, roles.as_slice(), Choice::RoundRobin, moves)
}

/// Place 0 began with the last stamp, place 1 did, or place 0 has it and what it sent to place 1. The
/// budget is looked for before that.
#[test]
fn ends_where_no_stamp_is_left(rt: HostRuntime) -> Result<(), Fail> {
    let latest = 1 << 40;
    let rows = [
        (latest, 0, Outcome::Ended(DriveEnd::Exhausted(0)), ""),
        (
            0,
            latest,
            Outcome::Ended(DriveEnd::Exhausted(1)),
            "t 0 1 256\n",
        ),
        (
            latest - 1,
            0,
            Outcome::Ended(DriveEnd::Exhausted(1)),
            "t 0 1099511627776 256\n",
        ),
    ];
    for (first, second, end, text) in rows {
        let moves = [Move::Start, Move::Drive(2), Move::Drive(0)];
        let outcomes = [Outcome::Played, end, Outcome::Ended(DriveEnd::Budget)];
        let played = two_from(rt.alloc(), first, second, moves.as_slice())?;
        assert_eq!(rt; played.outcomes.as_slice(), outcomes.as_slice(), "{text}");
        assert_eq!(rt; played.trace.as_slice(), text.as_bytes(), "{text}");
        assert_eq!(rt; played.cut, None, "{text}");
    }
    Ok(())
}

/// What is told of roles that fit no place.
fn refused(alloc: Global, roles: &[Role]) -> Option<PlayFault> {
    match play(alloc, roles, Choice::RoundRobin, &[]) {
        Ok(_) => None,
        Err(fault) => Some(fault),
    }
}

#[test]
fn refuses_roles_that_fit_no_place(rt: HostRuntime) -> Result<(), Fail> {
    let child = role(1, &[0], &[], &[]);
    let astray = Role {
        part: Part {
            reserve: &[2],
            ..child.part
        },
        ..child
    };
    let late = Role {
        stamp: (1 << 40) + 1,
        ..child
    };
    let first = role(0, &[1], &[], &[]);
    assert_eq!(rt; refused(rt.alloc(), &[first, child]), None);
    assert_eq!(rt; refused(rt.alloc(), &[first]), Some(PlayFault::Role(0)));
    assert_eq!(rt; refused(rt.alloc(), &[child]), Some(PlayFault::Role(0)));
    assert_eq!(rt;
        refused(rt.alloc(), &[first, astray]),
        Some(PlayFault::Role(1))
    );
    assert_eq!(rt;
        refused(rt.alloc(), &[first, late]),
        Some(PlayFault::Role(1))
    );
    assert_eq!(rt; refused(rt.alloc(), &[]), Some(PlayFault::Roles));
    Ok(())
}

fn run(sender: u32, count: u64) -> SenderRun {
    SenderRun { sender, count }
}

/// A batch that is named is taken only where it is made of next envelopes: not without a run, not at a place
/// that is none, not of more than wait, not of a sender of whom nothing waits, and not twice. At place 0
/// three wait of 1 and one of 2.
#[test]
fn takes_a_batch_that_is_named(rt: HostRuntime) -> Result<(), Fail> {
    let start = [run(256, 1)];
    let asked = [run(0, 1)];
    let told = [run(1, 1)];
    let too_many = [run(1, 4)];
    let too_many_apart = [run(1, 2), run(2, 1), run(1, 2)];
    let apart = [run(1, 2), run(2, 1), run(1, 1)];
    let moves = [
        Move::Step(0, start.as_slice()),
        Move::Start,
        Move::Step(0, &[]),
        Move::Step(3, start.as_slice()),
        Move::Step(0, asked.as_slice()),
        Move::Step(0, start.as_slice()),
        Move::Step(0, start.as_slice()),
        Move::Step(1, asked.as_slice()),
        Move::Step(2, told.as_slice()),
        Move::Step(0, too_many.as_slice()),
        Move::Step(0, too_many_apart.as_slice()),
        Move::Step(0, apart.as_slice()),
        Move::Drive(0),
        Move::Stop,
    ];
    let none = Outcome::Stepped(None);
    let expected = [
        none,
        Outcome::Played,
        none,
        none,
        none,
        Outcome::Stepped(Some(1)),
        none,
        Outcome::Stepped(Some(2)),
        Outcome::Stepped(Some(3)),
        none,
        none,
        Outcome::Stepped(Some(4)),
        Outcome::Ended(DriveEnd::Rest),
        Outcome::Played,
    ];
    let played = three(rt.alloc(), Choice::RoundRobin, moves.as_slice())?;
    assert_eq!(rt; played.outcomes.as_slice(), expected.as_slice());
    let text = "t 0 1 256\nt 1 2 0\nt 2 3 1\nt 0 4 1*2 2 1\n";
    assert_eq!(rt; played.trace.as_slice(), text.as_bytes());
    Ok(())
}
