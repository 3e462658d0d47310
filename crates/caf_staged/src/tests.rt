//! Values by hand, from the rules of one actor, of a batch's stamp, and of who is offered.
//!
//! A line that is told is a notice: urgent, with its sender's mid. Every other one here is normal.
use crate::{Final, JournalLine, Move, Outcome, Played, Role};
use caf_driver::DriveEnd;
use caf_response::Mode;
use caf_scripted::{Act, Cue, Note, Part, Reply, Sending, What};
use caf_types::{Mid, Notice, Priority, Reason, Sec, TypeId};
use std::process::Abort;

mod orders;
mod requests;

// ---- roles

/// An actor that is awake and began, and takes [unsigned] alone.
fn role<'a>(place: u32, peers: &'a [u32], acts: &'a [Act], cues: &'a [Cue]) -> Role<'a> {
    Role {
        part: Part {
            place,
            peers,
            reserve: &[],
            is_vacant: false,
            acts,
            cues,
            is_asleep: false,
            takes_unit: false,
        },
        stamp: 0,
    }
}

/// A request of a number, with that tag.
fn ask(tag: u32) -> Option<Sending> {
    Some(Sending::Ask(Mode::Multiplexed, tag, TypeId(2)))
}

/// Sends that, with the number 7.
fn sends(sending: Option<Sending>) -> Cue {
    Cue {
        sending,
        number: 7,
        ..Cue::none()
    }
}

/// Sends that, and answers so.
fn does(sending: Option<Sending>, reply: Reply) -> Act {
    Act {
        sending,
        ..Act::only(reply)
    }
}

// ---- moves

/// Start, a rest, Stop, and a rest.
const THROUGH: [Move; 4] = [Move::Start, Move::Drive(100), Move::Stop, Move::Drive(100)];

/// The same with a tick between.
const WITH_A_TICK: [Move; 6] = [
    Move::Start,
    Move::Drive(100),
    Move::Tick,
    Move::Drive(100),
    Move::Stop,
    Move::Drive(100),
];

// ---- what comes of a play

fn mid(requester: u32, number: u64, response: bool) -> Mid {
    Mid {
        requester,
        number,
        response,
    }
}

/// A notice that the place took in the batch with that stamp: of that sender, with that number and stamp.
fn told(place: u32, batch: u64, sender: u32, seq: u64, stamp: u64, notice: Notice) -> JournalLine {
    JournalLine {
        place,
        batch,
        sender,
        seq,
        mid: mid(sender, 0, false),
        priority: Priority::Urgent,
        stamp,
        what: What::Told(notice),
    }
}

/// The number 7 that the place took.
fn seven(place: u32, batch: u64, sender: u32, seq: u64, mid: Mid, stamp: u64) -> JournalLine {
    JournalLine {
        place,
        batch,
        sender,
        seq,
        mid,
        priority: Priority::Normal,
        stamp,
        what: What::Number(7),
    }
}

/// The first response of the sender to request 1 of the place: an error.
fn failed(place: u32, batch: u64, sender: u32, stamp: u64, sec: Sec) -> JournalLine {
    JournalLine {
        place,
        batch,
        sender,
        seq: 0,
        mid: mid(place, 1, true),
        priority: Priority::Normal,
        stamp,
        what: What::Failure(sec),
    }
}

fn last(stamp: u64, handled: u64, quit: Option<Reason>) -> Final {
    Final {
        stamp,
        handled,
        quit,
    }
}

/// What is to come of a play.
#[derive(Drop)]
struct Expected<'a> {
    lines: &'a [JournalLine],
    notes: &'a [(u32, Note)],
    finals: &'a [Final],
    cut: Option<u64>,
    trace: &'a str,
}

fn assert_played(rt: &impl Abort, played: &Played, expected: Expected) {
    assert_eq!(rt; played.lines.as_slice(), expected.lines);
    assert_eq!(rt; played.notes.as_slice(), expected.notes);
    assert_eq!(rt; played.finals.as_slice(), expected.finals);
    assert_eq!(rt; played.cut, expected.cut);
    assert_eq!(rt; played.trace.as_slice(), expected.trace.as_bytes());
}

/// Whether each drive ended at a rest, and each notice was played.
fn rested(played: &Played) -> bool {
    played
        .outcomes
        .as_slice()
        .iter()
        .all(|outcome| went_well(*outcome))
}

fn went_well(outcome: Outcome) -> bool {
    matches!(outcome, Outcome::Played | Outcome::Ended(DriveEnd::Rest))
}
