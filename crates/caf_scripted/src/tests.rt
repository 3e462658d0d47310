use crate::fans::{fan_out, narrower};
use crate::relaying::{Relayed, relay};
use crate::{
    Act, Cue, Letter, Line, Note, Number, Part, Played, RELAYED, Reply, Sending, Signal, What, play,
};
use caf_actor::Post;
use caf_actor::laws::address;
use caf_message::{Body, Message, MessageFault, Replaced};
use caf_response::Mode;
use caf_types::{Memory, Mid, Notice, Places, Priority, Reason, Sec, Seq, TypeId};
use std::alloc::Global;
use std::test::Fail;

// ---- letters and lines

fn mid(requester: u32, number: u64, response: bool) -> Mid {
    Mid {
        requester,
        number,
        response,
    }
}

fn letter(batch: u8, sender: u32, mid: Mid, priority: Priority, what: What) -> Letter {
    Letter {
        sender,
        seq: 0,
        mid,
        priority,
        stamp: 1,
        what,
        batch,
    }
}

fn request(batch: u8, sender: u32, number: u64, priority: Priority, what: What) -> Letter {
    letter(batch, sender, mid(sender, number, false), priority, what)
}

fn tell(batch: u8, sender: u32, what: What) -> Letter {
    letter(batch, sender, mid(sender, 0, false), Priority::Normal, what)
}

fn notice(batch: u8, sender: u32, notice: Notice) -> Letter {
    let what = What::Told(notice);
    letter(batch, sender, mid(sender, 0, false), Priority::Urgent, what)
}

/// The response of place 5 to a request of place 1.
fn response(batch: u8, number: u64, what: What) -> Letter {
    letter(batch, 5, mid(1, number, true), Priority::Normal, what)
}

fn line(to: u32, seq: u64, mid: Mid, priority: Priority, stamp: u64, what: What) -> Line {
    Line {
        to,
        seq,
        mid,
        priority,
        stamp,
        what,
    }
}

/// A notice that place 1 sends.
fn told(to: u32, seq: u64, stamp: u64, notice: Notice) -> Line {
    let what = What::Told(notice);
    line(to, seq, mid(1, 0, false), Priority::Urgent, stamp, what)
}

fn failure(to: u32, seq: u64, number: u64, priority: Priority, stamp: u64, sec: Sec) -> Line {
    line(
        to,
        seq,
        mid(to, number, true),
        priority,
        stamp,
        What::Failure(sec),
    )
}

// ---- which envelope is next

fn echo(is_asleep: bool, acts: &[Act]) -> Part {
    Part {
        place: 1,
        peers: &[],
        reserve: &[],
        is_vacant: false,
        acts,
        cues: &[],
        is_asleep,
        takes_unit: true,
    }
}

#[test]
fn an_urgent_request_is_answered_first(rt: HostRuntime) -> Result<(), Fail> {
    let letters = [
        request(0, 2, 1, Priority::Normal, What::Number(7)),
        request(0, 2, 2, Priority::Urgent, What::Number(8)),
    ];
    let expected = [
        line(2, 0, mid(2, 2, true), Priority::Urgent, 2, What::Number(8)),
        line(2, 1, mid(2, 1, true), Priority::Normal, 2, What::Number(7)),
    ];
    let played = play(rt.alloc(), echo(false, &[]), letters.as_slice())?;
    assert_eq!(rt; played.lines.as_slice(), expected.as_slice());
    Ok(())
}

#[test]
fn batches_are_answered_one_after_the_other(rt: HostRuntime) -> Result<(), Fail> {
    let letters = [
        request(0, 2, 1, Priority::Normal, What::Number(7)),
        request(1, 2, 2, Priority::Urgent, What::Number(8)),
    ];
    let expected = [
        line(2, 0, mid(2, 1, true), Priority::Normal, 2, What::Number(7)),
        line(2, 1, mid(2, 2, true), Priority::Urgent, 3, What::Number(8)),
    ];
    let played = play(rt.alloc(), echo(false, &[]), letters.as_slice())?;
    assert_eq!(rt; played.lines.as_slice(), expected.as_slice());
    assert_eq!(rt; (played.place, played.stamp), (1, 3));
    Ok(())
}

#[test]
fn a_skipped_request_is_answered_after_the_wake(rt: HostRuntime) -> Result<(), Fail> {
    let wake = Act {
        sleeps: Some(false),
        ..Act::only(Reply::Echo)
    };
    let letters = [
        request(0, 2, 1, Priority::Normal, What::Number(7)),
        request(0, 2, 2, Priority::Normal, What::Nothing),
    ];
    let expected = [
        line(2, 0, mid(2, 2, true), Priority::Normal, 2, What::Nothing),
        line(2, 1, mid(2, 1, true), Priority::Normal, 2, What::Number(7)),
    ];
    let played = play(rt.alloc(), echo(true, &[wake]), letters.as_slice())?;
    assert_eq!(rt; played.lines.as_slice(), expected.as_slice());
    Ok(())
}

// ---- content, requests and responses

#[test]
fn a_request_outside_the_interface_is_refused(rt: HostRuntime) -> Result<(), Fail> {
    let calc = Part {
        place: 1,
        peers: &[],
        reserve: &[],
        is_vacant: false,
        acts: &[],
        cues: &[],
        is_asleep: false,
        takes_unit: false,
    };
    let letters = [
        request(0, 2, 1, Priority::Urgent, What::Nothing),
        tell(0, 2, What::Nothing),
    ];
    let expected = [failure(2, 0, 1, Priority::Urgent, 2, Sec::UnexpectedMessage)];
    let played = play(rt.alloc(), calc, letters.as_slice())?;
    assert_eq!(rt; played.lines.as_slice(), expected.as_slice());
    assert_eq!(rt; played.handled, 2);
    Ok(())
}

fn ask(tag: u32, id: u16) -> Act {
    Act {
        sending: Some(Sending::Ask(Mode::Multiplexed, tag, TypeId(id))),
        ..Act::only(Reply::Ignore)
    }
}

/// Request 1 expects [signed] and gets [unsigned]. A second response to it, and one to a request
/// that there isn't, are dropped. Request 2 gets what it expects.
#[test]
fn a_response_of_other_types_is_an_error(rt: HostRuntime) -> Result<(), Fail> {
    let acts = [ask(70, 3), ask(71, 2)];
    let asker = Part {
        place: 1,
        peers: &[5],
        reserve: &[],
        is_vacant: false,
        acts: acts.as_slice(),
        cues: &[],
        is_asleep: false,
        takes_unit: true,
    };
    let letters = [
        tell(0, 2, What::Number(3)),
        tell(0, 2, What::Number(4)),
        response(1, 1, What::Number(9)),
        response(1, 1, What::Number(9)),
        response(1, 3, What::Number(9)),
        response(1, 2, What::Number(8)),
    ];
    let expected = [
        line(5, 0, mid(1, 1, false), Priority::Normal, 2, What::Number(3)),
        line(5, 1, mid(1, 2, false), Priority::Normal, 2, What::Number(4)),
    ];
    let notes = [
        Note::Failed(70, Sec::UnexpectedResponse),
        Note::Responded(71),
    ];
    let played = play(rt.alloc(), asker, letters.as_slice())?;
    assert_eq!(rt; played.lines.as_slice(), expected.as_slice());
    assert_eq!(rt; played.notes.as_slice(), notes.as_slice());
    assert_eq!(rt; played.handled, 6);
    Ok(())
}

/// Requests 1 and 2 are awaited. The response to 1 and the content wait for the response to 2.
#[test]
fn the_last_awaited_response_comes_first(rt: HostRuntime) -> Result<(), Fail> {
    let acts = [Act {
        sending: Some(Sending::Ask(Mode::Awaited, 1, TypeId(2))),
        afterwards: Some(Sending::Ask(Mode::Awaited, 2, TypeId(2))),
        ..Act::only(Reply::Ignore)
    }];
    let awaiting = Part {
        place: 1,
        peers: &[5],
        reserve: &[],
        is_vacant: false,
        acts: acts.as_slice(),
        cues: &[],
        is_asleep: false,
        takes_unit: true,
    };
    let letters = [
        tell(0, 2, What::Number(3)),
        request(1, 2, 1, Priority::Urgent, What::Number(6)),
        response(1, 1, What::Number(9)),
        response(2, 2, What::Number(8)),
    ];
    let expected = [
        line(5, 0, mid(1, 1, false), Priority::Normal, 2, What::Number(3)),
        line(5, 1, mid(1, 2, false), Priority::Normal, 2, What::Number(3)),
        line(2, 0, mid(2, 1, true), Priority::Urgent, 4, What::Number(6)),
    ];
    let notes = [Note::Responded(2), Note::Responded(1)];
    let played = play(rt.alloc(), awaiting, letters.as_slice())?;
    assert_eq!(rt; played.lines.as_slice(), expected.as_slice());
    assert_eq!(rt; played.notes.as_slice(), notes.as_slice());
    assert_eq!(rt; played.batches, 3);
    Ok(())
}

// ---- quitting

fn leave() -> Act {
    Act {
        quit: Some(Reason::Failed),
        ..Act::only(Reply::Fail)
    }
}

/// The first content is answered by a link to place 3, the second is held, and the third makes it
/// quit while the fourth is cached.
#[test]
fn a_quit_answers_what_it_leaves(rt: HostRuntime) -> Result<(), Fail> {
    let link = Act {
        sending: Some(Sending::Link),
        ..Act::only(Reply::Ignore)
    };
    let acts = [link, Act::only(Reply::Hold), leave()];
    let quitter = Part {
        place: 1,
        peers: &[3],
        reserve: &[],
        is_vacant: false,
        acts: acts.as_slice(),
        cues: &[],
        is_asleep: false,
        takes_unit: true,
    };
    let letters = [
        tell(0, 4, What::Nothing),
        request(0, 4, 1, Priority::Normal, What::Number(1)),
        notice(0, 2, Notice::Watch(2)),
        notice(0, 5, Notice::Link(5)),
        request(1, 4, 2, Priority::Normal, What::Number(2)),
        request(1, 4, 3, Priority::Normal, What::Number(3)),
        notice(1, 0, Notice::Exit(0, Reason::Normal)),
    ];
    let expected = [
        told(3, 0, 2, Notice::Link(1)),
        failure(4, 0, 2, Priority::Normal, 3, Sec::Failed),
        failure(4, 1, 1, Priority::Normal, 3, Sec::BrokenPromise),
        failure(4, 2, 3, Priority::Normal, 3, Sec::RequestReceiverDown),
        told(3, 1, 3, Notice::Exit(1, Reason::Failed)),
        told(5, 0, 3, Notice::Exit(1, Reason::Failed)),
        told(2, 0, 3, Notice::Down(1, Reason::Failed)),
    ];
    let played = play(rt.alloc(), quitter, letters.as_slice())?;
    assert_eq!(rt; played.lines.as_slice(), expected.as_slice());
    assert_eq!(rt; played.quit, Some(Reason::Failed));
    assert_eq!(rt; played.handled, 7);
    Ok(())
}

#[test]
fn a_quit_actor_answers_requests_links_and_watches(rt: HostRuntime) -> Result<(), Fail> {
    let letters = [
        notice(0, 0, Notice::Exit(0, Reason::Kill)),
        tell(1, 4, What::Number(4)),
        notice(1, 6, Notice::Unlink(6)),
        notice(1, 6, Notice::Link(6)),
        notice(1, 7, Notice::Watch(7)),
        request(1, 4, 1, Priority::Normal, What::Number(5)),
    ];
    let expected = [
        told(6, 0, 3, Notice::Exit(1, Reason::Kill)),
        told(7, 0, 3, Notice::Down(1, Reason::Kill)),
        failure(4, 0, 1, Priority::Normal, 3, Sec::RequestReceiverDown),
    ];
    let played = play(rt.alloc(), echo(false, &[]), letters.as_slice())?;
    assert_eq!(rt; played.lines.as_slice(), expected.as_slice());
    assert_eq!(rt; played.quit, Some(Reason::Kill));
    Ok(())
}

/// A held request is delivered, one that isn't held is not, and the request that settles it goes on
/// to place 8.
#[test]
fn a_held_request_is_delivered_and_another_delegated(rt: HostRuntime) -> Result<(), Fail> {
    let settle = Act {
        sending: Some(Sending::Deliver(4, 1)),
        afterwards: Some(Sending::Deliver(9, 9)),
        ..Act::only(Reply::Delegate)
    };
    let acts = [Act::only(Reply::Hold), settle];
    let holder = Part {
        place: 1,
        peers: &[8],
        reserve: &[],
        is_vacant: false,
        acts: acts.as_slice(),
        cues: &[],
        is_asleep: false,
        takes_unit: true,
    };
    let letters = [
        request(0, 4, 1, Priority::Urgent, What::Number(1)),
        request(1, 2, 1, Priority::Normal, What::Number(6)),
    ];
    let expected = [
        line(4, 0, mid(4, 1, true), Priority::Urgent, 3, What::Number(6)),
        line(8, 0, mid(2, 1, false), Priority::Normal, 3, What::Number(6)),
    ];
    let played = play(rt.alloc(), holder, letters.as_slice())?;
    assert_eq!(rt; played.lines.as_slice(), expected.as_slice());
    Ok(())
}

// ---- ticks and children

fn within(ticks: u32, tag: u32) -> Option<Sending> {
    Some(Sending::AskWithin(ticks, Mode::Multiplexed, tag, TypeId(2)))
}

/// Requests 1 and 2 fail at the first and the second tick, by the due count. The late response to 1 is
/// dropped, and what was delayed by two ticks is sent at the second one.
#[test]
fn ticks_end_requests_and_send_what_was_delayed(rt: HostRuntime) -> Result<(), Fail> {
    let acts = [
        Act {
            sending: within(1, 70),
            afterwards: within(2, 71),
            ..Act::only(Reply::Ignore)
        },
        Act {
            sending: Some(Sending::Delay(2)),
            ..Act::only(Reply::Ignore)
        },
    ];
    let waiting = Part {
        place: 1,
        peers: &[5],
        reserve: &[],
        is_vacant: false,
        acts: acts.as_slice(),
        cues: &[],
        is_asleep: false,
        takes_unit: true,
    };
    let letters = [
        tell(0, 2, What::Number(3)),
        tell(0, 2, What::Number(4)),
        notice(1, 0, Notice::Tick(0)),
        response(2, 1, What::Number(9)),
        notice(3, 0, Notice::Tick(0)),
        notice(4, 0, Notice::Tick(0)),
    ];
    let expected = [
        line(5, 0, mid(1, 1, false), Priority::Normal, 2, What::Number(3)),
        line(5, 1, mid(1, 2, false), Priority::Normal, 2, What::Number(3)),
        line(5, 2, mid(1, 0, false), Priority::Normal, 5, What::Number(4)),
    ];
    let notes = [
        Note::Failed(70, Sec::RequestTimeout),
        Note::Failed(71, Sec::RequestTimeout),
    ];
    let played = play(rt.alloc(), waiting, letters.as_slice())?;
    assert_eq!(rt; played.lines.as_slice(), expected.as_slice());
    assert_eq!(rt; played.notes.as_slice(), notes.as_slice());
    assert_eq!(rt; played.handled, 6);
    Ok(())
}

/// A child keeps content until it begins, and starts its own child once.
#[test]
fn a_child_keeps_content_until_it_begins(rt: HostRuntime) -> Result<(), Fail> {
    let spawn = Act {
        sending: Some(Sending::Spawn),
        afterwards: Some(Sending::Spawn),
        ..Act::only(Reply::Echo)
    };
    let acts = [spawn];
    let child = Part {
        place: 1,
        peers: &[],
        reserve: &[6],
        is_vacant: true,
        acts: acts.as_slice(),
        cues: &[],
        is_asleep: false,
        takes_unit: true,
    };
    let letters = [
        request(0, 2, 1, Priority::Normal, What::Number(7)),
        notice(1, 2, Notice::Begin(2)),
        notice(2, 2, Notice::Begin(2)),
    ];
    let expected = [
        told(6, 0, 3, Notice::Begin(1)),
        line(2, 0, mid(2, 1, true), Priority::Normal, 3, What::Number(7)),
    ];
    let played = play(rt.alloc(), child, letters.as_slice())?;
    assert_eq!(rt; played.lines.as_slice(), expected.as_slice());
    assert_eq!(rt; played.handled, 3);
    Ok(())
}

// ---- place 0

/// Place 0 asks its first peer at Start, hands a tick on to each peer, and sends each peer an exit
/// notice at Stop.
fn place_0(cues: &[Cue]) -> Part {
    Part {
        place: 0,
        peers: &[1, 2],
        reserve: &[],
        is_vacant: false,
        acts: &[],
        cues,
        is_asleep: false,
        takes_unit: false,
    }
}

/// The first line of the play, as a letter of the actor at the place `sender`.
fn brought(played: &Played, sender: u32, batch: u8) -> Result<Letter, MessageFault> {
    match played.lines.get(0) {
        Some(line) => Ok(line.letter(sender, batch)),
        None => Err(MessageFault::Large),
    }
}

/// The request of place 0 is brought to place 1, and what this one answers is brought back.
#[test]
fn place_0_asks_hands_ticks_on_and_sends_exits(rt: HostRuntime) -> Result<(), Fail> {
    let alloc = rt.alloc();
    let cues = [
        Cue {
            sending: Some(Sending::Ask(Mode::Multiplexed, 5, TypeId(2))),
            number: 7,
            ..Cue::none()
        },
        Cue::none(),
        Cue {
            signal: Some(Signal::Tick),
            ..Cue::none()
        },
        Cue {
            signal: Some(Signal::Exit(Reason::Kill)),
            ..Cue::none()
        },
    ];
    let start = notice(0, 256, Notice::Start);
    let begun = play(alloc, place_0(cues.as_slice()), &[start])?;
    let asked = play(alloc, echo(false, &[]), &[brought(&begun, 0, 0)?])?;
    let letters = [
        start,
        brought(&asked, 1, 1)?,
        notice(2, 256, Notice::Tick(256)),
        notice(3, 256, Notice::Stop),
    ];
    let played = play(alloc, place_0(cues.as_slice()), letters.as_slice())?;
    let answered = [line(0, 0, mid(0, 1, true), Priority::Normal, 3, What::Number(7))];
    assert_eq!(rt; asked.lines.as_slice(), answered.as_slice());
    let own = mid(0, 0, false);
    let tick = What::Told(Notice::Tick(0));
    let exit = What::Told(Notice::Exit(0, Reason::Kill));
    let expected = [
        line(1, 0, mid(0, 1, false), Priority::Normal, 2, What::Number(7)),
        line(1, 1, own, Priority::Urgent, 5, tick),
        line(2, 0, own, Priority::Urgent, 5, tick),
        line(1, 2, own, Priority::Urgent, 6, exit),
        line(2, 1, own, Priority::Urgent, 6, exit),
    ];
    let notes = [
        Note::Started,
        Note::Responded(5),
        Note::Ticked,
        Note::Stopped,
    ];
    assert_eq!(rt; played.lines.as_slice(), expected.as_slice());
    assert_eq!(rt; played.notes.as_slice(), notes.as_slice());
    Ok(())
}

// ---- one message for several places

/// The first and the second of the messages for three places, replaced by another number.
fn replaced(alloc: Global, message: Message) -> Result<(Replaced, Replaced), MessageFault> {
    let mut places = Places::new(alloc);
    places.push(1)?;
    places.push(2)?;
    places.push(3)?;
    let mut addressed = address(alloc, places, message)?.into_vec();
    if addressed.len() != 3 {
        return Err(MessageFault::Large);
    }
    let (_, third) = addressed.remove(2);
    let (_, second) = addressed.remove(1);
    let (_, first) = addressed.remove(0);
    let first = replaced_number(alloc, first)?;
    let second = replaced_number(alloc, second)?;
    drop(third);
    Ok((first, second))
}

fn replaced_number(alloc: Global, message: Message) -> Result<Replaced, MessageFault> {
    let mut message = message;
    if message.has_types(&[TypeId(2)]) {
        return message.replace(alloc, &Number(9));
    }
    Err(MessageFault::Large)
}

/// The first of three references is replaced by a copy, and then the second one of two. After five
/// retains a message has a room of 128: each place gets a tuple of its own.
#[test]
fn three_places_share_one_tuple_where_there_is_room(rt: HostRuntime) -> Result<(), Fail> {
    let alloc = rt.alloc();
    let message = Message::of(alloc, &Number(7))?;
    let both = replaced(alloc, message)?;
    assert_eq!(rt; both, (Replaced::Copied(3), Replaced::Copied(2)));
    let mut message = Message::of(alloc, &Number(7))?;
    for _ in 0..5 {
        message = narrower(message)?;
    }
    assert_eq!(rt; message.room(), 128);
    let both = replaced(alloc, message)?;
    assert_eq!(rt; both, (Replaced::InPlace, Replaced::InPlace));
    Ok(())
}

/// What the first of three posts answers when its message is replaced while the others are there.
fn first_replaced(alloc: Global, posts: Seq<Post>) -> Result<Replaced, MessageFault> {
    let mut posts = posts.into_vec();
    if posts.len() != 3 {
        return Err(MessageFault::Large);
    }
    let first = posts.remove(0);
    let replaced = match first.envelope.body {
        Body::Content(message) => replaced_number(alloc, message)?,
        _ => return Err(MessageFault::Large),
    };
    drop(posts);
    Ok(replaced)
}

/// Three references to one tuple are sent. Where the message that the actor got has a room of 128,
/// each further place gets a copy, and the first one a sole reference.
#[test]
fn a_fan_out_of_an_actor_shares_one_tuple(rt: HostRuntime) -> Result<(), Fail> {
    let alloc = rt.alloc();
    let shared = fan_out(alloc, 0)?;
    assert_eq!(rt; first_replaced(alloc, shared)?, Replaced::Copied(3));
    let copied = fan_out(alloc, 5)?;
    assert_eq!(rt; first_replaced(alloc, copied)?, Replaced::InPlace);
    Ok(())
}

/// A relay writes into the message that it is given, where that is the only reference: its room stays
/// that of a message that was retained once. Beside another reference it writes into a new tuple, which
/// has the room of a new one.
#[test]
fn a_relay_writes_into_its_only_reference(rt: HostRuntime) -> Result<(), Fail> {
    let alloc = rt.alloc();
    let expected = Relayed {
        to: 3,
        number: Some(RELAYED),
        room: 1 << 51,
        others: 0,
    };
    assert_eq!(rt; relay(alloc, 1, false)?, Some(expected));
    let copied = Relayed {
        room: 1 << 62,
        ..expected
    };
    assert_eq!(rt; relay(alloc, 1, true)?, Some(copied));
    Ok(())
}
