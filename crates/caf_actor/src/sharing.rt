//! One message for several places: where it has room, all of them get references to one tuple.
ghost use Rattle.std.specs.Prelude.{◌≡◌, ◌≤◌, ◌<◌, true, false, length, drop, IfOk, OnOk};
ghost use Rattle.caf_steps.specs.Reference.{fresh, retained, second};
ghost use Rattle.caf_actor.specs.Sharing.{contents_of, to_each, to_copies, IsShared, shared_among, retained_times, further_of};

use caf_message::Message;
use caf_types::{Memory, Places, Seq};
use std::alloc::Global;

/// The least room of a message that is shared among places.
const SHARING_ROOM: u64 = 4096;

/// The message for each of the places, in their order: the first place gets this very reference.
/// Where it has a room of at least 4,096, it is retained once for each further place, so that up to
/// 1,024 places have one tuple; else each further place gets a copy.
pub fn address(
    alloc: Global,
    places: Places,
    message: Message,
) -> Result<Seq<(u32, Message)>, Memory>
    ensures contents { IfOk result (λ addressed. contents_of addressed ≡ to_each places message.content) }
    ensures shared { 4096 ≤ message.room → 1 ≤ length places → length places ≤ 1024 → IfOk result (IsShared message (length places)) }
    ensures references { 4096 ≤ message.room → length places ≤ 1024 → IfOk result (λ addressed. addressed ≡ shared_among message places) }
    ensures copied { message.room < 4096 → IfOk result (λ addressed. drop 1 addressed ≡ to_copies (drop 1 places) message.content) }
{
    let mut message = message;
    match places.as_slice() {
        [] => Ok(Seq::new(alloc)),
        [first, further @ ..] => {
            let shares = message.room() >= SHARING_ROOM;
            let mut addressed = further_messages(alloc, &mut message, further, shares)?;
            match addressed.insert(0, (*first, message)) {
                Ok(()) => Ok(Seq::of_vec(addressed)),
                Err(_) => Err(Memory),
            }
        }
    }
}

/// A second message with the same content for each of the places.
fn further_messages(
    alloc: Global,
    message: &mut Message,
    places: &[u32],
    shares: bool,
) -> Result<Vec<(u32, Message)>, Memory>
    ensures contents { IfOk result (λ further. contents_of further.items ≡ to_each places.now message.old.content) }
    ensures kept { message.new.content ≡ message.old.content }
    ensures shared { shares ≡ true → 4096 ≤ message.old.room → length places.now ≤ 1023 → OnOk result (message.new ≡ retained_times (length places.now) message.old) }
    ensures seconds { shares ≡ true → 4096 ≤ message.old.room → length places.now ≤ 1023 → IfOk result (λ further. further.items ≡ further_of message.old 0 places.now) }
    ensures copied { shares ≡ false → IfOk result (λ further. further.items ≡ to_copies places.now message.old.content) }
{
    let mut further = Vec::with_capacity(alloc, places.len())?;
    for place in places {
        let another = another_message(alloc, message, shares)?;
        further.push_reserved((*place, another));
    }
    Ok(further)
}

/// A second message with the same content: in the same tuple where it is to be shared and has room,
/// and else a copy.
pub fn another_message(
    alloc: Global,
    message: &mut Message,
    shares: bool,
) -> Result<Message, Memory>
    ensures same { IfOk result (λ another. another.content ≡ message.old.content) }
    ensures kept { message.new.content ≡ message.old.content }
    ensures shared { shares ≡ true → 1 ≤ message.old.room → OnOk result (message.new ≡ retained message.old) }
    ensures second { shares ≡ true → 1 ≤ message.old.room → IfOk result (λ another. another ≡ second message.old) }
    ensures spent { message.old.room ≡ 0 → IfOk result (λ another. another ≡ fresh message.old.content) }
    ensures copied { shares ≡ false → IfOk result (λ another. another ≡ fresh message.old.content) }
{
    if shares && message.room() > 0 {
        message.retain()
    } else {
        message.copy(alloc)
    }
}
