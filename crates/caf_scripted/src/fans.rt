//! A number that an actor tells to three places, where its message has room and where it has none.
ghost use Rattle.std.specs.Prelude.{◌≡◌, ◌≢◌, ◌<◌, [], IfOk, map};
ghost use Rattle.std.specs.List.{AllByRecursion};
ghost use Rattle.caf_types.specs.Table.{built_in, shape_at};
ghost use Rattle.caf_message.specs.Envelope.{plain_envelope, EnvelopeFits};
ghost use Rattle.caf_message.specs.Fits.{FitsTable};
ghost use Rattle.caf_message.specs.declared.envelope.Taken.{Taken};

use crate::{Act, Number, Part, Reply, Sending, Stage};
use caf_actor::Post;
use caf_message::{Batch, Body, Envelope, Message, MessageFault};
use caf_types::{Memory, Mid, Priority, Seq};
use std::alloc::Global;

/// What an actor sends that tells a number to three places, where the message that it is told has
/// been retained so many times, each time in place of it.
pub(crate) fn fan_out(alloc: Global, retains: u8) -> Result<Seq<Post>, MessageFault> {
    let fan = Act {
        sending: Some(Sending::Fan),
        ..Act::only(Reply::Ignore)
    };
    let part = Part {
        place: 1,
        peers: &[3, 4, 5],
        reserve: &[],
        is_vacant: false,
        acts: &[fan],
        cues: &[],
        is_asleep: false,
        takes_unit: true,
    };
    let mut stage = Stage::new(alloc, part)?;
    let message = retained_number(alloc, retains)?;
    let batch = batch_with(alloc, message)?;
    stage.take_batch(batch)
}

/// A message with a number whose room shrank so many times.
pub(crate) fn retained_number(alloc: Global, retains: u8) -> Result<Message, MessageFault>
    ensures { IfOk result (λ message. FitsTable built_in message.content) }
{
    let mut message = Message::of(alloc, &Number(7))?;
    for _ in 0..retains {
        message = narrower(message)?;
    }
    Ok(message)
}

/// A further reference to the message's tuple, in place of it.
pub(crate) fn narrower(message: Message) -> Result<Message, Memory>
    ensures { IfOk result (λ narrow. narrow.content ≡ message.content) }
{
    let mut message = message;
    if message.room() > 0 {
        return message.retain();
    }
    Ok(message)
}

/// The message as the one content of a batch.
pub(crate) fn batch_with(alloc: Global, message: Message) -> Result<Batch, Memory>
    requires { FitsTable built_in message.content }
    ensures filled { IfOk result (λ batch. batch ≢ []) }
    ensures fits { IfOk result (λ batch. AllByRecursion (EnvelopeFits (shape_at built_in)) (map plain_envelope batch)) }
    ensures stamps { IfOk result (λ batch. AllByRecursion (λ (e : Taken). e.stamp < 1099511627776) (map plain_envelope batch)) }
{
    let mut batch = Batch::new(alloc);
    batch.push(Envelope {
        sender: 2,
        seq: 0,
        mid: Mid {
            requester: 2,
            number: 0,
            response: false,
        },
        priority: Priority::Normal,
        stamp: 1,
        body: Body::Content(message),
    })?;
    Ok(batch)
}
