//! A relay that gets a number in a message with little room, alone or beside another reference.
ghost use Rattle.std.specs.Prelude.{◌≡◌, ◌≢◌, ◌<◌, [], IfOk, map};
ghost use Rattle.std.specs.List.{AllByRecursion};
ghost use Rattle.caf_types.specs.Table.{built_in, shape_at};
ghost use Rattle.caf_message.specs.Envelope.{plain_envelope, EnvelopeFits};
ghost use Rattle.caf_message.specs.declared.envelope.Taken.{Taken};

use crate::Relay;
use crate::fans::{batch_with, retained_number};
use crate::stage::interface;
use caf_actor::{Actor, Post};
use caf_message::{Batch, Body, MessageFault};
use caf_types::{Memory, Places, Seq, TypeTable};
use std::alloc::Global;

/// What a relay tells on.
#[derive(Clone, Copy, Debug, PartialEq, Eq, Drop)]
pub(crate) struct Relayed {
    /// The place that it goes to.
    pub(crate) to: u32,
    /// The number in it.
    pub(crate) number: Option<u64>,
    /// The room of its message.
    pub(crate) room: u64,
    /// How much else is told.
    pub(crate) others: usize,
}

/// What a relay at place 1 tells place 3, where the message that it is given has been retained so
/// many times, each time in place of it, and where `is_shared`, once more.
pub(crate) fn relay(
    alloc: Global,
    retains: u8,
    is_shared: bool,
) -> Result<Option<Relayed>, MessageFault> {
    let mut message = retained_number(alloc, retains)?;
    let other = if is_shared && message.room() > 0 {
        Some(message.retain()?)
    } else {
        None
    };
    let batch = batch_with(alloc, message)?;
    let posts = posts_of_a_relay(alloc, batch)?;
    let relayed = only_post(alloc, posts)?;
    drop(other);
    Ok(relayed)
}

/// What a new relay posts at the batch.
fn posts_of_a_relay(alloc: Global, batch: Batch) -> Result<Seq<Post>, Memory>
    requires filled { batch ≢ [] }
    requires fits { AllByRecursion (EnvelopeFits (shape_at built_in)) (map plain_envelope batch) }
    requires stamps { AllByRecursion (λ (e : Taken). e.stamp < 1099511627776) (map plain_envelope batch) }
{
    let table = TypeTable::new(alloc)?;
    let relay = new_relay(alloc)?;
    let mut actor = Actor::new(alloc, 1, relay, 0)?;
    actor.batch(alloc, &table, batch)
}

fn new_relay(alloc: Global) -> Result<Relay, Memory>
    ensures { IfOk result (λ relay. relay.place ≡ 1) }
{
    Ok(Relay {
        place: 1,
        peer: 3,
        reserve: Places::new(alloc),
        interface: interface(alloc, false)?,
    })
}

fn only_post(alloc: Global, posts: Seq<Post>) -> Result<Option<Relayed>, Memory> {
    let mut posts = posts.into_vec();
    let others = posts.len().saturating_sub(1);
    match posts.pop() {
        Some(post) => told_by(alloc, post, others),
        None => Ok(None),
    }
}

fn told_by(alloc: Global, post: Post, others: usize) -> Result<Option<Relayed>, Memory> {
    let to = post.to;
    match post.envelope.body {
        Body::Content(message) => {
            let mut message = message;
            let words = message.words(alloc)?;
            Ok(Some(Relayed {
                to,
                number: words.get(2).copied(),
                room: message.room(),
                others,
            }))
        }
        Body::Failure(_) | Body::System(_) => Ok(None),
    }
}
