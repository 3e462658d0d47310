use caf_message::Message;
use caf_response::Mode;
use caf_types::{Places, Priority, Reason, Sec, TypeIds};

/// What a behaviour sends, or does with the requests that it holds.
#[derive(Debug, Drop)]
pub enum Output {
    /// Content to a place.
    Tell(u32, Priority, Message),
    /// One content to each of the places, in their order. All receive the same tuple where the
    /// message has a room of at least 4,096, and else each further place gets a copy.
    TellMany(Places, Priority, Message),
    /// A request: to whom, how urgent, whether content waits for the response, the tag that the
    /// response will have, the types that are expected, and the content.
    Request(u32, Priority, Mode, u32, TypeIds, Message),
    /// An exit notice with this reason.
    Exit(u32, Reason),
    /// Links this actor and the one at the place, each to the other.
    Link(u32),
    /// Ends the link with the place, on both sides.
    Unlink(u32),
    /// Asks to be told when the actor at the place quits.
    Watch(u32),
    /// Asks no longer to be told.
    Unwatch(u32),
    /// Answers the held request of this requester and number.
    Deliver(u32, u64, Message),
    /// Answers the held request of this requester and number by an error.
    Break(u32, u64, Sec),
    /// Starts the child at this place, unless it was started before.
    Spawn(u32),
    /// Hands a tick on to the actor at the place.
    Tick(u32),
    /// Content to a place after so many ticks, of which none counts as one: ticks, to whom, how
    /// urgent, and the content. An actor that quits before gives it up.
    Delay(u32, u32, Priority, Message),
    /// A request that fails with [`Sec::RequestTimeout`] where no response has come after so many
    /// ticks, of which none counts as one: ticks, and then as `Request`.
    Within(u32, u32, Priority, Mode, u32, TypeIds, Message),
}
