use crate::Origin;
use caf_message::Message;
use caf_types::{Reason, Sec};

/// What a behaviour is given.
#[derive(Debug, Drop)]
pub enum Input {
    /// A run begins.
    Start,
    /// A run is at rest.
    Stop,
    /// Content of types that are an input of the behaviour's interface.
    Content(Origin, Message),
    /// The response to the request with this tag, of the types that the request declared.
    Response(u32, Message),
    /// The request with this tag was answered by an error, or its time is over.
    Failed(u32, Sec),
    /// The actor at this place, which this one watches, quit for this reason.
    Down(u32, Reason),
    /// A tick has come. Place 0 alone is given it.
    Tick,
}
