use caf_response::Mode;
use caf_types::{Priority, Reason, Seq, TypeIds};
use caf_words::Value;

/// A step of the conductor's script.
#[derive(Debug, Drop)]
pub enum Step {
    /// Content: to whom, how urgent, its types and its values.
    Tell(u32, Priority, TypeIds, Seq<Value>),
    /// A request: to whom, how urgent, how it waits, its types and its values.
    Request(u32, Priority, Mode, TypeIds, Seq<Value>),
    /// An exit notice with this reason.
    Exit(u32, Reason),
    /// No step is issued until none of the requests waits.
    Sync,
    /// A request that fails after so many ticks, which stand last.
    Within(u32, Priority, Mode, TypeIds, Seq<Value>, u32),
    /// No step is issued until so many ticks have come as there are such steps up to this one.
    Tick,
}
