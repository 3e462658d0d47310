/// So many envelopes of one sender, taken one after the other.
#[derive(Clone, Copy, Debug, PartialEq, Eq, Drop)]
pub struct SenderRun {
    /// The place that sent them, or the outside.
    pub sender: u32,
    /// How many.
    pub count: u64,
}
