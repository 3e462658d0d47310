//! The number that bounds a batch.

/// How many envelopes one [`Reader::take`](crate::Reader::take) takes at most.
///
/// A reaction has at most 1,024 outputs, so what one reaction of one sender brings to an inbox fits one batch. The list
/// of such a batch takes about 100 KiB, and what a turn costs beside its envelopes (to claim the body, to look at what
/// is due, to settle and to give it back) is shared by that many. However full an inbox is, a worker has handled such a
/// batch before it looks at the budget and at other places again.
pub const MOST_IN_BATCH: u32 = 1_024;
