/// Why a drive ended.
#[derive(Clone, Copy, Debug, PartialEq, Eq)]
pub enum DriveEnd {
    /// All is at rest: nothing waits, and no cached envelope is eligible.
    Rest,
    /// It isn't at rest, and at least as many envelopes as the budget were handled.
    Budget,
    /// Neither holds, and this is the least place for which something waits while its own stamp, or that
    /// of something that waits for it, is the last one.
    Exhausted(u32),
}
