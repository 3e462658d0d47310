use crate::Reason;

/// Which of a mailbox's two lists an envelope goes to.
#[derive(Clone, Copy, Debug, PartialEq, Eq, Drop)]
pub enum Priority {
    /// Handled before everything normal.
    Urgent,
    /// Handled where nothing urgent is left.
    Normal,
}

/// The number of a message: whose request it is or answers, and which one of these.
#[derive(Clone, Copy, Debug, PartialEq, Eq, Drop)]
pub struct Mid {
    /// The place that issued the request.
    pub requester: u32,
    /// The requester's number of it, from 1; 0 is no request.
    pub number: u64,
    /// Whether this is the response.
    pub response: bool,
}

/// What the system tells an actor. The number is the place that sends the notice.
#[derive(Clone, Copy, Debug, PartialEq, Eq, Drop)]
pub enum Notice {
    /// A run begins.
    Start,
    /// A run is at rest, and is to end.
    Stop,
    /// The sender quit, or wants the receiver to quit, with that reason.
    Exit(u32, Reason),
    /// The sender and the receiver are linked from now on.
    Link(u32),
    /// The sender and the receiver are no longer linked.
    Unlink(u32),
    /// The sender is to be told when the receiver quits.
    Watch(u32),
    /// The sender is no longer to be told when the receiver quits.
    Unwatch(u32),
    /// The sender, which the receiver watches, quit with that reason.
    Down(u32, Reason),
    /// The receiver begins: its parent started it.
    Begin(u32),
    /// Time went on by one tick.
    Tick(u32),
}
