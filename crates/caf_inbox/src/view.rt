use caf_message::Taken;
use std::collections::LinkedList;

/// What a pass on the queue is for. No value of it is made.
pub enum Role {
    /// A reader's.
    Reading,
    /// A lane's.
    Sending,
    /// The note of a lane.
    LaneNoted,
    /// The note of a reader.
    ReaderNoted,
    /// A note that was met.
    Spent,
}

/// What the lane of a sender had pushed when it made a note. No value of it is made.
pub struct Note {
    /// The lane's sender.
    pub sender: u32,
    /// All that it had pushed.
    pub pushed: LinkedList<Taken>,
}

/// What a pass on the queue knows. No value of it is made.
pub struct View {
    /// What the pass is for.
    pub role: Role,
    /// The sender, of a lane and of its note.
    pub sender: u32,
    /// Of a lane what it pushed, of a reader what it took, and of a note what its maker had pushed or taken.
    pub log: LinkedList<Taken>,
    /// Of a reader: the notes of lanes that it has met.
    pub met: LinkedList<Note>,
    /// Of a lane: the notes of the reader that it has met, each as what had been taken.
    pub heard: LinkedList<LinkedList<Taken>>,
    /// Of a reader: the senders that have a lane.
    pub senders: LinkedList<u32>,
}
