//! The queue of an inbox.

use crate::held::Held;
use crate::rule::InOrder;
use crate::view::View;
use caf_message::Entries;
use crossbeam_queue::{RuledSegQueue, SegPass};

/// Held envelopes, oldest first, under the rule.
pub type Queue<E> = RuledSegQueue<Held<E>, View, InOrder>;

/// What one end of the inbox, or a note, knows of the queue. It has no bytes.
pub type Pass<E> = SegPass<Held<E>, View>;

/// The queue, which ends with the last of the ends that share it.
pub struct Shared<E: Entries> {
    pub queue: Queue<E>,
}

impl<E: Entries> Drop for Shared<E> {
    fn drop(self) {
        let Self { queue } = self;
        queue.destroy();
    }
}
