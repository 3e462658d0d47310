ghost use Rattle.std.specs.Prelude.{◌≡◌, IfOk};
ghost use Rattle.caf_actor.specs.Snapshot.{fresh};

use crate::{Behavior, Clock, Numbers};
use caf_mailbox::Caches;
use caf_observe::Observers;
use caf_response::{Delays, Holds, Pending};
use caf_types::{Memory, Places, Reason};
use std::alloc::Global;

/// One actor between two envelopes: all that it keeps but for its journal.
#[derive(Drop)]
pub struct Snapshot<B> {
    /// Its own place.
    pub place: u32,
    /// The behaviour's value.
    pub behavior: B,
    /// The stamp of its last batch.
    pub stamp: u64,
    /// Whether it handles content and responses: a child only once it was started.
    pub has_begun: bool,
    /// The places of its children that it hasn't started.
    pub unstarted: Places,
    /// What it took and hasn't handled.
    pub caches: Caches,
    /// Its own requests that wait for a response.
    pub pending: Pending,
    /// The requests of others that it answers later.
    pub holds: Holds,
    /// Its links and its monitors.
    pub observers: Observers,
    /// How many ticks it had.
    pub clock: Clock,
    /// What it sends once so many ticks have come.
    pub delays: Delays,
    /// Why it quit, if it has.
    pub quit: Option<Reason>,
    /// The next number for each receiver.
    pub numbers: Numbers,
}

impl<B: Behavior> Snapshot<B> {
    /// An actor that has taken nothing yet.
    pub(crate) fn new(
        alloc: Global,
        has_begun: bool,
        place: u32,
        behavior: B,
        stamp: u64,
    ) -> Result<Snapshot<B>, Memory>
        ensures fresh { IfOk result (λ snapshot. snapshot ≡ fresh B.rules has_begun place behavior stamp) }
        ensures valid { IfOk result (λ snapshot. B.is_valid snapshot.behavior) }
    {
        let unstarted = Vec::from_slice(alloc, behavior.reserve().as_slice())?;
        Ok(Snapshot {
            place,
            behavior,
            stamp,
            has_begun,
            unstarted: Places::of_vec(unstarted),
            caches: Caches::new(alloc),
            pending: Pending::new(alloc),
            holds: Holds::new(alloc),
            observers: Observers::new(alloc),
            clock: Clock::new(),
            delays: Delays::new(alloc),
            quit: None,
            numbers: Numbers::new(alloc),
        })
    }
}
