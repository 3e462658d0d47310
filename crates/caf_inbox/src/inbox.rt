//! How an inbox is made: its reader, and a lane for each sender.
ghost use Rattle.std.specs.Prelude.{◌≡◌, ◌≢◌, [], map, Contains, AllPairs, IfOk};
ghost use Rattle.crossbeam_queue.specs.SegTies.{IsSegPassOf};
ghost use Rattle.caf_inbox.specs.declared.view.Role.TheVariants.{Reading};
ghost use Rattle.caf_inbox.specs.Ends.{fresh_reader, fresh_lane};
ghost use Rattle.caf_inbox.specs.Views.{with_lane, new_lane};

use crate::lane::Lane;
use crate::pops::Counted;
use crate::queue::{Pass, Queue, Shared};
use crate::reader::Reader;
use crate::rule::{ForLane, Named};
use caf_message::Entries;
use caf_types::{Memory, Seq};
use std::alloc::Global;
use std::marker::Brand;
use std::sync::Arc;

/// A lane of a sender that has none yet, cut from the reader's pass.
fn lane_for<E: Entries, N: Named>(shared: &Shared<E>, pass: &mut Pass<E>, sender: u32) -> Pass<E>
    requires pass { IsSegPassOf shared.now.queue pass.old × (pass.old.me.view.client.role ≡ Reading) }
    requires new { ¬ Contains pass.old.me.view.client.senders sender }
    requires named { sender ≡ N.sender }
    ensures passes { IsSegPassOf shared.now.queue pass.new × IsSegPassOf shared.now.queue result }
    ensures views { (pass.new.me.view.client ≡ with_lane sender pass.old.me.view.client) × (result.me.view.client ≡ new_lane sender) }
{
    shared.queue.another::<ForLane<N>>(pass)
}

/// Where inboxes come from.
pub struct Inbox;

impl Inbox {
    /// The reader of a new inbox, and a lane for each sender, in the order of the senders, which differ.
    ///
    /// Each inbox is one queue. It ends, with what it holds, when the reader and all lanes are gone.
    pub fn make<E: Entries>(
        alloc: Global,
        senders: &[u32],
    ) -> Result<(Reader<E>, Seq<Lane<E>>), Memory>
        requires { AllPairs (λ a b. a ≢ b) senders.now }
        ensures reader { IfOk result (λ r. r.0 ≡ fresh_reader r.0.inbox senders.now) }
        ensures lanes { IfOk result (λ r. r.1 ≡ map (fresh_lane r.0.inbox) senders.now) }
    {
        let (queue, mut pass) = Queue::<E>::with_rule(alloc)?;
        let Ok(shared) = Arc::new(alloc, Shared { queue }) else {
            return Err(Memory);
        };
        let mut lanes = Seq::new(alloc);
        for sender in senders {
            let lane = lane_for::<E, Brand>(&shared, &mut pass, *sender);
            lanes.push(Lane {
                shared: Arc::try_clone(&shared)?,
                pass: lane,
                sender: *sender,
            })?;
        }
        let reader = Reader {
            shared,
            ends: Counted::new(pass),
            is_broken: false,
        };
        Ok((reader, lanes))
    }
}
