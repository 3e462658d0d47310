//! The laws of complete runs. A law is the contract of a function that does nothing.
ghost use Rattle.caf_headline.specs.Fresh.{OpeningIsFresh};
ghost use Rattle.caf_headline.specs.Promises.{CompleteRunsKeepTheirPromises};

use caf_carriers::laws::{
    closes_all, every_message_is_taken, legal_record_is_carried, none_handled_after_quitting,
    resting_record_stands,
};
use caf_kinds::{Kind, conductor_closes};
use caf_pipeline::laws::complete_files_are_indexed;
use caf_record::laws::merge_is_a_run;

/// The actors of an opening stand as the laws of requests want it: each at its own place, with nothing taken, begun
/// unless it is a child, and at place 0 a closer, who is nobody's peer.
pub fn opening_is_fresh()
    ensures { OpeningIsFresh }
{
    conductor_closes();
}

/// In a complete record of opened actors, merged by stamp, the batches are a run of the actor machine on one thread;
/// every message sent was taken once, as sent, in order per sender; none was handled after quitting; every request
/// resolved exactly once, if its requester hadn't quit; and the index of an undisturbed scenario is the files' plain
/// index.
pub fn complete_runs_keep_their_promises()
    ensures { CompleteRunsKeepTheirPromises }
{
    opening_is_fresh();
    merge_is_a_run::<Kind>();
    every_message_is_taken::<Kind>();
    none_handled_after_quitting::<Kind>();
    legal_record_is_carried::<Kind>();
    resting_record_stands::<Kind>();
    closes_all::<Kind>();
    complete_files_are_indexed();
}
