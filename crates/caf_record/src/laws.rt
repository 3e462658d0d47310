//! The laws of records and runs. A law is the contract of a function that does nothing; each holds for
//! any behaviour, any number of places and any number of ticks. The machine of all places on one
//! thread, its runs and the records of actors are defined in `caf_actor` (`Record`, `Run`, `Merge`).
ghost use Rattle.caf_actor.specs.Record.{machine_of};
ghost use Rattle.caf_actor.specs.Merge.{MergeIsARun, MergeHasTheRecord, RunIsLegal, RecordGoesOn, RunGoesOn, OutsideInTurn};
ghost use Rattle.caf_record.specs.BatchOrder.{OrderDecides};
ghost use Rattle.caf_record.specs.Merged.{LegalIsMerged};

use caf_actor::Behavior;

/// The batches of a legal record, by stamp, then by place, are a run of the machine on one thread: each
/// is possible where it stands, and the run ends in the record's snapshots and with its untaken
/// envelopes. So what many workers did is what one thread could have done in this order.
pub fn merge_is_a_run<B: Behavior>()
    ensures { MergeIsARun (machine_of B.rules) }
{}

/// The record of that run is the record that was merged; so legal records are the records of runs.
pub fn merge_has_the_record<B: Behavior>()
    ensures { MergeHasTheRecord (machine_of B.rules) }
{}

/// The record of any run is legal. It ends as the run does, unless a tick or Stop was sent and is not
/// yet taken.
pub fn run_is_legal<B: Behavior>()
    ensures { RunIsLegal (machine_of B.rules) }
{}

/// A legal record without Stop is legal for more ticks, so nothing in it depends on how many will come.
pub fn record_goes_on<B: Behavior>()
    ensures { RecordGoesOn (machine_of B.rules) }
{}

/// A run in which Stop isn't sent is a run for more ticks, with the same end.
pub fn run_goes_on<B: Behavior>()
    ensures { RunGoesOn (machine_of B.rules) }
{}

/// In a legal record place 0 takes a first part of Start, the ticks and Stop, in this order, and no
/// other place takes anything of the outside.
pub fn outside_in_turn<B: Behavior>()
    ensures { OutsideInTurn (machine_of B.rules) }
{}

/// What [`merge`](crate::merge) lists of a stored record that is legal, with its start snapshots, is
/// the merge of which the other laws speak: the stamps of each place rise.
pub fn legal_is_merged<B: Behavior>()
    ensures { LegalIsMerged (machine_of B.rules) }
{}

/// Two legal records that begin alike, and whose batches were taken in one order of places and of
/// senders, are equal: what a trace tells decides the record, and it need not tell the stamps.
pub fn order_decides_the_record<B: Behavior>()
    ensures { OrderDecides (machine_of B.rules) }
{}
