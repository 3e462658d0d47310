ghost use Rattle.std.specs.Prelude.{◌≡◌, map, IfOk};
ghost use Rattle.caf_message.specs.Envelope.{plain_envelope};

use caf_message::{Batch, Envelope, Taken};
use caf_types::{Memory, Seq};
use std::alloc::Global;

/// A batch as an actor took it: the envelopes in the order taken, with plain copies of their
/// contents, and the batch's stamp.
#[derive(Debug, Drop)]
pub struct TakenBatch {
    /// One more than the greatest stamp of the actor and of the envelopes.
    pub stamp: u64,
    /// The envelopes in plain form, in the order taken.
    pub taken: Seq<Taken>,
}

/// All batches that an actor took, in their order.
pub type Journal = Seq<TakenBatch>;

/// The batch, and plain copies of its envelopes, for the journal.
pub(crate) fn with_copies(alloc: Global, batch: Batch) -> Result<(Batch, Seq<Taken>), Memory>
    ensures kept { IfOk result (λ both. map plain_envelope both.0 ≡ map plain_envelope batch) }
    ensures copies { IfOk result (λ both. both.1 ≡ map plain_envelope batch) }
{
    let mut batch = batch.into_vec();
    let taken = copies_of(alloc, batch.as_mut_slice())?;
    Ok((Seq::of_vec(batch), taken))
}

/// Plain copies of the envelopes. Contents stay.
fn copies_of(alloc: Global, batch: &mut [Envelope]) -> Result<Seq<Taken>, Memory>
    ensures taken { IfOk result (λ taken. taken ≡ map plain_envelope batch.old) }
    ensures kept { map plain_envelope batch.new ≡ map plain_envelope batch.old }
{
    let mut taken = Vec::with_capacity(alloc, batch.len())?;
    for i in 0..batch.len() {
        let envelope = &mut batch[i];
        let copy = envelope.to_taken(alloc)?;
        taken.push_reserved(copy);
    }
    Ok(Seq::of_vec(taken))
}
