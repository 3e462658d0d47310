//! How a batch is put together.
ghost use Rattle.std.specs.Prelude.{◌≡◌, ◌≢◌, ℕ, ◌<◌, ◌++◌, [], length, true, map, IfOk, OnOk, IfSome, IsSome};
ghost use Rattle.caf_message.specs.Envelope.{plain_envelope};
ghost use Rattle.caf_driver.specs.Places.{has_place};
ghost use Rattle.caf_driver.specs.Mail.{waiting_in, IsMail};
ghost use Rattle.caf_driver.specs.Delivery.{HasTakenOut};
ghost use Rattle.caf_driver.specs.Runs.{taken_by_run, is_next, without_run, are_next};
ghost use Rattle.caf_driver.specs.Stepping.{batch_by};

use crate::mail::Mail;
use crate::places::chosen_of;
use crate::{Chooser, SenderRun};
use caf_message::Batch;
use caf_types::{Memory, Seq};
use std::alloc::Global;

/// The place that takes the next batch.
pub(crate) fn choose_place<C: Chooser>(mail: &Mail, chooser: &mut C) -> u32
    requires mail { IsMail mail.now }
    requires some { mail.now.offered ≢ [] }
    ensures { has_place mail.now.offered result ≡ true }
{
    let offered = mail.places();
    let choice = chooser.place(offered);
    chosen_of(offered, choice)
}

/// The batch of a place for which something waits: the next envelope of one sender after another, as
/// the chooser says. After want of memory nothing is said of what waits.
pub(crate) fn collect<C: Chooser>(
    alloc: Global,
    mail: &mut Mail,
    place: u32,
    chooser: &mut C,
) -> Result<Batch, Memory>
    requires mail { IsMail mail.old }
    requires some { has_place mail.old.offered place ≡ true }
    ensures filled { IfOk result (λ batch. batch ≢ []) }
    ensures taken { IfOk result (λ batch. HasTakenOut mail.old place (map plain_envelope batch) mail.new) }
{
    let mut batch = Seq::new(alloc);
    while let Some(sender) = next_sender(mail, place, batch.is_empty(), chooser) {
        batch.push(mail.pop(place, sender))?;
    }
    Ok(batch)
}

/// The sender whose next envelope the place takes; None where the batch ends.
fn next_sender<C: Chooser>(mail: &Mail, place: u32, is_first: bool, chooser: &mut C) -> Option<u32>
    requires mail { IsMail mail.now }
    requires place { place < length mail.now.arrivals }
    ensures first { is_first ≡ true → has_place mail.now.offered place ≡ true → IsSome result }
    ensures waits { IfSome result (λ sender. waiting_in mail.now sender place ≢ []) }
{
    let offered = mail.senders(place);
    if offered.is_empty() {
        return None;
    }
    match chooser.sender(place, offered) {
        Some(sender) => Some(chosen_of(offered, sender)),
        None if is_first => Some(offered.as_slice()[0]),
        None => None,
    }
}

/// The batch that the runs name, which are next. After want of memory nothing is said of what waits.
pub(crate) fn gather(
    alloc: Global,
    mail: &mut Mail,
    place: u32,
    runs: &[SenderRun],
) -> Result<Batch, Memory>
    requires mail { IsMail mail.old }
    requires next { are_next (λ a. waiting_in mail.old a place) runs.now ≡ true }
    ensures named { IfOk result (λ batch. map plain_envelope batch ≡ batch_by (waiting_in mail.old) place runs.now) }
    ensures taken { IfOk result (λ batch. HasTakenOut mail.old place (map plain_envelope batch) mail.new) }
{
    let mut batch = Seq::new(alloc);
    for run in runs {
        gather_run(mail, place, *run, &mut batch)?;
    }
    Ok(batch)
}

/// What the run names comes behind the batch so far.
fn gather_run(mail: &mut Mail, place: u32, run: SenderRun, batch: &mut Batch) -> Result<(), Memory>
    requires mail { IsMail mail.old }
    requires next { is_next (λ a. waiting_in mail.old a place) run ≡ true }
    ensures named { OnOk result (map plain_envelope batch.new ≡ map plain_envelope batch.old ++ taken_by_run (λ a. waiting_in mail.old a place) run) }
    ensures taken { OnOk result (HasTakenOut mail.old place (taken_by_run (λ a. waiting_in mail.old a place) run) mail.new) }
    ensures left { OnOk result ((a : ℕ) → waiting_in mail.new a place ≡ without_run (λ x. waiting_in mail.old x place) run a) }
{
    for _ in 0..run.count {
        batch.push(mail.pop(place, run.sender))?;
    }
    Ok(())
}
