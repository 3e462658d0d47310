//! The whole text, request by request.
ghost use Rattle.std.specs.Prelude.{◌≡◌, ◌++◌, ◌≤◌, ◌+◌, ◌<◌, ◌^◌, true, length, map, slice_get, IfOk, OnOk};
ghost use Rattle.std.specs.Option.{option_copied};
ghost use Rattle.caf_types.specs.TypeTable.{seen};
ghost use Rattle.caf_script.specs.Reply.{plain_reply, words_of};
ghost use Rattle.caf_report.specs.Values.{values_text};
ghost use Rattle.caf_report.specs.Report as report;
ghost use Rattle.caf_report.specs.Report.{end_of};

use crate::lines::{push_error, push_front, push_unsent};
use crate::values::push_reply;
use caf_actor::Behavior;
use caf_index::index_text;
use caf_kinds::{Kind, Step, StepReply};
use caf_record::{RunRecord, trace_text};
use caf_signature::result_of;
use caf_types::{Letters, Memory, Octets, Seq, TypeId, TypeIds, TypeTable};
use caf_words::Value;
use std::alloc::Global;

/// How a run ended.
#[derive(Clone, Copy, Drop)]
pub(crate) struct Ending<'a> {
    /// The table of its types.
    pub(crate) table: &'a TypeTable,
    /// The names of its files.
    pub(crate) names: &'a Seq<Letters>,
    /// Its behaviours by place.
    pub(crate) kinds: &'a Seq<Kind>,
    /// What became of each step.
    pub(crate) replies: &'a [StepReply],
}

/// The text of a record, where the conductor at place 0 played this script, the files have these names, and
/// these are the behaviours at the end by place.
///
/// Of each request, in order, it tells that it was not sent, by which error it was answered, or by which
/// values; a request [index] that was answered is told by the text of the index. Steps are numbered from 1,
/// also those that are no requests. With `is_traced` the line `trace` and the trace of the record follow.
///
/// There are no more journals than places, which are numbers of 32 bits. The one refusal is want of memory.
pub fn record_text(
    alloc: Global,
    table: &TypeTable,
    script: &Seq<Step>,
    names: &Seq<Letters>,
    kinds: &Seq<Kind>,
    kept: &RunRecord,
    is_traced: bool,
) -> Result<Octets, Memory>
    requires { length kept.now.journals ≤ 2 ^ 32 }
    ensures { IfOk result (λ text. text ≡ report.text_of (seen table.now) script.now names.now kinds.now kept.now is_traced) }
{
    let mut text = Vec::new(alloc);
    let ending = Ending {
        table,
        names,
        kinds,
        replies: replies_of(kinds),
    };
    ending.push_steps(alloc, &mut text, script.as_slice())?;
    if is_traced {
        push_trace(alloc, &mut text, kept)?;
    }
    Ok(Seq::of_vec(text))
}

/// What became of each step, as the conductor has it, which is the actor at place 0.
fn replies_of(kinds: &Seq<Kind>) -> &[StepReply]
    ensures { map plain_reply result.now ≡ report.replies_at (slice_get kinds.now 0) }
{
    let Some(conductor) = kinds.get(0) else {
        return &[];
    };
    match conductor.replies() {
        Some(replies) => replies.as_slice(),
        None => &[],
    }
}

/// Adds the line `trace` and the trace.
fn push_trace(alloc: Global, text: &mut Vec<u8>, kept: &RunRecord) -> Result<(), Memory>
    requires { length kept.now.journals ≤ 2 ^ 32 }
    ensures { OnOk result (text.new.items ≡ text.old.items ++ report.trace_part true kept.now) }
{
    let trace = trace_text(alloc, kept)?;
    text.extend_from_slice(b"trace\n")?;
    text.extend_from_slice(trace.as_slice())?;
    Ok(())
}

impl<'a> Ending<'a> {
    /// Adds what became of the requests of the script.
    pub(crate) fn push_steps(
        &self,
        alloc: Global,
        text: &mut Vec<u8>,
        script: &[Step],
    ) -> Result<(), Memory>
        ensures { OnOk result (text.new.items ≡ text.old.items ++ report.steps_text (end_of self.now) 0 script.now) }
    {
        for before in 0..script.len() {
            self.push_step(alloc, text, before as u64, &script[before])?;
        }
        Ok(())
    }

    /// Adds what became of the step behind so many others, where it is a request.
    fn push_step(
        &self,
        alloc: Global,
        text: &mut Vec<u8>,
        before: u64,
        step: &Step,
    ) -> Result<(), Memory>
        requires { before + 1 < 2 ^ 64 }
        ensures { OnOk result (text.new.items ≡ text.old.items ++ report.step_text (end_of self.now) before step.now) }
    {
        match step {
            Step::Request(to, _, _, types, _) | Step::Within(to, _, _, types, _, _) => {
                self.push_request(alloc, text, before, *to, types)
            }
            Step::Tell(_, _, _, _) | Step::Exit(_, _) | Step::Sync | Step::Tick => Ok(()),
        }
    }

    /// Adds what became of the request behind so many other steps.
    fn push_request(
        &self,
        alloc: Global,
        text: &mut Vec<u8>,
        before: u64,
        to: u32,
        types: &TypeIds,
    ) -> Result<(), Memory>
        requires { before + 1 < 2 ^ 64 }
        ensures { OnOk result (text.new.items ≡ text.old.items ++ report.request_text (end_of self.now) (before + 1) to types.now (report.reply_at (end_of self.now) before)) }
    {
        match self.replies.get(before as usize) {
            None | Some(StepReply::Unsent) => push_unsent(text, before + 1),
            Some(StepReply::Open_) => Ok(()),
            Some(StepReply::Error(why)) => push_error(text, before + 1, *why),
            Some(StepReply::Value(values)) => {
                self.push_answer(alloc, text, before + 1, to, types, values)
            }
        }
    }

    /// Adds the answer of the actor at that place to a message of these types.
    fn push_answer(
        &self,
        alloc: Global,
        text: &mut Vec<u8>,
        number: u64,
        to: u32,
        types: &TypeIds,
        values: &Seq<Value>,
    ) -> Result<(), Memory>
        ensures { OnOk result (text.new.items ≡ text.old.items ++ report.answer_text (end_of self.now) number to types.now (words_of values.now)) }
    {
        if asks_index(types.as_slice()) {
            return self.push_index(alloc, text, to);
        }
        push_front(text, number)?;
        self.push_values(alloc, text, to, types, values)?;
        text.push(b'\n')?;
        Ok(())
    }

    /// Adds the text of the index of the actor at that place.
    fn push_index(&self, alloc: Global, text: &mut Vec<u8>, to: u32) -> Result<(), Memory>
        ensures { OnOk result (text.new.items ≡ text.old.items ++ report.text_of_index (end_of self.now).names (report.index_at (slice_get (end_of self.now).kinds to))) }
    {
        let Some(kind) = self.kinds.get(to as u64) else {
            return Ok(());
        };
        let Some(index) = kind.index() else {
            return Ok(());
        };
        let index = index_text(alloc, self.names, index)?;
        text.extend_from_slice(index.as_slice())?;
        Ok(())
    }

    /// Adds the values by which the actor at that place answered a message of these types.
    fn push_values(
        &self,
        alloc: Global,
        text: &mut Vec<u8>,
        to: u32,
        types: &TypeIds,
        values: &Seq<Value>,
    ) -> Result<(), Memory>
        ensures { OnOk result (text.new.items ≡ text.old.items ++ values_text (end_of self.now).table (report.answer_ids (slice_get (end_of self.now).kinds to) types.now) (words_of values.now)) }
    {
        match self.answer_types(to, types) {
            Some(types) => push_reply(alloc, text, self.table, types.as_slice(), values),
            None => push_reply(alloc, text, self.table, &[], values),
        }
    }

    /// The types with which the actor at that place answers content of these types.
    fn answer_types(&self, to: u32, types: &TypeIds) -> Option<&TypeIds>
        ensures { report.ids_or_none (option_copied result) ≡ report.answer_ids (slice_get (end_of self.now).kinds to) types.now }
    {
        let kind = self.kinds.get(to as u64)?;
        result_of(kind.interface(), types.as_slice())
    }
}

/// Whether the types are those of the message [index].
fn asks_index(types: &[TypeId]) -> bool
    ensures { result ≡ report.asks_index types.now }
{
    [TypeId(208)].as_slice() == types
}
