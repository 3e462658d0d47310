//! Requests that a collector holds, in the order in which they came.
ghost use Rattle.std.specs.Prelude.{◌≡◌, [], ◌∷◌, ◌++◌, ◌||◌, ◌&&◌, not, map, OnOk, OnErr, IfOk};
ghost use Rattle.std.specs.List.{filter};
ghost use Rattle.caf_actor.specs.PlainForms.{plain_output};
ghost use Rattle.caf_kinds.specs.Questions as questions;
ghost use Rattle.caf_kinds.specs.Questions.{MayBeHeld};
ghost use Rattle.caf_kinds.specs.Pipeline.{total_content};
ghost use Rattle.caf_kinds.specs.Collector as collector;
ghost use Rattle.caf_kinds.specs.declared.questions.HeldQuestion.{HeldQuestion};

use crate::asking::small_message;
use crate::{One, Summary, Tally, Total};
use caf_actor::{Origin, Output};
use caf_index::Index;
use caf_message::Message;
use caf_types::{Memory, Seq};
use std::alloc::Global;
use std::marker::Model;
use std::mem;

/// What a collector is asked.
#[derive(Clone, Copy, Debug, PartialEq, Eq, Drop)]
pub enum Question {
    /// How much the index has.
    Index,
    /// How much all files are.
    Totals,
}

/// A held request, and what it asks.
#[derive(Clone, Copy, Debug, PartialEq, Eq, Drop)]
pub struct HeldQuestion {
    /// Whose request it is.
    pub requester: u32,
    /// The request's number.
    pub number: u64,
    /// What it asks.
    pub question: Question,
}

/// Held requests, in the order in which they came.
///
/// It knows which questions may be among them, so that where none of these can be answered, no request
/// is looked at.
#[derive(Debug, Drop)]
pub struct HeldQuestions {
    requests: Seq<HeldQuestion>,
    has_index: bool,
    has_totals: bool,
}

impl Model for HeldQuestions {
    ghost use Rattle.std.specs.Prelude.{List};
    ghost use Rattle.caf_kinds.specs.declared.questions.HeldQuestion.{HeldQuestion};
    ghost use Rattle.caf_kinds.specs.Questions.{MayBeHeld};

    ghost Value = { List HeldQuestion };

    ghost view = { λ it. it.requests };

    ghost invariant = { λ it. MayBeHeld it.has_index it.has_totals it.requests };
}

impl HeldQuestions {
    /// No request.
    pub(crate) fn new(alloc: Global) -> HeldQuestions
        ensures { result ≡ [] }
    {
        HeldQuestions {
            requests: Seq::new(alloc),
            has_index: false,
            has_totals: false,
        }
    }

    /// Holds the request with its question.
    pub(crate) fn hold(&mut self, origin: Origin, question: Question) -> Result<(), Memory>
        ensures { OnOk result (self.new ≡ self.old ++ questions.held origin question ∷ []) }
    {
        self.requests.push(HeldQuestion {
            requester: origin.mid.requester,
            number: origin.mid.number,
            question,
        })?;
        self.has_index = either(self.has_index, matches!(question, Question::Index));
        self.has_totals = either(self.has_totals, matches!(question, Question::Totals));
        Ok(())
    }

    /// Delivers those that can be answered, and keeps the others.
    pub(crate) fn deliver(
        &mut self,
        alloc: Global,
        index: &Index,
        tally: &Tally,
    ) -> Result<Seq<Output>, Memory>
        ensures kept { OnOk result (self.new ≡ filter (λ (h : HeldQuestion). not (collector.is_answerable tally.now h.question)) self.old) }
        ensures outputs { IfOk result (λ outputs. map plain_output outputs ≡ map (collector.delivered index.now tally.now) (filter (λ (h : HeldQuestion). collector.is_answerable tally.now h.question) self.old)) }
    {
        let index_answers = tally.answers(Question::Index);
        let totals_answer = tally.answers(Question::Totals);
        if !is_any_asked(
            self.has_index,
            index_answers,
            self.has_totals,
            totals_answer,
        ) {
            return Ok(Seq::new(alloc));
        }
        let requests = mem::replace(&mut self.requests, Seq::new(alloc));
        let (kept, outputs) = parted(alloc, requests, index, tally)?;
        self.requests = kept;
        self.has_index = stays(self.has_index, index_answers);
        self.has_totals = stays(self.has_totals, totals_answer);
        Ok(outputs)
    }
}

fn either(this: bool, that: bool) -> bool
    ensures { result ≡ (this || that) }
{
    this || that
}

/// Whether a question that may be held can be answered.
fn is_any_asked(index: bool, index_answers: bool, totals: bool, totals_answer: bool) -> bool
    ensures { result ≡ ((index && index_answers) || (totals && totals_answer)) }
{
    (index && index_answers) || (totals && totals_answer)
}

/// Whether a question may be held still, after it was answered where it could be.
fn stays(held: bool, answers: bool) -> bool
    ensures { result ≡ (held && not answers) }
{
    held && !answers
}

/// The requests that can't be answered, and the deliveries of the others.
fn parted(
    alloc: Global,
    requests: Seq<HeldQuestion>,
    index: &Index,
    tally: &Tally,
) -> Result<(Seq<HeldQuestion>, Seq<Output>), Memory>
    ensures kept { IfOk result (λ parts. parts.0 ≡ filter (λ (h : HeldQuestion). not (collector.is_answerable tally.now h.question)) requests) }
    ensures outputs { IfOk result (λ parts. map plain_output parts.1 ≡ map (collector.delivered index.now tally.now) (filter (λ (h : HeldQuestion). collector.is_answerable tally.now h.question) requests)) }
{
    let mut kept = Seq::new(alloc);
    let mut outputs = Seq::new(alloc);
    for request in requests.into_vec() {
        part(alloc, request, index, tally, &mut kept, &mut outputs)?;
    }
    Ok((kept, outputs))
}

/// Delivers the request, or keeps it.
fn part(
    alloc: Global,
    request: HeldQuestion,
    index: &Index,
    tally: &Tally,
    kept: &mut Seq<HeldQuestion>,
    outputs: &mut Seq<Output>,
) -> Result<(), Memory>
    ensures kept { OnOk result (kept.new ≡ kept.old ++ filter (λ (h : HeldQuestion). not (collector.is_answerable tally.now h.question)) (request ∷ [])) }
    ensures outputs { OnOk result (map plain_output outputs.new ≡ map plain_output outputs.old ++ map (collector.delivered index.now tally.now) (filter (λ (h : HeldQuestion). collector.is_answerable tally.now h.question) (request ∷ []))) }
{
    if tally.answers(request.question) {
        let answer = reply(alloc, index, tally, request.question)?;
        outputs.push(Output::Deliver(request.requester, request.number, answer))
    } else {
        kept.push(request)
    }
}

/// The answer to the question.
pub(crate) fn reply(
    alloc: Global,
    index: &Index,
    tally: &Tally,
    question: Question,
) -> Result<Message, Memory>
    ensures { IfOk result (λ message. message.content ≡ collector.reply index.now tally.now question) }
{
    match question {
        Question::Index => small_message(
            alloc,
            &One(Summary {
                words: index.words(),
                postings: index.entries(),
            }),
        ),
        Question::Totals => total(alloc, tally.lines, tally.bytes),
    }
}

fn total(alloc: Global, lines: u64, bytes: u64) -> Result<Message, Memory>
    ensures { IfOk result (λ message. message.content ≡ total_content (collector.total_of lines bytes)) }
{
    small_message(alloc, &One(Total { lines, bytes }))
}
