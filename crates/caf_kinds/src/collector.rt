//! A collector puts postings into an index and adds extents up. It answers what it has once all
//! chunks have come.
ghost use Rattle.std.specs.Prelude.{◌≡◌, [], IfOk, OnOk, None};
ghost use Rattle.std.specs.FinMap as finite;
ghost use Rattle.std.specs.Option.{option_map};
ghost use Rattle.caf_types.specs.TypeTable.{seen};
ghost use Rattle.caf_types.specs.Table.{shape_at};
ghost use Rattle.caf_message.specs.Entries.{HasEntries};
ghost use Rattle.caf_message.specs.Fits.{FitsTable};
ghost use Rattle.caf_actor.specs.PlainForms.{plain_input, plain_reaction};
ghost use Rattle.caf_actor.specs.Rules.{InputFits};
ghost use Rattle.caf_kinds.specs.Core.{core_entries};
ghost use Rattle.caf_kinds.specs.Pipeline.{postings_in, extent_in, finish_in};
ghost use Rattle.caf_kinds.specs.Collector as collector;

use crate::asking::{answers, done, failed, has, interface, quiet, row_in, takes};
use crate::questions::reply;
use crate::{
    Extent, Finish, HeldQuestions, Identity, One, Postings, Question, Summary, Tally, Total,
    Totals, Typed, Unit,
};
use caf_actor::{Answer, Input, Origin, Reaction};
use caf_index::Index;
use caf_message::Message;
use caf_signature::Interface;
use caf_types::{Memory, Seq, TypeTable};
use caf_words::Row;
use std::alloc::Global;

/// What every collector takes.
#[derive(Debug, Drop)]
pub struct CollectorKind;

impl Typed for CollectorKind {
    ghost interface = { collector.interface };

    fn interface(alloc: Global) -> Result<Interface, Memory> {
        let mut signatures = Seq::new(alloc);
        takes::<One<Postings>, One<Unit>>(alloc, &mut signatures)?;
        takes::<One<Extent>, One<Unit>>(alloc, &mut signatures)?;
        takes::<One<Finish>, One<Unit>>(alloc, &mut signatures)?;
        takes::<One<crate::Index>, One<Summary>>(alloc, &mut signatures)?;
        takes::<One<Totals>, One<Total>>(alloc, &mut signatures)?;
        interface(alloc, signatures)
    }
}

/// Puts postings into an index and adds extents up. It answers what it has once all chunks have come.
#[derive(Debug, Drop)]
pub struct Collector {
    pub(crate) identity: Identity<CollectorKind>,
    pub(crate) index: Index,
    pub(crate) tally: Tally,
    pub(crate) held: HeldQuestions,
}

impl Collector {
    /// A collector to which nothing has come.
    pub(crate) fn new(alloc: Global, identity: Identity<CollectorKind>) -> Collector
        ensures { result ≡ record { identity = identity; index = finite.empty; tally = record { postings = 0; extents = 0; lines = 0; bytes = 0; chunks = None }; held = [] } }
    {
        Collector {
            identity,
            index: Index::new(alloc),
            tally: Tally {
                postings: 0,
                extents: 0,
                lines: 0,
                bytes: 0,
                chunks: None,
            },
            held: HeldQuestions::new(alloc),
        }
    }

    pub(crate) fn react(
        &mut self,
        alloc: Global,
        table: &TypeTable,
        input: Input,
    ) -> Result<Reaction, Memory>
        requires entries { HasEntries (seen table.now) core_entries }
        requires fits { InputFits (shape_at (seen table.now)) (plain_input input) }
        ensures { IfOk result (λ reaction. (self.new, plain_reaction reaction) ≡ collector.reacted self.old (plain_input input)) }
    {
        match input {
            Input::Content(origin, message) => self.take(alloc, table, origin, message),
            Input::Start
            | Input::Stop
            | Input::Tick
            | Input::Response(_, _)
            | Input::Failed(_, _)
            | Input::Down(_, _) => Ok(quiet(alloc)),
        }
    }

    fn take(
        &mut self,
        alloc: Global,
        table: &TypeTable,
        origin: Origin,
        message: Message,
    ) -> Result<Reaction, Memory>
        requires entries { HasEntries (seen table.now) core_entries }
        requires fits { FitsTable (seen table.now) message.content }
        ensures { IfOk result (λ reaction. (self.new, plain_reaction reaction) ≡ collector.given self.old origin message.content) }
    {
        let mut message = message;
        if has::<One<Postings>>(alloc, &mut message)? {
            let asked = row_in(alloc, table, &mut message)?;
            return self.take_postings(alloc, asked);
        }
        if has::<One<Extent>>(alloc, &mut message)? {
            let asked = row_in(alloc, table, &mut message)?;
            return self.take_extent(alloc, asked);
        }
        if has::<One<Finish>>(alloc, &mut message)? {
            let asked = row_in(alloc, table, &mut message)?;
            return self.take_finish(alloc, asked);
        }
        if has::<One<crate::Index>>(alloc, &mut message)? {
            return self.ask(alloc, origin, Question::Index);
        }
        if has::<One<Totals>>(alloc, &mut message)? {
            return self.ask(alloc, origin, Question::Totals);
        }
        Ok(answers(alloc, failed()))
    }

    #[tactic(auto, using(crate::proofs::QuestionLemmas::items_read))]
    fn take_postings(
        &mut self,
        alloc: Global,
        asked: Option<One<Postings>>,
    ) -> Result<Reaction, Memory>
        ensures { IfOk result (λ reaction. (self.new, plain_reaction reaction) ≡ collector.on_postings self.old (postings_in (option_map ⟦<One<Postings> as Row>⟧.means asked))) }
    {
        match asked {
            Some(One(postings)) => self.add(alloc, &postings),
            None => Ok(answers(alloc, failed())),
        }
    }

    fn add(&mut self, alloc: Global, postings: &Postings) -> Result<Reaction, Memory>
        ensures { IfOk result (λ reaction. (self.new, plain_reaction reaction) ≡ collector.delivers (collector.with_postings self.old postings.now)) }
    {
        add_postings(&mut self.index, postings)?;
        let tally = self.tally.with_postings();
        self.deliver(alloc, tally)
    }

    fn take_extent(&mut self, alloc: Global, asked: Option<One<Extent>>) -> Result<Reaction, Memory>
        ensures { IfOk result (λ reaction. (self.new, plain_reaction reaction) ≡ collector.on_extent self.old (extent_in (option_map ⟦<One<Extent> as Row>⟧.means asked))) }
    {
        match asked {
            Some(One(extent)) => {
                let tally = self.tally.with_extent(&extent);
                self.deliver(alloc, tally)
            }
            None => Ok(answers(alloc, failed())),
        }
    }

    fn take_finish(&mut self, alloc: Global, asked: Option<One<Finish>>) -> Result<Reaction, Memory>
        ensures { IfOk result (λ reaction. (self.new, plain_reaction reaction) ≡ collector.on_finish self.old (finish_in (option_map ⟦<One<Finish> as Row>⟧.means asked))) }
    {
        match asked {
            Some(One(finish)) => {
                let tally = self.tally.with_finish(&finish);
                self.deliver(alloc, tally)
            }
            None => Ok(answers(alloc, failed())),
        }
    }

    /// Delivers the held requests that can be answered after this tally.
    fn deliver(&mut self, alloc: Global, tally: Tally) -> Result<Reaction, Memory>
        ensures { IfOk result (λ reaction. (self.new, plain_reaction reaction) ≡ collector.delivers (collector.in_tally self.old tally)) }
    {
        self.tally = tally;
        let outputs = self.held.deliver(alloc, &self.index, &tally)?;
        Ok(Reaction {
            outputs,
            answer: done(alloc)?,
            quit: None,
        })
    }

    /// Answers the question, or holds its request.
    fn ask(&mut self, alloc: Global, origin: Origin, question: Question) -> Result<Reaction, Memory>
        ensures { IfOk result (λ reaction. (self.new, plain_reaction reaction) ≡ collector.on_question self.old origin question) }
    {
        if self.tally.answers(question) {
            let answer = reply(alloc, &self.index, &self.tally, question)?;
            return Ok(answers(alloc, Answer::Value(answer)));
        }
        if origin.mid.number > 0 {
            self.held.hold(origin, question)?;
            return Ok(answers(alloc, Answer::Hold));
        }
        Ok(quiet(alloc))
    }
}

/// Puts the postings into the index.
fn add_postings(index: &mut Index, postings: &Postings) -> Result<(), Memory>
    ensures { OnOk result (index.new ≡ collector.with_items index.old postings.now) }
{
    for item in postings.items.as_slice() {
        index.add(postings.file, item.word.as_str(), item.line)?;
    }
    Ok(())
}
