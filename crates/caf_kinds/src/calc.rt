//! A calc answers the sum, difference or product of two numbers.
ghost use Rattle.std.specs.Prelude.{◌≡◌, IfOk};
ghost use Rattle.std.specs.Option.{option_map};
ghost use Rattle.caf_types.specs.TypeTable.{seen};
ghost use Rattle.caf_types.specs.Table.{shape_at};
ghost use Rattle.caf_message.specs.Entries.{HasEntries};
ghost use Rattle.caf_message.specs.Fits.{FitsTable};
ghost use Rattle.caf_actor.specs.PlainForms.{plain_input, plain_reaction, plain_answer};
ghost use Rattle.caf_actor.specs.Rules.{InputFits};
ghost use Rattle.caf_kinds.specs.Core.{core_entries};
ghost use Rattle.caf_kinds.specs.Calc as calc;

use crate::asking::{answers, failed, has, interface, quiet, row_in, signed, takes};
use crate::{Add, Identity, Mul, One, Signed, Sub, Three, Typed};
use caf_actor::{Answer, Input, Reaction};
use caf_message::Message;
use caf_signature::Interface;
use caf_types::{Memory, Seq, TypeTable};
use caf_words::Row;
use std::alloc::Global;

/// What every calc takes.
#[derive(Debug, Drop)]
pub struct CalcKind;

impl Typed for CalcKind {
    ghost interface = { calc.interface };

    fn interface(alloc: Global) -> Result<Interface, Memory> {
        let mut signatures = Seq::new(alloc);
        takes::<Three<Add, Signed, Signed>, One<Signed>>(alloc, &mut signatures)?;
        takes::<Three<Sub, Signed, Signed>, One<Signed>>(alloc, &mut signatures)?;
        takes::<Three<Mul, Signed, Signed>, One<Signed>>(alloc, &mut signatures)?;
        interface(alloc, signatures)
    }
}

/// Answers the sum, difference or product of two numbers.
#[derive(Debug, Drop)]
pub struct Calc {
    pub(crate) identity: Identity<CalcKind>,
}

impl Calc {
    pub(crate) fn react(
        &mut self,
        alloc: Global,
        table: &TypeTable,
        input: Input,
    ) -> Result<Reaction, Memory>
        requires entries { HasEntries (seen table.now) core_entries }
        requires fits { InputFits (shape_at (seen table.now)) (plain_input input) }
        ensures { IfOk result (λ reaction. (self.new, plain_reaction reaction) ≡ calc.reacted self.old (plain_input input)) }
    {
        match input {
            Input::Content(_, message) => Ok(answers(alloc, answer_to(alloc, table, message)?)),
            Input::Start
            | Input::Stop
            | Input::Tick
            | Input::Response(_, _)
            | Input::Failed(_, _)
            | Input::Down(_, _) => Ok(quiet(alloc)),
        }
    }
}

fn answer_to(alloc: Global, table: &TypeTable, message: Message) -> Result<Answer, Memory>
    requires entries { HasEntries (seen table.now) core_entries }
    requires fits { FitsTable (seen table.now) message.content }
    ensures { IfOk result (λ answer. plain_answer answer ≡ calc.answer_to message.content) }
{
    let mut message = message;
    if has::<Three<Add, Signed, Signed>>(alloc, &mut message)? {
        return sum(alloc, row_in(alloc, table, &mut message)?);
    }
    if has::<Three<Sub, Signed, Signed>>(alloc, &mut message)? {
        return difference(alloc, row_in(alloc, table, &mut message)?);
    }
    if has::<Three<Mul, Signed, Signed>>(alloc, &mut message)? {
        return product(alloc, row_in(alloc, table, &mut message)?);
    }
    Ok(failed())
}

fn sum(alloc: Global, asked: Option<Three<Add, Signed, Signed>>) -> Result<Answer, Memory>
    ensures { IfOk result (λ answer. plain_answer answer ≡ calc.on_two calc.sum (option_map ⟦<Three<Add, Signed, Signed> as Row>⟧.means asked)) }
{
    match asked {
        Some(Three(_, Signed(x), Signed(y))) => number(alloc, x.checked_add(y)),
        None => Ok(failed()),
    }
}

fn difference(alloc: Global, asked: Option<Three<Sub, Signed, Signed>>) -> Result<Answer, Memory>
    ensures { IfOk result (λ answer. plain_answer answer ≡ calc.on_two calc.difference (option_map ⟦<Three<Sub, Signed, Signed> as Row>⟧.means asked)) }
{
    match asked {
        Some(Three(_, Signed(x), Signed(y))) => number(alloc, x.checked_sub(y)),
        None => Ok(failed()),
    }
}

fn product(alloc: Global, asked: Option<Three<Mul, Signed, Signed>>) -> Result<Answer, Memory>
    ensures { IfOk result (λ answer. plain_answer answer ≡ calc.on_two calc.product (option_map ⟦<Three<Mul, Signed, Signed> as Row>⟧.means asked)) }
{
    match asked {
        Some(Three(_, Signed(x), Signed(y))) => number(alloc, x.checked_mul(y)),
        None => Ok(failed()),
    }
}

/// The number; where there is none of 64 signed bits, the error `failed`.
fn number(alloc: Global, number: Option<i64>) -> Result<Answer, Memory>
    ensures { IfOk result (λ answer. plain_answer answer ≡ calc.checked number) }
{
    match number {
        Some(number) => signed(alloc, number),
        None => Ok(failed()),
    }
}
