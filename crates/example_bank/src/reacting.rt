//! What the actors of the bank do at an input.
ghost use Rattle.std.specs.Prelude.{◌≡◌, ◌++◌, map, OnOk, IfOk};
ghost use Rattle.caf_types.specs.Table.{shape_at};
ghost use Rattle.caf_types.specs.TypeTable.{seen};
ghost use Rattle.caf_message.specs.Entries.{HasEntries};
ghost use Rattle.caf_actor.specs.PlainForms.{plain_input, plain_output, plain_answer};
ghost use Rattle.caf_actor.specs.Rules.{InputFits};
ghost use Rattle.example_bank.specs.Types.{bank_entries};
ghost use Rattle.example_bank.specs.Member as spec;

use crate::account::{Account, Reply};
use crate::contents::{ask, ask_in, got_in, number};
use crate::member::{GIRO, Got, SAVINGS};
use crate::types::{Balance, Deposit, WaitFor, Withdraw};
use caf_actor::{Answer, Input, Output};
use caf_kinds::{One, Two, Unsigned};
use caf_types::{Memory, Reason, Sec, Seq, TypeTable};
use std::alloc::Global;

/// At the start a teller asks, then it keeps what it gets, and at the end it ends the accounts.
pub fn tell(
    alloc: Global,
    table: &TypeTable,
    got: &mut Seq<Got>,
    outputs: &mut Seq<Output>,
    input: Input,
) -> Result<Answer, Memory>
    requires entries { HasEntries (seen table.now) bank_entries }
    requires fits { InputFits (shape_at (seen table.now)) (plain_input input) }
    ensures got { OnOk result (got.new ≡ spec.got_after got.old (plain_input input)) }
    ensures outputs { OnOk result (map plain_output outputs.new ≡ map plain_output outputs.old ++ spec.told (plain_input input)) }
    ensures answer { IfOk result (λ answer. plain_answer answer ≡ spec.told_answer (plain_input input)) }
{
    match input {
        Input::Start => ask_all(alloc, outputs)?,
        Input::Stop => {
            outputs.push(Output::Exit(GIRO, Reason::Normal))?;
            outputs.push(Output::Exit(SAVINGS, Reason::Normal))?;
        }
        Input::Response(request, message) => got.push(got_in(alloc, table, request, message)?)?,
        Input::Failed(request, why) => got.push(Got::Error(request, why))?,
        Input::Content(_, _) => return Ok(Answer::Error(Sec::Failed)),
        Input::Down(_, _) | Input::Tick => {}
    }
    Ok(Answer::Nothing)
}

/// Asks all that a teller asks.
fn ask_all(alloc: Global, outputs: &mut Seq<Output>) -> Result<(), Memory>
    ensures { OnOk result (map plain_output outputs.new ≡ map plain_output outputs.old ++ spec.asks) }
{
    ask(alloc, outputs, GIRO, 1, &Two(Deposit::new(), Unsigned(100)))?;
    ask(
        alloc,
        outputs,
        GIRO,
        2,
        &Two(Withdraw::new(), Unsigned(150)),
    )?;
    ask(
        alloc,
        outputs,
        SAVINGS,
        3,
        &Two(WaitFor::new(), Unsigned(50)),
    )?;
    ask(alloc, outputs, GIRO, 4, &Two(Withdraw::new(), Unsigned(60)))?;
    ask(
        alloc,
        outputs,
        SAVINGS,
        5,
        &Two(Deposit::new(), Unsigned(60)),
    )?;
    ask(alloc, outputs, GIRO, 6, &One(Balance::new()))
}

/// At content an account does what it decides, and at other inputs nothing.
pub fn serve(
    alloc: Global,
    table: &TypeTable,
    account: &mut Account,
    outputs: &mut Seq<Output>,
    input: Input,
) -> Result<Answer, Memory>
    requires entries { HasEntries (seen table.now) bank_entries }
    requires fits { InputFits (shape_at (seen table.now)) (plain_input input) }
    ensures account { OnOk result (account.new ≡ spec.account_after account.old (plain_input input)) }
    ensures outputs { OnOk result (map plain_output outputs.new ≡ map plain_output outputs.old ++ spec.served account.old (plain_input input)) }
    ensures answer { IfOk result (λ answer. plain_answer answer ≡ spec.served_answer account.old (plain_input input)) }
{
    let Input::Content(origin, message) = input else {
        return Ok(Answer::Nothing);
    };
    let outcome = account.decide(&origin, ask_in(alloc, table, message)?);
    *account = outcome.account;
    if let Some(held) = outcome.released {
        let message = number(alloc, account.balance)?;
        outputs.push(Output::Deliver(held.requester, held.number, message))?;
    }
    match outcome.reply {
        Reply::Balance => Ok(Answer::Value(number(alloc, account.balance)?)),
        Reply::Refused => Ok(Answer::Error(Sec::Failed)),
        Reply::Later => Ok(Answer::Hold),
    }
}
