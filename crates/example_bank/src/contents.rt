//! Contents of messages, made from rows and read as rows.
ghost use Rattle.std.specs.Prelude.{◌≡◌, ◌++◌, ◌∷◌, [], ◌≤◌, length, map, IfOk, OnOk};
ghost use Rattle.std.specs.Option.{option_map};
ghost use Rattle.caf_types.specs.TypeTable.{seen};
ghost use Rattle.caf_message.specs.Content.{content_of};
ghost use Rattle.caf_message.specs.Entries.{HasEntries};
ghost use Rattle.caf_message.specs.Fits.{FitsTable};
ghost use Rattle.caf_actor.specs.PlainForms.{plain_output};
ghost use Rattle.caf_kinds.specs.Asking.{asked_of};
ghost use Rattle.example_bank.specs.Types.{bank_entries, AreBankRow, number_content};
ghost use Rattle.example_bank.specs.Member as spec;

use crate::account::Ask;
use crate::member::Got;
use crate::types::{Balance, Deposit, WaitFor, Withdraw};
use caf_actor::Output;
use caf_kinds::{One, Two, Unsigned};
use caf_message::{Message, MessageFault, ViewFault};
use caf_response::Mode;
use caf_types::{Memory, Priority, Sec, Seq, TypeIds, TypeTable};
use caf_words::Row;
use std::alloc::Global;

/// Adds a request that is to be answered by a number.
pub fn ask<T: Row>(
    alloc: Global,
    outputs: &mut Seq<Output>,
    to: u32,
    request: u32,
    row: &T,
) -> Result<(), Memory>
    requires { length (content_of T.ids (T.means row.now)) ≤ 4194304 }
    ensures { OnOk result (map plain_output outputs.new ≡ map plain_output outputs.old ++ spec.asking to request (content_of T.ids (T.means row.now)) ∷ []) }
{
    let types: TypeIds = One::<Unsigned>::types(alloc)?;
    let message = message_of(alloc, row)?;
    outputs.push(Output::Request(
        to,
        Priority::Normal,
        Mode::Multiplexed,
        request,
        types,
        message,
    ))?;
    Ok(())
}

/// The message of a number.
pub fn number(alloc: Global, number: u64) -> Result<Message, Memory>
    ensures { IfOk result (λ message. message.content ≡ number_content number) }
{
    message_of(alloc, &One(Unsigned(number)))
}

/// The message of a row that is small enough for one.
fn message_of<T: Row>(alloc: Global, row: &T) -> Result<Message, Memory>
    requires { length (content_of T.ids (T.means row.now)) ≤ 4194304 }
    ensures { IfOk result (λ message. message.content ≡ content_of T.ids (T.means row.now)) }
{
    match Message::of(alloc, row) {
        Ok(message) => Ok(message),
        Err(MessageFault::Memory) => Err(Memory),
        Err(MessageFault::Large) => unreachable!(),
    }
}

/// The row that the content means; None where it has other types.
fn row_in<T: Row>(
    alloc: Global,
    table: &TypeTable,
    message: &mut Message,
) -> Result<Option<T>, Memory>
    requires entries { HasEntries (seen table.now) bank_entries }
    requires known { AreBankRow T.ids T.shapes }
    requires fits { FitsTable (seen table.now) message.old.content }
    ensures row { IfOk result (λ row. option_map T.means row ≡ asked_of T.ids T.shapes message.old.content) }
    ensures kept { message.new.content ≡ message.old.content }
{
    match message.view(alloc, table) {
        Ok(row) => Ok(Some(row)),
        Err(ViewFault::Types) => Ok(None),
        Err(ViewFault::Memory) => Err(Memory),
    }
}

/// What content asks of an account.
pub fn ask_in(alloc: Global, table: &TypeTable, message: Message) -> Result<Option<Ask>, Memory>
    requires entries { HasEntries (seen table.now) bank_entries }
    requires fits { FitsTable (seen table.now) message.content }
    ensures { IfOk result (λ ask. ask ≡ spec.ask_in message.content) }
{
    let mut message = message;
    if let Some(Two(_, Unsigned(coins))) = row_in::<Two<Deposit, Unsigned>>(
        alloc,
        table,
        &mut message,
    )? {
        return Ok(Some(Ask::Deposit(coins)));
    }
    if let Some(Two(_, Unsigned(coins))) = row_in::<Two<Withdraw, Unsigned>>(
        alloc,
        table,
        &mut message,
    )? {
        return Ok(Some(Ask::Withdraw(coins)));
    }
    if let Some(Two(_, Unsigned(coins))) = row_in::<Two<WaitFor, Unsigned>>(
        alloc,
        table,
        &mut message,
    )? {
        return Ok(Some(Ask::WaitFor(coins)));
    }
    match row_in::<One<Balance>>(alloc, table, &mut message)? {
        Some(_) => Ok(Some(Ask::Balance)),
        None => Ok(None),
    }
}

/// What came of the request, where it was answered by this message.
pub fn got_in(
    alloc: Global,
    table: &TypeTable,
    request: u32,
    message: Message,
) -> Result<Got, Memory>
    requires entries { HasEntries (seen table.now) bank_entries }
    requires fits { FitsTable (seen table.now) message.content }
    ensures { IfOk result (λ got. got ≡ spec.got_in request message.content) }
{
    let mut message = message;
    match row_in::<One<Unsigned>>(alloc, table, &mut message)? {
        Some(One(Unsigned(coins))) => Ok(Got::Coins(request, coins)),
        None => Ok(Got::Error(request, Sec::UnexpectedResponse)),
    }
}
