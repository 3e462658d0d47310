//! What content asks, and the messages that many kinds answer.
ghost use Rattle.std.specs.Prelude.{◌≡◌, ◌++◌, ◌∷◌, [], ◌≤◌, length, map, bytes_eq, IsTrue, IfOk, OnOk, IfSome};
ghost use Rattle.std.specs.Option.{option_map, option_copied};
ghost use Rattle.caf_types.specs.TypeTable.{seen};
ghost use Rattle.caf_words.specs.Several.{ids_of};
ghost use Rattle.caf_message.specs.Content.{ids_in, content_of};
ghost use Rattle.caf_message.specs.Entries.{HasEntries};
ghost use Rattle.caf_message.specs.Fits.{FitsTable};
ghost use Rattle.caf_actor.specs.PlainForms.{plain_answer, plain_output, plain_reaction};
ghost use Rattle.caf_kinds.specs.Core.{core_entries};
ghost use Rattle.caf_kinds.specs.Asking.{AreCoreRow, asked_of, signature, unit_content, unsigned_content, signed_content, inputs_differ};
ghost use Rattle.caf_kinds.specs.Lawful.{IsRowContent};
ghost use Rattle.caf_kinds.specs.Pipeline as pipeline;
ghost use Rattle.caf_kinds.specs.Reacting as reacting;

use crate::{One, Signed, Unit, Unsigned};
use caf_actor::{Answer, Output, Reaction};
use caf_message::{Message, MessageFault, ViewFault};
use caf_signature::{Interface, Signature};
use caf_types::{Memory, Priority, Sec, Seq, TypeId, TypeTable};
use caf_words::Row;
use std::alloc::Global;

/// Whether the content has the types of the row.
pub(crate) fn has<T: Row>(alloc: Global, message: &mut Message) -> Result<bool, Memory>
    ensures answer { IfOk result (λ it. it ≡ bytes_eq T.ids (ids_in message.old.content)) }
    ensures kept { message.new.content ≡ message.old.content }
{
    let types = T::types(alloc)?;
    Ok(message.has_types(types.as_slice()))
}

/// Whether these are the wanted types.
pub(crate) fn has_same_ids(wanted: &[TypeId], types: &[TypeId]) -> bool
    ensures { result ≡ bytes_eq (ids_of wanted.now) (ids_of types.now) }
{
    wanted == types
}

/// The row that the content means; None where it has other types.
pub(crate) fn row_in<T: Row>(
    alloc: Global,
    table: &TypeTable,
    message: &mut Message,
) -> Result<Option<T>, Memory>
    requires entries { HasEntries (seen table.now) core_entries }
    requires known { AreCoreRow T.ids T.shapes }
    requires fits { FitsTable (seen table.now) message.old.content }
    ensures content { IfOk result (λ row. IfSome row (λ row. IsRowContent T.ids T.shapes message.old.content (T.means row))) }
    ensures row { IfOk result (λ row. option_map T.means row ≡ asked_of T.ids T.shapes message.old.content) }
    ensures kept { message.new.content ≡ message.old.content }
{
    match message.view(alloc, table) {
        Ok(row) => Ok(Some(row)),
        Err(ViewFault::Types) => Ok(None),
        Err(ViewFault::Memory) => Err(Memory),
    }
}

/// The message of a row that is small enough for one.
pub(crate) fn small_message<T: Row>(alloc: Global, row: &T) -> Result<Message, Memory>
    requires { length (content_of T.ids (T.means row.now)) ≤ 4194304 }
    ensures { IfOk result (λ message. message.content ≡ content_of T.ids (T.means row.now)) }
{
    match Message::of(alloc, row) {
        Ok(message) => Ok(message),
        Err(MessageFault::Memory) => Err(Memory),
        Err(MessageFault::Large) => unreachable!(),
    }
}

/// The answer unit.
pub(crate) fn done(alloc: Global) -> Result<Answer, Memory>
    ensures { IfOk result (λ answer. plain_answer answer ≡ reacting.done) }
{
    let message = small_message(alloc, &One(Unit::new()))?;
    Ok(Answer::Value(message))
}

/// The answer of a whole number of 64 bits.
pub(crate) fn unsigned(alloc: Global, number: u64) -> Result<Answer, Memory>
    ensures { IfOk result (λ answer. plain_answer answer ≡ reacting.unsigned number) }
{
    let message = small_message(alloc, &One(Unsigned(number)))?;
    Ok(Answer::Value(message))
}

/// The answer of a whole number of 64 bits in two's complement.
pub(crate) fn signed(alloc: Global, number: i64) -> Result<Answer, Memory>
    ensures { IfOk result (λ answer. plain_answer answer ≡ reacting.signed number) }
{
    let message = small_message(alloc, &One(Signed(number)))?;
    Ok(Answer::Value(message))
}

/// The error `failed`.
pub(crate) const fn failed() -> Answer
    ensures { plain_answer result ≡ reacting.failed }
{
    Answer::Error(Sec::Failed)
}

/// No effect.
pub(crate) fn quiet(alloc: Global) -> Reaction
    ensures { plain_reaction result ≡ reacting.quiet }
{
    answers(alloc, Answer::Nothing)
}

/// An answer, and nothing else.
pub(crate) fn answers(alloc: Global, answer: Answer) -> Reaction
    ensures { plain_reaction result ≡ reacting.answers (plain_answer answer) }
{
    Reaction {
        outputs: Seq::new(alloc),
        answer,
        quit: None,
    }
}

/// Content to a peer, where there is that peer, and the answer unit.
pub(crate) fn sends(alloc: Global, peer: Option<&u32>, message: Message) -> Result<Reaction, Memory>
    ensures { IfOk result (λ reaction. plain_reaction reaction ≡ pipeline.sends (pipeline.to_peer (option_copied peer.entry) message.content)) }
{
    let mut outputs = Seq::new(alloc);
    tell(&mut outputs, peer, message)?;
    Ok(Reaction {
        outputs,
        answer: done(alloc)?,
        quit: None,
    })
}

/// Adds content to a peer, where there is that peer.
pub(crate) fn tell(
    outputs: &mut Seq<Output>,
    peer: Option<&u32>,
    message: Message,
) -> Result<(), Memory>
    ensures { OnOk result (map plain_output outputs.new ≡ map plain_output outputs.old ++ pipeline.to_peer (option_copied peer.entry) message.content) }
{
    match peer {
        Some(peer) => outputs.push(Output::Tell(*peer, Priority::Normal, message)),
        None => Ok(()),
    }
}

/// It is passed on to a peer, where there is that peer.
pub(crate) fn passed_to(peer: Option<&u32>) -> Answer
    ensures { plain_answer result ≡ pipeline.passed_to (option_copied peer.entry) }
{
    match peer {
        Some(peer) => Answer::Delegate(*peer),
        None => failed(),
    }
}

/// Adds the signature whose input has the types of the first row, and whose result those of the second.
pub(crate) fn takes<I: Row, R: Row>(
    alloc: Global,
    signatures: &mut Seq<Signature>,
) -> Result<(), Memory>
    ensures { OnOk result (signatures.new ≡ signatures.old ++ signature I.ids R.ids ∷ []) }
{
    let input = I::types(alloc)?;
    let answer = R::types(alloc)?;
    signatures.push(Signature {
        input,
        result: answer,
    })
}

/// The interface of signatures whose inputs differ.
pub(crate) fn interface(alloc: Global, signatures: Seq<Signature>) -> Result<Interface, Memory>
    requires { IsTrue (inputs_differ signatures) }
    ensures { IfOk result (λ interface. interface ≡ signatures) }
{
    match Interface::new(alloc, signatures) {
        Ok(interface) => Ok(interface),
        Err(_) => unreachable!(),
    }
}
