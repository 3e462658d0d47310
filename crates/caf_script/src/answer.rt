//! What content means as the answer to a request.
ghost use Rattle.std.specs.Prelude.{◌≡◌, ◌+◌, ◌<◌, length, drop, IfOk};
ghost use Rattle.caf_types.specs.TypeTable.{seen};
ghost use Rattle.caf_words.specs.Several.{ids_of};
ghost use Rattle.caf_message.specs.Content.{ids_in};
ghost use Rattle.caf_message.specs.Fits.{FitsTable};
ghost use Rattle.caf_script.specs.Reply.{plain_reply, reply_of, spelled_in, words_of};

use crate::StepReply;
use caf_message::Message;
use caf_types::{Memory, Sec, Seq, TypeId, TypeTable, Words};
use caf_words::{SpellFault, Value, read};
use std::alloc::Global;

/// The reply that content of these types is; content of other types counts as the error
/// `unexpected_response`.
pub(crate) fn reply_in(
    alloc: Global,
    table: &TypeTable,
    types: &[TypeId],
    message: Message,
) -> Result<StepReply, Memory>
    requires { FitsTable (seen table.now) message.content }
    ensures { IfOk result (λ reply. plain_reply reply ≡ reply_of (spelled_in types.now message.content)) }
{
    let mut message = message;
    if !message.has_types(types) {
        return Ok(StepReply::Error(Sec::UnexpectedResponse));
    }
    let words = message.words(alloc)?;
    let values = values(alloc, table, types, &words)?;
    Ok(StepReply::Value(values))
}

/// The values in content of these types.
fn values(
    alloc: Global,
    table: &TypeTable,
    types: &[TypeId],
    content: &Words,
) -> Result<Seq<Value>, Memory>
    requires fits { FitsTable (seen table.now) content.now }
    requires types { ids_in content.now ≡ ids_of types.now }
    ensures { IfOk result (λ values. words_of values ≡ drop (length types.now + 1) content.now) }
{
    let words = words_behind(content, types.len());
    match read(alloc, table, types, words) {
        Ok(values) => Ok(values),
        Err(SpellFault::Memory) => Err(Memory),
        Err(SpellFault::At(_)) => unreachable!(),
    }
}

/// The words behind so many IDs.
fn words_behind(content: &Words, ids: usize) -> &[u64]
    requires { ids < length content.now }
    ensures { result.now ≡ drop (ids + 1) content.now }
{
    &content.as_slice()[ids + 1..]
}
