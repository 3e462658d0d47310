ghost use Rattle.std.specs.Prelude.{◌≡◌, ◌+◌, drop, length, IfOk};
ghost use Rattle.caf_types.specs.Table.{shape_at};
ghost use Rattle.caf_types.specs.TypeTable.{seen};
ghost use Rattle.caf_words.specs.Datum.{Data};
ghost use Rattle.caf_words.specs.Several.{SeveralSpell, ids_of};
ghost use Rattle.caf_message.specs.Content.{IsContent, ids_in};
ghost use Rattle.caf_message.specs.Fits.{FitsTable, HaveShapes, Means};
ghost use Rattle.caf_message.specs.Message.{HasLooked};
ghost use Rattle.caf_message.specs.Answers.{TypesExactly};

use crate::{Message, ViewFault, words};
use caf_tuple::Tuple;
use caf_types::{Memory, TypeId, TypeTable};
use caf_words::{Row, Stop};
use std::alloc::Global;

impl Message {
    /// The row that the message means in the table, which is asked for in the conditions alone.
    /// `Types` exactly where the message's IDs aren't the row's. Each word is read at most once.
    pub fn view<T: Row>(&mut self, alloc: Global, table: &TypeTable) -> Result<T, ViewFault>
        requires message_fits { FitsTable (seen table.now) self.old.content }
        requires row_fits { HaveShapes (shape_at (seen table.now)) T.ids T.shapes }
        ensures types { TypesExactly result (ids_in self.old.content) T.ids }
        ensures row { IfOk result (λ row. Means (shape_at (seen table.now)) self.old.content T.ids (T.means row)) }
        ensures looked { HasLooked self.old self.new }
    {
        let _ = table;
        let types = T::types(alloc)?;
        let words = words_behind(&mut self.tuple, alloc, types.as_slice())?;
        Ok(spelled_row(alloc, words.as_slice())?)
    }
}

/// The words behind the IDs, where these are the types.
fn words_behind(tuple: &mut Tuple, alloc: Global, types: &[TypeId]) -> Result<Vec<u64>, ViewFault>
    requires { IsContent tuple.old.content }
    ensures types { TypesExactly result (ids_in tuple.old.content) (ids_of types.now) }
    ensures words { IfOk result (λ words. words.items ≡ drop (length types.now + 1) tuple.old.content) }
    ensures looked { HasLooked tuple.old tuple.new }
{
    if !words::has_types(tuple, types) {
        return Err(ViewFault::Types);
    }
    Ok(words::words_from(tuple, alloc, types.len() as u64 + 1)?)
}

/// The row whose elements the words spell, where it is known that they spell some.
fn spelled_row<T: Row>(alloc: Global, words: &[u64]) -> Result<T, Memory>
    requires { (values : Data) × SeveralSpell T.shapes values words.now }
    ensures { IfOk result (λ row. SeveralSpell T.shapes (T.means row) words.now) }
{
    match T::read_words(alloc, words) {
        Ok((row, _)) => Ok(row),
        Err(Stop::Memory) => Err(Memory),
        Err(Stop::Left(_)) => unreachable!(),
    }
}
