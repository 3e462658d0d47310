//! The words of a row's content.
ghost use Rattle.std.specs.Prelude.{◌≡◌, ◌++◌, ◌∷◌, length, IfOk, OnOk, OnErr};
ghost use Rattle.caf_words.specs.Several.{ids_of};
ghost use Rattle.caf_message.specs.Content.{content_of};
ghost use Rattle.caf_message.specs.Fits.{AreValues};

use caf_types::{Memory, TypeId};
use caf_words::{Row, write_word};
use std::alloc::Global;

/// The content of the row: the number of its types, these, and the spellings of its elements.
pub(crate) fn content<T: Row>(alloc: Global, row: &T) -> Result<Vec<u64>, Memory>
    ensures words { IfOk result (λ words. words.items ≡ content_of T.ids (T.means row.now)) }
    ensures values { OnOk result (AreValues T.shapes (T.means row.now)) }
{
    let types = T::types(alloc)?;
    let mut words = Vec::new(alloc);
    write_types(&mut words, types.as_slice())?;
    row.write_words(&mut words)?;
    Ok(words)
}

/// Adds the number of types, and each of them.
fn write_types(words: &mut Vec<u64>, types: &[TypeId]) -> Result<(), Memory>
    ensures { OnOk result (words.new.items ≡ words.old.items ++ (length types.now ∷ ids_of types.now)) }
{
    write_word(words, types.len() as u64)?;
    for id in types {
        write_word(words, id.0 as u64)?;
    }
    Ok(())
}

/// Adds words.
pub(crate) fn push_words(words: &mut Vec<u64>, more: &[u64]) -> Result<(), Memory>
    ensures added { OnOk result (words.new.items ≡ words.old.items ++ more.now) }
    ensures kept { OnErr result (words.new.items ≡ words.old.items) }
{
    words.extend_from_slice(more)?;
    Ok(())
}
