//! The head of an object: its number of fields. Their spellings follow it.
ghost use Rattle.std.specs.Prelude.{◌≡◌, ◌++◌, ◌∷◌, [], ◌<◌, ◌^◌, ℕ, List, OnOk, OnErr, IfOk, IfErr};
ghost use Rattle.caf_words.specs.Answer.{Fails};
ghost use Rattle.caf_words.specs.Datum.{Data};
ghost use Rattle.caf_words.specs.Reading.{Got, object_at, as_object};

use crate::scalar::{read_word, write_word};
use crate::stop::Stop;
use caf_types::Memory;

/// Adds the number of an object's fields, before the fields' own spellings. After want of memory the
/// words are as before.
pub fn write_object_head(words: &mut Vec<u64>, fields: u64) -> Result<(), Memory>
    ensures spelled { OnOk result (words.new.items ≡ words.old.items ++ fields ∷ []) }
    ensures in_range { OnOk result (fields < 2 ^ 64) }
    ensures kept { OnErr result (words.new.items ≡ words.old.items) }
{
    write_word(words, fields)
}

/// The words after the number of an object's fields, which is to be this one.
pub fn read_object_head(words: &[u64], fields: u64) -> Result<&[u64], Stop>
    ensures right { IfOk result (λ rest. (parts : List ℕ → Got Data) → object_at fields parts words.now ≡ as_object (parts rest.now)) }
    ensures wrong { IfErr result (λ stop. (parts : List ℕ → Got Data) → Fails stop (object_at fields parts words.now)) }
{
    let (count, rest) = read_word(words)?;
    if count != fields {
        return Err(Stop::Left(words.len() as u64));
    }
    Ok(rest)
}
