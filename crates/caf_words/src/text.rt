//! Texts and bytes: their number of bytes, and then the words that hold these.
ghost use Rattle.std.specs.Prelude.{◌≡◌, ◌++◌, ◌∷◌, ◌&&◌, true, length, OnOk, OnErr};
ghost use Rattle.std.specs.Str.{is_utf8};
ghost use Rattle.caf_words.specs.Answer.{Gives};
ghost use Rattle.caf_words.specs.Datum.{a_text, some_bytes, are_bytes};
ghost use Rattle.caf_words.specs.Reading.{bytes_at, some_bytes_at, text_at};
ghost use Rattle.caf_words.specs.Spelling.{packed};

use crate::packing::{bytes_of, pack, words_of_length};
use crate::scalar::read_word;
use crate::stop::Stop;
use caf_types::{Letters, Memory, Octets, Seq};
use std::alloc::Global;

/// Adds the spelling of bytes: their number, and then these. After want of memory the words are as
/// before.
pub fn write_bytes(words: &mut Vec<u64>, bytes: &[u8]) -> Result<(), Memory>
    ensures spelled { OnOk result (words.new.items ≡ words.old.items ++ (length bytes.now ∷ packed bytes.now)) }
    ensures in_range { OnOk result (are_bytes bytes.now ≡ true) }
    ensures kept { OnErr result (words.new.items ≡ words.old.items) }
{
    words.reserve(bytes.len() / 8 + 2)?;
    words.push_reserved(bytes.len() as u64);
    pack(words, bytes);
    Ok(())
}

/// Adds the spelling of a text: its number of bytes, and then these. After want of memory the words
/// are as before.
pub fn write_text(words: &mut Vec<u64>, text: &str) -> Result<(), Memory>
    ensures spelled { OnOk result (words.new.items ≡ words.old.items ++ (length text.now ∷ packed text.now)) }
    ensures in_range { OnOk result ((are_bytes text.now && is_utf8 text.now) ≡ true) }
    ensures kept { OnErr result (words.new.items ≡ words.old.items) }
{
    write_bytes(words, text.as_bytes())
}

fn octets(alloc: Global, words: &[u64]) -> Result<(Vec<u8>, &[u64]), Stop>
    ensures { Gives (λ x. (x.0.items, x.1.now)) result (bytes_at words.now) }
{
    let (length, rest) = read_word(words)?;
    bytes_of(alloc, length, words_of_length(length), rest)
}

/// The bytes that the words begin with, and the words after them.
pub fn read_bytes(alloc: Global, words: &[u64]) -> Result<(Octets, &[u64]), Stop>
    ensures { Gives (λ x. (some_bytes x.0, x.1.now)) result (some_bytes_at words.now) }
{
    let (bytes, rest) = octets(alloc, words)?;
    Ok((Seq::of_vec(bytes), rest))
}

/// The text that the words begin with, and the words after it.
pub fn read_text(alloc: Global, words: &[u64]) -> Result<(Letters, &[u64]), Stop>
    ensures { Gives (λ x. (a_text x.0, x.1.now)) result (text_at words.now) }
{
    let (bytes, rest) = octets(alloc, words)?;
    let Some(text) = Letters::from_utf8(bytes) else {
        return Err(Stop::Left(words.len() as u64));
    };
    Ok((text, rest))
}
