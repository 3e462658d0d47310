ghost use Rattle.std.specs.Prelude.{◌≡◌, ◌<◌, [], OnOk, IsTrue, string_bytes};
ghost use Rattle.caf_index.specs.Words.{is_word_byte, lower_case, words_of, ended_word};
ghost use Rattle.caf_index.specs.PlainIndex.{with_words};

use crate::Index;
use caf_types::Memory;
use std::alloc::Global;

pub(crate) fn is_word_byte(byte: u8) -> bool
    ensures { result ≡ is_word_byte byte }
{
    (b'0' <= byte && byte <= b'9')
        || (b'A' <= byte && byte <= b'Z')
        || (b'a' <= byte && byte <= b'z')
}

/// `A` to `Z` as `a` to `z`.
fn lower_case(byte: u8) -> u8
    requires { IsTrue (is_word_byte byte) }
    ensures value { result ≡ lower_case byte }
    ensures ascii { result < 128 }
{
    if b'A' <= byte && byte <= b'Z' {
        byte + 32
    } else {
        byte
    }
}

/// Adds the words of one file, each with its line. One buffer takes each word in lower case.
pub(crate) fn add_words(
    alloc: Global,
    index: &mut Index,
    file: u64,
    bytes: &[u8],
) -> Result<(), Memory>
    ensures { OnOk result (index.new ≡ with_words index.old file (words_of bytes.now)) }
{
    let mut word = String::new(alloc);
    let mut line = 1u64;
    for byte in bytes {
        if is_word_byte(*byte) {
            word.push(lower_case(*byte) as char)?;
        } else {
            end_word(index, file, &mut word, line)?;
            if *byte == b'\n' {
                line += 1;
            }
        }
    }
    end_word(index, file, &mut word, line)
}

/// Adds the word, where it has bytes, and empties it.
fn end_word(index: &mut Index, file: u64, word: &mut String, line: u64) -> Result<(), Memory>
    ensures added { OnOk result (index.new ≡ with_words index.old file (ended_word (string_bytes word.old) line)) }
    ensures emptied { OnOk result (string_bytes word.new ≡ []) }
{
    if word.is_empty() {
        return Ok(());
    }
    index.add(file, word.as_str(), line)?;
    word.clear();
    Ok(())
}
