//! Bytes in words: eight to a word, the first byte lowest, zeros behind the last one.
ghost use Rattle.std.specs.Prelude.{◌≡◌, ◌≤◌, ◌+◌, ◌*◌, ◌++◌, length, slice_index, vec_len, vec_capacity, IfOk};
ghost use Rattle.std.specs.Int.{w64, from_le_bytes};
ghost use Rattle.caf_words.specs.Answer.{Gives};
ghost use Rattle.caf_words.specs.Reading.{bytes_in, are_zeros, unpacked};
ghost use Rattle.caf_words.specs.Spelling.{packed, words_for};

use crate::stop::Stop;
use std::alloc::{AllocError, Global};

fn byte_at(bytes: &[u8], i: usize) -> u8
    ensures { result ≡ slice_index bytes.now i }
{
    if i < bytes.len() { bytes[i] } else { 0 }
}

/// The first eight bytes as a word, with zeros where there are fewer.
fn cell(bytes: &[u8]) -> u64
    ensures { result ≡ from_le_bytes w64 bytes.now }
{
    if bytes.len() >= 8 {
        return u64::from_le_bytes([
            bytes[0], bytes[1], bytes[2], bytes[3], bytes[4], bytes[5], bytes[6], bytes[7],
        ]);
    }
    last_cell(bytes)
}

fn last_cell(bytes: &[u8]) -> u64
    ensures { result ≡ from_le_bytes w64 bytes.now }
{
    let first = byte_at(bytes, 0);
    let second = byte_at(bytes, 1);
    let third = byte_at(bytes, 2);
    let fourth = byte_at(bytes, 3);
    let fifth = byte_at(bytes, 4);
    let sixth = byte_at(bytes, 5);
    let seventh = byte_at(bytes, 6);
    let eighth = byte_at(bytes, 7);
    u64::from_le_bytes([first, second, third, fourth, fifth, sixth, seventh, eighth])
}

/// Adds the bytes, eight to a word, where there is room for them.
pub(crate) fn pack(words: &mut Vec<u64>, bytes: &[u8])
    requires { 8 * vec_len words.old + length bytes.now ≤ 8 * vec_capacity words.old }
    ensures { words.new.items ≡ words.old.items ++ packed bytes.now }
{
    let mut rest = bytes;
    while !rest.is_empty() {
        words.push_reserved(cell(rest));
        let (_, after) = rest.split_at(rest.len().min(8));
        rest = after;
    }
}

/// The bytes of the words.
fn unpack(alloc: Global, words: &[u64]) -> Result<Vec<u8>, AllocError>
    ensures { IfOk result (λ bytes. bytes.items ≡ bytes_in words.now) }
{
    let mut bytes = Vec::with_capacity(alloc, words.len().saturating_mul(8))?;
    for word in words {
        bytes.extend_from_slice(&word.to_le_bytes())?;
    }
    Ok(bytes)
}

fn are_all_zero(bytes: &[u8]) -> bool
    ensures { result ≡ are_zeros bytes.now }
{
    for byte in bytes {
        if *byte != 0 {
            return false;
        }
    }
    true
}

/// How many words hold so many bytes.
pub(crate) fn words_of_length(length: u64) -> u64
    ensures { result ≡ words_for length }
{
    if length % 8 == 0 {
        length / 8
    } else {
        length / 8 + 1
    }
}

/// So many bytes, in so many words, and the words after these.
pub(crate) fn bytes_of(
    alloc: Global,
    length: u64,
    count: u64,
    words: &[u64],
) -> Result<(Vec<u8>, &[u64]), Stop>
    ensures { Gives (λ x. (x.0.items, x.1.now)) result (unpacked length count words.now) }
{
    if (words.len() as u64) < count {
        return Err(Stop::Left(0));
    }
    let (body, rest) = words.split_at(count as usize);
    let mut bytes = unpack(alloc, body)?;
    let length = (length as usize).min(bytes.len());
    if !are_all_zero(&bytes[length..]) {
        return Err(Stop::Left(rest.len() as u64 + 1));
    }
    bytes.truncate(length);
    Ok((bytes, rest))
}
