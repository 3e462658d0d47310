ghost use Rattle.std.specs.Prelude.{◌≡◌, [], ◌∷◌, ◌++◌, OnOk};
ghost use Rattle.caf_words.specs.Answer.{Gives};
ghost use Rattle.caf_text.specs.TextForm as forms;
ghost use Rattle.caf_text.specs.TextReading as texts;

use caf_types::Memory;
use caf_words::Stop;
use std::alloc::Global;

/// What was read last, behind an opening quote.
#[derive(Clone, Copy, Debug, PartialEq, Eq, Drop)]
pub(crate) enum Mark {
    /// A whole byte of a text.
    Text,
    /// A `\`.
    Slash,
    /// A `\x`.
    Escape,
    /// A `\x` and this digit.
    Half(u8),
    /// Whole pairs of digits.
    Bytes,
    /// The first digit of a pair.
    Pair(u8),
}

/// What a byte does behind a mark.
#[derive(Clone, Copy, Debug, PartialEq, Eq, Drop)]
pub(crate) enum Move {
    /// It is the closing quote.
    Close,
    /// It leads to another mark.
    Go(Mark),
    /// It completes a byte of the content.
    Put(Mark, u8),
    /// It can't stand there.
    Halt,
}

/// The value of a digit `0` to `9` or `a` to `f`.
fn digit_value(digit: u8) -> Option<u8>
    ensures { result ≡ texts.digit_value digit }
{
    match digit {
        b'0'..=b'9' => Some(digit - b'0'),
        b'a'..=b'f' => Some(digit - 87),
        _ => None,
    }
}

/// Whether a byte of a text is written as `\x` and two digits.
pub(crate) fn is_escaped(byte: u8) -> bool
    ensures { result ≡ forms.is_escaped byte }
{
    if byte == b'\n' {
        return false;
    }
    byte < 32 || byte == 127
}

fn text_move(byte: u8) -> Move
    ensures { result ≡ texts.text_move byte }
{
    if byte == b'"' {
        return Move::Close;
    }
    if byte == b'\\' {
        return Move::Go(Mark::Slash);
    }
    if byte < 32 {
        return Move::Halt;
    }
    if byte == 127 {
        return Move::Halt;
    }
    Move::Put(Mark::Text, byte)
}

fn slash_move(byte: u8) -> Move
    ensures { result ≡ texts.slash_move byte }
{
    if byte == b'"' {
        return Move::Put(Mark::Text, b'"');
    }
    if byte == b'\\' {
        return Move::Put(Mark::Text, b'\\');
    }
    if byte == b'n' {
        return Move::Put(Mark::Text, b'\n');
    }
    if byte == b'x' {
        return Move::Go(Mark::Escape);
    }
    Move::Halt
}

fn escape_move(byte: u8) -> Move
    ensures { result ≡ texts.escape_move byte }
{
    if byte == b'0' || byte == b'1' || byte == b'7' {
        Move::Go(Mark::Half(byte))
    } else {
        Move::Halt
    }
}

/// The byte of two lower-case hexadecimal digits; None exactly where one of them is none.
pub fn pair_value(first: u8, second: u8) -> Option<u8>
    ensures { result ≡ texts.pair_value (texts.digit_value first) (texts.digit_value second) }
{
    let high = digit_value(first)?;
    let low = digit_value(second)?;
    Some(high * 16 + low)
}

fn half_move(first: u8, second: u8) -> Move
    ensures { result ≡ texts.half_move (texts.pair_value (texts.digit_value first) (texts.digit_value second)) }
{
    match pair_value(first, second) {
        None => Move::Halt,
        Some(byte) => {
            if is_escaped(byte) {
                Move::Put(Mark::Text, byte)
            } else {
                Move::Halt
            }
        }
    }
}

fn bytes_move(byte: u8) -> Move
    ensures { result ≡ texts.bytes_move byte }
{
    if byte == b'"' {
        return Move::Close;
    }
    match digit_value(byte) {
        None => Move::Halt,
        Some(_) => Move::Go(Mark::Pair(byte)),
    }
}

fn pair_move(first: u8, second: u8) -> Move
    ensures { result ≡ texts.pair_move (texts.pair_value (texts.digit_value first) (texts.digit_value second)) }
{
    match pair_value(first, second) {
        None => Move::Halt,
        Some(byte) => Move::Put(Mark::Bytes, byte),
    }
}

/// What a byte does behind a mark.
fn next_move(mark: Mark, byte: u8) -> Move
    ensures { result ≡ texts.move mark byte }
{
    match mark {
        Mark::Text => text_move(byte),
        Mark::Slash => slash_move(byte),
        Mark::Escape => escape_move(byte),
        Mark::Half(first) => half_move(first, byte),
        Mark::Bytes => bytes_move(byte),
        Mark::Pair(first) => pair_move(first, byte),
    }
}

fn add_byte(content: &mut Vec<u8>, byte: u8) -> Result<(), Memory>
    ensures { OnOk result (content.new.items ≡ content.old.items ++ byte ∷ []) }
{
    content.push(byte)?;
    Ok(())
}

/// The content up to the closing quote, and what stands behind it.
pub(crate) fn unquoted<'a>(
    alloc: Global,
    start: Mark,
    bytes: &'a [u8],
) -> Result<(Vec<u8>, &'a [u8]), Stop>
    ensures { Gives (λ x. (x.0.items, x.1.now)) result (texts.unquoted bytes.now start []) }
{
    let mut content = Vec::new(alloc);
    let mut mark = start;
    for (i, byte) in bytes.iter().enumerate() {
        match next_move(mark, *byte) {
            Move::Close => return Ok((content, &bytes[i + 1..])),
            Move::Go(next) => mark = next,
            Move::Put(next, byte) => {
                add_byte(&mut content, byte)?;
                mark = next;
            }
            Move::Halt => return Err(Stop::Left((bytes.len() - i) as u64)),
        }
    }
    Err(Stop::Left(0))
}
