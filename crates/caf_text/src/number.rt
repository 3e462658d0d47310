ghost use Rattle.std.specs.Prelude.{◌≡◌, ◌≤◌, ◌-◌, ◌^◌, Ok, IfOk, negsuc};
ghost use Rattle.caf_words.specs.Answer.{Gives};
ghost use Rattle.caf_text.specs.TextReading as texts;

use caf_words::Stop;

pub(crate) fn is_digit(byte: u8) -> bool
    ensures { result ≡ texts.is_digit byte }
{
    byte.is_ascii_digit()
}

/// The number with one more digit, where it isn't above the greatest.
fn with_digit(greatest: u64, number: u64, byte: u8) -> Option<u64>
    ensures { result ≡ texts.with_digit greatest number byte }
{
    if !is_digit(byte) {
        return None;
    }
    let next = number as u128 * 10 + (byte - b'0') as u128;
    if next > greatest as u128 {
        return None;
    }
    Some(next as u64)
}

/// The number that further digits lead to, as far as it isn't above the greatest.
fn digits(greatest: u64, bytes: &[u8], first: u64) -> (u64, &[u8])
    requires { first ≤ greatest }
    ensures value { texts.digits greatest bytes.now first ≡ Ok (result.0, result.1.now) }
    ensures least { first ≤ result.0 }
    ensures most { result.0 ≤ greatest }
{
    let mut number = first;
    for (i, byte) in bytes.iter().enumerate() {
        match with_digit(greatest, number, *byte) {
            None => return (number, &bytes[i..]),
            Some(next) => number = next,
        }
    }
    (number, &bytes[bytes.len()..])
}

/// A number that begins with a digit from 1 to 9.
pub(crate) fn nonzero(greatest: u64, bytes: &[u8]) -> Result<(u64, &[u8]), Stop>
    requires { 9 ≤ greatest }
    ensures value { Gives (λ x. (x.0, x.1.now)) result (texts.nonzero greatest bytes.now) }
    ensures least { IfOk result (λ x. 1 ≤ x.0) }
    ensures most { IfOk result (λ x. x.0 ≤ greatest) }
{
    match bytes {
        [] => Err(Stop::Left(0)),
        [first, rest @ ..] => {
            if *first < b'1' || *first > b'9' {
                return Err(Stop::Left(bytes.len() as u64));
            }
            Ok(digits(greatest, rest, (*first - b'0') as u64))
        }
    }
}

/// A number without leading zeros.
pub(crate) fn number(greatest: u64, bytes: &[u8]) -> Result<(u64, &[u8]), Stop>
    requires { 9 ≤ greatest }
    ensures value { Gives (λ x. (x.0, x.1.now)) result (texts.number greatest bytes.now) }
    ensures most { IfOk result (λ x. x.0 ≤ greatest) }
{
    match bytes {
        [] => Err(Stop::Left(0)),
        [first, rest @ ..] => {
            if *first == b'0' {
                return Ok((0, rest));
            }
            nonzero(greatest, bytes)
        }
    }
}

/// The number below zero that has this magnitude.
pub(crate) fn below_zero(magnitude: u64) -> i64
    requires least { 1 ≤ magnitude }
    requires most { magnitude ≤ 2 ^ 63 }
    ensures { result ≡ negsuc (magnitude - 1) }
{
    -1 - ((magnitude - 1) as i64)
}
