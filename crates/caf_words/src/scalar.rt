//! Values of one word: each is written as one word, and read from one.
ghost use Rattle.std.specs.Prelude.{◌≡◌, ◌++◌, ◌∷◌, [], ◌<◌, ◌^◌, true, OnOk, OnErr};
ghost use Rattle.caf_types.specs.ShapeTree.{unit, flag, signed, place};
ghost use Rattle.caf_words.specs.Answer.{Gives};
ghost use Rattle.caf_words.specs.Datum.{a_unit, a_flag, a_signed, a_place, is_i64};
ghost use Rattle.caf_words.specs.Reading.{first_of, reading};
ghost use Rattle.caf_words.specs.Spelling.{spelling};

use crate::stop::Stop;
use caf_types::{Memory, PLACES};

/// Adds a word: the spelling of an unsigned number, or the length of a list. After want of memory the
/// words are as before.
pub fn write_word(words: &mut Vec<u64>, word: u64) -> Result<(), Memory>
    ensures spelled { OnOk result (words.new.items ≡ words.old.items ++ word ∷ []) }
    ensures in_range { OnOk result (word < 2 ^ 64) }
    ensures kept { OnErr result (words.new.items ≡ words.old.items) }
{
    words.push(word)?;
    Ok(())
}

/// Adds the spelling of Unit's one value. After want of memory the words are as before.
pub fn write_unit(words: &mut Vec<u64>) -> Result<(), Memory>
    ensures spelled { OnOk result (words.new.items ≡ words.old.items ++ spelling a_unit) }
    ensures kept { OnErr result (words.new.items ≡ words.old.items) }
{
    write_word(words, 0)
}

/// Adds the spelling of a flag. After want of memory the words are as before.
pub fn write_flag(words: &mut Vec<u64>, flag: bool) -> Result<(), Memory>
    ensures spelled { OnOk result (words.new.items ≡ words.old.items ++ spelling (a_flag flag)) }
    ensures kept { OnErr result (words.new.items ≡ words.old.items) }
{
    write_word(words, if flag { 1 } else { 0 })
}

/// Adds the spelling of a signed number. After want of memory the words are as before.
pub fn write_signed(words: &mut Vec<u64>, number: i64) -> Result<(), Memory>
    ensures spelled { OnOk result (words.new.items ≡ words.old.items ++ spelling (a_signed number)) }
    ensures in_range { OnOk result (is_i64 number ≡ true) }
    ensures kept { OnErr result (words.new.items ≡ words.old.items) }
{
    write_word(words, number.cast_unsigned())
}

/// Adds the spelling of a place's number. After want of memory the words are as before.
pub fn write_place(words: &mut Vec<u64>, place: u32) -> Result<(), Memory>
    ensures spelled { OnOk result (words.new.items ≡ words.old.items ++ spelling (a_place place)) }
    ensures kept { OnErr result (words.new.items ≡ words.old.items) }
{
    write_word(words, place as u64)
}

/// The first word, and the words after it.
pub fn read_word(words: &[u64]) -> Result<(u64, &[u64]), Stop>
    ensures { Gives (λ x. (x.0, x.1.now)) result (first_of words.now) }
{
    match words {
        [] => Err(Stop::Left(0)),
        [word, rest @ ..] => Ok((*word, rest)),
    }
}

/// The words after Unit's one value.
pub fn read_unit(words: &[u64]) -> Result<&[u64], Stop>
    ensures { Gives (λ rest. (a_unit, rest.now)) result (reading unit words.now) }
{
    let (word, rest) = read_word(words)?;
    if word != 0 {
        return Err(Stop::Left(words.len() as u64));
    }
    Ok(rest)
}

/// The flag that the words begin with, and the words after it.
pub fn read_flag(words: &[u64]) -> Result<(bool, &[u64]), Stop>
    ensures { Gives (λ x. (a_flag x.0, x.1.now)) result (reading flag words.now) }
{
    let (word, rest) = read_word(words)?;
    if word > 1 {
        return Err(Stop::Left(words.len() as u64));
    }
    Ok((word == 1, rest))
}

/// The signed number that the words begin with, and the words after it.
pub fn read_signed(words: &[u64]) -> Result<(i64, &[u64]), Stop>
    ensures { Gives (λ x. (a_signed x.0, x.1.now)) result (reading signed words.now) }
{
    let (word, rest) = read_word(words)?;
    Ok((word.cast_signed(), rest))
}

/// The number of a place that the words begin with, and the words after it.
pub fn read_place(words: &[u64]) -> Result<(u32, &[u64]), Stop>
    ensures { Gives (λ x. (a_place x.0, x.1.now)) result (reading place words.now) }
{
    let (word, rest) = read_word(words)?;
    if word >= PLACES as u64 {
        return Err(Stop::Left(words.len() as u64));
    }
    Ok((word as u32, rest))
}
