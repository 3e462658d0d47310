ghost use Rattle.std.specs.Prelude.{◌≡◌, Ok};
ghost use Rattle.caf_words.specs.Answer.{Gives};
ghost use Rattle.caf_text.specs.TextReading as texts;

use caf_words::Stop;

/// What stands behind these bytes.
pub(crate) fn literal<'a>(word: &[u8], bytes: &'a [u8]) -> Result<&'a [u8], Stop>
    ensures { Gives (λ rest. (tt, rest.now)) result (texts.literal word.now bytes.now) }
{
    let mut rest = bytes;
    for byte in word {
        match rest {
            [] => return Err(Stop::Left(0)),
            [first, after @ ..] => {
                if *byte != *first {
                    return Err(Stop::Left(rest.len() as u64));
                }
                rest = after;
            }
        }
    }
    Ok(rest)
}
