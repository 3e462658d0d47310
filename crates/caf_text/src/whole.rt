ghost use Rattle.std.specs.Prelude.{◌≡◌, ◌-◌, IfOk, IfErr};
ghost use Rattle.caf_types.specs.Shape.{tree};
ghost use Rattle.caf_words.specs.Value.{datum};
ghost use Rattle.caf_words.specs.Answer.{Gives};
ghost use Rattle.caf_text.specs.Answer.{IsNoForm};
ghost use Rattle.caf_text.specs.TextForm.{HasText};
ghost use Rattle.caf_text.specs.TextReading.{untext};

use crate::TextFault;
use crate::reading::value_at;
use caf_types::Shape;
use caf_words::{Stop, Value};
use std::alloc::Global;

/// The value of the shape whose text form this is.
///
/// `At` comes exactly where it is the form of none, with the length in bytes of the longest front of
/// the text that is the front of some text form of the shape.
pub fn read_text(alloc: Global, shape: &Shape, text: &str) -> Result<Value, TextFault>
    ensures found { IfOk result (λ value. HasText (tree shape.now) (datum value) text.now) }
    ensures faulty { IfErr result (λ fault. IsNoForm fault (tree shape.now) text.now) }
{
    let bytes = text.as_bytes();
    match whole_value(alloc, shape, bytes) {
        Ok(value) => Ok(value),
        Err(Stop::Memory) => Err(TextFault::Memory),
        Err(Stop::Left(left)) => Err(TextFault::At(place_of(bytes.len() as u64, left))),
    }
}

fn place_of(length: u64, left: u64) -> u64
    ensures { result ≡ length - left }
{
    length.saturating_sub(left)
}

fn whole_value(alloc: Global, shape: &Shape, bytes: &[u8]) -> Result<Value, Stop>
    ensures { Gives (λ value. datum value) result (untext (tree shape.now) bytes.now) }
{
    let (value, rest) = value_at(alloc, shape, bytes)?;
    if !rest.is_empty() {
        return Err(Stop::Left(rest.len() as u64));
    }
    Ok(value)
}
