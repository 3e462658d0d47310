ghost use Rattle.std.specs.Prelude.{◌≡◌, ◌++◌, ◌∷◌, true, map, OnOk, IfOk};
ghost use Rattle.caf_types.specs.ShapeTree.{ShapeTree};
ghost use Rattle.caf_words.specs.Datum.{data_of, count, fits, is_counted, is_in_range, are_in_range};
ghost use Rattle.caf_words.specs.Value.{datum};
ghost use Rattle.caf_words.specs.Spelling.{spelling, spellings, Spells};

use crate::Value;
use crate::scalar::{write_flag, write_place, write_signed, write_unit, write_word};
use crate::text::{write_bytes, write_text};
use caf_types::{Memory, Seq, Words};
use std::alloc::Global;

#[cycle(spell)]
fn write_value(words: &mut Vec<u64>, value: &Value) -> Result<(), Memory>
    ensures spelled { OnOk result (words.new.items ≡ words.old.items ++ spelling (datum value.now)) }
    ensures in_range { OnOk result (is_in_range (datum value.now) ≡ true) }
{
    match value {
        Value::Unit => write_unit(words),
        Value::Flag(flag) => write_flag(words, *flag),
        Value::Unsigned(number) => write_word(words, *number),
        Value::Signed(number) => write_signed(words, *number),
        Value::Text(text) => write_text(words, text.as_str()),
        Value::Bytes(bytes) => write_bytes(words, bytes.as_slice()),
        Value::Place(place) => write_place(words, *place),
        Value::List(items) => write_counted(words, items.as_slice()),
        Value::Object(items) => write_counted(words, items.as_slice()),
    }
}

#[cycle(spell)]
#[tactic(auto, using(crate::proofs::CountLemmas::count_values))]
fn write_counted(words: &mut Vec<u64>, values: &[Value]) -> Result<(), Memory>
    ensures spelled { OnOk result (words.new.items ≡ words.old.items ++ (count (data_of (map datum values.now)) ∷ spellings (data_of (map datum values.now)))) }
    ensures in_range { OnOk result (is_counted (count (data_of (map datum values.now))) (are_in_range (data_of (map datum values.now))) ≡ true) }
{
    write_word(words, values.len() as u64)?;
    write_values(words, values)?;
    Ok(())
}

/// Adds the spelling of each value.
#[cycle(spell)]
pub(crate) fn write_values(words: &mut Vec<u64>, values: &[Value]) -> Result<(), Memory>
    ensures spelled { OnOk result (words.new.items ≡ words.old.items ++ spellings (data_of (map datum values.now))) }
    ensures in_range { OnOk result (are_in_range (data_of (map datum values.now)) ≡ true) }
{
    for value in values {
        write_value(words, value)?;
    }
    Ok(())
}

/// The spelling of the value: for each shape that it is of, the words that [`read`](crate::read)
/// gives it back from.
pub fn spell(alloc: Global, value: &Value) -> Result<Words, Memory>
    ensures spelled { IfOk result (λ words. words ≡ spelling (datum value.now)) }
    ensures spells { IfOk result (λ words. (f : ShapeTree) → fits f (datum value.now) ≡ true → Spells f (datum value.now) words) }
{
    let mut words = Vec::new(alloc);
    write_value(&mut words, value)?;
    Ok(Seq::of_vec(words))
}
