ghost use Rattle.std.specs.Prelude.{◌≡◌, true, Some, IfOk, IfErr};
ghost use Rattle.caf_types.specs.Table.{shape_at};
ghost use Rattle.caf_types.specs.TypeTable.{seen};
ghost use Rattle.caf_words.specs.Spelling.{Spells};
ghost use Rattle.caf_json.specs.Form.{names_differ};
ghost use Rattle.caf_json.specs.Answer.{IsFormOf, UnfitAt};
ghost use Rattle.caf_text.specs.TextForm.{HasText};
ghost use Rattle.caf_events.specs.LoadAnswer.{Refused};
ghost use Rattle.caf_inspect.specs.LoadAnswer.{TextFailsAt, WordsFailAt};

use crate::{JsonLoader, TextLoader, TextSaver, WordLoader, WordSaver};
use caf_events::{Inspect, LoadFault};
use caf_json::{Json, JsonSaver};
use caf_types::{Letters, Memory, TypeTable, Words};
use std::alloc::Global;

/// The words that spell the value.
pub fn to_words<T: Inspect>(alloc: Global, value: &T) -> Result<Words, Memory>
    ensures { IfOk result (λ words. Spells T.shape (T.means value.now) words) }
{
    let mut saver = WordSaver::new(alloc);
    value.save(&mut saver)?;
    Ok(saver.finish())
}

/// The value that these words spell, where the table has the type's shape under the type's ID.
///
/// `Unfit` comes exactly where they spell none, with the place of the first fault.
pub fn from_words<T: Inspect>(
    alloc: Global,
    table: &TypeTable,
    words: &[u64],
) -> Result<T, LoadFault>
    requires { shape_at (seen table.now) T.id ≡ Some T.shape }
    ensures found { IfOk result (λ value. Spells T.shape (T.means value) words.now) }
    ensures unfit { IfErr result (Refused (λ d. Spells T.shape d words.now) (WordsFailAt (seen table.now) T.id words.now)) }
{
    let mut loader = WordLoader::start(alloc, table, T::type_id(), words)?;
    let value = T::load(alloc, &mut loader)?;
    Ok(value)
}

/// The JSON form of the value.
pub fn to_json<T: Inspect>(alloc: Global, value: &T) -> Result<Json, Memory>
    ensures { IfOk result (λ form. names_differ T.shape ≡ true → IsFormOf T.shape (T.means value.now) form) }
{
    let mut saver = JsonSaver::new(alloc);
    value.save(&mut saver)?;
    Ok(saver.finish())
}

/// The value whose form this is, where the table has the type's shape under the type's ID.
///
/// `Unfit` comes exactly where it is the form of none, with the path to the first part that is
/// missing or isn't of its shape.
pub fn from_json<T: Inspect>(alloc: Global, table: &TypeTable, json: &Json) -> Result<T, LoadFault>
    requires { shape_at (seen table.now) T.id ≡ Some T.shape }
    ensures found { IfOk result (λ value. IsFormOf T.shape (T.means value) json.now) }
    ensures unfit { IfErr result (Refused (λ d. IsFormOf T.shape d json.now) (UnfitAt T.shape json.now)) }
{
    let mut loader = JsonLoader::start(alloc, table, T::type_id(), json)?;
    let value = T::load(alloc, &mut loader)?;
    Ok(value)
}

/// The text form of the value.
pub fn to_text<T: Inspect>(alloc: Global, value: &T) -> Result<Letters, Memory>
    ensures { IfOk result (λ text. HasText T.shape (T.means value.now) text) }
{
    let mut saver = TextSaver::new(alloc);
    value.save(&mut saver)?;
    Ok(saver.finish())
}

/// The value whose text form this is, where the table has the type's shape under the type's ID.
///
/// `Unfit` comes exactly where it is the form of none, with the length in bytes of the longest front
/// of the text that is the front of some text form of the shape.
pub fn from_text<T: Inspect>(alloc: Global, table: &TypeTable, text: &str) -> Result<T, LoadFault>
    requires { shape_at (seen table.now) T.id ≡ Some T.shape }
    ensures found { IfOk result (λ value. HasText T.shape (T.means value) text.now) }
    ensures unfit { IfErr result (Refused (λ d. HasText T.shape d text.now) (TextFailsAt T.shape text.now)) }
{
    let mut loader = TextLoader::start(alloc, table, T::type_id(), text)?;
    let value = T::load(alloc, &mut loader)?;
    Ok(value)
}
