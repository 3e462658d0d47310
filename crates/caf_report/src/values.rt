//! The text of a reply's values.
ghost use Rattle.std.specs.Prelude.{◌≡◌, ◌++◌, ◌∷◌, true, map, is_some, IfOk, OnOk};
ghost use Rattle.caf_types.specs.Shape.{tree};
ghost use Rattle.caf_types.specs.Table.{shape_at};
ghost use Rattle.caf_types.specs.TypeTable.{seen};
ghost use Rattle.caf_text.specs.TextForm.{text_form};
ghost use Rattle.caf_words.specs.Datum.{data_of, fits};
ghost use Rattle.caf_words.specs.Several.{ids_of, shapes_at};
ghost use Rattle.caf_words.specs.Value.{datum};
ghost use Rattle.caf_script.specs.Reply as reply;
ghost use Rattle.caf_report.specs.Values.{AreOfTypes, IsOfShape, form_at, forms, values_text};

use caf_events::save_value;
use caf_inspect::TextSaver;
use caf_types::{Letters, Memory, Seq, Shape, TypeId, TypeTable, Words};
use caf_words::{SpellFault, Value, read, spell};
use std::alloc::Global;

/// Adds a space and the text form of each value, as a value of its type. The values are seen as the words
/// that spell them, so they are read from these; nothing is added where these spell no values of the types.
pub(crate) fn push_reply(
    alloc: Global,
    text: &mut Vec<u8>,
    table: &TypeTable,
    types: &[TypeId],
    values: &Seq<Value>,
) -> Result<(), Memory>
    ensures { OnOk result (text.new.items ≡ text.old.items ++ values_text (seen table.now) (ids_of types.now) (reply.words_of values.now)) }
{
    if !has_types(table, types) {
        return Ok(());
    }
    let words = words_of(alloc, values.as_slice())?;
    match read(alloc, table, types, words.as_slice()) {
        Ok(values) => push_values(alloc, text, table, types, values.as_slice()),
        Err(SpellFault::Memory) => Err(Memory),
        Err(SpellFault::At(_)) => Ok(()),
    }
}

/// Whether the table has these types.
fn has_types(table: &TypeTable, types: &[TypeId]) -> bool
    ensures { result ≡ is_some (shapes_at (seen table.now) (ids_of types.now)) }
{
    for id in types {
        if table.shape(*id).is_none() {
            return false;
        }
    }
    true
}

/// The words that spell the values, one after the other.
fn words_of(alloc: Global, values: &[Value]) -> Result<Words, Memory>
    ensures { IfOk result (λ words. words ≡ reply.words_of values.now) }
{
    let mut words = Vec::new(alloc);
    for value in values {
        let spelled = spell(alloc, value)?;
        words.extend_from_slice(spelled.as_slice())?;
    }
    Ok(Seq::of_vec(words))
}

/// Adds a space and the text form of each value, which are of these types.
fn push_values(
    alloc: Global,
    text: &mut Vec<u8>,
    table: &TypeTable,
    types: &[TypeId],
    values: &[Value],
) -> Result<(), Memory>
    requires { AreOfTypes (seen table.now) (ids_of types.now) (data_of (map datum values.now)) }
    ensures { OnOk result (text.new.items ≡ text.old.items ++ forms (seen table.now) (ids_of types.now) (data_of (map datum values.now))) }
{
    for i in 0..types.len() {
        push_value(alloc, text, table, types[i], &values[i])?;
    }
    Ok(())
}

/// Adds a space and the text form of the value, which is of the type.
fn push_value(
    alloc: Global,
    text: &mut Vec<u8>,
    table: &TypeTable,
    id: TypeId,
    value: &Value,
) -> Result<(), Memory>
    requires { IsOfShape (shape_at (seen table.now) id.0) (datum value.now) }
    ensures { OnOk result (text.new.items ≡ text.old.items ++ 32 ∷ form_at (shape_at (seen table.now) id.0) (datum value.now)) }
{
    let Some(shape) = table.shape(id) else {
        unreachable!()
    };
    let form = form_of(alloc, shape, value)?;
    text.push(b' ')?;
    text.extend_from_slice(form.as_str().as_bytes())?;
    Ok(())
}

/// The text form of a value of the shape.
fn form_of(alloc: Global, shape: &Shape, value: &Value) -> Result<Letters, Memory>
    requires { fits (tree shape.now) (datum value.now) ≡ true }
    ensures { IfOk result (λ form. form ≡ text_form (tree shape.now) (datum value.now)) }
{
    let mut saver = TextSaver::new(alloc);
    save_value(shape, value, &mut saver)?;
    Ok(saver.finish())
}
