ghost use Rattle.std.specs.Prelude.{◌≡◌, ◌+◌, ◌≤◌, Some, is_some, map, IsTrue, IfOk, IfErr};
ghost use Rattle.caf_types.specs.ShapeTree.{ShapeTree, count_parts};
ghost use Rattle.caf_types.specs.Shape.{tree, parts};
ghost use Rattle.caf_types.specs.Table.{shape_at};
ghost use Rattle.caf_types.specs.TypeTable.{seen};
ghost use Rattle.caf_words.specs.Datum.{data_of, an_object};
ghost use Rattle.caf_words.specs.Value.{datum};
ghost use Rattle.caf_words.specs.Answer.{Gives, Faulty};
ghost use Rattle.caf_words.specs.Several.{ids_of, several, shapes_at, shapes_reading, TypesSpell, whole_reading};
ghost use Rattle.caf_words.specs.Reading.{many, reading, each_reading, object_at as reading_object};

use crate::scalar::{read_flag, read_place, read_signed, read_unit, read_word};
use crate::stop::Stop;
use crate::text::{read_bytes, read_text};
use crate::{SpellFault, Value};
use caf_types::{Field, Items, Seq, Shape, TypeId, TypeTable};
use std::alloc::Global;

/// The value of that shape that the words begin with, and the words after it.
#[cycle(value_at)]
pub(crate) fn value_at<'a>(
    alloc: Global,
    shape: &Shape,
    words: &'a [u64],
) -> Result<(Value, &'a [u64]), Stop>
    ensures { Gives (λ x. (datum x.0, x.1.now)) result (reading (tree shape.now) words.now) }
{
    match shape {
        Shape::Unit => {
            let rest = read_unit(words)?;
            Ok((Value::Unit, rest))
        }
        Shape::Flag => {
            let (flag, rest) = read_flag(words)?;
            Ok((Value::Flag(flag), rest))
        }
        Shape::Unsigned => {
            let (word, rest) = read_word(words)?;
            Ok((Value::Unsigned(word), rest))
        }
        Shape::Signed => {
            let (number, rest) = read_signed(words)?;
            Ok((Value::Signed(number), rest))
        }
        Shape::Place => {
            let (place, rest) = read_place(words)?;
            Ok((Value::Place(place), rest))
        }
        Shape::List(item) => {
            let (count, rest) = read_word(words)?;
            let (items, rest) = items_at(alloc, item.get(), count, rest)?;
            Ok((Value::List(Items::from_vec(items)), rest))
        }
        Shape::Object(fields) => {
            let (values, rest) = object_at(alloc, fields.as_slice(), words)?;
            Ok((Value::Object(Items::from_vec(values)), rest))
        }
        Shape::Text => {
            let (text, rest) = read_text(alloc, words)?;
            Ok((Value::Text(text), rest))
        }
        Shape::Bytes => {
            let (bytes, rest) = read_bytes(alloc, words)?;
            Ok((Value::Bytes(bytes), rest))
        }
    }
}

#[cycle(value_at)]
fn items_at<'a>(
    alloc: Global,
    shape: &Shape,
    count: u64,
    words: &'a [u64],
) -> Result<(Vec<Value>, &'a [u64]), Stop>
    ensures { Gives (λ x. (data_of (map datum x.0.items), x.1.now)) result (many (reading (tree shape.now)) count words.now) }
{
    let mut items = Vec::new(alloc);
    let mut rest = words;
    for _ in 0..count {
        let (item, after) = value_at(alloc, shape, rest)?;
        items.push(item)?;
        rest = after;
    }
    Ok((items, rest))
}

#[cycle(value_at)]
fn fields_at<'a>(
    alloc: Global,
    fields: &[Field],
    words: &'a [u64],
) -> Result<(Vec<Value>, &'a [u64]), Stop>
    ensures { Gives (λ x. (data_of (map datum x.0.items), x.1.now)) result (each_reading (parts fields.now) words.now) }
{
    let mut values = Vec::new(alloc);
    let mut rest = words;
    for field in fields {
        let (value, after) = value_at(alloc, &field.shape, rest)?;
        values.push(value)?;
        rest = after;
    }
    Ok((values, rest))
}

#[cycle(value_at)]
#[tactic(auto, using(crate::proofs::CountLemmas::object_wrong, crate::proofs::CountLemmas::object_right))]
fn object_at<'a>(
    alloc: Global,
    fields: &[Field],
    words: &'a [u64],
) -> Result<(Vec<Value>, &'a [u64]), Stop>
    ensures { Gives (λ x. (an_object (data_of (map datum x.0.items)), x.1.now)) result (reading_object (count_parts (parts fields.now)) (each_reading (parts fields.now)) words.now) }
{
    let (count, rest) = read_word(words)?;
    if count != fields.len() as u64 {
        return Err(Stop::Left(words.len() as u64));
    }
    let (values, rest) = fields_at(alloc, fields, rest)?;
    Ok((values, rest))
}

/// The values of these shapes that the words begin with, and the words after them.
pub(crate) fn values_of_shapes<'a>(
    alloc: Global,
    shapes: &[Shape],
    words: &'a [u64],
) -> Result<(Vec<Value>, &'a [u64]), Stop>
    ensures { Gives (λ x. (data_of (map datum x.0.items), x.1.now)) result (several (map tree shapes.now) words.now) }
{
    let mut values = Vec::new(alloc);
    let mut rest = words;
    for shape in shapes {
        let (value, after) = value_at(alloc, shape, rest)?;
        values.push(value)?;
        rest = after;
    }
    Ok((values, rest))
}

/// The values of these types, of which the words are the spellings, one after the other.
///
/// `At` comes exactly where there are none, with the place of the first fault.
pub fn read(
    alloc: Global,
    table: &TypeTable,
    types: &[TypeId],
    words: &[u64],
) -> Result<Seq<Value>, SpellFault>
    requires { IsTrue (is_some (shapes_at (seen table.now) (ids_of types.now))) }
    ensures found { IfOk result (λ values. TypesSpell (seen table.now) (ids_of types.now) (data_of (map datum values)) words.now) }
    ensures faulty { IfErr result (λ fault. Faulty fault (seen table.now) (ids_of types.now) words.now) }
{
    match read_whole(alloc, table, types, words) {
        Ok(values) => Ok(Seq::of_vec(values)),
        Err(Stop::Memory) => Err(SpellFault::Memory),
        Err(Stop::Left(left)) => Err(SpellFault::At(place_of(words.len() as u64, left))),
    }
}

fn place_of(length: u64, left: u64) -> u64
    ensures { left ≤ length → result + left ≡ length }
{
    length.saturating_sub(left)
}

fn read_whole(
    alloc: Global,
    table: &TypeTable,
    types: &[TypeId],
    words: &[u64],
) -> Result<Vec<Value>, Stop>
    requires { IsTrue (is_some (shapes_at (seen table.now) (ids_of types.now))) }
    ensures { Gives (λ values. data_of (map datum values.items)) result (whole_reading (seen table.now) (ids_of types.now) words.now) }
{
    let (values, rest) = values_at(alloc, table, types, words)?;
    if !rest.is_empty() {
        return Err(Stop::Left(rest.len() as u64));
    }
    Ok(values)
}

/// The values of these types that the words begin with, and the words after them.
fn values_at<'a>(
    alloc: Global,
    table: &TypeTable,
    types: &[TypeId],
    words: &'a [u64],
) -> Result<(Vec<Value>, &'a [u64]), Stop>
    requires { IsTrue (is_some (shapes_at (seen table.now) (ids_of types.now))) }
    ensures { Gives (λ x. (data_of (map datum x.0.items), x.1.now)) result (shapes_reading (shapes_at (seen table.now) (ids_of types.now)) words.now) }
{
    let mut values = Vec::new(alloc);
    let mut rest = words;
    for id in types {
        let (value, after) = typed_value_at(alloc, table, *id, rest)?;
        values.push(value)?;
        rest = after;
    }
    Ok((values, rest))
}

fn typed_value_at<'a>(
    alloc: Global,
    table: &TypeTable,
    id: TypeId,
    words: &'a [u64],
) -> Result<(Value, &'a [u64]), Stop>
    requires { IsTrue (is_some (shape_at (seen table.now) id.0)) }
    ensures { (f : ShapeTree) → shape_at (seen table.now) id.0 ≡ Some f → Gives (λ x. (datum x.0, x.1.now)) result (reading f words.now) }
{
    match table.shape(id) {
        Some(shape) => value_at(alloc, shape, words),
        None => unreachable!(),
    }
}
