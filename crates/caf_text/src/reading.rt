ghost use Rattle.std.specs.Prelude.{[], length, map};
ghost use Rattle.caf_types.specs.Shape.{tree, parts};
ghost use Rattle.caf_words.specs.Datum.{data_of, a_text, some_bytes, an_object};
ghost use Rattle.caf_words.specs.Value.{datum};
ghost use Rattle.caf_words.specs.Answer.{Gives};
ghost use Rattle.caf_text.specs.TextReading as texts;
ghost use Rattle.caf_text.specs.TextReading.{reading, fields_at as reading_fields};

use crate::literal::literal;
use crate::number::{below_zero, nonzero, number};
use crate::quoted::{Mark, unquoted};
use caf_types::{Field, Items, Letters, Seq, Shape};
use caf_words::{Stop, Value};
use std::alloc::Global;

fn flag_at(bytes: &[u8]) -> Result<(Value, &[u8]), Stop>
    ensures { Gives (λ x. (datum x.0, x.1.now)) result (texts.flag_at bytes.now) }
{
    match bytes {
        [] => Err(Stop::Left(0)),
        [first, rest @ ..] => {
            if *first == b't' {
                let rest = literal(b"rue", rest)?;
                return Ok((Value::Flag(true), rest));
            }
            let rest = literal(b"false", bytes)?;
            Ok((Value::Flag(false), rest))
        }
    }
}

fn signed_at(bytes: &[u8]) -> Result<(Value, &[u8]), Stop>
    ensures { Gives (λ x. (datum x.0, x.1.now)) result (texts.signed_at bytes.now) }
{
    match bytes {
        [] => Err(Stop::Left(0)),
        [first, rest @ ..] => {
            if *first == b'-' {
                let (magnitude, rest) = nonzero(1 << 63, rest)?;
                return Ok((Value::Signed(below_zero(magnitude)), rest));
            }
            let (magnitude, rest) = number(9_223_372_036_854_775_807, bytes)?;
            Ok((Value::Signed(magnitude as i64), rest))
        }
    }
}

fn letters_at(alloc: Global, bytes: &[u8]) -> Result<(Letters, &[u8]), Stop>
    ensures { Gives (λ x. (a_text x.0, x.1.now)) result (texts.text_at bytes.now) }
{
    let rest = literal(b"\"", bytes)?;
    let (content, rest) = unquoted(alloc, Mark::Text, rest)?;
    let Some(text) = Letters::from_utf8(content) else {
        return Err(Stop::Left(rest.len() as u64));
    };
    Ok((text, rest))
}

fn octets_at(alloc: Global, bytes: &[u8]) -> Result<(Vec<u8>, &[u8]), Stop>
    ensures { Gives (λ x. (some_bytes x.0.items, x.1.now)) result (texts.some_bytes_at bytes.now) }
{
    let rest = literal(b"x\"", bytes)?;
    let (content, rest) = unquoted(alloc, Mark::Bytes, rest)?;
    Ok((content, rest))
}

fn place_at(bytes: &[u8]) -> Result<(Value, &[u8]), Stop>
    ensures { Gives (λ x. (datum x.0, x.1.now)) result (texts.place_at bytes.now) }
{
    let rest = literal(b"@", bytes)?;
    let (place, rest) = number(255, rest)?;
    Ok((Value::Place(place as u32), rest))
}

/// The value of that shape whose text form the bytes begin with, and the bytes after it.
#[cycle(value_at)]
pub(crate) fn value_at<'a>(
    alloc: Global,
    shape: &Shape,
    bytes: &'a [u8],
) -> Result<(Value, &'a [u8]), Stop>
    ensures { Gives (λ x. (datum x.0, x.1.now)) result (reading (tree shape.now) bytes.now) }
{
    match shape {
        Shape::Unit => {
            let rest = literal(b"unit", bytes)?;
            Ok((Value::Unit, rest))
        }
        Shape::Flag => flag_at(bytes),
        Shape::Unsigned => {
            let (number, rest) = number(u64::MAX, bytes)?;
            Ok((Value::Unsigned(number), rest))
        }
        Shape::Signed => signed_at(bytes),
        Shape::Text => {
            let (text, rest) = letters_at(alloc, bytes)?;
            Ok((Value::Text(text), rest))
        }
        Shape::Bytes => {
            let (content, rest) = octets_at(alloc, bytes)?;
            Ok((Value::Bytes(Seq::of_vec(content)), rest))
        }
        Shape::Place => place_at(bytes),
        Shape::List(item) => {
            let rest = literal(b"[", bytes)?;
            let (items, rest) = items_at(alloc, item.get(), rest)?;
            Ok((Value::List(Items::from_vec(items)), rest))
        }
        Shape::Object(fields) => {
            let (values, rest) = object_at(alloc, fields.as_slice(), bytes)?;
            Ok((Value::Object(Items::from_vec(values)), rest))
        }
    }
}

/// The values of a list behind its opening bracket.
#[cycle(value_at)]
fn items_at<'a>(
    alloc: Global,
    shape: &Shape,
    bytes: &'a [u8],
) -> Result<(Vec<Value>, &'a [u8]), Stop>
    ensures { Gives (λ x. (data_of (map datum x.0.items), x.1.now)) result (texts.values_or_none (reading (tree shape.now)) bytes.now) }
{
    match bytes {
        [] => Err(Stop::Left(0)),
        [first, rest @ ..] => {
            if *first == b']' {
                return Ok((Vec::new(alloc), rest));
            }
            values_at(alloc, shape, bytes)
        }
    }
}

#[cycle(value_at)]
fn values_at<'a>(
    alloc: Global,
    shape: &Shape,
    bytes: &'a [u8],
) -> Result<(Vec<Value>, &'a [u8]), Stop>
    ensures { Gives (λ x. (data_of (map datum x.0.items), x.1.now)) result (texts.values (reading (tree shape.now)) (length bytes.now) bytes.now) }
{
    let mut items = Vec::new(alloc);
    let mut rest = bytes;
    for _ in 0..bytes.len() {
        let (item, after) = value_at(alloc, shape, rest)?;
        items.push(item)?;
        let (is_last, after) = separator(after)?;
        if is_last {
            return Ok((items, after));
        }
        rest = after;
    }
    Err(Stop::Left(rest.len() as u64))
}

/// Whether a value of a list is the last one, and what stands behind the bracket or the comma.
fn separator(bytes: &[u8]) -> Result<(bool, &[u8]), Stop>
    ensures { Gives (λ x. (x.0, x.1.now)) result (texts.separator bytes.now) }
{
    match bytes {
        [] => Err(Stop::Left(0)),
        [first, rest @ ..] => {
            if *first == b']' {
                return Ok((true, rest));
            }
            let rest = literal(b", ", bytes)?;
            Ok((false, rest))
        }
    }
}

#[cycle(value_at)]
fn object_at<'a>(
    alloc: Global,
    fields: &[Field],
    bytes: &'a [u8],
) -> Result<(Vec<Value>, &'a [u8]), Stop>
    ensures { Gives (λ x. (an_object (data_of (map datum x.0.items)), x.1.now)) result (texts.object_at (reading_fields (parts fields.now) []) bytes.now) }
{
    let rest = literal(b"{", bytes)?;
    let (values, rest) = fields_at(alloc, fields, rest)?;
    let rest = literal(b"}", rest)?;
    Ok((values, rest))
}

#[cycle(value_at)]
fn fields_at<'a>(
    alloc: Global,
    fields: &[Field],
    bytes: &'a [u8],
) -> Result<(Vec<Value>, &'a [u8]), Stop>
    ensures { Gives (λ x. (data_of (map datum x.0.items), x.1.now)) result (reading_fields (parts fields.now) [] bytes.now) }
{
    let mut values = Vec::new(alloc);
    let mut rest = bytes;
    let mut before = b"".as_slice();
    for field in fields {
        let (value, after) = field_at(alloc, field, before, rest)?;
        values.push(value)?;
        rest = after;
        before = b", ".as_slice();
    }
    Ok((values, rest))
}

/// A field's value, behind its name.
#[cycle(value_at)]
fn field_at<'a>(
    alloc: Global,
    field: &Field,
    before: &[u8],
    bytes: &'a [u8],
) -> Result<(Value, &'a [u8]), Stop>
    ensures { Gives (λ x. (datum x.0, x.1.now)) result (texts.field_at before.now field.now.name (reading (tree field.now.shape)) bytes.now) }
{
    let rest = literal(before, bytes)?;
    let rest = literal(field.name.as_str().as_bytes(), rest)?;
    let rest = literal(b": ", rest)?;
    value_at(alloc, &field.shape, rest)
}
