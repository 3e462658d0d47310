ghost use Rattle.std.specs.Prelude.{◌≡◌, ◌++◌, ◌∷◌, [], map, Some, is_some, IsTrue, IfOk, OnOk};
ghost use Rattle.caf_types.specs.Shape.{tree, parts};
ghost use Rattle.caf_types.specs.ShapeTree.{list, count_parts};
ghost use Rattle.caf_words.specs.Datum.{data_of, a_list, an_object};
ghost use Rattle.caf_words.specs.Value.{datum};
ghost use Rattle.caf_events.specs.Event.{events, scalar_events, each_events, list_events, object_events, part_events};
ghost use Rattle.caf_events.specs.Taking.{taking, taking_parts, many};
ghost use Rattle.caf_events.specs.Tells.{Tells};

use crate::{Load, Save};
use caf_types::{Field, Items, Memory, Shape};
use caf_words::Value;
use std::alloc::Global;

/// Tells the events of a value of the shape. After a refusal the saver is broken.
#[cycle(save_value)]
pub fn save_value<S: Save>(shape: &Shape, value: &Value, saver: &mut S) -> Result<(), Memory>
    ensures { OnOk result (Tells S.told saver.old saver.new (events (tree shape.now) (datum value.now))) }
{
    match shape {
        Shape::List(item) => match value {
            Value::List(values) => save_items(item.get(), values.as_slice(), saver),
            _ => Ok(()),
        },
        Shape::Object(fields) => match value {
            Value::Object(values) => save_object(fields.as_slice(), values.as_slice(), saver),
            _ => Ok(()),
        },
        _ => save_scalar(value, saver),
    }
}

fn save_scalar<S: Save>(value: &Value, saver: &mut S) -> Result<(), Memory>
    ensures { OnOk result (Tells S.told saver.old saver.new (scalar_events (datum value.now))) }
{
    match value {
        Value::Unit => saver.unit(),
        Value::Flag(flag) => saver.flag(*flag),
        Value::Unsigned(number) => saver.unsigned(*number),
        Value::Signed(number) => saver.signed(*number),
        Value::Text(text) => saver.text(text.as_str()),
        Value::Bytes(bytes) => saver.bytes(bytes.as_slice()),
        Value::Place(place) => saver.place(*place),
        Value::List(_) | Value::Object(_) => Ok(()),
    }
}

#[cycle(save_value)]
fn save_items<S: Save>(shape: &Shape, values: &[Value], saver: &mut S) -> Result<(), Memory>
    ensures { OnOk result (Tells S.told saver.old saver.new (list_events (each_events (events (tree shape.now))) (a_list (data_of (map datum values.now))))) }
{
    saver.list(values.len() as u64)?;
    save_each(shape, values, saver)?;
    Ok(())
}

#[cycle(save_value)]
fn save_each<S: Save>(shape: &Shape, values: &[Value], saver: &mut S) -> Result<(), Memory>
    ensures { OnOk result (Tells S.told saver.old saver.new (each_events (events (tree shape.now)) (data_of (map datum values.now)))) }
{
    for value in values {
        save_value(shape, value, saver)?;
    }
    Ok(())
}

#[cycle(save_value)]
fn save_object<S: Save>(fields: &[Field], values: &[Value], saver: &mut S) -> Result<(), Memory>
    ensures { OnOk result (Tells S.told saver.old saver.new (object_events (count_parts (parts fields.now)) (part_events (parts fields.now)) (an_object (data_of (map datum values.now))))) }
{
    saver.object(fields.len() as u64)?;
    save_fields(fields, values, saver)?;
    Ok(())
}

#[cycle(save_value)]
fn save_fields<S: Save>(fields: &[Field], values: &[Value], saver: &mut S) -> Result<(), Memory>
    ensures { OnOk result (Tells S.told saver.old saver.new (part_events (parts fields.now) (data_of (map datum values.now)))) }
{
    for (i, field) in fields.iter().enumerate() {
        if i >= values.len() {
            return Ok(());
        }
        saver.field(field.name.as_str())?;
        save_value(&field.shape, &values[i], saver)?;
    }
    Ok(())
}

fn add_value(values: &mut Vec<Value>, value: Value) -> Result<(), Memory>
    ensures { OnOk result (values.new.items ≡ values.old.items ++ value ∷ []) }
{
    match values.push(value) {
        Ok(()) => Ok(()),
        Err(_) => Err(Memory),
    }
}

/// Takes the events of a value of the shape, with the condition that those of one come next. After a
/// refusal the loader is broken.
#[cycle(load_value)]
pub fn load_value<L: Load>(alloc: Global, shape: &Shape, loader: &mut L) -> Result<Value, Memory>
    requires { IsTrue (is_some (taking (tree shape.now) (L.left loader.old))) }
    ensures { IfOk result (λ value. taking (tree shape.now) (L.left loader.old) ≡ Some (datum value, L.left loader.new)) }
{
    match shape {
        Shape::Unit => {
            loader.unit();
            Ok(Value::Unit)
        }
        Shape::Flag => Ok(Value::Flag(loader.flag())),
        Shape::Unsigned => Ok(Value::Unsigned(loader.unsigned())),
        Shape::Signed => Ok(Value::Signed(loader.signed())),
        Shape::Text => Ok(Value::Text(loader.text(alloc)?)),
        Shape::Bytes => Ok(Value::Bytes(loader.bytes(alloc)?)),
        Shape::Place => Ok(Value::Place(loader.place())),
        Shape::List(item) => Ok(Value::List(Items::from_vec(load_values(
            alloc,
            item.get(),
            loader,
        )?))),
        Shape::Object(fields) => {
            let _ = loader.object();
            let values = load_fields(alloc, fields.as_slice(), loader)?;
            Ok(Value::Object(Items::from_vec(values)))
        }
    }
}

#[cycle(load_value)]
#[tactic(auto, using(crate::proofs::ValueLemmas::list_taken))]
fn load_values<L: Load>(alloc: Global, shape: &Shape, loader: &mut L) -> Result<Vec<Value>, Memory>
    requires { IsTrue (is_some (taking (list (tree shape.now)) (L.left loader.old))) }
    ensures { IfOk result (λ values. taking (list (tree shape.now)) (L.left loader.old) ≡ Some (a_list (data_of (map datum values.items)), L.left loader.new)) }
{
    let count = loader.list();
    let values = load_items(alloc, shape, count, loader)?;
    Ok(values)
}

#[cycle(load_value)]
fn load_items<L: Load>(
    alloc: Global,
    shape: &Shape,
    count: u64,
    loader: &mut L,
) -> Result<Vec<Value>, Memory>
    requires { IsTrue (is_some (many (taking (tree shape.now)) count (L.left loader.old))) }
    ensures { IfOk result (λ values. many (taking (tree shape.now)) count (L.left loader.old) ≡ Some (data_of (map datum values.items), L.left loader.new)) }
{
    let mut values = Vec::new(alloc);
    for _ in 0..count {
        let value = load_value(alloc, shape, loader)?;
        add_value(&mut values, value)?;
    }
    Ok(values)
}

#[cycle(load_value)]
fn load_fields<L: Load>(
    alloc: Global,
    fields: &[Field],
    loader: &mut L,
) -> Result<Vec<Value>, Memory>
    requires { IsTrue (is_some (taking_parts (parts fields.now) (L.left loader.old))) }
    ensures { IfOk result (λ values. taking_parts (parts fields.now) (L.left loader.old) ≡ Some (data_of (map datum values.items), L.left loader.new)) }
{
    let mut values = Vec::new(alloc);
    for field in fields {
        loader.field(field.name.as_str());
        let value = load_value(alloc, &field.shape, loader)?;
        add_value(&mut values, value)?;
    }
    Ok(values)
}
