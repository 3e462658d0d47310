ghost use Rattle.std.specs.Prelude.{◌≡◌, ◌∷◌, [], map, List, ℕ, Result, Err, true, IfOk, IfErr};
ghost use Rattle.caf_types.specs.Shape.{tree, parts};
ghost use Rattle.caf_words.specs.Datum.{Datum, fits, data_of, a_list, an_object, some_bytes, a_place};
ghost use Rattle.caf_words.specs.Value.{datum};
ghost use Rattle.serde_json.specs.View.{view, items_view, members_view};
ghost use Rattle.serde_json.specs.Find.{as_object, as_str, as_array};
ghost use Rattle.caf_json.specs.Form as json_form;
ghost use Rattle.caf_json.specs.Reading.{unjson, each_read, parts_read, object_read, list_read, found, below_places, inside as inside_part};
ghost use Rattle.std.specs.Option.{option_and_then};
ghost use Rattle.caf_json.specs.Digits.{unhex};
ghost use Rattle.caf_events.specs.LoadAnswer.{Refused};
ghost use Rattle.caf_json.specs.Answer.{Gives, Fails};

use crate::digits::bytes_of_digits;
use caf_events::LoadFault;
use caf_types::{Field, Items, Letters, Octets, PLACES, Seq, Shape};
use caf_words::Value;
use serde_json::{Map, Value as Json};
use std::alloc::Global;

/// The part itself is unfit.
fn unfit(alloc: Global) -> LoadFault
    ensures { Fails {Y = Datum} result (Err []) }
{
    LoadFault::Unfit(Seq::new(alloc))
}

/// A fault inside part `i`.
fn within(fault: LoadFault, i: u64) -> LoadFault
    ensures { (read : Result Datum (List ℕ)) → Fails fault read → Fails result (inside_part i read) }
{
    match fault {
        LoadFault::Memory => LoadFault::Memory,
        LoadFault::Unfit(path) => {
            let mut path = path.into_vec();
            match path.insert(0, i) {
                Ok(()) => LoadFault::Unfit(Seq::of_vec(path)),
                Err(_) => LoadFault::Memory,
            }
        }
    }
}

/// Part `i` is missing.
fn missing(alloc: Global, i: u64) -> LoadFault
    ensures { Fails {Y = Datum} result (Err (i ∷ [])) }
{
    let mut path = Seq::new(alloc);
    match path.push(i) {
        Ok(()) => LoadFault::Unfit(path),
        Err(_) => LoadFault::Memory,
    }
}

fn octets_of(alloc: Global, json: &Json) -> Result<Octets, LoadFault>
    ensures { Gives (λ bytes. some_bytes bytes) result (found some_bytes (option_and_then unhex (as_str (view json.now)))) }
{
    match json.as_str() {
        None => Err(unfit(alloc)),
        Some(text) => match bytes_of_digits(alloc, text.as_bytes())? {
            None => Err(unfit(alloc)),
            Some(bytes) => Ok(Seq::of_vec(bytes)),
        },
    }
}

fn place_of(alloc: Global, json: &Json) -> Result<u32, LoadFault>
    ensures { Gives (λ place. a_place place) result (found a_place (option_and_then below_places (json_form.unsigned_in (view json.now)))) }
{
    match json.as_u64() {
        None => Err(unfit(alloc)),
        Some(number) => {
            if number < PLACES as u64 {
                Ok(number as u32)
            } else {
                Err(unfit(alloc))
            }
        }
    }
}

/// The value of the shape that has this JSON as its form.
///
/// `Unfit` comes exactly where it is the form of none. The path's positions, of fields in declared order
/// and of elements, from 0, lead down to the first part that is missing or isn't of its shape. An object
/// that has its declared members in form and others beside them is itself that part.
pub fn value_of_json(alloc: Global, shape: &Shape, json: &Json) -> Result<Value, LoadFault>
    ensures found { IfOk result (λ value. json_form.HasJson (tree shape.now) (datum value) (view json.now)) }
    ensures fitting { IfOk result (λ value. fits (tree shape.now) (datum value) ≡ true) }
    ensures unfit { IfErr result (Refused (λ d. json_form.HasJson (tree shape.now) d (view json.now)) (λ path. unjson (tree shape.now) (view json.now) ≡ Err path)) }
{
    value_of(alloc, shape, json)
}

#[cycle(unjson)]
fn value_of(alloc: Global, shape: &Shape, json: &Json) -> Result<Value, LoadFault>
    ensures { Gives (λ v. datum v) result (unjson (tree shape.now) (view json.now)) }
{
    match shape {
        Shape::Unit => match json.as_null() {
            Some(()) => Ok(Value::Unit),
            None => Err(unfit(alloc)),
        },
        Shape::Flag => match json.as_bool() {
            Some(flag) => Ok(Value::Flag(flag)),
            None => Err(unfit(alloc)),
        },
        Shape::Unsigned => match json.as_u64() {
            Some(number) => Ok(Value::Unsigned(number)),
            None => Err(unfit(alloc)),
        },
        Shape::Signed => match json.as_i64() {
            Some(number) => Ok(Value::Signed(number)),
            None => Err(unfit(alloc)),
        },
        Shape::Text => match json.as_str() {
            Some(text) => Ok(Value::Text(Letters::of(alloc, text)?)),
            None => Err(unfit(alloc)),
        },
        Shape::Bytes => Ok(Value::Bytes(octets_of(alloc, json)?)),
        Shape::Place => Ok(Value::Place(place_of(alloc, json)?)),
        Shape::List(item) => Ok(Value::List(Items::from_vec(list_of(alloc, item.get(), json)?))),
        Shape::Object(fields) => Ok(Value::Object(Items::from_vec(object_of(
            alloc,
            fields.as_slice(),
            json,
        )?))),
    }
}

#[cycle(unjson)]
fn list_of(alloc: Global, shape: &Shape, json: &Json) -> Result<Vec<Value>, LoadFault>
    ensures { Gives (λ v. a_list (data_of (map datum v.items))) result (list_read (each_read (unjson (tree shape.now)) 0) (as_array (view json.now))) }
{
    match json.as_array() {
        None => Err(unfit(alloc)),
        Some(items) => {
            let values = items_of(alloc, shape, items.as_slice())?;
            Ok(values)
        }
    }
}

#[cycle(unjson)]
fn items_of(alloc: Global, shape: &Shape, items: &[Json]) -> Result<Vec<Value>, LoadFault>
    ensures { Gives (λ v. data_of (map datum v.items)) result (each_read (unjson (tree shape.now)) 0 (items_view items.now)) }
{
    let mut values = Vec::new(alloc);
    for (i, item) in items.iter().enumerate() {
        match value_of(alloc, shape, item) {
            Ok(value) => values.push(value)?,
            Err(fault) => return Err(within(fault, i as u64)),
        }
    }
    Ok(values)
}

#[cycle(unjson)]
fn fields_of(alloc: Global, fields: &[Field], json: &Json) -> Result<Vec<Value>, LoadFault>
    ensures { Gives (λ v. data_of (map datum v.items)) result (parts_read (parts fields.now) 0 (view json.now)) }
{
    let mut values = Vec::new(alloc);
    for (i, field) in fields.iter().enumerate() {
        match json.get(field.name.as_str()) {
            None => return Err(missing(alloc, i as u64)),
            Some(member) => match value_of(alloc, &field.shape, member) {
                Ok(value) => values.push(value)?,
                Err(fault) => return Err(within(fault, i as u64)),
            },
        }
    }
    Ok(values)
}

#[cycle(unjson)]
fn object_of(alloc: Global, fields: &[Field], json: &Json) -> Result<Vec<Value>, LoadFault>
    ensures { Gives (λ v. an_object (data_of (map datum v.items))) result
        (object_read (json_form.are_declared (parts fields.now)) (parts_read (parts fields.now) 0 (view json.now)) (as_object (view json.now))) }
{
    match json.as_object() {
        None => Err(unfit(alloc)),
        Some(members) => {
            let values = fields_of(alloc, fields, json)?;
            if !are_declared(fields, members) {
                return Err(unfit(alloc));
            }
            Ok(values)
        }
    }
}

/// Whether no member stands beside the declared ones.
fn are_declared(fields: &[Field], members: &Map<String, Json>) -> bool
    ensures { result ≡ json_form.are_declared (parts fields.now) (members_view members.now.entries) }
{
    for (key, _) in members.iter() {
        if !is_declared(fields, key.as_str()) {
            return false;
        }
    }
    true
}

fn is_declared(fields: &[Field], key: &str) -> bool
    ensures { result ≡ json_form.is_declared (parts fields.now) key.now }
{
    for field in fields {
        if field.name.as_str() == key {
            return true;
        }
    }
    false
}
