ghost use Rattle.std.specs.Prelude.{◌≡◌, map};
ghost use Rattle.caf_types.specs.Shape.{tree, parts};
ghost use Rattle.caf_words.specs.Datum as of;
ghost use Rattle.caf_words.specs.Datum.{data_of};
ghost use Rattle.caf_words.specs.Value.{datum};

use caf_types::{Field, Items, Letters, Octets, PLACES, Shape};

/// A value, of one shape or another.
#[derive(Debug, Drop)]
pub enum Value {
    /// The one value without parts, as an atom has it.
    Unit,
    /// True or false.
    Flag(bool),
    /// A whole number of 64 bits.
    Unsigned(u64),
    /// A whole number of 64 bits in two's complement.
    Signed(i64),
    /// A text in UTF-8.
    Text(Letters),
    /// Any bytes.
    Bytes(Octets),
    /// The number of a place. Of the shape `Place` are those below [`PLACES`].
    Place(u32),
    /// Values of one shape.
    List(Items<Value>),
    /// A value for each field, in declared order.
    Object(Items<Value>),
}

/// Whether the value is of the shape. It takes no memory.
#[cycle(fits)]
pub fn fits(value: &Value, shape: &Shape) -> bool
    ensures { result ≡ of.fits (tree shape.now) (datum value.now) }
{
    match (value, shape) {
        (Value::Unit, Shape::Unit)
        | (Value::Flag(_), Shape::Flag)
        | (Value::Unsigned(_), Shape::Unsigned)
        | (Value::Signed(_), Shape::Signed)
        | (Value::Text(_), Shape::Text)
        | (Value::Bytes(_), Shape::Bytes) => true,
        (Value::Place(place), Shape::Place) => *place < PLACES,
        (Value::List(items), Shape::List(item)) => all_fit(items.as_slice(), item.get()),
        (Value::Object(items), Shape::Object(fields)) => {
            each_fits(items.as_slice(), fields.as_slice())
        }
        _ => false,
    }
}

#[cycle(fits)]
fn all_fit(items: &[Value], shape: &Shape) -> bool
    ensures { result ≡ of.all_fit (of.fits (tree shape.now)) (data_of (map datum items.now)) }
{
    for item in items {
        if !fits(item, shape) {
            return false;
        }
    }
    true
}

#[cycle(fits)]
fn each_fits(items: &[Value], fields: &[Field]) -> bool
    ensures { result ≡ of.each_fits (parts fields.now) (data_of (map datum items.now)) }
{
    for (i, field) in fields.iter().enumerate() {
        if i >= items.len() {
            return false;
        }
        if !fits(&items[i], &field.shape) {
            return false;
        }
    }
    items.len() == fields.len()
}
