ghost use Rattle.std.specs.Prelude.{◌≡◌, nat_lt, IfOk, Some, decimal};
ghost use Rattle.caf_types.specs.ShapeTree.{list, object, depth, parts_depth};
ghost use Rattle.caf_types.specs.Shape.{tree, parts};

use crate::{Memory, Name};
use sqlite_items::{Boxed, Items};
use std::alloc::Global;
use std::fmt;

/// The number of a type. IDs 0 to 9 are built in, and blocks have IDs from
/// [`FIRST_ID`](crate::FIRST_ID) to [`LAST_ID`](crate::LAST_ID).
#[derive(Clone, Copy, Debug, PartialEq, Eq, Drop)]
pub struct TypeId(pub u16);

/// Writes the number alone.
impl fmt::Display for TypeId {
    ghost output = { λ id. Some (decimal id.0) };

    fn fmt<W: fmt::Write>(&self, f: &mut fmt::Formatter<W>) -> fmt::Result {
        let TypeId(id) = *self;
        write!(f, "{id}")
    }
}

/// What the values of a type look like.
#[derive(Debug, Drop)]
#[cycle(shape)]
pub enum Shape {
    /// The one value without content.
    Unit,
    /// False or true.
    Flag,
    /// A whole number of 64 bits.
    Unsigned,
    /// A whole number of 64 bits in two's complement.
    Signed,
    /// A text in UTF-8.
    Text,
    /// Any bytes.
    Bytes,
    /// The number of a place, below [`PLACES`](crate::PLACES).
    Place,
    /// Any number of values of one shape.
    List(Boxed<Shape>),
    /// A value for each field, in declared order.
    Object(Items<Field>),
}

/// A field of an object.
#[derive(Debug, Drop)]
#[cycle(shape)]
pub struct Field {
    /// The field's name.
    pub name: Name,
    /// The shape of the field's values.
    pub shape: Shape,
}

/// A type that a block declares.
#[derive(Debug, Drop)]
pub struct Entry {
    /// The type's name.
    pub name: Name,
    /// The shape of the type's values.
    pub shape: Shape,
}

impl Shape {
    /// The shape of lists of `item`.
    pub fn list_of(alloc: Global, item: Shape) -> Result<Shape, Memory>
        ensures { IfOk result (λ shape. tree shape ≡ list (tree item)) }
    {
        Ok(Shape::List(Boxed::new(alloc, item)?))
    }

    /// The shape of objects with these fields.
    pub fn object_of(fields: Items<Field>) -> Shape
        ensures { tree result ≡ object (parts fields) }
    {
        Shape::Object(fields)
    }
}

/// Whether a shape nests deeper than `limit`. A shape without parts nests 1.
#[cycle(nests)]
pub(crate) fn nests_past(shape: &Shape, limit: u64) -> bool
    ensures { result ≡ nat_lt limit (depth (tree shape.now)) }
{
    if limit == 0 {
        return true;
    }
    match shape {
        Shape::List(item) => nests_past(item.get(), limit - 1),
        Shape::Object(fields) => fields_nest_past(fields.as_slice(), limit - 1),
        _ => false,
    }
}

#[cycle(nests)]
fn fields_nest_past(fields: &[Field], limit: u64) -> bool
    ensures { result ≡ nat_lt limit (parts_depth (parts fields.now)) }
{
    for field in fields {
        if nests_past(&field.shape, limit) {
            return true;
        }
    }
    false
}
