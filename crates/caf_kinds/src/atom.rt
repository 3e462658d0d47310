//! Types without parts. In a message they tell it from others.
ghost use Rattle.std.specs.Prelude.{refl};
ghost use Rattle.caf_types.specs.ShapeTree.{unit};
ghost use Rattle.caf_words.specs.Datum.{a_unit};

use crate::Element;
use caf_types::{Memory, Shape, TypeId};
use caf_words::{Spelled, Stop, read_unit, write_unit};
use std::alloc::Global;

/// The one value of the type with this ID, which has the shape `Unit`.
#[derive(Clone, Copy, Debug, PartialEq, Eq, Drop)]
pub struct Atom<const ID: u16>;

/// `unit`, which answers what has no answer of its own.
pub type Unit = Atom<0>;

/// `start`
pub type Start = Atom<206>;

/// `more`
pub type More = Atom<207>;

/// `index`
pub type Index = Atom<208>;

/// `totals`
pub type Totals = Atom<209>;

/// `count`
pub type Count = Atom<210>;

/// `add`
pub type Add = Atom<211>;

/// `sub`
pub type Sub = Atom<212>;

/// `mul`
pub type Mul = Atom<213>;

/// `put`
pub type Put = Atom<214>;

/// `get`
pub type Get = Atom<215>;

/// `wake`
pub type Wake = Atom<216>;

/// `rest`
pub type Rest = Atom<217>;

/// `settle`
pub type Settle = Atom<218>;

/// `leave`
pub type Leave = Atom<219>;

/// `watch`
pub type Watch = Atom<220>;

/// `link`
pub type Link = Atom<221>;

/// `seen`
pub type Seen = Atom<222>;

/// `spawn`
pub type Spawn = Atom<223>;

/// `alarm`
pub type Alarm = Atom<224>;

/// `ring`
pub type Ring = Atom<225>;

impl<const ID: u16> Atom<ID> {
    /// The one value.
    pub const fn new() -> Atom<ID> {
        Atom
    }
}

impl<const ID: u16> Spelled for Atom<ID> {
    ghost shape = { unit };

    ghost means = { λ it. a_unit };

    fn write(&self, words: &mut Vec<u64>) -> Result<(), Memory> {
        write_unit(words)
    }

    fn read(_alloc: Global, words: &[u64]) -> Result<(Atom<ID>, &[u64]), Stop> {
        let rest = read_unit(words)?;
        Ok((Atom, rest))
    }

    ghost fits_shape = { λ it. refl };
}

impl<const ID: u16> Element for Atom<ID> {
    ghost id = { ID };

    fn type_id() -> TypeId {
        TypeId(ID)
    }

    fn shape_of(_alloc: Global) -> Result<Shape, Memory> {
        Ok(Shape::Unit)
    }
}
