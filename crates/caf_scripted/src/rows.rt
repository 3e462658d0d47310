//! The contents that scripted actors get and send.
ghost use Rattle.std.specs.Prelude.{[], ◌∷◌, refl};
ghost use Rattle.caf_types.specs.ShapeTree.{unit, unsigned};
ghost use Rattle.caf_words.specs.Datum.{a_unit, an_unsigned, no_data, more};

use caf_types::{Memory, Seq, Shape, TypeId, TypeIds};
use caf_words::{Row, Stop, read_unit, read_word, write_unit, write_word};
use std::alloc::Global;

/// One element of type `unsigned`.
#[derive(Drop)]
pub struct Number(
    /// Its value.
    pub u64,
);

impl Row for Number {
    ghost ids = { 2 ∷ [] };

    ghost shapes = { unsigned ∷ [] };

    ghost means = { λ row. more (an_unsigned row.0) no_data };

    fn types(alloc: Global) -> Result<TypeIds, Memory> {
        let mut types = Seq::new(alloc);
        types.push(TypeId(2))?;
        Ok(types)
    }

    fn shapes(alloc: Global) -> Result<Seq<Shape>, Memory> {
        let mut shapes = Seq::new(alloc);
        shapes.push(Shape::Unsigned)?;
        Ok(shapes)
    }

    fn write_words(&self, words: &mut Vec<u64>) -> Result<(), Memory> {
        write_word(words, self.0)
    }

    fn read_words(_alloc: Global, words: &[u64]) -> Result<(Number, &[u64]), Stop> {
        let (number, rest) = read_word(words)?;
        Ok((Number(number), rest))
    }

    ghost one_shape_each = { refl };

    ghost are_of_shapes = { λ row. refl };
}

/// One element of type `unit`.
#[derive(Drop)]
pub struct Nothing;

impl Row for Nothing {
    ghost ids = { 0 ∷ [] };

    ghost shapes = { unit ∷ [] };

    ghost means = { λ row. more a_unit no_data };

    fn types(alloc: Global) -> Result<TypeIds, Memory> {
        let mut types = Seq::new(alloc);
        types.push(TypeId(0))?;
        Ok(types)
    }

    fn shapes(alloc: Global) -> Result<Seq<Shape>, Memory> {
        let mut shapes = Seq::new(alloc);
        shapes.push(Shape::Unit)?;
        Ok(shapes)
    }

    fn write_words(&self, words: &mut Vec<u64>) -> Result<(), Memory> {
        write_unit(words)
    }

    fn read_words(_alloc: Global, words: &[u64]) -> Result<(Nothing, &[u64]), Stop> {
        let rest = read_unit(words)?;
        Ok((Nothing, rest))
    }

    ghost one_shape_each = { refl };

    ghost are_of_shapes = { λ row. refl };
}
