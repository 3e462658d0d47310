//! Types that every table has, as elements of messages.
ghost use Rattle.std.specs.Prelude.{refl};
ghost use Rattle.caf_types.specs.ShapeTree.{unsigned, signed, text};
ghost use Rattle.caf_words.specs.Datum.{an_unsigned, a_signed, a_text};

use crate::Element;
use caf_types::{Letters, Memory, Shape, TypeId};
use caf_words::{
    Spelled, Stop, read_signed, read_text, read_word, write_signed, write_text, write_word,
};
use std::alloc::Global;

/// A whole number of 64 bits.
#[derive(Clone, Copy, Debug, PartialEq, Eq, Drop)]
pub struct Unsigned(
    /// Its value.
    pub u64,
);

/// A whole number of 64 bits in two's complement.
#[derive(Clone, Copy, Debug, PartialEq, Eq, Drop)]
pub struct Signed(
    /// Its value.
    pub i64,
);

/// A text.
#[derive(Debug, Drop)]
pub struct Text(
    /// Its letters.
    pub Letters,
);

impl Spelled for Unsigned {
    ghost shape = { unsigned };

    ghost means = { λ it. an_unsigned it.0 };

    fn write(&self, words: &mut Vec<u64>) -> Result<(), Memory> {
        write_word(words, self.0)
    }

    fn read(_alloc: Global, words: &[u64]) -> Result<(Unsigned, &[u64]), Stop> {
        let (number, rest) = read_word(words)?;
        Ok((Unsigned(number), rest))
    }

    ghost fits_shape = { λ it. refl };
}

impl Element for Unsigned {
    ghost id = { 2 };

    fn type_id() -> TypeId {
        TypeId(2)
    }

    fn shape_of(_alloc: Global) -> Result<Shape, Memory> {
        Ok(Shape::Unsigned)
    }
}

impl Spelled for Signed {
    ghost shape = { signed };

    ghost means = { λ it. a_signed it.0 };

    fn write(&self, words: &mut Vec<u64>) -> Result<(), Memory> {
        write_signed(words, self.0)
    }

    fn read(_alloc: Global, words: &[u64]) -> Result<(Signed, &[u64]), Stop> {
        let (number, rest) = read_signed(words)?;
        Ok((Signed(number), rest))
    }

    ghost fits_shape = { λ it. refl };
}

impl Element for Signed {
    ghost id = { 3 };

    fn type_id() -> TypeId {
        TypeId(3)
    }

    fn shape_of(_alloc: Global) -> Result<Shape, Memory> {
        Ok(Shape::Signed)
    }
}

impl Spelled for Text {
    ghost shape = { text };

    ghost means = { λ it. a_text it.0 };

    fn write(&self, words: &mut Vec<u64>) -> Result<(), Memory> {
        write_text(words, self.0.as_str())
    }

    fn read(alloc: Global, words: &[u64]) -> Result<(Text, &[u64]), Stop> {
        let (letters, rest) = read_text(alloc, words)?;
        Ok((Text(letters), rest))
    }

    ghost fits_shape = { λ it. refl };
}

impl Element for Text {
    ghost id = { 4 };

    fn type_id() -> TypeId {
        TypeId(4)
    }

    fn shape_of(_alloc: Global) -> Result<Shape, Memory> {
        Ok(Shape::Text)
    }
}
