//! Places as elements of messages.
ghost use Rattle.std.specs.Prelude.{◌≡◌, ◌<◌, ◌≤◌, IfSome, IfNone};

use crate::Element;
use caf_types::{Memory, PLACES, Seq, Shape, TypeId, shape_of};
use caf_words::{Spelled, Stop, read_list, read_word, write_list, write_place};
use std::alloc::Global;

/// The number of a place, which is below 256.
#[derive(Clone, Copy, Debug, Drop)]
pub struct PlaceNumber {
    number: u32,
    pub ghost below: { number < 256 },
}

/// Numbers of places.
#[derive(Debug, Drop)]
pub struct PlaceList(
    /// They, in order.
    pub Seq<PlaceNumber>,
);

impl PlaceNumber {
    /// The place of that number; None exactly where it is none's.
    pub fn new(number: u32) -> Option<PlaceNumber>
        ensures some { IfSome result (λ place. place.number ≡ number) }
        ensures none { IfNone result (256 ≤ number) }
    {
        if number < PLACES {
            Some(PlaceNumber { number })
        } else {
            None
        }
    }

    /// Its number.
    pub fn number(self) -> u32
        ensures value { result ≡ self.number }
        ensures below { result < 256 }
    {
        self.number
    }
}

impl Spelled for PlaceNumber {
    ghost use Rattle.caf_types.specs.ShapeTree as shapes;
    ghost use Rattle.caf_kinds.specs.Places.{place_means, places_mean, place_fits, places_fit};

    ghost shape = { shapes.place };

    ghost means = { place_means };

    fn write(&self, words: &mut Vec<u64>) -> Result<(), Memory> {
        write_place(words, self.number)
    }

    fn read(_alloc: Global, words: &[u64]) -> Result<(PlaceNumber, &[u64]), Stop> {
        let (word, rest) = read_word(words)?;
        if word >= PLACES as u64 {
            return Err(Stop::Left(words.len() as u64));
        }
        let number = word as u32;
        Ok((PlaceNumber { number }, rest))
    }

    ghost fits_shape = { place_fits };
}

impl Element for PlaceNumber {
    ghost id = { 6 };

    fn type_id() -> TypeId {
        TypeId(6)
    }

    fn shape_of(_alloc: Global) -> Result<Shape, Memory> {
        Ok(Shape::Place)
    }
}

impl Spelled for PlaceList {
    ghost use Rattle.caf_types.specs.ShapeTree as shapes;
    ghost use Rattle.caf_kinds.specs.Places.{place_means, places_mean, place_fits, places_fit};

    ghost shape = { shapes.list shapes.place };

    ghost means = { places_mean };

    fn write(&self, words: &mut Vec<u64>) -> Result<(), Memory> {
        write_list(words, self.0.as_slice())
    }

    fn read(alloc: Global, words: &[u64]) -> Result<(PlaceList, &[u64]), Stop> {
        let (places, rest) = read_list(alloc, words)?;
        Ok((PlaceList(places), rest))
    }

    ghost fits_shape = { places_fit };
}

impl Element for PlaceList {
    ghost id = { 9 };

    fn type_id() -> TypeId {
        TypeId(9)
    }

    fn shape_of(alloc: Global) -> Result<Shape, Memory> {
        Ok(shape_of!(alloc, [Place]))
    }
}
