ghost use Rattle.std.specs.Prelude.{◌≡◌, ◌++◌, ℕ, List, length, map, true, IsTrue, IfOk, OnOk, OnErr};
ghost use Rattle.caf_types.specs.Shape.{tree};
ghost use Rattle.caf_types.specs.ShapeTree.{ShapeTree};
ghost use Rattle.caf_words.specs.Answer.{Gives};
ghost use Rattle.caf_words.specs.Datum.{Data, data_of, are_in_range};
ghost use Rattle.caf_words.specs.Several.{ids_of, several, several_fit};
ghost use Rattle.caf_words.specs.Spelling.{spellings, IsFront};
ghost use Rattle.caf_words.specs.Value.{datum};

use crate::reading::values_of_shapes;
use crate::spelling::write_values;
use crate::{Stop, Value};
use caf_types::{Memory, Seq, Shape, TypeIds};
use std::alloc::Global;

/// A type of the program that stands for the elements of a message: a list of type IDs with a shape
/// each, the same for every value of the type, and a list of values of these shapes.
///
/// A row writes and reads its own words, as its parts do by [`Spelled`](crate::Spelled). Its values
/// follow from the words; a type may give `to_values` and `from_values` of its own.
pub trait Row: Sized {
    /// The IDs of the elements' types.
    ghost ids: { List ℕ };

    /// The shapes of the elements.
    ghost shapes: { List ShapeTree };

    /// The elements of one of the type.
    ghost means: { Self → Data };

    /// The IDs of the elements' types.
    fn types(alloc: Global) -> Result<TypeIds, Memory>
        ensures { IfOk result (λ types. ids_of types ≡ ids) };

    /// The shapes of the elements.
    fn shapes(alloc: Global) -> Result<Seq<Shape>, Memory>
        ensures { IfOk result (λ found. map tree found ≡ shapes) };

    /// Adds the spellings of the elements. After want of memory what stood there still stands, and part
    /// of a spelling may follow it.
    fn write_words(&self, words: &mut Vec<u64>) -> Result<(), Memory>
        ensures spelled { OnOk result (words.new.items ≡ words.old.items ++ spellings (means self.now)) }
        ensures in_range { OnOk result (are_in_range (means self.now) ≡ true) }
        ensures front { OnErr result (IsFront words.old.items words.new.items) };

    /// The row whose elements' spellings the words begin with, and the words after them.
    fn read_words(alloc: Global, words: &[u64]) -> Result<(Self, &[u64]), Stop>
        ensures { Gives (λ x. (means x.0, x.1.now)) result (several shapes words.now) };

    /// The elements' values.
    fn to_values(&self, alloc: Global) -> Result<Seq<Value>, Memory>
        ensures { IfOk result (λ values. data_of (map datum values) ≡ means self.now) }
    {
        let shapes = Self::shapes(alloc)?;
        let mut words = Vec::new(alloc);
        self.write_words(&mut words)?;
        match values_of_shapes(alloc, shapes.as_slice(), words.as_slice()) {
            Ok((values, _)) => Ok(Seq::of_vec(values)),
            Err(Stop::Memory) => Err(Memory),
            Err(Stop::Left(_)) => unreachable!(),
        }
    }

    /// The row that means these values.
    fn from_values(alloc: Global, values: &Seq<Value>) -> Result<Self, Memory>
        requires { IsTrue (several_fit shapes (data_of (map datum values.now))) }
        ensures { IfOk result (λ row. means row ≡ data_of (map datum values.now)) }
    {
        let mut words = Vec::new(alloc);
        write_values(&mut words, values.as_slice())?;
        match Self::read_words(alloc, words.as_slice()) {
            Ok((row, _)) => Ok(row),
            Err(Stop::Memory) => Err(Memory),
            Err(Stop::Left(_)) => unreachable!(),
        }
    }

    /// There is a shape for each ID.
    ghost one_shape_each: { length shapes ≡ length ids };

    /// The elements are of the shapes.
    ghost are_of_shapes: { (row : Self) → several_fit shapes (means row) ≡ true };
}
