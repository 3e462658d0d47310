ghost use Rattle.std.specs.Prelude.{◌≡◌, ◌++◌, map, true, OnOk, OnErr};
ghost use Rattle.caf_types.specs.ShapeTree as shapes;
ghost use Rattle.caf_types.specs.ShapeTree.{ShapeTree};
ghost use Rattle.caf_words.specs.Answer.{Gives};
ghost use Rattle.caf_words.specs.Datum.{Datum, data_of, a_list, fits, is_in_range, are_in_range};
ghost use Rattle.caf_words.specs.Reading.{reading, many};
ghost use Rattle.caf_words.specs.Spelling.{spelling, spellings, IsFront};

use crate::scalar::{read_word, write_word};
use crate::stop::Stop;
use caf_types::{Memory, Seq};
use std::alloc::Global;

/// A type whose values are values of one shape, and that writes and reads their words itself: what
/// stands in the lists and objects of a [`Row`](crate::Row).
pub trait Spelled: Sized {
    /// The shape, the same for every value of the type.
    ghost shape: { ShapeTree };

    /// The value that one of the type stands for.
    ghost means: { Self → Datum };

    /// Adds the spelling of the value. After want of memory what stood there still stands, and part of a
    /// spelling may follow it.
    fn write(&self, words: &mut Vec<u64>) -> Result<(), Memory>
        ensures spelled { OnOk result (words.new.items ≡ words.old.items ++ spelling (means self.now)) }
        ensures in_range { OnOk result (is_in_range (means self.now) ≡ true) }
        ensures front { OnErr result (IsFront words.old.items words.new.items) };

    /// The value of the shape that the words begin with, and the words after it.
    fn read(alloc: Global, words: &[u64]) -> Result<(Self, &[u64]), Stop>
        ensures { Gives (λ x. (means x.0, x.1.now)) result (reading shape words.now) };

    /// The value is of the shape.
    ghost fits_shape: { (it : Self) → fits shape (means it) ≡ true };
}

/// Adds the spelling of a list. After want of memory what stood there still stands, and part of a
/// spelling may follow it.
pub fn write_list<T: Spelled>(words: &mut Vec<u64>, items: &[T]) -> Result<(), Memory>
    ensures spelled { OnOk result (words.new.items ≡ words.old.items ++ spelling (a_list (data_of (map T.means items.now)))) }
    ensures in_range { OnOk result (is_in_range (a_list (data_of (map T.means items.now))) ≡ true) }
    ensures front { OnErr result (IsFront words.old.items words.new.items) }
{
    write_word(words, items.len() as u64)?;
    write_each(words, items)?;
    Ok(())
}

fn write_each<T: Spelled>(words: &mut Vec<u64>, items: &[T]) -> Result<(), Memory>
    ensures spelled { OnOk result (words.new.items ≡ words.old.items ++ spellings (data_of (map T.means items.now))) }
    ensures in_range { OnOk result (are_in_range (data_of (map T.means items.now)) ≡ true) }
    ensures front { OnErr result (IsFront words.old.items words.new.items) }
{
    for item in items {
        item.write(words)?;
    }
    Ok(())
}

/// The list that the words begin with, and the words after it.
pub fn read_list<T: Spelled + Drop>(alloc: Global, words: &[u64]) -> Result<(Seq<T>, &[u64]), Stop>
    ensures { Gives (λ x. (a_list (data_of (map T.means x.0)), x.1.now)) result (reading (shapes.list T.shape) words.now) }
{
    let (count, rest) = read_word(words)?;
    let (items, rest) = read_each(alloc, count, rest)?;
    Ok((items, rest))
}

fn read_each<T: Spelled + Drop>(
    alloc: Global,
    count: u64,
    words: &[u64],
) -> Result<(Seq<T>, &[u64]), Stop>
    ensures { Gives (λ x. (data_of (map T.means x.0), x.1.now)) result (many (reading T.shape) count words.now) }
{
    let mut items = Seq::new(alloc);
    let mut rest = words;
    for _ in 0..count {
        let (item, after) = T::read(alloc, rest)?;
        items.push(item)?;
        rest = after;
    }
    Ok((items, rest))
}
