//! Contents of one, two or three elements. Their words come from those of the elements.
ghost use Rattle.std.specs.Prelude.{[], ◌∷◌, refl};
ghost use Rattle.caf_words.specs.Datum.{more, no_data};
ghost use Rattle.caf_words.specs.Fitting.{both_hold};

use crate::Element;
use caf_types::{Memory, Seq, Shape, TypeIds};
use caf_words::{Row, Stop};
use std::alloc::Global;

/// One element.
#[derive(Debug, Drop)]
pub struct One<A>(
    /// It.
    pub A,
);

/// Two elements.
#[derive(Debug, Drop)]
pub struct Two<A, B>(
    /// The first.
    pub A,
    /// The second.
    pub B,
);

/// Three elements.
#[derive(Debug, Drop)]
pub struct Three<A, B, C>(
    /// The first.
    pub A,
    /// The second.
    pub B,
    /// The third.
    pub C,
);

impl<A: Element> Row for One<A> {
    ghost ids = { A.id ∷ [] };

    ghost shapes = { A.shape ∷ [] };

    ghost means = { λ row. more (A.means row.0) no_data };

    fn types(alloc: Global) -> Result<TypeIds, Memory> {
        let mut types = Seq::new(alloc);
        types.push(A::type_id())?;
        Ok(types)
    }

    fn shapes(alloc: Global) -> Result<Seq<Shape>, Memory> {
        let mut shapes = Seq::new(alloc);
        shapes.push(A::shape_of(alloc)?)?;
        Ok(shapes)
    }

    fn write_words(&self, words: &mut Vec<u64>) -> Result<(), Memory> {
        self.0.write(words)?;
        Ok(())
    }

    fn read_words(alloc: Global, words: &[u64]) -> Result<(One<A>, &[u64]), Stop> {
        let (first, rest) = A::read(alloc, words)?;
        Ok((One(first), rest))
    }

    ghost one_shape_each = { refl };

    ghost are_of_shapes = { λ row. both_hold (A.fits_shape row.0) refl };
}

impl<A: Element + Drop, B: Element + Drop> Row for Two<A, B> {
    ghost ids = { A.id ∷ B.id ∷ [] };

    ghost shapes = { A.shape ∷ B.shape ∷ [] };

    ghost means = { λ row. more (A.means row.0) (more (B.means row.1) no_data) };

    fn types(alloc: Global) -> Result<TypeIds, Memory> {
        let mut types = Seq::new(alloc);
        types.push(A::type_id())?;
        types.push(B::type_id())?;
        Ok(types)
    }

    fn shapes(alloc: Global) -> Result<Seq<Shape>, Memory> {
        let mut shapes = Seq::new(alloc);
        shapes.push(A::shape_of(alloc)?)?;
        shapes.push(B::shape_of(alloc)?)?;
        Ok(shapes)
    }

    fn write_words(&self, words: &mut Vec<u64>) -> Result<(), Memory> {
        self.0.write(words)?;
        self.1.write(words)?;
        Ok(())
    }

    fn read_words(alloc: Global, words: &[u64]) -> Result<(Two<A, B>, &[u64]), Stop> {
        let (first, rest) = A::read(alloc, words)?;
        let (second, rest) = B::read(alloc, rest)?;
        Ok((Two(first, second), rest))
    }

    ghost one_shape_each = { refl };

    ghost are_of_shapes = { λ row. both_hold (A.fits_shape row.0) (both_hold (B.fits_shape row.1) refl) };
}

impl<A: Element + Drop, B: Element + Drop, C: Element + Drop> Row for Three<A, B, C> {
    ghost ids = { A.id ∷ B.id ∷ C.id ∷ [] };

    ghost shapes = { A.shape ∷ B.shape ∷ C.shape ∷ [] };

    ghost means = { λ row. more (A.means row.0) (more (B.means row.1) (more (C.means row.2) no_data)) };

    fn types(alloc: Global) -> Result<TypeIds, Memory> {
        let mut types = Seq::new(alloc);
        types.push(A::type_id())?;
        types.push(B::type_id())?;
        types.push(C::type_id())?;
        Ok(types)
    }

    fn shapes(alloc: Global) -> Result<Seq<Shape>, Memory> {
        let mut shapes = Seq::new(alloc);
        shapes.push(A::shape_of(alloc)?)?;
        shapes.push(B::shape_of(alloc)?)?;
        shapes.push(C::shape_of(alloc)?)?;
        Ok(shapes)
    }

    fn write_words(&self, words: &mut Vec<u64>) -> Result<(), Memory> {
        self.0.write(words)?;
        self.1.write(words)?;
        self.2.write(words)?;
        Ok(())
    }

    fn read_words(alloc: Global, words: &[u64]) -> Result<(Three<A, B, C>, &[u64]), Stop> {
        let (first, rest) = A::read(alloc, words)?;
        let (second, rest) = B::read(alloc, rest)?;
        let (third, rest) = C::read(alloc, rest)?;
        Ok((Three(first, second, third), rest))
    }

    ghost one_shape_each = { refl };

    ghost are_of_shapes = { λ row. both_hold (A.fits_shape row.0) (both_hold (B.fits_shape row.1) (both_hold (C.fits_shape row.2) refl)) };
}
