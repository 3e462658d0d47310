ghost use Rattle.std.specs.Prelude.{◌≡◌, [], ◌∷◌, refl, IsTrue, IfOk};
ghost use Rattle.caf_types.specs.ShapeTree.{unit, signed};
ghost use Rattle.caf_types.specs.Table.{shape_at};
ghost use Rattle.caf_types.specs.TypeTable.{seen};
ghost use Rattle.caf_words.specs.Datum.{a_unit, a_signed, no_data, more};
ghost use Rattle.caf_message.specs.Fits.{HaveShapes};

use crate::{Message, MessageBuilder, MessageFault, Replaced, ViewFault};
use caf_types::{Memory, Seq, Shape, TypeId, TypeIds, TypeTable, type_block};
use caf_words::{Row, Stop, Value, fits, read_signed, read_unit, write_signed, write_unit};
use std::alloc::Global;
use std::test::Fail;

/// The elements (add, left, right).
#[derive(Drop)]
struct Add {
    left: i64,
    right: i64,
}

impl Row for Add {
    ghost ids = { 211 ∷ 3 ∷ 3 ∷ [] };

    ghost shapes = { unit ∷ signed ∷ signed ∷ [] };

    ghost means = { λ row. more a_unit (more (a_signed row.left) (more (a_signed row.right) no_data)) };

    fn types(alloc: Global) -> Result<TypeIds, Memory> {
        let mut types = Seq::new(alloc);
        types.push(TypeId(211))?;
        types.push(TypeId(3))?;
        types.push(TypeId(3))?;
        Ok(types)
    }

    fn shapes(alloc: Global) -> Result<Seq<Shape>, Memory> {
        let mut shapes = Seq::new(alloc);
        shapes.push(Shape::Unit)?;
        shapes.push(Shape::Signed)?;
        shapes.push(Shape::Signed)?;
        Ok(shapes)
    }

    fn write_words(&self, words: &mut Vec<u64>) -> Result<(), Memory> {
        write_unit(words)?;
        write_signed(words, self.left)?;
        write_signed(words, self.right)?;
        Ok(())
    }

    fn read_words(_alloc: Global, words: &[u64]) -> Result<(Add, &[u64]), Stop> {
        let rest = read_unit(words)?;
        let (left, rest) = read_signed(rest)?;
        let (right, rest) = read_signed(rest)?;
        Ok((Add { left, right }, rest))
    }

    ghost one_shape_each = { refl };

    ghost are_of_shapes = { λ row. refl };
}

/// The one element (get).
#[derive(Drop)]
struct Get;

impl Row for Get {
    ghost ids = { 215 ∷ [] };

    ghost shapes = { unit ∷ [] };

    ghost means = { λ row. more a_unit no_data };

    fn types(alloc: Global) -> Result<TypeIds, Memory> {
        let mut types = Seq::new(alloc);
        types.push(TypeId(215))?;
        Ok(types)
    }

    fn shapes(alloc: Global) -> Result<Seq<Shape>, Memory> {
        let mut shapes = Seq::new(alloc);
        shapes.push(Shape::Unit)?;
        Ok(shapes)
    }

    fn write_words(&self, words: &mut Vec<u64>) -> Result<(), Memory> {
        write_unit(words)?;
        Ok(())
    }

    fn read_words(_alloc: Global, words: &[u64]) -> Result<(Get, &[u64]), Stop> {
        let rest = read_unit(words)?;
        Ok((Get, rest))
    }

    ghost one_shape_each = { refl };

    ghost are_of_shapes = { λ row. refl };
}

#[test]
fn faults_have_texts(rt: HostRuntime) -> Result<(), Fail> {
    let alloc = rt.alloc();
    for (text, expected) in [
        (
            format!(in alloc; "{}", MessageFault::Large)?,
            "a message of more than 4194304 words",
        ),
        (
            format!(in alloc; "{}", MessageFault::Memory)?,
            "out of memory",
        ),
        (
            format!(in alloc; "{}", ViewFault::Types)?,
            "a message of other types",
        ),
        (format!(in alloc; "{}", ViewFault::Memory)?, "out of memory"),
    ] {
        assert_eq!(rt; text.as_str(), expected);
    }
    Ok(())
}

#[test]
fn contents_are_shared_until_they_are_replaced(rt: HostRuntime) -> Result<(), Fail> {
    let alloc = rt.alloc();
    let mut message = Message::of(alloc, &Add { left: 2, right: 3 })?;
    assert_eq!(rt;
        message.words(alloc)?.as_slice(),
        [3, 211, 3, 3, 0, 2, 3].as_slice()
    );
    let mut copy = message.copy(alloc)?;
    assert_eq!(rt;
        copy.words(alloc)?.as_slice(),
        [3, 211, 3, 3, 0, 2, 3].as_slice()
    );
    let mut other = message.retain()?;
    let add = [TypeId(211), TypeId(3), TypeId(3)];
    assert!(rt; message.has_types(add.as_slice()));
    assert!(rt; !message.has_types(&[TypeId(211), TypeId(3)]));
    assert!(rt; !message.has_types(&[TypeId(212), TypeId(3), TypeId(3)]));
    let replaced = message.replace(alloc, &Add { left: 2, right: 4 })?;
    assert_eq!(rt; replaced, Replaced::Copied(2));
    assert_eq!(rt;
        message.words(alloc)?.as_slice(),
        [3, 211, 3, 3, 0, 2, 4].as_slice()
    );
    assert_eq!(rt;
        other.words(alloc)?.as_slice(),
        [3, 211, 3, 3, 0, 2, 3].as_slice()
    );
    // the old reference was given up, so the other is sole
    let replaced = other.replace(alloc, &Add { left: 7, right: 8 })?;
    assert_eq!(rt; replaced, Replaced::InPlace);
    let replaced = message.replace(alloc, &Add { left: 5, right: 6 })?;
    assert_eq!(rt; replaced, Replaced::InPlace);
    assert_eq!(rt;
        message.words(alloc)?.as_slice(),
        [3, 211, 3, 3, 0, 5, 6].as_slice()
    );
    Ok(())
}

/// The table of the tests.
fn calc_table(alloc: Global) -> Result<TypeTable, Fail> {
    let mut table = TypeTable::new(alloc)?;
    type_block!(alloc, table, calc, 211, { add: Unit, sub: Unit, mul: Unit, put: Unit, get: Unit })?;
    Ok(table)
}

/// Whether the table has the types of the two rows.
fn has_rows(table: &TypeTable) -> bool
    ensures add { IsTrue result → HaveShapes (shape_at (seen table.now)) (211 ∷ 3 ∷ 3 ∷ []) (unit ∷ signed ∷ signed ∷ []) }
    ensures get { IsTrue result → HaveShapes (shape_at (seen table.now)) (215 ∷ []) (unit ∷ []) }
{
    matches!(table.shape(TypeId(211)), Some(Shape::Unit))
        && matches!(table.shape(TypeId(3)), Some(Shape::Signed))
        && matches!(table.shape(TypeId(215)), Some(Shape::Unit))
}

#[test]
fn a_view_needs_the_types_of_the_row(rt: HostRuntime) -> Result<(), Fail> {
    let alloc = rt.alloc();
    let table = calc_table(alloc)?;
    if !has_rows(&table) {
        return Err("types are missing".into());
    }
    let mut message = Message::of(alloc, &Add { left: 2, right: 3 })?;
    let add = message.view::<Add>(alloc, &table)?;
    assert_eq!(rt; (add.left, add.right), (2, 3));
    let Err(fault) = message.view::<Get>(alloc, &table) else {
        return Err("a message was viewed as a row of other types".into());
    };
    assert_eq!(rt; fault, ViewFault::Types);
    Ok(())
}

/// A message of one element, of bytes.
fn of_bytes(alloc: Global, length: usize) -> Result<Result<Message, MessageFault>, Fail> {
    let table = TypeTable::new(alloc)?;
    let value = Value::Bytes(Seq::of_vec(Vec::from_elem(alloc, 7u8, length)?));
    let mut builder = MessageBuilder::new(alloc);
    push_checked(&mut builder, &table, TypeId(5), &value)?;
    Ok(builder.finish())
}

/// Adds an element after a look at its shape.
fn push_checked(
    builder: &mut MessageBuilder,
    table: &TypeTable,
    id: TypeId,
    value: &Value,
) -> Result<(), Fail> {
    let Some(shape) = table.shape(id) else {
        return Err("no such type".into());
    };
    if !fits(value, shape) {
        return Err("a value of another shape".into());
    }
    builder.push(table, id, value)?;
    Ok(())
}

#[test]
fn the_greatest_message_is_made_and_a_word_more_is_large(rt: HostRuntime) -> Result<(), Fail> {
    let alloc = rt.alloc();
    let mut greatest = of_bytes(alloc, 33_554_408)??;
    let words = greatest.words(alloc)?;
    assert_eq!(rt; words.len(), 4_194_304);
    assert_eq!(rt; words.get(0).copied(), Some(1));
    assert_eq!(rt; words.get(1).copied(), Some(5));
    assert_eq!(rt; words.get(2).copied(), Some(33_554_408));
    assert_eq!(rt; words.get(4_194_303).copied(), Some(0x0707_0707_0707_0707));
    let Err(fault) = of_bytes(alloc, 33_554_409)? else {
        return Err("a message of a word too many was made".into());
    };
    assert_eq!(rt; fault, MessageFault::Large);
    Ok(())
}
