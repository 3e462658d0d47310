ghost use Rattle.std.specs.Prelude.{◌≡◌, [], ◌∷◌, refl, map, codes, IfOk};
ghost use Rattle.caf_types.specs.ShapeTree as shapes;
ghost use Rattle.caf_types.specs.ShapeTree.{part, no_parts};
ghost use Rattle.caf_words.specs.Datum.{a_flag, a_list, a_signed, a_text, a_unit, an_object, an_unsigned, some_bytes, data_of, no_data, more};
ghost use Rattle.caf_words.specs.declared.tests.Posting.{Posting};
ghost use Rattle.caf_words.specs.Fitting.{both_hold, list_fits};

use crate::{
    Row, SpellFault, Spelled, Stop, Value, fits, read, read_bytes, read_flag, read_list,
    read_object_head, read_place, read_signed, read_text, read_unit, read_word, spell, write_bytes,
    write_flag, write_list, write_object_head, write_place, write_signed, write_text, write_unit,
    write_word,
};
use caf_types::{
    Items, Letters, Memory, Octets, Seq, Shape, TypeId, TypeIds, TypeTable, Words, shape_of,
};
use std::alloc::Global;
use std::test::Fail;

fn numbers(alloc: Global, first: u64, second: u64) -> Result<Value, Fail> {
    let mut items = Items::new(alloc);
    items.push(Value::Unsigned(first))?;
    items.push(Value::Unsigned(second))?;
    Ok(Value::List(items))
}

fn text(alloc: Global, text: &str) -> Result<Value, Fail> {
    Ok(Value::Text(Letters::of(alloc, text)?))
}

#[test]
fn values_are_spelled(rt: HostRuntime) -> Result<(), Fail> {
    let alloc = rt.alloc();
    assert_eq!(rt;
        spell(alloc, &text(alloc, "caf")?)?.as_slice(),
        [3, 6_709_603].as_slice()
    );
    assert_eq!(rt; spell(alloc, &text(alloc, "")?)?.as_slice(), [0].as_slice());
    assert_eq!(rt;
        spell(alloc, &text(alloc, "123456789")?)?.as_slice(),
        [9, 0x3837_3635_3433_3231, 0x39].as_slice()
    );
    assert_eq!(rt;
        spell(alloc, &Value::Signed(-1))?.as_slice(),
        [18_446_744_073_709_551_615].as_slice()
    );
    assert_eq!(rt;
        spell(alloc, &numbers(alloc, 7, 8)?)?.as_slice(),
        [2, 7, 8].as_slice()
    );
    assert_eq!(rt;
        spell(alloc, &Value::Flag(true))?.as_slice(),
        [1].as_slice()
    );
    assert_eq!(rt; spell(alloc, &Value::Unit)?.as_slice(), [0].as_slice());
    Ok(())
}

/// The words as one value of a built-in type.
fn read_as(alloc: Global, id: u16, words: &[u64]) -> Result<Result<Seq<Value>, SpellFault>, Fail> {
    let table = TypeTable::new(alloc)?;
    let types = [TypeId(id)];
    match table.shape(TypeId(id)) {
        Some(_) => Ok(read(alloc, &table, &types, words)),
        None => Err("no such type".into()),
    }
}

#[test]
fn the_first_fault_has_its_place(rt: HostRuntime) -> Result<(), Fail> {
    let most = 18_446_744_073_709_551_615;
    for (id, words, place) in [
        (0, [1].as_slice(), 0),
        (1, [2].as_slice(), 0),
        (1, [].as_slice(), 0),
        (1, [1, 5].as_slice(), 1),
        (4, [3, 23_486_819].as_slice(), 1),
        (4, [9, 0].as_slice(), 2),
        (4, [1, 255].as_slice(), 0),
        (4, [9, 255, 256].as_slice(), 2),
        (4, [most, 0].as_slice(), 2),
        (5, [most].as_slice(), 1),
        (6, [256].as_slice(), 0),
        (7, [most, 1].as_slice(), 2),
        (8, [2, 0, 1, 255].as_slice(), 2),
    ] {
        let answer = read_as(rt.alloc(), id, words)?;
        assert!(rt;
            matches!(answer, Err(SpellFault::At(at)) if at == place),
            "type {id}, {words:?}"
        );
    }
    Ok(())
}

#[test]
fn spelled_values_are_read(rt: HostRuntime) -> Result<(), Fail> {
    let alloc = rt.alloc();
    let flag = read_as(alloc, 1, &[1])??;
    assert!(rt; flag.len() == 1 && matches!(flag.get(0), Some(Value::Flag(true))));
    let signed = read_as(alloc, 3, &[18_446_744_073_709_551_615])??;
    assert!(rt; matches!(signed.get(0), Some(Value::Signed(-1))));
    let text = read_as(alloc, 4, &[3, 6_709_603])??;
    assert!(rt; matches!(text.get(0), Some(Value::Text(text)) if text.as_str() == "caf"));
    let places = read_as(alloc, 9, &[2, 255, 0])??;
    assert!(rt; matches!(places.get(0), Some(Value::List(places)) if places.len() == 2));
    Ok(())
}

#[test]
fn a_million_bytes_are_spelled_and_read(rt: HostRuntime) -> Result<(), Fail> {
    let alloc = rt.alloc();
    let mut bytes = Octets::new(alloc);
    for _ in 0..1_000_000 {
        bytes.push(97)?;
    }
    let words = spell(alloc, &Value::Bytes(bytes))?;
    assert_eq!(rt; words.len(), 125_001);
    let values = read_as(alloc, 4, words.as_slice())??;
    assert!(rt;
        matches!(values.get(0), Some(Value::Text(text)) if text.as_str().len() == 1_000_000)
    );
    Ok(())
}

#[test]
fn a_value_fits_its_shape(rt: HostRuntime) -> Result<(), Fail> {
    let alloc = rt.alloc();
    assert!(rt; fits(&Value::Place(255), &Shape::Place));
    assert!(rt; !fits(&Value::Place(256), &Shape::Place));
    assert!(rt; !fits(&Value::Unsigned(1), &Shape::Signed));
    assert!(rt;
        fits(
            &numbers(alloc, 7, 8)?,
            &Shape::list_of(alloc, Shape::Unsigned)?
        )
    );
    assert!(rt; !fits(&numbers(alloc, 7, 8)?, &Shape::list_of(alloc, Shape::Flag)?));
    Ok(())
}

#[test]
fn faults_have_texts(rt: HostRuntime) -> Result<(), Fail> {
    let alloc = rt.alloc();
    for (fault, expected) in [
        (SpellFault::At(3), "no spelling: fault at word 3"),
        (SpellFault::Memory, "out of memory"),
    ] {
        let text = format!(in alloc; "{fault}")?;
        assert_eq!(rt; text.as_str(), expected);
    }
    Ok(())
}

/// What a row is after it went through words, and after it went through values.
fn again<T: Row + Drop>(alloc: Global, row: &T) -> Result<(Words, T), Memory>
    ensures { IfOk result (λ again. T.means again.1 ≡ T.means row.now) }
{
    let values = row.to_values(alloc)?;
    let row = T::from_values(alloc, &values)?;
    let mut words = Vec::new(alloc);
    row.write_words(&mut words)?;
    Ok((Seq::of_vec(words), row))
}

#[test]
fn a_row_goes_through_words_and_values(rt: HostRuntime) -> Result<(), Fail> {
    let alloc = rt.alloc();
    let mut items = Seq::new(alloc);
    items.push(Posting {
        word: Letters::of(alloc, "caf")?,
        line: 7,
    })?;
    let (words, row) = again(alloc, &Postings { file: 1, items })?;
    assert_eq!(rt; words.as_slice(), [2, 1, 1, 2, 3, 6_709_603, 7].as_slice());
    assert_eq!(rt; (row.file, row.items.len()), (1, 1));
    let mut bytes = Octets::new(alloc);
    bytes.push(255)?;
    let plain = Plain {
        flag: true,
        signed: -1,
        bytes,
    };
    let (words, plain) = again(alloc, &plain)?;
    assert_eq!(rt; words.as_slice(), [0, 1, u64::MAX, 1, 255].as_slice());
    assert!(rt; plain.flag && plain.signed == -1 && plain.bytes.len() == 1);
    assert_eq!(rt;
        Postings::types(alloc)?.as_slice(),
        [TypeId(201)].as_slice()
    );
    Ok(())
}

#[test]
fn a_row_stops_at_the_first_fault(rt: HostRuntime) -> Result<(), Fail> {
    for (words, left) in [
        ([].as_slice(), 0),
        ([3, 1, 0].as_slice(), 3),
        ([2, 1].as_slice(), 0),
        ([2, 1, 1, 2, 1, 255, 7].as_slice(), 3),
        ([2, 1, 1, 2, 3, 23_486_819, 7].as_slice(), 2),
    ] {
        let answer = Postings::read_words(rt.alloc(), words);
        assert!(rt;
            matches!(answer, Err(Stop::Left(n)) if n == left),
            "{words:?}"
        );
    }
    let mut words = Vec::new(rt.alloc());
    write_place(&mut words, 255)?;
    assert!(rt; matches!(read_place(words.as_slice()), Ok((255, []))));
    assert!(rt; matches!(read_place(&[256]), Err(Stop::Left(1))));
    Ok(())
}

/// A word in a line.
#[derive(Drop)]
struct Posting {
    word: Letters,
    line: u64,
}

impl Spelled for Posting {
    ghost shape = { shapes.object (part (codes "word") shapes.text (part (codes "line") shapes.unsigned no_parts)) };

    ghost means = { λ it. an_object (more (a_text it.word) (more (an_unsigned it.line) no_data)) };

    fn write(&self, words: &mut Vec<u64>) -> Result<(), Memory> {
        write_object_head(words, 2)?;
        write_text(words, self.word.as_str())?;
        write_word(words, self.line)?;
        Ok(())
    }

    fn read(alloc: Global, words: &[u64]) -> Result<(Posting, &[u64]), Stop> {
        let rest = read_object_head(words, 2)?;
        let (word, rest) = read_text(alloc, rest)?;
        let (line, rest) = read_word(rest)?;
        Ok((Posting { word, line }, rest))
    }

    ghost fits_shape = { λ it. refl };
}

/// The words of a part of a file, as a row of one element.
#[derive(Drop)]
struct Postings {
    file: u64,
    items: Seq<Posting>,
}

impl Row for Postings {
    ghost ids = { 201 ∷ [] };

    ghost shapes = { shapes.object (part (codes "file") shapes.unsigned (part (codes "items") (shapes.list (shapes.object (part (codes "word") shapes.text (part (codes "line") shapes.unsigned no_parts)))) no_parts)) ∷ [] };

    ghost means = { λ row. more (an_object (more (an_unsigned row.file) (more (a_list (data_of (map (λ (it : Posting). an_object (more (a_text it.word) (more (an_unsigned it.line) no_data))) row.items))) no_data))) no_data };

    fn types(alloc: Global) -> Result<TypeIds, Memory> {
        let mut types = Seq::new(alloc);
        types.push(TypeId(201))?;
        Ok(types)
    }

    fn shapes(alloc: Global) -> Result<Seq<Shape>, Memory> {
        let mut shapes = Seq::new(alloc);
        shapes.push(shape_of!(alloc, { file: Unsigned, items: [{ word: Text, line: Unsigned }] }))?;
        Ok(shapes)
    }

    fn write_words(&self, words: &mut Vec<u64>) -> Result<(), Memory> {
        write_object_head(words, 2)?;
        write_word(words, self.file)?;
        write_list(words, self.items.as_slice())?;
        Ok(())
    }

    fn read_words(alloc: Global, words: &[u64]) -> Result<(Postings, &[u64]), Stop> {
        let rest = read_object_head(words, 2)?;
        let (file, rest) = read_word(rest)?;
        let (items, rest) = read_list(alloc, rest)?;
        Ok((Postings { file, items }, rest))
    }

    ghost one_shape_each = { refl };

    ghost are_of_shapes = { λ row. both_hold (both_hold (list_fits (shapes.object (part (codes "word") shapes.text (part (codes "line") shapes.unsigned no_parts))) (λ (it : Posting). an_object (more (a_text it.word) (more (an_unsigned it.line) no_data))) (λ it. refl) row.items) refl) refl };
}

/// A row of four plain elements.
#[derive(Drop)]
struct Plain {
    flag: bool,
    signed: i64,
    bytes: Octets,
}

impl Row for Plain {
    ghost ids = { 0 ∷ 1 ∷ 3 ∷ 5 ∷ [] };

    ghost shapes = { shapes.unit ∷ shapes.flag ∷ shapes.signed ∷ shapes.bytes ∷ [] };

    ghost means = { λ row. more a_unit (more (a_flag row.flag) (more (a_signed row.signed) (more (some_bytes row.bytes) no_data))) };

    fn types(alloc: Global) -> Result<TypeIds, Memory> {
        let mut types = Seq::new(alloc);
        types.push(TypeId(0))?;
        types.push(TypeId(1))?;
        types.push(TypeId(3))?;
        types.push(TypeId(5))?;
        Ok(types)
    }

    fn shapes(alloc: Global) -> Result<Seq<Shape>, Memory> {
        let mut shapes = Seq::new(alloc);
        shapes.push(Shape::Unit)?;
        shapes.push(Shape::Flag)?;
        shapes.push(Shape::Signed)?;
        shapes.push(Shape::Bytes)?;
        Ok(shapes)
    }

    fn write_words(&self, words: &mut Vec<u64>) -> Result<(), Memory> {
        write_unit(words)?;
        write_flag(words, self.flag)?;
        write_signed(words, self.signed)?;
        write_bytes(words, self.bytes.as_slice())?;
        Ok(())
    }

    fn read_words(alloc: Global, words: &[u64]) -> Result<(Plain, &[u64]), Stop> {
        let rest = read_unit(words)?;
        let (flag, rest) = read_flag(rest)?;
        let (signed, rest) = read_signed(rest)?;
        let (bytes, rest) = read_bytes(alloc, rest)?;
        Ok((
            Plain {
                flag,
                signed,
                bytes,
            },
            rest,
        ))
    }

    ghost one_shape_each = { refl };

    ghost are_of_shapes = { λ row. refl };
}
