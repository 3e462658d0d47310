ghost use Rattle.std.specs.Prelude.{◌≡◌, [], ◌∷◌, ℕ, codes, Some, IfOk, refl};
ghost use Rattle.caf_types.specs.ShapeTree.{unsigned, text, object, no_parts, part};
ghost use Rattle.caf_types.specs.Table.{shape_at, with_block, built_in, named};
ghost use Rattle.caf_types.specs.TypeTable.{seen};
ghost use Rattle.caf_words.specs.Datum.{an_unsigned, a_text, an_object, more, no_data};

use crate::{
    Inspect, Json, JsonLoader, Load, LoadFault, Save, WordLoader, from_json, from_text, from_words,
    to_json, to_text, to_words,
};
use caf_events::{load_fields, one_type};
use caf_types::{Letters, Memory, TypeId, TypeTable, type_block};
use std::alloc::Global;
use std::test::Fail;

/// What an index tells of itself.
#[derive(Drop)]
struct Summary {
    words: u64,
    postings: u64,
    name: Letters,
}

/// Hands on the fields of a summary, each with its shape.
macro_rules! summary_fields {
    ($then:ident, $($given:tt)*) => {
        $then!($($given)*, { words: Unsigned, postings: Unsigned, name: Text })
    };
}

impl Inspect for Summary {
    ghost shape = { object (part (codes "words") unsigned (part (codes "postings") unsigned (part (codes "name") text no_parts))) };

    ghost means = { λ it. an_object (more (an_unsigned it.words) (more (an_unsigned it.postings) (more (a_text it.name) no_data))) };

    ghost id = { 200 };

    fn type_id() -> TypeId {
        TypeId(200)
    }

    fn save<S: Save>(&self, saver: &mut S) -> Result<(), Memory> {
        saver.object(3)?;
        saver.field("words")?;
        saver.unsigned(self.words)?;
        saver.field("postings")?;
        saver.unsigned(self.postings)?;
        saver.field("name")?;
        saver.text(self.name.as_str())?;
        Ok(())
    }

    fn load<L: Load>(alloc: Global, loader: &mut L) -> Result<Summary, Memory> {
        summary_fields!(load_fields, alloc, loader, Summary)
    }

    ghost fits_shape = { λ it. refl };
}

/// A level. Numbers that have no name are levels too.
#[derive(Drop)]
enum Level {
    Low,
    High,
    Other(u64),
}

impl Inspect for Level {
    ghost use Rattle.caf_inspect.specs.declared.tests.Level.TheVariants as levels;

    ghost shape = { unsigned };

    ghost means = { λ it. an_unsigned (elim it [ levels.Low ↦ 0 | levels.High ↦ 1 | levels.Other n ↦ n ]) };

    ghost id = { 201 };

    fn type_id() -> TypeId {
        TypeId(201)
    }

    fn save<S: Save>(&self, saver: &mut S) -> Result<(), Memory> {
        match self {
            Level::Low => saver.unsigned(0),
            Level::High => saver.unsigned(1),
            Level::Other(number) => saver.unsigned(*number),
        }
    }

    fn load<L: Load>(_alloc: Global, loader: &mut L) -> Result<Level, Memory> {
        match loader.unsigned() {
            0 => Ok(Level::Low),
            1 => Ok(Level::High),
            number => Ok(Level::Other(number)),
        }
    }

    ghost fits_shape = { λ it. refl };
}

fn declared_table(alloc: Global) -> Result<TypeTable, Fail>
    ensures { IfOk result (λ t. seen t ≡ with_block built_in (codes "demo") 200 (named (codes "summary")
        (object (part (codes "words") unsigned (part (codes "postings") unsigned (part (codes "name") text no_parts))))
        ∷ [])) }
{
    let mut table = TypeTable::new(alloc)?;
    summary_fields!(one_type, alloc, table, demo, 200, summary)?;
    Ok(table)
}

/// A table with the type `summary`, 200.
fn demo_table(alloc: Global) -> Result<TypeTable, Fail>
    ensures { IfOk result (λ t. shape_at (seen t) 200 ≡ Some
        (object (part (codes "words") unsigned (part (codes "postings") unsigned (part (codes "name") text no_parts))))) }
{
    let table = declared_table(alloc)?;
    Ok(table)
}

fn json(alloc: Global, text: &str) -> Result<Json, Fail> {
    Ok(Json::from_str(alloc, text)?)
}

#[test]
fn a_summary_goes_through_each_form(rt: HostRuntime) -> Result<(), Fail> {
    let alloc = rt.alloc();
    let table = demo_table(alloc)?;
    let summary = Summary {
        words: 3,
        postings: 4,
        name: Letters::of(alloc, "caf")?,
    };
    let words = to_words(alloc, &summary)?;
    assert_eq!(rt; words.as_slice(), [3, 3, 4, 3, 6_709_603].as_slice());
    let form = to_json(alloc, &summary)?;
    assert_eq!(rt;
        form.to_string(alloc)?.as_str(),
        r#"{"name":"caf","postings":4,"words":3}"#
    );
    let text = r#"{words: 3, postings: 4, name: "caf"}"#;
    assert_eq!(rt; to_text(alloc, &summary)?.as_str(), text);
    let read: Summary = from_words(alloc, &table, words.as_slice())?;
    assert_eq!(rt;
        (read.words, read.postings, read.name.as_str()),
        (3, 4, "caf")
    );
    let read: Summary = from_json(alloc, &table, &form)?;
    assert_eq!(rt;
        (read.words, read.postings, read.name.as_str()),
        (3, 4, "caf")
    );
    let read: Summary = from_text(alloc, &table, text)?;
    assert_eq!(rt;
        (read.words, read.postings, read.name.as_str()),
        (3, 4, "caf")
    );
    let answer: Result<Summary, LoadFault> = from_text(alloc, &table, "{words: x");
    assert!(rt;
        matches!(&answer, Err(LoadFault::Unfit(path)) if path.as_slice() == [8].as_slice())
    );
    Ok(())
}

#[test]
fn levels_are_numbers(rt: HostRuntime) -> Result<(), Fail> {
    let alloc = rt.alloc();
    for (level, number) in [(Level::Low, 0), (Level::High, 1), (Level::Other(7), 7)] {
        assert_eq!(rt; to_words(alloc, &level)?.as_slice(), [number].as_slice());
    }
    Ok(())
}

/// The path of the fault of JSON, or nothing where it is read.
fn json_path(
    alloc: Global,
    table: &TypeTable,
    id: u16,
    text: &str,
) -> Result<Option<Vec<u64>>, Fail> {
    let form = json(alloc, text)?;
    if table.shape(TypeId(id)).is_none() {
        return Err("no such type".into());
    }
    match JsonLoader::start(alloc, table, TypeId(id), &form) {
        Ok(_) => Ok(None),
        Err(LoadFault::Unfit(path)) => Ok(Some(path.into_vec())),
        Err(LoadFault::Memory) => Err("out of memory".into()),
    }
}

fn wide_table(alloc: Global) -> Result<TypeTable, Fail> {
    let mut table = TypeTable::new(alloc)?;
    type_block!(alloc, table, wide, 200, {
        summary: { words: Unsigned, postings: Unsigned },
        pages: { name: Text, lines: [{ line: Signed, mark: Bytes }] },
    })?;
    Ok(table)
}

#[test]
fn json_is_refused_at_the_first_unfit_part(rt: HostRuntime) -> Result<(), Fail> {
    let alloc = rt.alloc();
    let table = wide_table(alloc)?;
    for (id, text, path) in [
        (200, r#"{"words":3}"#, [1].as_slice()),
        (200, r#"{"postings":4}"#, [0].as_slice()),
        (200, r#"{"words":3,"postings":4,"more":5}"#, [].as_slice()),
        (200, r#"{"words":3,"postings":-4,"more":5}"#, [1].as_slice()),
        (200, "[3,4]", [].as_slice()),
        (
            201,
            r#"{"name":"a","lines":[{"line":1,"mark":"00"},{"line":2,"mark":"0A"}]}"#,
            [1, 1, 1].as_slice(),
        ),
        (
            201,
            r#"{"name":"a","lines":[{"line":1,"mark":"00"},{"line":2}]}"#,
            [1, 1, 1].as_slice(),
        ),
        (
            201,
            r#"{"name":"a","lines":[{"line":1,"mark":"0"}]}"#,
            [1, 0, 1].as_slice(),
        ),
        (
            201,
            r#"{"name":"a","lines":[{"line":9223372036854775808,"mark":""}]}"#,
            [1, 0, 0].as_slice(),
        ),
        (2, "1.0", [].as_slice()),
        (2, "1e2", [].as_slice()),
        (2, "-0", [].as_slice()),
        (2, "18446744073709551616", [].as_slice()),
        (0, "false", [].as_slice()),
        (6, "256", [].as_slice()),
        (8, r#"["a",1]"#, [1].as_slice()),
    ] {
        let found = json_path(alloc, &table, id, text)?;
        assert!(rt;
            matches!(&found, Some(found) if found.as_slice() == path),
            "at {text}"
        );
    }
    Ok(())
}

#[test]
fn words_are_refused_at_the_first_fault(rt: HostRuntime) -> Result<(), Fail> {
    let alloc = rt.alloc();
    let table = wide_table(alloc)?;
    for (id, words, place) in [
        (200, [1].as_slice(), 0),
        (200, [2, 3].as_slice(), 2),
        (200, [2, 3, 4, 5].as_slice(), 3),
        (8, [2, 0, 1, 255].as_slice(), 2),
    ] {
        if table.shape(TypeId(id)).is_none() {
            return Err("no such type".into());
        }
        let answer = WordLoader::start(alloc, &table, TypeId(id), words);
        assert!(rt;
            matches!(&answer, Err(LoadFault::Unfit(path)) if path.as_slice() == [place].as_slice())
        );
    }
    Ok(())
}

#[test]
fn json_of_each_kind_of_shape_is_read(rt: HostRuntime) -> Result<(), Fail> {
    let alloc = rt.alloc();
    let table = wide_table(alloc)?;
    for (id, text) in [
        (0, "null"),
        (1, "true"),
        (2, "18446744073709551615"),
        (3, "-9223372036854775808"),
        (3, "9223372036854775807"),
        (4, r#""caf""#),
        (5, r#""00ff7f""#),
        (6, "255"),
        (7, "[7,8]"),
        (9, "[]"),
        (200, r#"{"postings":4,"words":3}"#),
        (201, r#"{"lines":[{"mark":"","line":-1}],"name":""}"#),
    ] {
        let found = json_path(alloc, &table, id, text)?;
        assert!(rt; found.is_none(), "at {text}");
    }
    Ok(())
}
