use crate::{TextFault, read_text};
use caf_types::{TypeId, TypeTable, type_block};
use std::alloc::Global;
use std::test::Fail;

fn table(alloc: Global) -> Result<TypeTable, Fail> {
    let mut table = TypeTable::new(alloc)?;
    type_block!(alloc, table, demo, 200, {
        summary: { words: Unsigned, postings: Unsigned },
        pages: { name: Text, lines: [{ line: Signed, mark: Bytes }] },
    })?;
    Ok(table)
}

/// The length of the longest front, or nothing where the text is read.
fn front(alloc: Global, table: &TypeTable, id: u16, text: &str) -> Result<Option<u64>, Fail> {
    let Some(shape) = table.shape(TypeId(id)) else {
        return Err("no such type".into());
    };
    match read_text(alloc, shape, text) {
        Ok(_) => Ok(None),
        Err(TextFault::At(length)) => Ok(Some(length)),
        Err(TextFault::Memory) => Err("out of memory".into()),
    }
}

#[test]
fn the_text_form_of_each_shape_is_read(rt: HostRuntime) -> Result<(), Fail> {
    let alloc = rt.alloc();
    let table = table(alloc)?;
    for (id, text) in [
        (0, "unit"),
        (1, "true"),
        (1, "false"),
        (2, "0"),
        (2, "18446744073709551615"),
        (3, "-9223372036854775808"),
        (3, "9223372036854775807"),
        (4, r#""""#),
        (4, r#""a\"b\\c\nd\x09\x1f\x7f""#),
        (4, r#""é€𝄞""#),
        (5, r#"x"""#),
        (5, r#"x"00ff7f""#),
        (6, "@255"),
        (7, "[]"),
        (7, "[7, 8]"),
        (9, "[@0, @1]"),
        (200, "{words: 3, postings: 4}"),
        (201, r#"{name: "a", lines: []}"#),
        (
            201,
            r#"{name: "", lines: [{line: -1, mark: x""}, {line: 2, mark: x"0a"}]}"#,
        ),
    ] {
        let found = front(alloc, &table, id, text)?;
        assert!(rt; found.is_none(), "at {text}");
    }
    Ok(())
}

#[test]
fn a_bad_text_is_refused_behind_its_longest_front(rt: HostRuntime) -> Result<(), Fail> {
    let alloc = rt.alloc();
    let table = table(alloc)?;
    for (id, text, length) in [
        (200, "{words: x", 8),
        (200, "", 0),
        (200, "{words: 3,postings: 4}", 10),
        (200, "{words: 3, postings: 4} ", 23),
        (200, "{postings: 4, words: 3}", 1),
        (201, r#"{name: "a", lines: [{line: 1, mark: x"0"#, 39),
        (0, "units", 4),
        (1, "tru", 3),
        (1, "yes", 0),
        (2, "01", 1),
        (2, "-1", 0),
        (2, "18446744073709551616", 19),
        (3, "-0", 1),
        (3, "9223372036854775808", 18),
        (3, "-9223372036854775809", 19),
        (4, r#""é\q""#, 4),
        (4, r#""é"#, 3),
        (4, r#""\x1F""#, 4),
        (4, r#""\x0a""#, 4),
        (4, "\"a\tb\"", 2),
        (4, r#""a"b"#, 3),
        (5, r#"x"0A""#, 3),
        (6, "@256", 3),
        (7, "[1,2]", 3),
        (7, "[1, ]", 4),
        (7, "[ 1]", 1),
    ] {
        let found = front(alloc, &table, id, text)?;
        assert!(rt; found == Some(length), "at {text}");
    }
    Ok(())
}

#[test]
fn faults_tell_what_they_carry(rt: HostRuntime) -> Result<(), Fail> {
    for (fault, text) in [
        (TextFault::At(8), "no text form: fault behind byte 8"),
        (TextFault::Memory, "out of memory"),
    ] {
        assert_eq!(rt; format!(in rt.alloc(); "{fault}")?.as_str(), text);
    }
    Ok(())
}
