use crate::core_table;
use caf_types::{Shape, TypeId, TypeTable};
use std::alloc::Global;
use std::test::Fail;

/// The text of a shape: its name, `[..]` for a list, and the fields of an object in braces.
fn shape_text(alloc: Global, shape: &Shape) -> Result<String, Fail> {
    match shape {
        Shape::Unit => Ok(String::from_str(alloc, "unit")?),
        Shape::Unsigned => Ok(String::from_str(alloc, "unsigned")?),
        Shape::Bytes => Ok(String::from_str(alloc, "bytes")?),
        Shape::Object(fields) => {
            let mut text = String::from_str(alloc, "object")?;
            for field in fields.as_slice() {
                text.push_str(" ")?;
                text.push_str(field.name.as_str())?;
                text.push_str(" ")?;
                text.push_str(field_text(&field.shape))?;
            }
            Ok(text)
        }
        _ => Err("no shape of the block".into()),
    }
}

fn field_text(shape: &Shape) -> &'static str {
    match shape {
        Shape::Unsigned => "unsigned",
        Shape::Bytes => "bytes",
        Shape::List(item) => match item.get() {
            Shape::Object(fields) => match fields.as_slice() {
                [first, second] => {
                    let is_word = first.name.as_str() == "word"
                        && matches!(&first.shape, Shape::Text)
                        && second.name.as_str() == "line"
                        && matches!(&second.shape, Shape::Unsigned);
                    if is_word {
                        "list of words with lines"
                    } else {
                        "another list"
                    }
                }
                _ => "another list",
            },
            _ => "another list",
        },
        _ => "another",
    }
}

/// The type with this ID, as its name and its shape.
fn type_text(alloc: Global, table: &TypeTable, id: u16) -> Result<String, Fail> {
    let name = table.name(TypeId(id)).ok_or("no such type")?;
    let shape = table.shape(TypeId(id)).ok_or("no such type")?;
    let mut text = String::from_str(alloc, name.as_str())?;
    text.push_str(": ")?;
    text.push_str(shape_text(alloc, shape)?.as_str())?;
    Ok(text)
}

#[test]
fn the_block_core_has_its_names_and_shapes(rt: HostRuntime) -> Result<(), Fail> {
    let alloc = rt.alloc();
    let table = core_table(alloc)?;
    let objects = [
        "chunk: object file unsigned number unsigned line unsigned bytes bytes",
        "postings: object file unsigned items list of words with lines",
        "extent: object file unsigned lines unsigned bytes unsigned",
        "summary: object words unsigned postings unsigned",
        "total: object lines unsigned bytes unsigned",
        "finish: object chunks unsigned",
    ];
    let mut id = 200u16;
    for text in objects {
        assert_eq!(rt; type_text(alloc, &table, id)?.as_str(), text);
        id = id.saturating_add(1);
    }
    let atoms = [
        "start", "more", "index", "totals", "count", "add", "sub", "mul", "put", "get", "wake",
        "rest", "settle", "leave", "watch", "link", "seen", "spawn", "alarm", "ring",
    ];
    for name in atoms {
        let text = type_text(alloc, &table, id)?;
        assert_eq!(rt; text.as_str().strip_suffix(": unit"), Some(name));
        assert_eq!(rt; table.find(name), Some(TypeId(id)));
        id = id.saturating_add(1);
    }
    assert!(rt; table.shape(TypeId(226)).is_none());
    assert!(rt; table.shape(TypeId(199)).is_none());
    Ok(())
}
