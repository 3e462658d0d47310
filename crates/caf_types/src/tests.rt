ghost use Rattle.std.specs.Prelude.{◌≡◌, ◌∷◌, [], IfOk, codes};
ghost use Rattle.caf_types.specs.ShapeTree.{unit};
ghost use Rattle.caf_types.specs.Table.{named, with_block, built_in};
ghost use Rattle.caf_types.specs.TypeTable.{seen};
ghost use Rattle.caf_types.specs.Postings.{postings};

use crate::{
    Entry, Memory, Name, NameFault, Reason, Sec, Seq, Shape, TableFault, TypeId, TypeTable,
    declare_type, type_block,
};
use std::alloc::Global;
use std::test::Fail;

fn one(alloc: Global, name: &str, shape: Shape) -> Result<Seq<Entry>, Fail> {
    let mut entries = Seq::new(alloc);
    let name = Name::new(alloc, name)?;
    entries.push(Entry { name, shape })?;
    Ok(entries)
}

fn two(alloc: Global, first: &str, second: &str) -> Result<Seq<Entry>, Fail> {
    let mut entries = one(alloc, first, Shape::Unit)?;
    let name = Name::new(alloc, second)?;
    entries.push(Entry {
        name,
        shape: Shape::Flag,
    })?;
    Ok(entries)
}

fn nested(alloc: Global, lists: u64) -> Result<Shape, Fail> {
    let mut shape = Shape::Unit;
    for _ in 0..lists {
        shape = Shape::list_of(alloc, shape)?;
    }
    Ok(shape)
}

#[test]
fn a_block_is_added_or_its_first_fault_told(rt: HostRuntime) -> Result<(), Fail> {
    let alloc = rt.alloc();
    let mut table = TypeTable::new(alloc)?;
    let below = table.add_block(Name::new(alloc, "low")?, 199, one(alloc, "a", Shape::Unit)?);
    assert!(rt; matches!(below, Err(TableFault::Range)));
    let lowest = table.add_block(Name::new(alloc, "low")?, 200, one(alloc, "a", Shape::Unit)?);
    assert!(rt; lowest.is_ok());
    let highest = table.add_block(
        Name::new(alloc, "high")?,
        65_534,
        one(alloc, "b", Shape::Unit)?,
    );
    assert!(rt; highest.is_ok());
    let above = table.add_block(Name::new(alloc, "low")?, 65_534, two(alloc, "c", "d")?);
    assert!(rt; matches!(above, Err(TableFault::Range)));
    let taken = table.add_block(Name::new(alloc, "low")?, 199 + 1, two(alloc, "text", "d")?);
    assert!(rt; matches!(taken, Err(TableFault::Taken(TypeId(200)))));
    let block = table.add_block(
        Name::new(alloc, "low")?,
        300,
        one(alloc, "text", Shape::Unit)?,
    );
    assert!(rt; matches!(&block, Err(TableFault::Name(name)) if name.as_str() == "low"));
    let entry = table.add_block(
        Name::new(alloc, "more")?,
        300,
        one(alloc, "text", nested(alloc, 16)?)?,
    );
    assert!(rt; matches!(&entry, Err(TableFault::Name(name)) if name.as_str() == "text"));
    let twice = table.add_block(Name::new(alloc, "more")?, 300, two(alloc, "c", "c")?);
    assert!(rt; matches!(&twice, Err(TableFault::Name(name)) if name.as_str() == "c"));
    let mut around = two(alloc, "a_first", "text")?;
    declare_type(alloc, &mut around, "a_first", Shape::Unit)?;
    let first = table.add_block(Name::new(alloc, "more")?, 300, around);
    assert!(rt; matches!(&first, Err(TableFault::Name(name)) if name.as_str() == "a_first"));
    let deep = table.add_block(
        Name::new(alloc, "more")?,
        300,
        one(alloc, "c", nested(alloc, 16)?)?,
    );
    assert!(rt; matches!(deep, Err(TableFault::Deep(TypeId(300)))));
    let deepest = table.add_block(
        Name::new(alloc, "more")?,
        300,
        one(alloc, "c", nested(alloc, 15)?)?,
    );
    assert!(rt; deepest.is_ok());
    Ok(())
}

/// A table of two types, declared by the macros; its clause tells them whole.
fn postings_table(alloc: Global) -> Result<TypeTable, TableFault>
    ensures { IfOk result (λ table. seen table ≡ with_block built_in (codes "core") 200
        (named (codes "start") unit ∷ named (codes "postings") postings ∷ [])) }
{
    let mut table = TypeTable::new(alloc)?;
    type_block!(alloc, table, core, 200, {
        start: Unit,
        postings: { file: Unsigned, items: [{ word: Text, line: Unsigned }] },
    })?;
    Ok(table)
}

#[test]
fn a_block_is_declared_and_looked_up(rt: HostRuntime) -> Result<(), Fail> {
    let table = postings_table(rt.alloc())?;
    assert_eq!(rt; table.find("postings"), Some(TypeId(201)));
    assert_eq!(rt; table.find("places"), Some(TypeId(9)));
    assert_eq!(rt; table.find("core"), None);
    assert!(rt; matches!(table.shape(TypeId(200)), Some(Shape::Unit)));
    assert!(rt;
        matches!(table.shape(TypeId(201)), Some(Shape::Object(fields)) if fields.len() == 2)
    );
    assert!(rt; matches!(table.shape(TypeId(5)), Some(Shape::Bytes)));
    assert!(rt; table.shape(TypeId(10)).is_none() && table.shape(TypeId(202)).is_none());
    assert!(rt; matches!(table.name(TypeId(8)), Some(name) if name.as_str() == "texts"));
    Ok(())
}

#[test]
fn faults_tell_what_they_carry(rt: HostRuntime) -> Result<(), Fail> {
    let alloc = rt.alloc();
    for (fault, text) in [
        (TableFault::Taken(TypeId(200)), "type ID 200 is taken"),
        (
            TableFault::Name(Name::new(alloc, "core")?),
            "name core is taken",
        ),
        (TableFault::Range, "type IDs are not from 200 to 65534"),
        (
            TableFault::Deep(TypeId(201)),
            "the shape of type ID 201 nests past 16",
        ),
        (TableFault::Memory, "out of memory"),
    ] {
        assert_eq!(rt; fault.to_string(alloc)?.as_str(), text);
    }
    for (fault, text) in [
        (NameFault::Form, "not a name"),
        (NameFault::Memory, "out of memory"),
    ] {
        assert_eq!(rt; fault.to_string(alloc)?.as_str(), text);
    }
    assert_eq!(rt; Memory.to_string(alloc)?.as_str(), "out of memory");
    Ok(())
}

#[test]
fn names_are_short_and_of_few_letters(rt: HostRuntime) {
    let longest = "abcdefghijklmnopqrstuvwxyzabcdefghijklmnopqrstuvwxyz_0123456789_";
    for (text, is_name) in [
        ("a_9z", true),
        (longest, true),
        ("A", false),
        ("", false),
        ("a b", false),
        ("a-b", false),
    ] {
        assert_eq!(rt; Name::new(rt.alloc(), text).is_ok(), is_name, "at {text}");
    }
    let longer = "abcdefghijklmnopqrstuvwxyzabcdefghijklmnopqrstuvwxyz_0123456789_a";
    assert!(rt; matches!(Name::new(rt.alloc(), longer), Err(NameFault::Form)));
}

#[test]
fn errors_and_reasons_have_numbers_and_names(rt: HostRuntime) {
    for (sec, number, name) in [
        (Sec::UnexpectedMessage, 1, "unexpected_message"),
        (Sec::UnexpectedResponse, 2, "unexpected_response"),
        (Sec::RequestReceiverDown, 3, "request_receiver_down"),
        (Sec::RequestTimeout, 4, "request_timeout"),
        (Sec::BrokenPromise, 5, "broken_promise"),
        (Sec::Failed, 6, "failed"),
        (Sec::NoPlace, 7, "no_place"),
    ] {
        assert_eq!(rt; sec.number(), number);
        assert_eq!(rt; sec.as_str(), name);
    }
    for (reason, number, name) in [
        (Reason::Normal, 0, "normal"),
        (Reason::UserShutdown, 1, "user_shutdown"),
        (Reason::Kill, 2, "kill"),
        (Reason::Failed, 3, "failed"),
    ] {
        assert_eq!(rt; reason.number(), number);
        assert_eq!(rt; reason.as_str(), name);
        assert_eq!(rt; Reason::named(name), Some(reason));
    }
    assert_eq!(rt; Reason::named("finished"), None);
}
