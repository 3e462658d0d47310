use super::{CATS, run, seen, words_of};
use crate::End;
use caf_io::{MemoryFiles, MemorySink};
use std::test::Fail;

fn is_read_of(end: &End, name: &str) -> bool {
    match end {
        End::Read(read) => read.as_str() == name,
        _ => false,
    }
}

#[test]
fn an_absent_file_is_told(rt: HostRuntime) -> Result<(), Fail> {
    for (words, name) in [
        (["run", "A.txt", "no such.txt"].as_slice(), "no such.txt"),
        (["plain", "no such.txt", "A.txt"].as_slice(), "no such.txt"),
        (["check", "s.json"].as_slice(), "s.json"),
        (
            ["run", "--scenario", "s.json", "no such.txt"].as_slice(),
            "s.json",
        ),
    ] {
        let seen = seen(rt.alloc(), words, &[("A.txt", CATS)])?;
        assert_eq!(rt; seen.status, 3);
        assert!(rt; is_read_of(&seen.end, name));
        assert_eq!(rt; seen.out.calls(), 0);
        assert!(rt; !seen.is_kept);
    }
    Ok(())
}

/// Each of the reads may fail: two of each file, since the end of a file is read too.
#[test]
fn a_failed_read_is_told(rt: HostRuntime) -> Result<(), Fail> {
    let alloc = rt.alloc();
    for (call, name, status) in [
        (1, "A.txt", 3),
        (2, "A.txt", 3),
        (3, "B.txt", 3),
        (4, "B.txt", 3),
        (5, "", 0),
    ] {
        let mut files = MemoryFiles::new(alloc);
        files.add(alloc, "A.txt", CATS)?;
        files.add(alloc, "B.txt", b"one two")?;
        files.fail_at(call)?;
        let mut out = MemorySink::new(alloc);
        let words = words_of(alloc, &["run", "A.txt", "B.txt"])?;
        let outcome = run(alloc, &words, &mut files, &mut out);
        assert_eq!(rt; outcome.status, status);
        assert_eq!(rt; is_read_of(&outcome.end, name), status == 3);
        assert_eq!(rt; outcome.kept.is_some(), status == 0);
        assert_eq!(rt; out.calls() == 0, status == 3);
    }
    Ok(())
}

/// What was played is kept where its text can't be written whole.
#[test]
fn a_failed_write_is_told(rt: HostRuntime) -> Result<(), Fail> {
    let alloc = rt.alloc();
    let mut files = MemoryFiles::new(alloc);
    files.add(alloc, "A.txt", CATS)?;
    for (command, is_kept) in [("run", true), ("plain", false)] {
        let mut out = MemorySink::new(alloc);
        out.fail_at(1, 5)?;
        let words = words_of(alloc, &[command, "A.txt"])?;
        let outcome = run(alloc, &words, &mut files, &mut out);
        assert_eq!(rt; outcome.status, 5);
        assert!(rt; matches!(&outcome.end, End::Write));
        assert_eq!(rt; outcome.kept.is_some(), is_kept);
        assert_eq!(rt; out.written(), b"cat\n ".as_slice());
    }
    Ok(())
}

/// A text of no bytes is written too, so an output that refuses is noticed.
#[test]
fn a_closed_output_is_told(rt: HostRuntime) -> Result<(), Fail> {
    let alloc = rt.alloc();
    let mut files = MemoryFiles::new(alloc);
    files.add(alloc, "A.txt", b"")?;
    let mut out = MemorySink::new(alloc);
    out.fail_at(1, 0)?;
    let words = words_of(alloc, &["run", "A.txt"])?;
    let outcome = run(alloc, &words, &mut files, &mut out);
    assert_eq!(rt; outcome.status, 5);
    assert_eq!(rt; out.written(), b"".as_slice());
    Ok(())
}

/// Names print as they are given.
#[test]
fn names_may_be_odd(rt: HostRuntime) -> Result<(), Fail> {
    let name = "a b\nc \u{7f}é:";
    let seen = seen(rt.alloc(), &["run", name], &[(name, b"x\n".as_slice())])?;
    assert_eq!(rt; seen.status, 0);
    assert_eq!(rt; seen.out.written(), "x\n  a b\nc \u{7f}é:: 1\n".as_bytes());
    Ok(())
}
