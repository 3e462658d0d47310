//! Files that are indexed by the built-in scenario, over several numbers of counters.
use super::WAYS;
use crate::run_index;
use caf_index::{index_text, plain_index};
use caf_types::{Letters, Memory, Octets, Seq};
use std::alloc::Global;
use std::process::Abort;
use std::test::Fail;

/// The head, so many times the piece, and then the rest.
#[derive(Clone, Copy, Debug, Drop)]
struct Part<'a> {
    head: &'a [u8],
    piece: &'a [u8],
    times: u32,
    rest: &'a [u8],
}

fn only(rest: &[u8]) -> Part<'_> {
    Part {
        head: b"",
        piece: b"",
        times: 0,
        rest,
    }
}

fn file_of(alloc: Global, part: &Part<'_>) -> Result<Octets, Memory> {
    let mut bytes = Vec::new(alloc);
    bytes.extend_from_slice(part.head)?;
    for _ in 0..part.times {
        bytes.extend_from_slice(part.piece)?;
    }
    bytes.extend_from_slice(part.rest)?;
    Ok(Seq::of_vec(bytes))
}

fn files_of(alloc: Global, parts: &[Part<'_>]) -> Result<Seq<Octets>, Memory> {
    let mut files = Seq::new(alloc);
    for part in parts {
        files.push(file_of(alloc, part)?)?;
    }
    Ok(files)
}

/// The names `a`, `b` and so on, one for each file.
fn names_of(alloc: Global, count: u64) -> Result<Seq<Letters>, Memory> {
    let mut names = Seq::new(alloc);
    for (i, letter) in ["a", "b", "c", "d", "e", "f"].iter().enumerate() {
        if (i as u64) < count {
            names.push(Letters::of(alloc, letter)?)?;
        }
    }
    Ok(names)
}

/// That the files' index is this text, however many counters there are and whichever way the run takes.
fn check_index<R: Abort + AllocGlobal>(
    rt: &R,
    parts: &[Part<'_>],
    text: &[u8],
) -> Result<(), Fail> {
    let alloc = rt.alloc();
    let names = names_of(alloc, parts.len() as u64)?;
    for counters in [1, 2, 4, 7] {
        for way in WAYS {
            let files = files_of(alloc, parts)?;
            let run = run_index(alloc, counters, files, &names, way)?;
            assert!(rt; run.text.as_slice() == text, "{counters} by {way:?}");
        }
    }
    Ok(())
}

/// That the files' index is their plain one.
fn check_plain<R: Abort + AllocGlobal>(rt: &R, parts: &[Part<'_>]) -> Result<(), Fail> {
    let alloc = rt.alloc();
    let names = names_of(alloc, parts.len() as u64)?;
    let index = plain_index(alloc, &files_of(alloc, parts)?)?;
    let text = index_text(alloc, &names, &index)?;
    check_index(rt, parts, text.as_slice())
}

#[test]
fn small_files_have_their_index(rt: HostRuntime) -> Result<(), Fail> {
    let cats = "cat\n  a: 1\ndog\n  a: 2\nthe\n  a: 1 2\n";
    check_index(&rt, &[only(b"The cat\nthe dog\n")], cats.as_bytes())?;
    check_index(&rt, &[only(b"")], b"")?;
    check_index(&rt, &[], b"")?;
    let parts = [
        only(b"One two"),
        only(b""),
        only(b"\n\nx\n \n"),
        only(b"caf\xc3\xa9s\n"),
        only(b"One two"),
        only(b"9Z-z9 9z\n\nTWO"),
    ];
    let text =
        "9z\n  f: 1\ncaf\n  d: 1\none\n  a: 1\n  e: 1\ns\n  d: 1\ntwo\n  a: 1\n  e: 1\n  f: 3\nx\n  c: 3\nz9\n  f: 1\n";
    check_index(&rt, &parts, text.as_bytes())
}

/// Files of several chunks, with lines and words at their borders.
const WIDE: [Part<'static>; 4] = [
    // a line as long as a chunk, and a word behind it
    Part {
        head: b"",
        piece: b"abc ",
        times: 4095,
        rest: b"abc\nx\n",
    },
    // a line longer than a chunk behind a short one
    Part {
        head: b"x\n",
        piece: b"AB c ",
        times: 3276,
        rest: b"zzzz\n",
    },
    // lines of one word, so that each chunk ends at a word
    Part {
        head: b"",
        piece: b"ab\nCd\n\n",
        times: 7000,
        rest: b"ab",
    },
    // the same twice
    Part {
        head: b"",
        piece: b"ab\nCd\n\n",
        times: 7000,
        rest: b"ab",
    },
];

#[test]
fn files_of_several_chunks_have_their_plain_index(rt: HostRuntime) -> Result<(), Fail> {
    check_plain(&rt, WIDE.as_slice())
}
