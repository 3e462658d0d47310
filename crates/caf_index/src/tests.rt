use crate::{Chunk, Index, chunks, index_text, plain_index, postings};
use caf_types::{Letters, Memory, Seq};
use std::alloc::Global;
use std::test::Fail;

fn names_of(alloc: Global, names: &[&str]) -> Result<Seq<Letters>, Memory> {
    let mut all = Seq::new(alloc);
    for name in names {
        all.push(Letters::of(alloc, name)?)?;
    }
    Ok(all)
}

fn files_of(alloc: Global, files: &[&[u8]]) -> Result<Seq<Seq<u8>>, Memory> {
    let mut all = Seq::new(alloc);
    for bytes in files {
        all.push(Seq::of_vec(Vec::from_slice(alloc, bytes)?))?;
    }
    Ok(all)
}

/// The index text of files, whose names are A.txt, B.txt.
fn text_of(alloc: Global, files: &[&[u8]]) -> Result<Seq<u8>, Memory> {
    let index = plain_index(alloc, &files_of(alloc, files)?)?;
    index_text(alloc, &names_of(alloc, &["A.txt", "B.txt"])?, &index)
}

#[test]
fn lists_words_by_line(rt: HostRuntime) -> Result<(), Fail> {
    let rows: [(&[u8], &str); 9] = [
        (
            b"The cat\nthe dog\n",
            "cat\n  A.txt: 1\ndog\n  A.txt: 2\nthe\n  A.txt: 1 2\n",
        ),
        (b"", ""),
        (b" \n\t \n", ""),
        (b"one two", "one\n  A.txt: 1\ntwo\n  A.txt: 1\n"),
        (b"caf\xC3\xA9s\n", "caf\n  A.txt: 1\ns\n  A.txt: 1\n"),
        (b"a\0b\n\nA\n", "a\n  A.txt: 1 3\nb\n  A.txt: 1\n"),
        (b"so so\nSO\n", "so\n  A.txt: 1 2\n"),
        (
            b"z 10 9\n",
            "10\n  A.txt: 1\n9\n  A.txt: 1\nz\n  A.txt: 1\n",
        ),
        (
            b"aaaaaaaaaabbbbbbbbbbccccccccccddddddddddeeeeeeeeeeffffffffffgggggggggg",
            "aaaaaaaaaabbbbbbbbbbccccccccccddddddddddeeeeeeeeeeffffffffffgggggggggg\n  A.txt: 1\n",
        ),
    ];
    for (bytes, want) in rows {
        assert_eq!(rt;
            text_of(rt.alloc(), &[bytes])?.as_slice(),
            want.as_bytes(),
            "{want}"
        );
    }
    Ok(())
}

#[test]
fn lists_files_in_order_of_number(rt: HostRuntime) -> Result<(), Fail> {
    let text = text_of(rt.alloc(), &[b"cat", b"dog\ncat\n"])?;
    let want = "cat\n  A.txt: 1\n  B.txt: 2\ndog\n  B.txt: 1\n";
    assert_eq!(rt; text.as_slice(), want.as_bytes());
    Ok(())
}

#[test]
fn leaves_out_files_without_a_name(rt: HostRuntime) -> Result<(), Fail> {
    let mut index = Index::new(rt.alloc());
    index.add(0, "cat", 1)?;
    index.add(3, "cat", 1)?;
    index.add(0, "dog", 1)?;
    index.add(2, "dog", 7)?;
    let text = index_text(
        rt.alloc(),
        &names_of(rt.alloc(), &["A.txt", "B.txt"])?,
        &index,
    )?;
    assert_eq!(rt; text.as_slice(), "dog\n  B.txt: 7\n".as_bytes());
    Ok(())
}

#[test]
fn keeps_each_entry_once(rt: HostRuntime) -> Result<(), Fail> {
    let mut index = Index::new(rt.alloc());
    assert_eq!(rt; (index.words(), index.entries()), (0, 0));
    for (file, word, line) in [
        (2, "cat", 5),
        (1, "cat", 9),
        (2, "cat", 3),
        (2, "cat", 4),
        (2, "cat", 5),
        (2, "ant", 18),
    ] {
        index.add(file, word, line)?;
    }
    assert_eq!(rt; (index.words(), index.entries()), (2, 5));
    let text = index_text(
        rt.alloc(),
        &names_of(rt.alloc(), &["A.txt", "B.txt"])?,
        &index,
    )?;
    let want = "ant\n  B.txt: 18\ncat\n  A.txt: 9\n  B.txt: 3 4 5\n";
    assert_eq!(rt; text.as_slice(), want.as_bytes());
    Ok(())
}

/// A file of lines with so many bytes each, line end included.
fn file_of(alloc: Global, lines: &[usize]) -> Result<Vec<u8>, Memory> {
    let mut bytes = Vec::new(alloc);
    for size in lines {
        for _ in 1..*size {
            bytes.push(b'a')?;
        }
        bytes.push(b'\n')?;
    }
    Ok(bytes)
}

fn chunk(line: u64, from: u64, to: u64) -> Chunk {
    Chunk { line, from, to }
}

#[test]
fn cuts_files_into_whole_lines(rt: HostRuntime) -> Result<(), Fail> {
    let rows: [(&[usize], &[Chunk]); 8] = [
        (&[], &[]),
        (&[1, 1, 1], &[chunk(1, 0, 3)]),
        (
            &[16_384, 2],
            &[chunk(1, 0, 16_384), chunk(2, 16_384, 16_386)],
        ),
        (&[2, 16_385], &[chunk(1, 0, 2), chunk(2, 2, 16_387)]),
        (
            &[2, 16_382, 1],
            &[chunk(1, 0, 16_384), chunk(3, 16_384, 16_385)],
        ),
        (&[2, 16_383, 1], &[chunk(1, 0, 2), chunk(2, 2, 16_386)]),
        (
            &[20_000, 20_000, 1],
            &[
                chunk(1, 0, 20_000),
                chunk(2, 20_000, 40_000),
                chunk(3, 40_000, 40_001),
            ],
        ),
        (&[1_048_576], &[chunk(1, 0, 1_048_576)]),
    ];
    for (lines, want) in rows {
        let bytes = file_of(rt.alloc(), lines)?;
        assert_eq!(rt; chunks(rt.alloc(), bytes.as_slice())?.as_slice(), want);
    }
    Ok(())
}

#[test]
fn ends_the_last_chunk_with_the_file(rt: HostRuntime) -> Result<(), Fail> {
    let mut bytes = file_of(rt.alloc(), &[16_384, 5])?;
    bytes.truncate(16_388);
    let want: &[Chunk] = &[chunk(1, 0, 16_384), chunk(2, 16_384, 16_388)];
    assert_eq!(rt; chunks(rt.alloc(), bytes.as_slice())?.as_slice(), want);
    let want: &[Chunk] = &[chunk(1, 0, 2)];
    assert_eq!(rt; chunks(rt.alloc(), b"ab")?.as_slice(), want);
    Ok(())
}

/// The postings of bytes, each with its line.
fn postings_text(alloc: Global, line: u64, bytes: &[u8]) -> Result<String, Memory> {
    let mut text = String::new(alloc);
    for posting in &postings(alloc, line, bytes)? {
        text.push_str(posting.word.as_str())?;
        write!(text, " {};", posting.line)?;
    }
    Ok(text)
}

#[test]
fn lists_postings_by_word_and_line(rt: HostRuntime) -> Result<(), Fail> {
    let rows: [(u64, &[u8], &str); 8] = [
        (1, b"", ""),
        (1, b" \n\t\n", ""),
        (
            7,
            b"the cat\nthe Cat the\nant",
            "ant 9;cat 7;cat 8;the 7;the 8;",
        ),
        (1, b"Z9 z z10\nZ\n", "z 1;z 2;z10 1;z9 1;"),
        (0, b"b\nb\n", "b 0;b 1;"),
        (3, b"caf\xC3\xA9s\x80S", "caf 3;s 3;"),
        (5, b"\n\na", "a 7;"),
        (
            18_446_744_073_709_551_614,
            b"a\na\na\nb",
            "a 18446744073709551614;a 18446744073709551615;b 18446744073709551615;",
        ),
    ];
    for (line, bytes, want) in rows {
        assert_eq!(rt; postings_text(rt.alloc(), line, bytes)?.as_str(), want);
    }
    Ok(())
}
