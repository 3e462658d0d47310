ghost use Rattle.std.specs.Prelude.{◌<◌};

use crate::{CorpusFault, read_corpus};
use caf_io::MemoryFiles;
use caf_types::{Letters, Octets, Seq};
use std::alloc::{AllocError, Global};
use std::test::Fail;

fn names_of(alloc: Global, texts: &[&str]) -> Result<Seq<Letters>, Fail> {
    let mut names = Seq::new(alloc);
    for text in texts {
        names.push(Letters::of(alloc, text)?)?;
    }
    Ok(names)
}

/// The corpus of not too many names, as the test knows them to be.
fn read(
    alloc: Global,
    files: &mut MemoryFiles,
    names: &Seq<Letters>,
) -> Result<Seq<Octets>, CorpusFault> {
    if names.len() > 100 {
        return Err(CorpusFault::Memory);
    }
    read_corpus(alloc, files, names)
}

fn blanks(alloc: Global, count: usize) -> Result<Vec<u8>, AllocError> {
    vec![in alloc; b' '; count]
}

/// So many bytes, every `length`-th of which is a line end.
fn lines(alloc: Global, count: usize, length: usize) -> Result<Vec<u8>, AllocError>
    requires { 0 < length }
{
    let mut bytes = blanks(alloc, count)?;
    for (i, byte) in bytes.iter_mut().enumerate() {
        if (i + 1) % length == 0 {
            *byte = b'\n';
        }
    }
    Ok(bytes)
}

#[test]
fn files_are_read_in_order(rt: HostRuntime) -> Result<(), Fail> {
    let alloc = rt.alloc();
    let mut files = MemoryFiles::new(alloc);
    files.add(alloc, "A", b"The cat\n")?;
    files.add(alloc, "E", b"")?;
    let corpus = read(alloc, &mut files, &names_of(alloc, &["A", "E", "A"])?)?;
    assert_eq!(rt; corpus.len(), 3);
    for (bytes, want) in corpus
        .iter()
        .zip([b"The cat\n".as_slice(), b"", b"The cat\n"])
    {
        assert_eq!(rt; bytes.as_slice(), want);
    }
    let none = read(alloc, &mut files, &names_of(alloc, &[])?)?;
    assert!(rt; none.is_empty());
    Ok(())
}

#[test]
fn a_line_has_its_limit(rt: HostRuntime) -> Result<(), Fail> {
    let alloc = rt.alloc();
    let long = blanks(alloc, 1_048_577)?;
    let fitting = blanks(alloc, 1_048_576)?;
    let whole = lines(alloc, 1_048_577, 1_048_576)?;
    let mut later = lines(alloc, 8, 4)?;
    later.extend_from_slice(long.as_slice())?;
    for (bytes, line) in [
        (long.as_slice(), Some(1)),
        (fitting.as_slice(), None),
        (whole.as_slice(), None),
        (later.as_slice(), Some(3)),
    ] {
        let mut files = MemoryFiles::new(alloc);
        files.add(alloc, "A", b"a\n")?;
        files.add(alloc, "L", bytes)?;
        files.fail_at(40)?;
        let names = names_of(alloc, &["A", "A", "L"])?;
        let answer = read(alloc, &mut files, &names);
        let told = match &answer {
            Err(CorpusFault::Line(3, line)) => Some(*line),
            _ => None,
        };
        assert_eq!(rt; told, line);
        assert_eq!(rt; answer.is_ok(), line.is_none());
    }
    Ok(())
}

#[test]
fn a_corpus_has_its_limit(rt: HostRuntime) -> Result<(), Fail> {
    let alloc = rt.alloc();
    let mega = lines(alloc, 1_048_576, 1024)?;
    let mut files = MemoryFiles::new(alloc);
    files.add(alloc, "M", mega.as_slice())?;
    files.add(alloc, "E", b"")?;
    files.add(alloc, "C", b"a")?;
    let mut names = names_of(alloc, &["E"])?;
    for _ in 0..64 {
        names.push(Letters::of(alloc, "M")?)?;
    }
    let full = read(alloc, &mut files, &names)?;
    assert_eq!(rt; full.len(), 65);
    drop(full);
    names.push(Letters::of(alloc, "C")?)?;
    let over = read(alloc, &mut files, &names);
    assert!(rt; matches!(&over, Err(CorpusFault::Corpus(66, 1))));
    Ok(())
}

#[test]
fn a_failed_read_is_told_unless_a_limit_comes_first(rt: HostRuntime) -> Result<(), Fail> {
    let alloc = rt.alloc();
    let long = blanks(alloc, 1_100_000)?;
    let mut files = MemoryFiles::new(alloc);
    files.add(alloc, "A", b"a\n")?;
    files.add(alloc, "L", long.as_slice())?;
    files.fail_at(3)?;
    files.fail_at(23)?;
    let names = names_of(alloc, &["A", "L"])?;
    let failed = read(alloc, &mut files, &names);
    assert!(rt; matches!(&failed, Err(CorpusFault::Read(name)) if name.as_str() == "L"));
    let passed = read(alloc, &mut files, &names);
    assert!(rt; matches!(&passed, Err(CorpusFault::Line(2, 1))));
    assert_eq!(rt; files.faults("L"), 1);
    let absent = read(alloc, &mut files, &names_of(alloc, &["B", "A"])?);
    assert!(rt; matches!(&absent, Err(CorpusFault::Read(name)) if name.as_str() == "B"));
    Ok(())
}

#[test]
fn faults_are_told_in_words(rt: HostRuntime) -> Result<(), Fail> {
    let alloc = rt.alloc();
    for (fault, text) in [
        (CorpusFault::Read(Letters::of(alloc, "A")?), "cannot read A"),
        (
            CorpusFault::Line(2, 3),
            "line 3 of file 2 over 1048576 bytes",
        ),
        (
            CorpusFault::Corpus(2, 3),
            "corpus over 67108864 bytes in file 2 line 3",
        ),
        (CorpusFault::Memory, "out of memory"),
    ] {
        assert_eq!(rt; fault.to_string(alloc)?.as_str(), text);
    }
    Ok(())
}
