use crate::{
    Failed, Files, HostFiles, HostSink, MemoryFiles, MemorySink, ReadFault, Sink, read_file,
    write_all,
};
use std::alloc::{AllocError, Global};
use std::fmt::Display;
use std::io::ErrorKind;
use std::test::Fail;
use std::{env, fs, io, process};

fn cat_and_empty(alloc: Global) -> Result<MemoryFiles, AllocError> {
    let mut files = MemoryFiles::new(alloc);
    files.add(alloc, "a.txt", b"The cat\n")?;
    files.add(alloc, "empty", b"")?;
    Ok(files)
}

fn repeated(alloc: Global, byte: u8, count: usize) -> Result<Vec<u8>, AllocError> {
    vec![in alloc; byte; count]
}

#[test]
fn reads_told_bytes_from_any_position(rt: HostRuntime) -> Result<(), Fail> {
    let mut files = cat_and_empty(rt.alloc())?;
    let mut buffer = [0u8; 4];
    for (name, from, want) in [
        ("a.txt", 0, "The "),
        ("a.txt", 4, "cat\n"),
        ("a.txt", 6, "t\n"),
        ("a.txt", 8, ""),
        ("a.txt", u64::MAX, ""),
        ("empty", 0, ""),
    ] {
        let count = files.read(name, from, &mut buffer)? as usize;
        assert_eq!(rt; &buffer[..count], want.as_bytes(), "{name} from {from}");
    }
    Ok(())
}

#[test]
fn counts_faults_by_name(rt: HostRuntime) -> Result<(), Fail> {
    let mut files = cat_and_empty(rt.alloc())?;
    files.fail_at(2)?;
    let mut buffer = [0u8; 4];
    for (name, fails) in [
        ("a.txt", false),
        ("a.txt", true),
        ("b.txt", true),
        ("c.txt", true),
        ("a.txt", false),
    ] {
        let answer = files.read(name, 0, &mut buffer);
        assert_eq!(rt; answer.is_err(), fails, "{name}");
    }
    for (name, faults) in [("a.txt", 1), ("empty", 0), ("b.txt", 2), ("z", 2)] {
        assert_eq!(rt; files.faults(name), faults, "{name}");
    }
    assert_eq!(rt; files.calls(), 5);
    Ok(())
}

#[test]
fn reads_whole_files_within_a_limit(rt: HostRuntime) -> Result<(), Fail> {
    let alloc = rt.alloc();
    let long = repeated(alloc, b'a', 70_000)?;
    for (name, limit, failing, want) in [
        ("a.txt", 8, 9, Ok(8)),
        ("a.txt", 7, 9, Err(ReadFault::Limit)),
        ("a.txt", 7, 2, Err(ReadFault::Limit)),
        ("a.txt", 8, 2, Err(ReadFault::Failed)),
        ("empty", 0, 9, Ok(0)),
        ("b.txt", 8, 9, Err(ReadFault::Failed)),
        ("long", 70_000, 9, Ok(70_000)),
        ("long", 69_999, 9, Err(ReadFault::Limit)),
        ("long", 70_000, 2, Err(ReadFault::Failed)),
    ] {
        let mut files = cat_and_empty(alloc)?;
        files.add(alloc, "long", long.as_slice())?;
        files.fail_at(failing)?;
        let answer = read_file(alloc, &mut files, name, limit);
        let length = answer.map(|bytes| bytes.len());
        assert_eq!(rt; length, want, "{name} within {limit}");
    }
    Ok(())
}

#[test]
fn a_failed_write_keeps_a_prefix(rt: HostRuntime) -> Result<(), Fail> {
    let mut sink = MemorySink::new(rt.alloc());
    sink.fail_at(1, 5)?;
    sink.fail_at(3, 100)?;
    for (piece, answer, written) in [
        ("cat\n  A.txt: 1\n", Err(Failed), "cat\n "),
        ("dog", Ok(()), "cat\n dog"),
        ("the", Err(Failed), "cat\n dogthe"),
    ] {
        assert_eq!(rt; sink.write(piece.as_bytes()), answer, "{piece}");
        assert_eq!(rt; sink.written(), written.as_bytes());
    }
    assert_eq!(rt; sink.faults(), 2);
    assert_eq!(rt; sink.calls(), 3);
    Ok(())
}

#[test]
fn faults_are_told_in_words(rt: HostRuntime) -> Result<(), Fail> {
    for (fault, text) in [
        (ReadFault::Failed, "the file can't be read"),
        (ReadFault::Limit, "the file is over the limit"),
        (ReadFault::Memory, "out of memory"),
    ] {
        assert_eq!(rt; fault.to_string(rt.alloc())?.as_str(), text);
    }
    assert_eq!(rt;
        Failed.to_string(rt.alloc())?.as_str(),
        "a read or a write failed"
    );
    Ok(())
}

#[test]
fn writes_long_texts_in_pieces(rt: HostRuntime) -> Result<(), Fail> {
    let text = repeated(rt.alloc(), b'a', 70_000)?;
    for (failing, answer, length) in [(9, Ok(()), 70_000), (2, Err(Failed), 65_546)] {
        let mut sink = MemorySink::new(rt.alloc());
        sink.fail_at(failing, 10)?;
        assert_eq!(rt; write_all(&mut sink, text.as_slice()), answer);
        assert_eq!(rt; sink.written().len(), length);
        assert_eq!(rt; sink.calls(), 2);
    }
    Ok(())
}

#[test]
fn the_host_reads_a_file_and_no_directory(rt: HostRuntime) -> Result<(), Fail> {
    let directory = env::temp_dir(&rt)?;
    let directory = directory.as_path().to_str().ok_or("no text")?;
    let id = process::id(rt.process());
    let name = format!(in rt.alloc(); "{directory}/caf_io_{id}.txt")?;
    fs::write(&rt, name.as_str(), "The cat\nthe dog\n")?;
    let mut files = HostFiles::new(&rt, rt.alloc());
    let mut buffer = [0u8; 7];
    for (from, want) in [(0, "The cat"), (7, "\nthe do"), (4, "cat\nthe"), (16, "")] {
        let count = files.read(name.as_str(), from, &mut buffer)? as usize;
        assert_eq!(rt; &buffer[..count], want.as_bytes(), "from {from}");
    }
    fs::remove_file(&rt, name.as_str())?;
    assert_eq!(rt; files.faults(), 0);
    assert_eq!(rt; files.read(name.as_str(), 0, &mut buffer), Err(Failed));
    assert_eq!(rt; files.read(directory, 0, &mut buffer), Err(Failed));
    assert_eq!(rt; files.faults(), 2);
    Ok(())
}

// An output that takes nothing.
#[derive(Drop)]
struct Closed;

impl Print for Closed {
    fn print<D: Display + Drop>(&self, _: D) -> io::Result<()> {
        Err(io::Error::from(ErrorKind::BrokenPipe))
    }

    fn println<D: Display + Drop>(&self, _: D) -> io::Result<()> {
        Err(io::Error::from(ErrorKind::BrokenPipe))
    }

    fn write_all(&self, _: &[u8]) -> io::Result<()> {
        Err(io::Error::from(ErrorKind::BrokenPipe))
    }
}

#[test]
fn the_host_counts_a_refused_write(rt: HostRuntime) {
    let mut out = HostSink::new(&rt);
    assert_eq!(rt; out.write(b"written by the host\n"), Ok(()));
    assert_eq!(rt; out.faults(), 0);
    let mut closed = HostSink::new(Closed);
    assert_eq!(rt; closed.write(b"lost"), Err(Failed));
    assert_eq!(rt; closed.faults(), 1);
}
