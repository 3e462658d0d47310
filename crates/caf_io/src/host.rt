ghost use Rattle.std.specs.Prelude.{◌≡◌, ℕ, ◌+◌, ◌-◌, ◌^◌, ◌≤◌, min, List, length, None, IfOk, IfSome, OnOk, string_bytes};

use crate::{Failed, Files, Sink};
use std::alloc::Global;
use std::io::{ErrorKind, Read, Seek, SeekFrom};
use std::{fs, io, rt};

/// The files of the host, read through its runtime. They tell no content.
///
/// One count serves every name. The file that was read last stays open, so that a read where the
/// last one ended neither opens nor seeks. A directory is a file that can't be read.
#[derive(Drop)]
pub struct HostFiles<R: rt::Files> {
    rt: R,
    alloc: Global,
    current: Option<OpenFile<R::File>>,
    faults: u64,
}

#[derive(Drop)]
struct OpenFile<F> {
    name: String,
    next: u64,
    file: F,
}

impl<R: rt::Files + Drop> HostFiles<R> {
    /// The host's files, with no fault yet. Nothing is opened.
    pub fn new(rt: R, alloc: Global) -> HostFiles<R>
        ensures { (name : List ℕ) → ⟦<HostFiles<R> as Files>⟧.faults result name ≡ 0 }
    {
        HostFiles {
            rt,
            alloc,
            current: None,
            faults: 0,
        }
    }

    /// How many reads failed; it stops at 2^64 - 1.
    pub fn faults(&self) -> u64
        ensures { (name : List ℕ) → result ≡ ⟦<HostFiles<R> as Files>⟧.faults self.now name }
    {
        self.faults
    }

    // The file of this name at this position, opened unless it is open there.
    fn reach(&mut self, name: &str, from: u64) -> io::Result<OpenFile<R::File>>
        ensures named { IfOk result (λ file. string_bytes file.name ≡ name.now) }
        ensures there { IfOk result (λ file. file.next ≡ from) }
        ensures same_faults { self.new.faults ≡ self.old.faults }
    {
        if let Some(open) = self.current.take() {
            if open.next == from && open.name.as_str() == name {
                return Ok(open);
            }
        }
        let mut file = fs::open(&self.rt, name)?;
        if from > 0 {
            file.seek(SeekFrom::Start(from))?;
        }
        let name = String::from_str(self.alloc, name)?;
        Ok(OpenFile {
            name,
            next: from,
            file,
        })
    }

    fn read_open(&mut self, name: &str, from: u64, buffer: &mut [u8]) -> io::Result<usize>
        ensures within { IfOk result (λ count. count ≤ length buffer.new) }
        ensures named { OnOk result (IfSome self.new.current (λ file. string_bytes file.name ≡ name.now)) }
        ensures stands { IfOk result (λ count. IfSome self.new.current (λ file. file.next ≡ min (from + count) (2 ^ 64 - 1))) }
        ensures same_faults { self.new.faults ≡ self.old.faults }
    {
        let mut open = self.reach(name, from)?;
        let count = read_retrying(&mut open.file, buffer)?;
        open.next = from.saturating_add(count as u64);
        self.current = Some(open);
        Ok(count)
    }
}

// One read, begun again where a signal interrupts it.
fn read_retrying<F: Read>(file: &mut F, buffer: &mut [u8]) -> io::Result<usize>
    ensures { IfOk result (λ count. count ≤ length buffer.new) }
{
    for _ in 0..u64::MAX {
        match file.read(buffer) {
            Err(error) if error.kind() == ErrorKind::Interrupted => {}
            outcome => return outcome,
        }
    }
    Err(io::Error::from(ErrorKind::Interrupted))
}

impl<R: rt::Files + Drop> Files for HostFiles<R> {
    ghost told = { λ _. None };

    ghost faults = { λ files _. files.faults };

    fn read(&mut self, name: &str, from: u64, buffer: &mut [u8]) -> Result<u64, Failed> {
        match self.read_open(name, from, buffer) {
            Ok(count) => Ok(count as u64),
            Err(_) => {
                self.faults = self.faults.saturating_add(1);
                Err(Failed)
            }
        }
    }
}

/// Standard output, written through the host's runtime. It tells nothing of what was written.
#[derive(Drop)]
pub struct HostSink<P> {
    rt: P,
    faults: u64,
}

impl<P: Print + Drop> HostSink<P> {
    /// Standard output, with no fault yet.
    pub fn new(rt: P) -> HostSink<P>
        ensures { ⟦<HostSink<P> as Sink>⟧.faults result ≡ 0 }
    {
        HostSink { rt, faults: 0 }
    }

    /// How many writes failed; it stops at 2^64 - 1.
    pub fn faults(&self) -> u64
        ensures { result ≡ ⟦<HostSink<P> as Sink>⟧.faults self.now }
    {
        self.faults
    }
}

impl<P: Print + Drop> Sink for HostSink<P> {
    ghost written = { λ _. None };

    ghost faults = { λ sink. sink.faults };

    fn write(&mut self, piece: &[u8]) -> Result<(), Failed> {
        match self.rt.write_all(piece) {
            Ok(()) => Ok(()),
            Err(_) => {
                self.faults = self.faults.saturating_add(1);
                Err(Failed)
            }
        }
    }
}
