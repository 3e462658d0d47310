ghost use Rattle.std.specs.Prelude.{◌≡◌, ◌≢◌, ◌==◌, ℕ, ◌<◌, ◌≤◌, ◌↔◌, List, take, length, Some, true, false, IsTrue, IsSome, IsErr, IfSome, OnOk, OnErr, IfOk, if◌then◌else◌};
ghost use Rattle.std.specs.FinMap as finite;
ghost use Rattle.caf_io.specs.Faults.{next_count, Rose};
ghost use Rattle.caf_io.specs.Files.{AreNext};
ghost use Rattle.caf_io.specs.MemoryFiles.{bytes_in, content, fault_count, call_count, fails_at, SharesCount};

use crate::{Failed, Files};
use std::alloc::{AllocError, Global};
use std::collections::{BTreeMap, BTreeSet};

/// Files in memory, which tell their content.
///
/// Each has a count of faults, and all absent names together have one. A test says which of the
/// calls of `read`, counted from 1, are to fail.
#[derive(Drop)]
pub struct MemoryFiles {
    files: BTreeMap<String, MemoryFile>,
    absent: u64,
    calls: u64,
    failing: BTreeSet<u64>,
}

#[derive(Drop)]
struct MemoryFile {
    bytes: Vec<u8>,
    faults: u64,
}

impl MemoryFiles {
    /// No files; no call is to fail. It takes no memory.
    pub fn new(alloc: Global) -> MemoryFiles
        ensures empty { content result ≡ finite.empty }
        ensures faults { (name : _) → fault_count result name ≡ 0 }
        ensures calls { call_count result ≡ 0 }
        ensures none_fails { (call : ℕ) → fails_at result call ≡ false }
    {
        MemoryFiles {
            files: BTreeMap::new(alloc),
            absent: 0,
            calls: 0,
            failing: BTreeSet::new(alloc),
        }
    }

    /// The file `name` has these bytes from now on, and a new count. After want of memory nothing
    /// has changed. Other counts, the number of calls and the plan stay in any case.
    pub fn add(&mut self, alloc: Global, name: &str, bytes: &[u8]) -> Result<(), AllocError>
        ensures added { OnOk result (content self.new ≡ finite.insert (content self.old) name.now bytes.now) }
        ensures new_count { OnOk result (fault_count self.new name.now ≡ 0) }
        ensures refused { OnErr result (content self.new ≡ content self.old) }
        ensures kept { OnErr result (fault_count self.new name.now ≡ fault_count self.old name.now) }
        ensures others { (other : List ℕ) → other ≢ name.now → fault_count self.new other ≡ fault_count self.old other }
        ensures same_calls { call_count self.new ≡ call_count self.old }
        ensures same_plan { (call : ℕ) → fails_at self.new call ≡ fails_at self.old call }
    {
        let name = String::from_str(alloc, name)?;
        let bytes = Vec::from_slice(alloc, bytes)?;
        self.files.insert(name, MemoryFile { bytes, faults: 0 })?;
        Ok(())
    }

    /// The `call`-th call of `read`, counted from 1, is to fail. After want of memory the plan is as
    /// before; content, counts and the number of calls stay in any case.
    pub fn fail_at(&mut self, call: u64) -> Result<(), AllocError>
        ensures planned { OnOk result ((other : ℕ) → fails_at self.new other ≡ (if other == call then true else fails_at self.old other)) }
        ensures refused { OnErr result ((other : ℕ) → fails_at self.new other ≡ fails_at self.old other) }
        ensures same_content { content self.new ≡ content self.old }
        ensures same_counts { (name : List ℕ) → fault_count self.new name ≡ fault_count self.old name }
        ensures same_calls { call_count self.new ≡ call_count self.old }
    {
        self.failing.insert(call)?;
        Ok(())
    }

    /// How many reads of this name failed; it stops at 2^64 - 1. All absent names have one count.
    pub fn faults(&self, name: &str) -> u64
        ensures { result ≡ fault_count self.now name.now }
    {
        self.files.get(name).map_or(self.absent, |file| file.faults)
    }

    /// How many reads there were; it stops at 2^64 - 1.
    pub fn calls(&self) -> u64
        ensures { result ≡ call_count self.now }
    {
        self.calls
    }
}

impl MemoryFile {
    // Reads, or counts a fault where this call is to fail.
    fn read(&mut self, fails: bool, from: u64, buffer: &mut [u8]) -> Result<u64, Failed>
        requires { 0 < length buffer.old }
        ensures within { IfOk result (λ count. count ≤ length buffer.new) }
        ensures bytes { IfOk result (λ count. AreNext (bytes_in self.old) from (take count buffer.new)) }
        ensures end { IfOk result (λ count. (count ≡ 0) ↔ (length (bytes_in self.old) ≤ from)) }
        ensures obeys { IsErr result ↔ IsTrue fails }
        ensures no_fault { OnOk result (self.new.faults ≡ self.old.faults) }
        ensures fault { OnErr result (self.new.faults ≡ next_count self.old.faults) }
        ensures never_falls { self.old.faults ≤ self.new.faults }
        ensures same_bytes { bytes_in self.new ≡ bytes_in self.old }
    {
        if fails {
            self.faults = self.faults.saturating_add(1);
            return Err(Failed);
        }
        Ok(copy_from(self.bytes.as_slice(), from, buffer))
    }
}

// Copies what the file has from this position on into the front of the buffer.
fn copy_from(file: &[u8], from: u64, buffer: &mut [u8]) -> u64
    requires { 0 < length buffer.old }
    ensures within { result ≤ length buffer.new }
    ensures bytes { AreNext file.now from (take result buffer.new) }
    ensures end { (result ≡ 0) ↔ (length file.now ≤ from) }
{
    let from = (from as usize).min(file.len());
    let count = (file.len() - from).min(buffer.len());
    buffer[..count].copy_from_slice(&file[from..from + count]);
    count as u64
}

impl Files for MemoryFiles {
    ghost told = { λ files. Some (content files) };

    ghost faults = { fault_count };

    fn read(&mut self, name: &str, from: u64, buffer: &mut [u8]) -> Result<u64, Failed>
        requires { 0 < length buffer.old }
        ensures within { IfOk result (λ count. count ≤ length buffer.new) }
        ensures bytes { IfOk result (λ count. IfSome (finite.get (content self.old) name.now)
            (λ file. AreNext file from (take count buffer.new))) }
        ensures end { IfOk result (λ count. IfSome (finite.get (content self.old) name.now)
            (λ file. (count ≡ 0) ↔ (length file ≤ from))) }
        ensures there { OnOk result (IsSome (finite.get (content self.old) name.now)) }
        ensures cause { OnErr result (Rose (fault_count self.old name.now) (fault_count self.new name.now)) }
        ensures no_fault { OnOk result ((other : List ℕ) → fault_count self.new other ≡ fault_count self.old other) }
        ensures same_content { content self.new ≡ content self.old }
        ensures none_falls { (other : List ℕ) → fault_count self.old other ≤ fault_count self.new other }

        // It raises the count of this name by exactly one, and no other. A file that is there fails
        // exactly where that was planned. The plan stays.
        ensures one { OnErr result (fault_count self.new name.now ≡ next_count (fault_count self.old name.now)) }
        ensures others { (other : List ℕ) → ¬ SharesCount self.old name.now other
            → fault_count self.new other ≡ fault_count self.old other }
        ensures obeys { IsTrue (fails_at self.old (next_count (call_count self.old))) → IsErr result }
        ensures planned { IsSome (finite.get (content self.old) name.now) → IsErr result
            → IsTrue (fails_at self.old (next_count (call_count self.old))) }
        ensures counts { call_count self.new ≡ next_count (call_count self.old) }
        ensures same_plan { (call : ℕ) → fails_at self.new call ≡ fails_at self.old call }
    {
        self.calls = self.calls.saturating_add(1);
        let fails = self.failing.contains(&self.calls);
        match self.files.get_mut(name) {
            Some(file) => file.read(fails, from, buffer),
            None => {
                self.absent = self.absent.saturating_add(1);
                Err(Failed)
            }
        }
    }
}
