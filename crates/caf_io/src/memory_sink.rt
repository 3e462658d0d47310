ghost use Rattle.std.specs.Prelude.{◌≡◌, ℕ, ◌+◌, ◌≤◌, [], ◌++◌, take, min, length, Some, None, IsSome, IsNone, IfSome, IsOk, IsErr, ◌⊎◌, OnOk, OnErr, if◌then◌else◌, ◌==◌};
ghost use Rattle.caf_io.specs.Faults.{next_count, Rose};
ghost use Rattle.caf_io.specs.Sink.{added, AddsPrefix};
ghost use Rattle.caf_io.specs.MemorySink.{bytes_in, fault_count, call_count, kept_at};

use crate::{Failed, Sink};
use std::alloc::{AllocError, Global};
use std::collections::BTreeMap;

/// A sink that keeps what is written to it and tells it.
///
/// A test says which of its calls of `write`, counted from 1, are to fail, and how many bytes each
/// of them still adds.
#[derive(Drop)]
pub struct MemorySink {
    bytes: Vec<u8>,
    faults: u64,
    calls: u64,
    failing: BTreeMap<u64, u64>,
}

impl MemorySink {
    /// An empty sink; no call is to fail. It takes no memory.
    pub fn new(alloc: Global) -> MemorySink
        ensures empty { bytes_in result ≡ [] }
        ensures faults { fault_count result ≡ 0 }
        ensures calls { call_count result ≡ 0 }
        ensures none_fails { (call : ℕ) → kept_at result call ≡ None }
    {
        MemorySink {
            bytes: Vec::new(alloc),
            faults: 0,
            calls: 0,
            failing: BTreeMap::new(alloc),
        }
    }

    /// The `call`-th call of `write`, counted from 1, is to fail after it added the first `kept`
    /// bytes of its piece, or all where the piece has no more.
    pub fn fail_at(&mut self, call: u64, kept: u64) -> Result<(), AllocError>
        ensures added { OnOk result ((other : ℕ) → kept_at self.new other ≡ (if other == call then Some kept else kept_at self.old other)) }
        ensures refused { OnErr result ((other : ℕ) → kept_at self.new other ≡ kept_at self.old other) }
        ensures same_bytes { bytes_in self.new ≡ bytes_in self.old }
        ensures same_faults { fault_count self.new ≡ fault_count self.old }
        ensures same_calls { call_count self.new ≡ call_count self.old }
    {
        self.failing.insert(call, kept)?;
        Ok(())
    }

    /// All bytes that were written.
    pub fn written(&self) -> &[u8]
        ensures { result.now ≡ bytes_in self.now }
    {
        self.bytes.as_slice()
    }

    /// How many writes failed; it stops at 2^64 - 1.
    pub fn faults(&self) -> u64
        ensures { result ≡ fault_count self.now }
    {
        self.faults
    }

    /// How many writes there were; it stops at 2^64 - 1.
    pub fn calls(&self) -> u64
        ensures { result ≡ call_count self.now }
    {
        self.calls
    }

    // Adds a piece, or counts a fault where no memory is found for it. Nothing needs none.
    fn add(&mut self, piece: &[u8]) -> Result<(), Failed>
        ensures whole { OnOk result (bytes_in self.new ≡ bytes_in self.old ++ piece.now) }
        ensures no_fault { OnOk result (fault_count self.new ≡ fault_count self.old) }
        ensures nothing { piece.now ≡ [] → IsOk result }
        ensures none { OnErr result (bytes_in self.new ≡ bytes_in self.old) }
        ensures fault { OnErr result (fault_count self.new ≡ next_count (fault_count self.old)) }
        ensures never_falls { fault_count self.old ≤ fault_count self.new }
        ensures same_calls { call_count self.new ≡ call_count self.old }
        ensures same_plan { (call : ℕ) → kept_at self.new call ≡ kept_at self.old call }
    {
        if piece.is_empty() {
            return Ok(());
        }
        match self.bytes.extend_from_slice(piece) {
            Ok(()) => Ok(()),
            Err(_) => self.fail(),
        }
    }

    // Counts a fault.
    fn fail(&mut self) -> Result<(), Failed>
        ensures failed { IsErr result }
        ensures fault { fault_count self.new ≡ next_count (fault_count self.old) }
        ensures never_falls { fault_count self.old ≤ fault_count self.new }
        ensures same_bytes { bytes_in self.new ≡ bytes_in self.old }
        ensures same_calls { call_count self.new ≡ call_count self.old }
        ensures same_plan { (call : ℕ) → kept_at self.new call ≡ kept_at self.old call }
    {
        self.faults = self.faults.saturating_add(1);
        Err(Failed)
    }
}

impl Sink for MemorySink {
    ghost written = { λ sink. Some (bytes_in sink) };

    ghost faults = { fault_count };

    fn write(&mut self, piece: &[u8]) -> Result<(), Failed>
        ensures whole { OnOk result (Some (bytes_in self.new) ≡ added (Some (bytes_in self.old)) piece.now) }
        ensures part { OnErr result (AddsPrefix (Some (bytes_in self.old)) (Some (bytes_in self.new)) piece.now) }
        ensures cause { OnErr result (Rose (fault_count self.old) (fault_count self.new)) }
        ensures no_fault { OnOk result (fault_count self.new ≡ fault_count self.old) }
        ensures never_falls { fault_count self.old ≤ fault_count self.new }

        // It obeys its plan, adds exactly what was planned (nothing, where that wants memory), and
        // counts. Nothing is written without a fault unless one was planned.
        ensures planned { IfSome (kept_at self.old (next_count (call_count self.old)))
            (λ kept. (bytes_in self.new ≡ bytes_in self.old ++ take kept piece.now) ⊎ (bytes_in self.new ≡ bytes_in self.old)) }
        ensures unplanned { IsNone (kept_at self.old (next_count (call_count self.old))) → OnErr result (bytes_in self.new ≡ bytes_in self.old) }
        ensures nothing { IsNone (kept_at self.old (next_count (call_count self.old))) → piece.now ≡ [] → IsOk result }
        ensures one { OnErr result (fault_count self.new ≡ next_count (fault_count self.old)) }
        ensures obeys { IsSome (kept_at self.old (next_count (call_count self.old))) → IsErr result }
        ensures counts { call_count self.new ≡ next_count (call_count self.old) }
        ensures same_plan { (call : ℕ) → kept_at self.new call ≡ kept_at self.old call }
    {
        self.calls = self.calls.saturating_add(1);
        let Some(&kept) = self.failing.get(&self.calls) else {
            return self.add(piece);
        };
        let kept = (kept as usize).min(piece.len());
        self.add(&piece[..kept])?;
        self.fail()
    }
}
