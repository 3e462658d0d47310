ghost use Rattle.std.specs.Prelude.{◌≡◌, ℕ, ◌+◌, ◌<◌, ◌≤◌, ◌^◌, List, length, vec_len, IfOk, OnOk, All, Contains};
ghost use Rattle.std.specs.List.{AllZip};
ghost use Rattle.caf_io.specs.Faults.{Rose};
ghost use Rattle.caf_io.specs.Files.{IsThere};
ghost use Rattle.caf_corpus.specs.Corpus.{IsFileOf, IsWithin, PassesFirst};
ghost use Rattle.caf_corpus.specs.declared.scan.Passed.TheVariants as passed;
ghost use Rattle.caf_corpus.specs.declared.corpus.CorpusFault.TheVariants as faults;

use crate::file::{Stop, read_whole};
use crate::scan::Passed;
use caf_io::Files;
use caf_types::{Letters, Memory, Octets, Seq};
use std::alloc::{AllocError, Global};
use thiserror::Error;

/// The most bytes that are asked for at once.
const BUFFER: usize = 65536;

/// Why a corpus was not read whole. Files and lines are counted from 1.
#[derive(Error, Debug, Drop)]
pub enum CorpusFault {
    /// A read of the file of this name failed.
    #[error("cannot read {}", .0.as_str())]
    Read(Letters),
    /// This line of this file has more bytes, with its line end, than a line may have.
    #[error("line {1} of file {0} over 1048576 bytes")]
    Line(u32, u64),
    /// All files together have more bytes than they may have; the first byte beyond stands in this line of
    /// this file.
    #[error("corpus over 67108864 bytes in file {0} line {1}")]
    Corpus(u32, u64),
    /// Want of memory.
    #[error("out of memory")]
    Memory,
}

impl From<Memory> for CorpusFault {
    ghost use Rattle.std.specs.Prelude.{◌≡◌};
    ghost use Rattle.caf_corpus.specs.declared.corpus.CorpusFault.TheVariants as faults;

    ghost from_gives = { λ _ fault. fault ≡ faults.Memory };

    fn from(_: Memory) -> CorpusFault {
        CorpusFault::Memory
    }
}

impl From<AllocError> for CorpusFault {
    ghost use Rattle.std.specs.Prelude.{◌≡◌};
    ghost use Rattle.caf_corpus.specs.declared.corpus.CorpusFault.TheVariants as faults;

    ghost from_gives = { λ _ fault. fault ≡ faults.Memory };

    fn from(_: AllocError) -> CorpusFault {
        CorpusFault::Memory
    }
}

/// The bytes of the files of these names, in order.
///
/// A file is read with a buffer of 65,536 bytes until a read answers 0. The first byte, in reading order, that
/// its line or the corpus may not have ends the reading; where it is both, the line is told.
pub fn read_corpus<F: Files>(
    alloc: Global,
    files: &mut F,
    names: &Seq<Letters>,
) -> Result<Seq<Octets>, CorpusFault>
    requires few { length names.now < 2 ^ 32 }
    ensures bytes { IfOk result (λ corpus. AllZip (IsFileOf (F.told files.old)) names.now corpus) }
    ensures within { IfOk result (λ corpus. IsWithin corpus) }
    ensures there { OnOk result (All (IsThere (F.told files.old)) names.now) }
    ensures no_fault { OnOk result ((other : List ℕ) → F.faults files.new other ≡ F.faults files.old other) }
    ensures read { (name : List ℕ) → result ≡ Err (CorpusFault.Read name) →
        Contains names.now name × Rose (F.faults files.old name) (F.faults files.new name) }
    ensures line { (file line : ℕ) → result ≡ Err (CorpusFault.Line file line) → PassesFirst (F.told files.old) names.now file (passed.Line line) }
    ensures corpus { (file line : ℕ) → result ≡ Err (CorpusFault.Corpus file line) → PassesFirst (F.told files.old) names.now file (passed.Corpus line) }
    ensures same_content { F.told files.new ≡ F.told files.old }
    ensures none_falls { (other : List ℕ) → F.faults files.old other ≤ F.faults files.new other }
{
    let mut buffer = new_buffer(alloc, BUFFER)?;
    let mut corpus = Seq::new(alloc);
    let mut before = 0;
    let mut number = 0;
    for name in names.as_slice() {
        number += 1;
        match read_whole(alloc, files, name.as_str(), before, buffer.as_mut_slice()) {
            Ok(bytes) => {
                before += bytes.len() as u64;
                corpus.push(Seq::of_vec(bytes))?;
            }
            Err(stop) => return Err(fault_of(alloc, stop, name, number)),
        }
    }
    Ok(corpus)
}

/// A buffer of this many bytes.
fn new_buffer(alloc: Global, size: usize) -> Result<Vec<u8>, AllocError>
    requires { 0 < size }
    ensures { IfOk result (λ buffer. 0 < vec_len buffer) }
{
    vec![in alloc; 0; size]
}

/// The fault that this file's reading brings, which ended so.
fn fault_of(alloc: Global, stop: Stop, name: &Letters, file: u32) -> CorpusFault
    ensures read { (read : List ℕ) → result ≡ faults.Read read → (stop ≡ Stop.Failed) × (read ≡ name.now) }
    ensures line { (number line : ℕ) → result ≡ faults.Line number line → (stop ≡ Stop.Passed (passed.Line line)) × (number ≡ file) }
    ensures corpus { (number line : ℕ) → result ≡ faults.Corpus number line → (stop ≡ Stop.Passed (passed.Corpus line)) × (number ≡ file) }
{
    match stop {
        Stop::Failed => match Letters::of(alloc, name.as_str()) {
            Ok(name) => CorpusFault::Read(name),
            Err(_) => CorpusFault::Memory,
        },
        Stop::Passed(Passed::Line(line)) => CorpusFault::Line(file, line),
        Stop::Passed(Passed::Corpus(line)) => CorpusFault::Corpus(file, line),
        Stop::Memory => CorpusFault::Memory,
    }
}
