ghost use Rattle.std.specs.Prelude.{◌≡◌, ℕ, ◌+◌, ◌<◌, ◌≤◌, List, length, vec_len, true, false, IfSome, IfOk, OnOk};
ghost use Rattle.std.specs.Io.{StartsWith};
ghost use Rattle.caf_io.specs.Faults.{Rose};
ghost use Rattle.caf_io.specs.Files.{told_file, IsThere};
ghost use Rattle.caf_corpus.specs.Limits.{IsScanned, IsFirst, HasShortLines};
ghost use Rattle.caf_corpus.specs.declared.scan.Passed.{Passed};
ghost use Rattle.caf_corpus.specs.declared.scan.TheConstants.{LARGEST_CORPUS};

use crate::scan::{LARGEST_CORPUS, Passed, Spot, scan};
use caf_io::{Failed, Files};
use std::alloc::{AllocError, Global};

/// Why the reading of a file ended before the file did.
#[derive(Clone, Copy, Debug)]
pub(crate) enum Stop {
    Failed,
    Passed(Passed),
    Memory,
}

impl From<Failed> for Stop {
    ghost use Rattle.std.specs.Prelude.{◌≡◌};
    ghost use Rattle.caf_corpus.specs.declared.file.Stop.TheVariants as stops;

    ghost from_gives = { λ _ stop. stop ≡ stops.Failed };

    fn from(_: Failed) -> Stop {
        Stop::Failed
    }
}

impl From<Passed> for Stop {
    ghost use Rattle.std.specs.Prelude.{◌≡◌};
    ghost use Rattle.caf_corpus.specs.declared.file.Stop.TheVariants as stops;

    ghost from_gives = { λ passed stop. stop ≡ stops.Passed passed };

    fn from(passed: Passed) -> Stop {
        Stop::Passed(passed)
    }
}

impl From<AllocError> for Stop {
    ghost use Rattle.std.specs.Prelude.{◌≡◌};
    ghost use Rattle.caf_corpus.specs.declared.file.Stop.TheVariants as stops;

    ghost from_gives = { λ _ stop. stop ≡ stops.Memory };

    fn from(_: AllocError) -> Stop {
        Stop::Memory
    }
}

/// All bytes of the file, where no limit is passed in it; the files before it have `before` bytes.
pub(crate) fn read_whole<F: Files>(
    alloc: Global,
    files: &mut F,
    name: &str,
    before: u64,
    buffer: &mut [u8],
) -> Result<Vec<u8>, Stop>
    requires room { 0 < length buffer.old }
    requires before { before ≤ LARGEST_CORPUS }
    ensures bytes { IfOk result (λ bytes. IfSome (told_file (F.told files.old) name.now) (λ file. bytes.items ≡ file)) }
    ensures short { IfOk result (λ bytes. HasShortLines bytes.items) }
    ensures within { IfOk result (λ bytes. before + vec_len bytes ≤ LARGEST_CORPUS) }
    ensures there { OnOk result (IsThere (F.told files.old) name.now) }
    ensures passed { (passed : Passed) → result ≡ Err (Stop.Passed passed) → IfSome (told_file (F.told files.old) name.now)
        (λ file. IsFirst before file passed) }
    ensures passed_there { (passed : Passed) → result ≡ Err (Stop.Passed passed) → IsThere (F.told files.old) name.now }
    ensures failed { result ≡ Err Stop.Failed → Rose (F.faults files.old name.now) (F.faults files.new name.now) }
    ensures no_fault { OnOk result ((other : List ℕ) → F.faults files.new other ≡ F.faults files.old other) }
    ensures same_content { F.told files.new ≡ F.told files.old }
    ensures none_falls { (other : List ℕ) → F.faults files.old other ≤ F.faults files.new other }
    ensures same_room { length buffer.new ≡ length buffer.old }
{
    let mut bytes = Vec::new(alloc);
    let mut spot = Spot::first();
    read_rest(files, name, before, buffer, &mut bytes, &mut spot)?;
    Ok(bytes)
}

/// Reads the file to its end, behind the bytes that were read of it.
fn read_rest<F: Files>(
    files: &mut F,
    name: &str,
    before: u64,
    buffer: &mut [u8],
    bytes: &mut Vec<u8>,
    spot: &mut Spot,
) -> Result<(), Stop>
    requires room { 0 < length buffer.old }
    requires before { before + vec_len bytes.old ≤ LARGEST_CORPUS }
    requires scanned { IsScanned before bytes.old.items spot.old }
    ensures whole { OnOk result (IfSome (told_file (F.told files.old) name.now)
        (λ file. StartsWith file bytes.old.items → bytes.new.items ≡ file)) }
    ensures scanned { OnOk result (IsScanned before bytes.new.items spot.new) }
    ensures within { OnOk result (before + vec_len bytes.new ≤ LARGEST_CORPUS) }
    ensures there { OnOk result (IsThere (F.told files.old) name.now) }
    ensures passed { (passed : Passed) → result ≡ Err (Stop.Passed passed) → IfSome (told_file (F.told files.old) name.now)
        (λ file. StartsWith file bytes.old.items → IsFirst before file passed) }
    ensures passed_there { (passed : Passed) → result ≡ Err (Stop.Passed passed) → IsThere (F.told files.old) name.now }
    ensures failed { result ≡ Err Stop.Failed → Rose (F.faults files.old name.now) (F.faults files.new name.now) }
    ensures no_fault { OnOk result ((other : List ℕ) → F.faults files.new other ≡ F.faults files.old other) }
    ensures same_content { F.told files.new ≡ F.told files.old }
    ensures none_falls { (other : List ℕ) → F.faults files.old other ≤ F.faults files.new other }
    ensures same_room { length buffer.new ≡ length buffer.old }
{
    while read_part(files, name, before, buffer, bytes, spot)? {}
    Ok(())
}

/// Reads the next bytes of the file and looks at each of them. False says that the file ends here.
fn read_part<F: Files>(
    files: &mut F,
    name: &str,
    before: u64,
    buffer: &mut [u8],
    bytes: &mut Vec<u8>,
    spot: &mut Spot,
) -> Result<bool, Stop>
    requires room { 0 < length buffer.old }
    requires before { before + vec_len bytes.old ≤ LARGEST_CORPUS }
    requires scanned { IsScanned before bytes.old.items spot.old }
    ensures next { OnOk result (IfSome (told_file (F.told files.old) name.now)
        (λ file. StartsWith file bytes.old.items → StartsWith file bytes.new.items)) }
    ensures more { result ≡ Ok true → vec_len bytes.old < vec_len bytes.new }
    ensures end { result ≡ Ok false → IfSome (told_file (F.told files.old) name.now) (λ file. length file ≤ vec_len bytes.new) }
    ensures scanned { OnOk result (IsScanned before bytes.new.items spot.new) }
    ensures within { OnOk result (before + vec_len bytes.new ≤ LARGEST_CORPUS) }
    ensures there { OnOk result (IsThere (F.told files.old) name.now) }
    ensures passed { (passed : Passed) → result ≡ Err (Stop.Passed passed) → IfSome (told_file (F.told files.old) name.now)
        (λ file. StartsWith file bytes.old.items → IsFirst before file passed) }
    ensures passed_there { (passed : Passed) → result ≡ Err (Stop.Passed passed) → IsThere (F.told files.old) name.now }
    ensures failed { result ≡ Err Stop.Failed → Rose (F.faults files.old name.now) (F.faults files.new name.now) }
    ensures no_fault { OnOk result ((other : List ℕ) → F.faults files.new other ≡ F.faults files.old other) }
    ensures same_content { F.told files.new ≡ F.told files.old }
    ensures none_falls { (other : List ℕ) → F.faults files.old other ≤ F.faults files.new other }
    ensures same_room { length buffer.new ≡ length buffer.old }
{
    let from = bytes.len();
    let count = files.read(name, from as u64, buffer)? as usize;
    bytes.extend_from_slice(&buffer[..count])?;
    *spot = scan(bytes.as_slice(), from, before, *spot)?;
    Ok(count > 0)
}
