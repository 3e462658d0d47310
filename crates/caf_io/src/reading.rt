ghost use Rattle.std.specs.Prelude.{◌≡◌, ℕ, ◌<◌, ◌≤◌, List, length, vec_len, true, false, IfSome, IfOk, OnOk};
ghost use Rattle.std.specs.Io.{StartsWith};
ghost use Rattle.caf_io.specs.Faults.{Rose};
ghost use Rattle.caf_io.specs.Files.{told_file, IsThere};

use crate::{Failed, Files};
use std::alloc::{AllocError, Global};
use thiserror::Error;

/// The most bytes that are asked for at once.
const BUFFER: usize = 65536;

/// Why a whole file wasn't read.
#[derive(Error, Clone, Copy, Debug, PartialEq, Eq, Drop)]
pub enum ReadFault {
    /// A read failed.
    #[error("the file can't be read")]
    Failed,
    /// The file has more bytes than were allowed.
    #[error("the file is over the limit")]
    Limit,
    /// Want of memory.
    #[error("out of memory")]
    Memory,
}

impl From<Failed> for ReadFault {
    ghost use Rattle.std.specs.Prelude.{◌≡◌};
    ghost use Rattle.caf_io.specs.declared.reading.ReadFault.TheVariants.{Failed as FailedFault};

    ghost from_gives = { λ _ fault. fault ≡ FailedFault };

    fn from(_: Failed) -> ReadFault {
        ReadFault::Failed
    }
}

impl From<AllocError> for ReadFault {
    ghost use Rattle.std.specs.Prelude.{◌≡◌};
    ghost use Rattle.caf_io.specs.declared.reading.ReadFault.TheVariants.{Memory};

    ghost from_gives = { λ _ fault. fault ≡ Memory };

    fn from(_: AllocError) -> ReadFault {
        ReadFault::Memory
    }
}

/// All bytes of the file `name`, where it has at most `limit`.
///
/// The file is read with a buffer of 65,536 bytes until a read answers 0. `Limit` comes at the
/// first byte beyond the limit. `Failed` comes only where the count of faults of this name rose in
/// this call; a file that is answered raised no count.
pub fn read_file<F: Files>(
    alloc: Global,
    files: &mut F,
    name: &str,
    limit: u64,
) -> Result<Vec<u8>, ReadFault>
    ensures bytes { IfOk result (λ bytes. IfSome (told_file (F.told files.old) name.now) (λ file. bytes.items ≡ file)) }
    ensures within { IfOk result (λ bytes. vec_len bytes ≤ limit) }
    ensures there { OnOk result (IsThere (F.told files.old) name.now) }
    ensures limit { result ≡ Err ReadFault.Limit → IfSome (told_file (F.told files.old) name.now) (λ file. limit < length file) }
    ensures failed { result ≡ Err ReadFault.Failed → Rose (F.faults files.old name.now) (F.faults files.new name.now) }
    ensures no_fault { OnOk result ((other : List ℕ) → F.faults files.new other ≡ F.faults files.old other) }
    ensures same_content { F.told files.new ≡ F.told files.old }
    ensures none_falls { (other : List ℕ) → F.faults files.old other ≤ F.faults files.new other }
{
    let mut buffer = new_buffer(alloc, BUFFER)?;
    let mut bytes = Vec::new(alloc);
    append_rest(files, name, limit, buffer.as_mut_slice(), &mut bytes)?;
    Ok(bytes)
}

// A buffer of this many bytes.
fn new_buffer(alloc: Global, size: usize) -> Result<Vec<u8>, AllocError>
    requires { 0 < size }
    ensures { IfOk result (λ buffer. 0 < vec_len buffer) }
{
    vec![in alloc; 0; size]
}

// Reads the file to its end and appends what is read.
fn append_rest<F: Files>(
    files: &mut F,
    name: &str,
    limit: u64,
    buffer: &mut [u8],
    bytes: &mut Vec<u8>,
) -> Result<(), ReadFault>
    requires room { 0 < length buffer.old }
    requires short { vec_len bytes.old ≤ limit }
    ensures whole { OnOk result (IfSome (told_file (F.told files.old) name.now)
        (λ file. StartsWith file bytes.old.items → bytes.new.items ≡ file)) }
    ensures within { OnOk result (vec_len bytes.new ≤ limit) }
    ensures there { OnOk result (IsThere (F.told files.old) name.now) }
    ensures limit { result ≡ Err ReadFault.Limit → IfSome (told_file (F.told files.old) name.now)
        (λ file. StartsWith file bytes.old.items → limit < length file) }
    ensures failed { result ≡ Err ReadFault.Failed → Rose (F.faults files.old name.now) (F.faults files.new name.now) }
    ensures no_fault { OnOk result ((other : List ℕ) → F.faults files.new other ≡ F.faults files.old other) }
    ensures same_content { F.told files.new ≡ F.told files.old }
    ensures none_falls { (other : List ℕ) → F.faults files.old other ≤ F.faults files.new other }
{
    while append_part(files, name, limit, buffer, bytes)? {}
    Ok(())
}

// Reads the next bytes of the file, at most up to the first beyond the limit, and appends them.
// False says that the file ends here.
fn append_part<F: Files>(
    files: &mut F,
    name: &str,
    limit: u64,
    buffer: &mut [u8],
    bytes: &mut Vec<u8>,
) -> Result<bool, ReadFault>
    requires room { 0 < length buffer.old }
    requires short { vec_len bytes.old ≤ limit }
    ensures next { OnOk result (IfSome (told_file (F.told files.old) name.now)
        (λ file. StartsWith file bytes.old.items → StartsWith file bytes.new.items)) }
    ensures more { result ≡ Ok true → vec_len bytes.old < vec_len bytes.new }
    ensures end { result ≡ Ok false → IfSome (told_file (F.told files.old) name.now) (λ file. length file ≤ vec_len bytes.new) }
    ensures within { OnOk result (vec_len bytes.new ≤ limit) }
    ensures there { OnOk result (IsThere (F.told files.old) name.now) }
    ensures limit { result ≡ Err ReadFault.Limit → IfSome (told_file (F.told files.old) name.now)
        (λ file. StartsWith file bytes.old.items → limit < length file) }
    ensures failed { result ≡ Err ReadFault.Failed → Rose (F.faults files.old name.now) (F.faults files.new name.now) }
    ensures no_fault { OnOk result ((other : List ℕ) → F.faults files.new other ≡ F.faults files.old other) }
    ensures same_content { F.told files.new ≡ F.told files.old }
    ensures none_falls { (other : List ℕ) → F.faults files.old other ≤ F.faults files.new other }
{
    let from = bytes.len() as u64;
    let room = (limit - from).min(buffer.len() as u64 - 1) + 1;
    let part = &mut buffer[..room as usize];
    let count = files.read(name, from, part)? as usize;
    bytes.extend_from_slice(&part[..count])?;
    if bytes.len() as u64 > limit {
        return Err(ReadFault::Limit);
    }
    Ok(count > 0)
}
