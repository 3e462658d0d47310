ghost use Rattle.std.specs.Prelude.{◌≡◌, ◌+◌, ◌<◌, length, drop, IfOk};
ghost use Rattle.caf_index.specs.Chunks.{first_line, chunks_of};

use caf_types::{Memory, Seq};
use std::alloc::Global;

/// The bytes that a chunk has at most, unless its one line has more.
const CHUNK_BYTES: u64 = 16_384;

/// Whole lines of a file: the number of the first of them, counted from 1, the offset of its first byte
/// and that of the byte after the last line.
#[derive(Clone, Copy, Debug, PartialEq, Eq, Drop)]
pub struct Chunk {
    /// The number of the first line.
    pub line: u64,
    /// The offset of the first byte.
    pub from: u64,
    /// The offset of the byte after the last.
    pub to: u64,
}

/// The chunks of a file, in order. Each is the longest run of the lines that follow which has at most
/// 16,384 bytes, or one line that is longer. The one refusal is want of memory.
pub fn chunks(alloc: Global, bytes: &[u8]) -> Result<Seq<Chunk>, Memory>
    ensures { IfOk result (λ chunks. chunks ≡ chunks_of bytes.now) }
{
    let mut chunks = Seq::new(alloc);
    let mut line = 1u64;
    let mut current = Chunk {
        line,
        from: 0,
        to: 0,
    };
    while (current.to as usize) < bytes.len() {
        let end = line_end(bytes, current.to as usize) as u64;
        if current.from < current.to && CHUNK_BYTES < end - current.from {
            chunks.push(current)?;
            current = Chunk {
                line,
                from: current.to,
                to: current.to,
            };
        }
        current.to = end;
        line += 1;
    }
    if current.from < current.to {
        chunks.push(current)?;
    }
    Ok(chunks)
}

/// The offset after the line that begins at `from`.
fn line_end(bytes: &[u8], from: usize) -> usize
    requires { from < length bytes.now }
    ensures { result ≡ from + length (first_line (drop from bytes.now)) }
{
    match bytes[from..].iter().position(|byte| *byte == b'\n') {
        Some(before) => from + before + 1,
        None => bytes.len(),
    }
}
