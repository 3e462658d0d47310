ghost use Rattle.std.specs.Prelude.{◌≡◌, IfOk};
ghost use Rattle.caf_generator.specs.MakeLine.{make_line_of};

use caf_types::{Memory, Octets, Seq};
use std::alloc::Global;

/// What a run over generated files came to.
#[derive(Clone, Copy, Debug, PartialEq, Eq, Drop)]
pub struct Counts {
    /// How many files were generated.
    pub files: u64,
    /// How many bytes they have, line ends included.
    pub bytes: u64,
    /// How many lines they have.
    pub lines: u64,
    /// In how many chunks they were read.
    pub chunks: u64,
    /// How many different words they have.
    pub words: u64,
    /// How many (word, file, line) entries their index has.
    pub postings: u64,
}

/// The line of the counts, each behind its name, with its line end. The one refusal is want of memory.
pub fn make_line(alloc: Global, counts: &Counts) -> Result<Octets, Memory>
    ensures { IfOk result (λ line. line ≡ make_line_of counts.now) }
{
    let files = counts.files;
    let bytes = counts.bytes;
    let lines = counts.lines;
    let chunks = counts.chunks;
    let words = counts.words;
    let postings = counts.postings;
    let text = format!(in alloc;
        "files {files} bytes {bytes} lines {lines} chunks {chunks} words {words} postings {postings}\n"
    )?;
    Ok(Seq::of_vec(text.into_bytes()))
}
