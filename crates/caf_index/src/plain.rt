ghost use Rattle.std.specs.Prelude.{◌≡◌, ◌↔◌, ℕ, List, IfOk};
ghost use Rattle.caf_index.specs.Index.{HasEntry};
ghost use Rattle.caf_index.specs.PlainIndex.{StandsInFile, plain_index_of};

use crate::Index;
use crate::words::add_words;
use caf_types::{Memory, Seq};
use std::alloc::Global;

/// The plain index of the files, which are numbered from 1: it has exactly the entries (word, file,
/// line) where the word stands in that line of that file. The one refusal is want of memory.
pub fn plain_index(alloc: Global, files: &Seq<Seq<u8>>) -> Result<Index, Memory>
    ensures value { IfOk result (λ index. index ≡ plain_index_of files.now) }
    ensures entries { IfOk result (λ index. (word : List ℕ) (file line : ℕ) → HasEntry index word file line ↔ StandsInFile files.now word file line) }
{
    let mut index = Index::new(alloc);
    for (before, bytes) in files.as_slice().iter().enumerate() {
        add_words(alloc, &mut index, before as u64 + 1, bytes.as_slice())?;
    }
    Ok(index)
}
