//! What the top call answers and writes, over files and a sink in memory that tell everything.
mod faults;
mod limits;
mod lines;
mod plays;
mod quiet;
mod words;

use crate::{End, Outcome, WordList, run_main};
use caf_io::{MemoryFiles, MemorySink};
use caf_types::{Letters, Memory, Seq};
use std::alloc::Global;

/// The file that most tests read.
pub(crate) const CATS: &[u8] = b"The cat\nthe dog\n";

/// The index of that file under the name `A.txt`.
pub(crate) const CATS_INDEX: &str = "cat\n  A.txt: 1\ndog\n  A.txt: 2\nthe\n  A.txt: 1 2\n";

/// A calc that is asked three sums, the second of which is too large.
pub(crate) const SUMS: &str = r#"{"actors":[{"name":"k","kind":"calc"}],"script":[
 {"do":"request","to":"k","message":[{"add":null},{"signed":2},{"signed":3}]},
 {"do":"request","to":"k","message":[{"add":null},{"signed":9223372036854775807},{"signed":1}]},
 {"do":"request","to":"k","message":[{"add":null},{"signed":0},{"signed":0}]}]}"#;

/// Two relays, each of which hands on to the other, are asked how many chunks they counted.
pub(crate) const RING: &str = r#"{"actors":[
 {"name":"r1","kind":"relay","peers":["r2"]},{"name":"r2","kind":"relay","peers":["r1"]}],
 "script":[{"do":"request","to":"r1","message":[{"count":null}]}]}"#;

/// A calc that is asked one sum.
pub(crate) const SUM: &str = r#"{"actors":[{"name":"k","kind":"calc"}],
 "script":[{"do":"request","to":"k","message":[{"add":null},{"signed":2},{"signed":3}]}]}"#;

pub(crate) fn words_of(alloc: Global, texts: &[&str]) -> Result<WordList, Memory> {
    let mut words = Seq::new(alloc);
    for text in texts {
        words.push(Letters::of(alloc, text)?)?;
    }
    Ok(words)
}

/// The top call, of which the tests know nothing but what it does.
pub(crate) fn run(
    alloc: Global,
    words: &WordList,
    files: &mut MemoryFiles,
    out: &mut MemorySink,
) -> Outcome {
    run_main(alloc, words, files, out)
}

/// What is to be seen of a run of the program.
#[derive(Drop)]
pub(crate) struct Trial {
    pub(crate) end: End,
    pub(crate) status: u8,
    pub(crate) is_kept: bool,
    pub(crate) out: MemorySink,
    /// How many reads there were.
    pub(crate) reads: u64,
}

/// Does what the words say over these files, each with its name.
pub(crate) fn seen(
    alloc: Global,
    texts: &[&str],
    named: &[(&str, &[u8])],
) -> Result<Trial, Memory> {
    let mut files = MemoryFiles::new(alloc);
    for (name, bytes) in named {
        files.add(alloc, name, bytes)?;
    }
    let mut out = MemorySink::new(alloc);
    let words = words_of(alloc, texts)?;
    let Outcome { status, end, kept } = run(alloc, &words, &mut files, &mut out);
    Ok(Trial {
        end,
        status,
        is_kept: kept.is_some(),
        out,
        reads: files.calls(),
    })
}
