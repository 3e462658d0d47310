//! The command `make`.
ghost use Rattle.std.specs.Prelude.{◌≡◌, ◌≤◌, false, slice_get, count_by, IfOk, IfErr};
ghost use Rattle.std.specs.Option.{option_copied};
ghost use Rattle.caf_corpus.specs.Limits.{is_line_end};
ghost use Rattle.caf_io.specs.Faults.{Rose};
ghost use Rattle.caf_generator.specs.MakeLine.{make_line_of};
ghost use Rattle.caf_report.specs.Report.{index_at};
ghost use Rattle.caf_cli.specs.End.{has_written};
ghost use Rattle.caf_cli.specs.Make as made;
ghost use Rattle.caf_cli.specs.Make.{MakeEnds, IsMade, IsNotMade, sizes_of, with_index};

use crate::end::End;
use crate::playing::play_over;
use crate::running::COUNTERS;
use crate::writing::write_text;
use caf_generator::{Counts, generated_files, make_line};
use caf_index::{Index, chunks};
use caf_io::Sink;
use caf_kinds::{Kind, core_table};
use caf_play::PlayEnd;
use caf_scenario::builtin;
use caf_types::{Memory, Octets, Seq};
use caf_typing::laws::builtin_opens;
use std::alloc::Global;

/// How many messages may be handled.
const BUDGET: u64 = 10_000_000;

/// Where the collector of the built-in scenario stands.
const COLLECTOR: u64 = 8;

/// Indexes so many generated lines, and writes how much that was.
pub(crate) fn make<S: Sink>(alloc: Global, lines: u32, out: &mut S) -> End
    ensures ends { MakeEnds lines (S.written out.old) (S.written out.new) result }
    ensures nothing { has_written result ≡ false → out.new ≡ out.old }
    ensures write { result ≡ End.Write → Rose (S.faults out.old) (S.faults out.new) }
    ensures no_write_failed { result ≡ End.Done → S.faults out.new ≡ S.faults out.old }
    ensures never_falls { S.faults out.old ≤ S.faults out.new }
{
    match made(alloc, lines) {
        Ok(text) => write_text(out, text.as_slice()),
        Err(end) => end,
    }
}

/// The line that tells how much so many lines are.
fn made(alloc: Global, lines: u32) -> Result<Octets, End>
    ensures made { IfOk result (IsMade lines) }
    ensures not_made { IfErr result (IsNotMade lines) }
{
    builtin_opens();
    let table = core_table(alloc)?;
    let scenario = builtin(alloc, COUNTERS)?;
    let files = generated_files(alloc, lines)?;
    let sizes = sizes(alloc, &files)?;
    let played = play_over(alloc, &table, &scenario, files, BUDGET)?;
    match played.end {
        PlayEnd::Done => Ok(line_of(alloc, sizes, &played.kinds)?),
        PlayEnd::Budget => Err(End::Budget),
        PlayEnd::Exhausted(place) => Err(End::Exhausted(place)),
    }
}

/// The line of these sizes, and of the collector's index among these behaviours.
fn line_of(alloc: Global, sizes: Counts, kinds: &Seq<Kind>) -> Result<Octets, Memory>
    ensures { IfOk result (λ line. line ≡ make_line_of (with_index sizes (index_at (slice_get kinds.now 8)))) }
{
    let index = index_of(kinds);
    make_line(
        alloc,
        &Counts {
            files: sizes.files,
            bytes: sizes.bytes,
            lines: sizes.lines,
            chunks: sizes.chunks,
            words: words_in(index),
            postings: entries_in(index),
        },
    )
}

fn index_of(kinds: &Seq<Kind>) -> Option<&Index>
    ensures { option_copied result ≡ index_at (slice_get kinds.now 8) }
{
    let collector = kinds.get(COLLECTOR)?;
    collector.index()
}

/// How many words the index has, where there is one.
fn words_in(index: Option<&Index>) -> u64
    ensures { result ≡ made.words_in (option_copied index.entry) }
{
    match index {
        Some(index) => index.words(),
        None => 0,
    }
}

/// How many entries the index has, where there is one.
fn entries_in(index: Option<&Index>) -> u64
    ensures { result ≡ made.entries_in (option_copied index.entry) }
{
    match index {
        Some(index) => index.entries(),
        None => 0,
    }
}

/// How many files, bytes, lines and chunks there are.
fn sizes(alloc: Global, files: &Seq<Octets>) -> Result<Counts, Memory>
    ensures { IfOk result (λ sizes. sizes ≡ sizes_of files.now) }
{
    let mut bytes = 0_u64;
    let mut lines = 0_u64;
    let mut chunk_count = 0_u64;
    for file in files.as_slice() {
        bytes = bytes.saturating_add(file.len());
        lines = lines.saturating_add(line_ends(file.as_slice()));
        chunk_count = chunk_count.saturating_add(chunks(alloc, file.as_slice())?.len());
    }
    Ok(Counts {
        files: files.len(),
        bytes,
        lines,
        chunks: chunk_count,
        words: 0,
        postings: 0,
    })
}

fn line_ends(bytes: &[u8]) -> u64
    ensures { result ≡ count_by is_line_end bytes.now }
{
    let mut ends = 0;
    for byte in bytes {
        if *byte == b'\n' {
            ends += 1;
        }
    }
    ends
}
