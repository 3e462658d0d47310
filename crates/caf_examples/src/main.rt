//! Plays the examples: each word of the command line names a scenario, and behind it, with spaces between, its files.
//! What each run writes and how it ends stands in this crate's `stdout`, one example after the other.
#![tactic(auto)]

use caf_cli::{WordList, end_line, run_main};
use caf_io::{HostFiles, HostSink, write_all};
use caf_types::{Letters, Memory, Seq};
use std::env;
use std::process::ExitCode;
use std::rt::{Env, Files};

fn main(rt: HostRuntime) -> ExitCode {
    match play_all(&rt) {
        Some(()) => ExitCode::SUCCESS,
        None => ExitCode::FAILURE,
    }
}

/// Plays each example that is named; None where one can't be named, or standard output is closed.
fn play_all<R: Files + Print + Env + AllocGlobal>(rt: &R) -> Option<()> {
    let names = env::args(rt).ok()?;
    for name in names.skip(1) {
        play(rt, name.as_str())?;
    }
    Some(())
}

/// Plays one example, and says how it ended; None where that can't be said.
fn play<R: Files + Print + Env + AllocGlobal>(rt: &R, name: &str) -> Option<()> {
    let alloc = rt.alloc();
    let mut out = HostSink::new(rt);
    for text in ["== ", name, "\n"] {
        write_all(&mut out, text.as_bytes()).ok()?;
    }
    let words = words_of(rt, name).ok()?;
    let outcome = run_main(alloc, &words, &mut HostFiles::new(rt, alloc), &mut out);
    let line = end_line(alloc, &outcome.end).ok()?;
    write_all(&mut out, line.as_slice()).ok()
}

/// The words that run the example.
fn words_of<R: AllocGlobal>(rt: &R, name: &str) -> Result<WordList, Memory> {
    let alloc = rt.alloc();
    let mut words = Seq::new(alloc);
    words.push(Letters::of(alloc, "run")?)?;
    words.push(Letters::of(alloc, "--scenario")?)?;
    for word in name.split(' ') {
        words.push(Letters::of(alloc, word)?)?;
    }
    Ok(words)
}
