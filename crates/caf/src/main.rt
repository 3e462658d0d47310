//! The program `caf`: the host's command line, files and streams round the top call.
#![tactic(auto)]

use caf_cli::{End, Outcome, WordList, end_line, run_main};
use caf_io::{HostFiles, HostSink};
use caf_types::{Letters, Seq};
use std::io::{ErrorKind, Write};
use std::process::ExitCode;
use std::rt::{Env, Files};
use std::{env, io};

fn main(rt: HostRuntime) -> ExitCode {
    let outcome = run(&rt);
    if let Ok(line) = end_line(rt.alloc(), &outcome.end) {
        // Where standard error is closed there is nobody left to tell.
        let _ = rt.stderr().write_all(line.as_slice());
    }
    ExitCode::from(outcome.status)
}

/// Does what the command line asks for, over the host's files and standard output.
fn run<R: Files + Print + Env + AllocGlobal>(rt: &R) -> Outcome {
    let alloc = rt.alloc();
    match command_words(rt) {
        Ok(words) => run_main(
            alloc,
            &words,
            &mut HostFiles::new(rt, alloc),
            &mut HostSink::new(rt),
        ),
        Err(end) => Outcome {
            status: end.status(),
            end,
            kept: None,
        },
    }
}

/// The words of the command line without the program's name, or the end that their want brings.
fn command_words<R: Env + AllocGlobal>(rt: &R) -> Result<WordList, End> {
    let args = env::args(rt).map_err(|error| end_of(&error))?;
    let mut words = Seq::new(rt.alloc());
    for word in args.skip(1) {
        words.push(Letters::of(rt.alloc(), word.as_str())?)?;
    }
    Ok(words)
}

/// A word that isn't UTF-8 makes a faulty command line.
fn end_of(error: &io::Error) -> End {
    match error.kind() {
        ErrorKind::OutOfMemory => End::Memory,
        _ => End::Usage,
    }
}
