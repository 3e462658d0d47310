ghost use Rattle.std.specs.Prelude.{◌≡◌, IfOk, string_bytes};
ghost use Rattle.caf_cli.specs.End.{end_text, fault_text, limit_text};

use caf_scenario::ScenarioFault;
use caf_types::{Letters, Memory, Octets, Seq};
use std::alloc::{AllocError, Global};

/// How a run of the program ended.
#[derive(Debug, Drop)]
pub enum End {
    /// All went well; what the command promises was written.
    Done,
    /// The words of the command line ask for nothing that the program knows.
    Usage,
    /// The scenario's file has this fault, which is never want of memory.
    Scenario(ScenarioFault),
    /// The file of this name, which is one of the command's, could not be read.
    Read(Letters),
    /// A limit was passed: which one, in which file and in which line, both counted from 1.
    /// A number that means nothing for the limit is 0.
    Limit(LimitKind, u32, u64),
    /// The output could not be written whole; a prefix of it was.
    Write,
    /// Memory was wanted and not found.
    Memory,
    /// As many messages were handled as may be, and not all was done.
    Budget,
    /// The place had something to take, and no stamp was left for it.
    Exhausted(u32),
}

/// A limit on what the program takes.
#[derive(Clone, Copy, Debug, PartialEq, Eq)]
pub enum LimitKind {
    /// How many files are named.
    Files,
    /// The bytes of a scenario's file.
    Scenario,
    /// The bytes of a line, with its line end.
    Line,
    /// The bytes of all files together.
    Corpus,
}

impl End {
    ghost use Rattle.caf_cli.specs.End.{status_of};

    /// The exit status that stands for this end.
    pub fn status(&self) -> u8
        ensures { result ≡ status_of self.now }
    {
        match self {
            End::Done => 0,
            End::Usage => 1,
            End::Scenario(_) => 2,
            End::Read(_) => 3,
            End::Limit(_, _, _) => 4,
            End::Write => 5,
            End::Memory => 6,
            End::Budget => 7,
            End::Exhausted(_) => 8,
        }
    }
}

impl From<Memory> for End {
    ghost use Rattle.std.specs.Prelude.{◌≡◌};
    ghost use Rattle.caf_cli.specs.declared.end.End.TheVariants.{Memory as MemoryEnd};

    ghost from_gives = { λ _ end. end ≡ MemoryEnd };

    fn from(_: Memory) -> End {
        End::Memory
    }
}

/// The bytes that the program prints to standard error at this end, with their line end; none where all went well.
pub fn end_line(alloc: Global, end: &End) -> Result<Octets, Memory>
    ensures { IfOk result (λ line. line ≡ end_text end.now) }
{
    let text = end_string(alloc, end)?;
    Ok(Seq::of_vec(text.into_bytes()))
}

fn end_string(alloc: Global, end: &End) -> Result<String, AllocError>
    ensures { IfOk result (λ text. string_bytes text ≡ end_text end.now) }
{
    match end {
        End::Done => Ok(String::new(alloc)),
        End::Usage => String::from_str(alloc, "caf: the words are not understood\n"),
        End::Scenario(fault) => {
            let fault = fault_string(alloc, fault)?;
            format!(in alloc; "caf: scenario: {fault}\n")
        }
        End::Read(name) => {
            let name = name.as_str();
            format!(in alloc; "caf: cannot read {name}\n")
        }
        End::Limit(kind, file, line) => {
            let limit = limit_string(alloc, *kind, *file, *line)?;
            format!(in alloc; "caf: limit: {limit}\n")
        }
        End::Write => String::from_str(alloc, "caf: cannot write\n"),
        End::Memory => String::from_str(alloc, "caf: out of memory\n"),
        End::Budget => String::from_str(alloc, "caf: message budget spent\n"),
        End::Exhausted(place) => format!(in alloc; "caf: stamps of place {place} used up\n"),
    }
}

fn fault_string(alloc: Global, fault: &ScenarioFault) -> Result<String, AllocError>
    ensures { IfOk result (λ text. string_bytes text ≡ fault_text fault.now) }
{
    match fault {
        ScenarioFault::Malformed => String::from_str(alloc, "not JSON"),
        ScenarioFault::Field(path) => {
            let path = path.as_str();
            format!(in alloc; "field {path}")
        }
        ScenarioFault::Kind(kind) => {
            let kind = kind.as_str();
            format!(in alloc; "kind {kind}")
        }
        ScenarioFault::Twice(name) => {
            let name = name.as_str();
            format!(in alloc; "name {name} twice")
        }
        ScenarioFault::Unknown(name) => {
            let name = name.as_str();
            format!(in alloc; "unknown {name}")
        }
        ScenarioFault::Interface(of, target) => {
            let of = of.as_str();
            let target = target.as_str();
            format!(in alloc; "interface of {target} for {of}")
        }
        ScenarioFault::Many => String::from_str(alloc, "too many"),
        ScenarioFault::Memory => String::from_str(alloc, "out of memory"),
    }
}

fn limit_string(alloc: Global, kind: LimitKind, file: u32, line: u64) -> Result<String, AllocError>
    ensures { IfOk result (λ text. string_bytes text ≡ limit_text kind file line) }
{
    match kind {
        LimitKind::Files => String::from_str(alloc, "over 1024 files"),
        LimitKind::Scenario => String::from_str(alloc, "scenario over 1048576 bytes"),
        LimitKind::Line => format!(in alloc; "line {line} of file {file} over 1048576 bytes"),
        LimitKind::Corpus => {
            format!(in alloc; "corpus over 67108864 bytes in file {file} line {line}")
        }
    }
}
