use crate::{Command, CommandFault, RunWords, WordList, command_of};
use caf_types::{Letters, Seq};
use std::alloc::Global;
use std::test::Fail;

fn words(alloc: Global, texts: &[&str]) -> Result<WordList, Fail> {
    let mut words = Seq::new(alloc);
    for text in texts {
        words.push(Letters::of(alloc, text)?)?;
    }
    Ok(words)
}

/// The command that these words, separated by blanks, ask for.
fn asked(alloc: Global, line: &str) -> Result<Result<Command, CommandFault>, Fail> {
    let mut list = Seq::new(alloc);
    for text in line.split(' ') {
        list.push(Letters::of(alloc, text)?)?;
    }
    Ok(command_of(alloc, &list))
}

fn files_are(files: &Seq<Letters>, names: &[&str]) -> bool {
    if files.len() != names.len() as u64 {
        return false;
    }
    for (file, name) in files.iter().zip(names) {
        if file.as_str() != *name {
            return false;
        }
    }
    true
}

fn scenario_is(run: &RunWords, name: &str) -> bool {
    match &run.scenario {
        None => name.is_empty(),
        Some(scenario) => scenario.as_str() == name,
    }
}

#[test]
fn runs_are_asked_for_in_any_order(rt: HostRuntime) -> Result<(), Fail> {
    let alloc = rt.alloc();
    let none: &[&str] = &[];
    for (line, scenario, workers, is_traced, budget, files) in [
        ("run A.txt", "", 4, false, 10_000_000, ["A.txt"].as_slice()),
        (
            "run A.txt --workers=064",
            "",
            64,
            false,
            10_000_000,
            ["A.txt"].as_slice(),
        ),
        (
            "run --workers 4 B --trace A A",
            "",
            4,
            true,
            10_000_000,
            ["B", "A", "A"].as_slice(),
        ),
        ("run --scenario S", "S", 4, false, 10_000_000, none),
        ("run --scenario=a=b", "a=b", 4, false, 10_000_000, none),
        (
            "run --scenario = F",
            "=",
            4,
            false,
            10_000_000,
            ["F"].as_slice(),
        ),
        (
            "run --max-messages 4294967296 A",
            "",
            4,
            false,
            4_294_967_296,
            ["A"].as_slice(),
        ),
        (
            "run A --max-messages=0000000001",
            "",
            4,
            false,
            1,
            ["A"].as_slice(),
        ),
        (
            "run run --workers 1 check",
            "",
            1,
            false,
            10_000_000,
            ["run", "check"].as_slice(),
        ),
    ] {
        let command = asked(alloc, line)?;
        match &command {
            Ok(Command::Run(run)) => {
                assert!(rt; scenario_is(run, scenario), "{line}");
                assert_eq!(rt; run.workers, workers, "{line}");
                assert_eq!(rt; run.is_traced, is_traced, "{line}");
                assert_eq!(rt; run.budget, budget, "{line}");
                assert!(rt; files_are(&run.files, files), "{line}");
            }
            _ => assert!(rt; false, "{line}"),
        }
    }
    Ok(())
}

#[test]
fn other_commands_are_asked_for(rt: HostRuntime) -> Result<(), Fail> {
    let alloc = rt.alloc();
    let check = asked(alloc, "check a")?;
    assert!(rt; matches!(&check, Ok(Command::Check(file)) if file.as_str() == "a"));
    let plain = asked(alloc, "plain b a b")?;
    assert!(rt; matches!(&plain, Ok(Command::Plain(files)) if files_are(files, &["b", "a", "b"])));
    let most = asked(alloc, "make 100000")?;
    assert!(rt; matches!(&most, Ok(Command::Make(100_000))));
    let least = asked(alloc, "make 0000000001")?;
    assert!(rt; matches!(&least, Ok(Command::Make(1))));
    Ok(())
}

#[test]
fn other_words_ask_for_nothing(rt: HostRuntime) -> Result<(), Fail> {
    let alloc = rt.alloc();
    let nothing = words(alloc, &[])?;
    assert!(rt; matches!(command_of(alloc, &nothing), Err(CommandFault::Usage)));
    for line in [
        "",
        "walk A.txt",
        "run",
        "run --trace",
        "run --workers 0 A.txt",
        "run --workers 65 A.txt",
        "run --trace --trace A.txt",
        "run -x A.txt",
        "run --workers= A.txt",
        "run --trace=x A.txt",
        "run --trace= A.txt",
        "run -- A.txt",
        "run A.txt --",
        "run  A.txt",
        "run - A.txt",
        "run A.txt --workers",
        "run --workers --trace A.txt",
        "run --workers 4 --workers=4 A.txt",
        "run --scenario S --scenario S",
        "run --scenario -S",
        "run --scenario=-S",
        "run --scenario=",
        "run --work 4 A.txt",
        "run --workers +4 A.txt",
        "run --workers 4x A.txt",
        "run --workers 00000000004 A.txt",
        "run --max-messages 0 A.txt",
        "run --max-messages 4294967297 A.txt",
        "run --max-messages 10000000000 A.txt",
        "run --help",
        "check",
        "check a b",
        "check --trace",
        "plain",
        "plain --trace a",
        "plain a -",
        "make",
        "make 0",
        "make 100001",
        "make 1 1",
        "make -1",
        "make 1e3",
        "replay t A.txt",
        "Run A.txt",
    ] {
        assert!(rt;
            matches!(asked(alloc, line)?, Err(CommandFault::Usage)),
            "{line}"
        );
    }
    Ok(())
}
