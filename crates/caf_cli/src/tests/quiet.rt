use super::{CATS, CATS_INDEX, SUMS, seen, words_of};
use crate::{End, run_quiet};
use caf_io::{MemoryFiles, MemorySink};
use caf_scenario::ScenarioFault;
use std::test::Fail;

#[test]
fn plain_writes_the_index_of_its_files(rt: HostRuntime) -> Result<(), Fail> {
    for (files, bytes, text) in [
        (["A.txt"].as_slice(), CATS, CATS_INDEX),
        (["A.txt"].as_slice(), b"".as_slice(), ""),
        (["A.txt"].as_slice(), b"   \n  ".as_slice(), ""),
        (
            ["A.txt"].as_slice(),
            b"one two".as_slice(),
            "one\n  A.txt: 1\ntwo\n  A.txt: 1\n",
        ),
        (
            ["A.txt"].as_slice(),
            b"\x63\x61\x66\xC3\xA9\x73\x0A".as_slice(),
            "caf\n  A.txt: 1\ns\n  A.txt: 1\n",
        ),
        (
            ["A.txt", "A.txt"].as_slice(),
            CATS,
            "cat\n  A.txt: 1\n  A.txt: 1\ndog\n  A.txt: 2\n  A.txt: 2\nthe\n  A.txt: 1 2\n  A.txt: 1 2\n",
        ),
    ] {
        for command in ["plain", "run"] {
            let mut words = Vec::new(rt.alloc());
            words.push(command)?;
            words.extend_from_slice(files)?;
            let seen = seen(rt.alloc(), words.as_slice(), &[("A.txt", bytes)])?;
            assert_eq!(rt; seen.status, 0);
            assert_eq!(rt; seen.is_kept, command == "run");
            assert_eq!(rt; seen.out.written(), text.as_bytes(), "{text}");
        }
    }
    Ok(())
}

#[test]
fn check_counts_actors_and_steps(rt: HostRuntime) -> Result<(), Fail> {
    let valid = seen(
        rt.alloc(),
        &["check", "s.json"],
        &[("s.json", SUMS.as_bytes())],
    )?;
    assert_eq!(rt; valid.status, 0);
    assert_eq!(rt;
        valid.out.written(),
        b"valid: 1 actors, 3 steps\n".as_slice()
    );
    Ok(())
}

/// `check` and `run` refuse a scenario alike.
#[test]
fn a_faulty_scenario_is_refused(rt: HostRuntime) -> Result<(), Fail> {
    let interface =
        r#"{"actors":[{"name":"c","kind":"counter","peers":["k"]},{"name":"k","kind":"calc"}],"script":[]}"#;
    for (bytes, is_json, path) in [
        ("{", false, ""),
        (r#"{"actors":[]}"#, true, "script"),
        (interface, true, ""),
    ] {
        for words in [
            ["check", "s.json"].as_slice(),
            ["run", "--scenario", "s.json", "A.txt"].as_slice(),
        ] {
            let seen = seen(rt.alloc(), words, &[("s.json", bytes.as_bytes())])?;
            assert_eq!(rt; seen.status, 2);
            assert_eq!(rt; is_malformed(&seen.end), !is_json);
            assert_eq!(rt; is_field(&seen.end, path), is_json && path != "");
            assert_eq!(rt; is_interface(&seen.end), is_json && path == "");
            assert!(rt; !seen.is_kept);
            assert_eq!(rt; seen.out.calls(), 0);
        }
    }
    Ok(())
}

fn is_malformed(end: &End) -> bool {
    matches!(end, End::Scenario(ScenarioFault::Malformed))
}

fn is_field(end: &End, path: &str) -> bool {
    match end {
        End::Scenario(ScenarioFault::Field(at)) => at.as_str() == path,
        _ => false,
    }
}

fn is_interface(end: &End) -> bool {
    match end {
        End::Scenario(ScenarioFault::Interface(of, target)) => {
            of.as_str() == "c" && target.as_str() == "k"
        }
        _ => false,
    }
}

#[test]
fn make_counts_generated_files(rt: HostRuntime) -> Result<(), Fail> {
    for (number, text) in [
        (
            "2",
            "files 1 bytes 72 lines 2 chunks 1 words 16 postings 16\n",
        ),
        (
            "0000000002",
            "files 1 bytes 72 lines 2 chunks 1 words 16 postings 16\n",
        ),
    ] {
        let seen = seen(rt.alloc(), &["make", number], &[])?;
        assert_eq!(rt; seen.status, 0);
        assert_eq!(rt; seen.reads, 0);
        assert!(rt; !seen.is_kept);
        assert_eq!(rt; seen.out.written(), text.as_bytes());
    }
    Ok(())
}

/// The call that always returns runs no scenario.
#[test]
fn the_quiet_call_refuses_run(rt: HostRuntime) -> Result<(), Fail> {
    let alloc = rt.alloc();
    for (command, status) in [("run", 1), ("plain", 0)] {
        let mut files = MemoryFiles::new(alloc);
        files.add(alloc, "A.txt", CATS)?;
        let mut out = MemorySink::new(alloc);
        let words = words_of(alloc, &[command, "A.txt"])?;
        let outcome = run_quiet(alloc, &words, &mut files, &mut out);
        assert_eq!(rt; outcome.status, status);
        assert!(rt; outcome.kept.is_none());
    }
    Ok(())
}
