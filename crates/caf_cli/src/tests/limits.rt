use super::{CATS, SUM, seen};
use crate::{End, LimitKind};
use std::alloc::{AllocError, Global};
use std::test::Fail;

fn blanks(alloc: Global, count: usize) -> Result<Vec<u8>, AllocError> {
    vec![in alloc; b' '; count]
}

fn is_limit(end: &End, kind: LimitKind, file: u32, line: u64) -> bool {
    match end {
        End::Limit(passed, in_file, in_line) => {
            *passed == kind && *in_file == file && *in_line == line
        }
        _ => false,
    }
}

#[test]
fn a_line_may_have_so_many_bytes(rt: HostRuntime) -> Result<(), Fail> {
    let longest = blanks(rt.alloc(), 1_048_576)?;
    let fits = seen(
        rt.alloc(),
        &["run", "A.txt"],
        &[("A.txt", longest.as_slice())],
    )?;
    assert_eq!(rt; fits.status, 0);
    assert_eq!(rt; fits.out.written(), b"".as_slice());

    let longer = blanks(rt.alloc(), 1_048_577)?;
    for command in ["run", "plain"] {
        let first = seen(
            rt.alloc(),
            &[command, "A.txt"],
            &[("A.txt", longer.as_slice())],
        )?;
        assert_eq!(rt; first.status, 4);
        assert!(rt; is_limit(&first.end, LimitKind::Line, 1, 1));
        assert_eq!(rt; first.out.calls(), 0);

        let third = seen(
            rt.alloc(),
            &[command, "B.txt", "B.txt", "A.txt"],
            &[("A.txt", longer.as_slice()), ("B.txt", CATS)],
        )?;
        assert!(rt; is_limit(&third.end, LimitKind::Line, 3, 1));
        assert!(rt; !third.is_kept);
    }
    Ok(())
}

#[test]
fn so_many_files_may_be_named(rt: HostRuntime) -> Result<(), Fail> {
    let mut words = Vec::new(rt.alloc());
    words.push("plain")?;
    for file in 0..1024 {
        words.push("B.txt")?;
    }
    let most = seen(rt.alloc(), words.as_slice(), &[("B.txt", b"b".as_slice())])?;
    assert_eq!(rt; most.status, 0);
    words.push("B.txt")?;
    for command in ["plain", "run"] {
        words[0] = command;
        let more = seen(rt.alloc(), words.as_slice(), &[("B.txt", b"b".as_slice())])?;
        assert_eq!(rt; more.status, 4);
        assert!(rt; is_limit(&more.end, LimitKind::Files, 0, 0));
        assert_eq!(rt; more.reads, 0);
    }
    Ok(())
}

#[test]
fn a_scenario_may_have_so_many_bytes(rt: HostRuntime) -> Result<(), Fail> {
    let mut bytes = Vec::new(rt.alloc());
    bytes.extend_from_slice(SUM.as_bytes())?;
    let rest = blanks(rt.alloc(), 1_048_576 - SUM.len())?;
    bytes.extend_from_slice(rest.as_slice())?;
    for words in [
        ["check", "s.json"].as_slice(),
        ["run", "--scenario", "s.json"].as_slice(),
    ] {
        let most = seen(rt.alloc(), words, &[("s.json", bytes.as_slice())])?;
        assert_eq!(rt; most.status, 0);
    }
    bytes.push(b' ')?;
    for words in [
        ["check", "s.json"].as_slice(),
        ["run", "--scenario", "s.json", "A.txt"].as_slice(),
    ] {
        let more = seen(rt.alloc(), words, &[("s.json", bytes.as_slice())])?;
        assert_eq!(rt; more.status, 4);
        assert!(rt; is_limit(&more.end, LimitKind::Scenario, 0, 0));
        assert_eq!(rt; more.out.calls(), 0);
    }
    Ok(())
}

/// A run that hands a request on for ever ends with its budget.
#[test]
fn a_budget_may_be_spent(rt: HostRuntime) -> Result<(), Fail> {
    for (budget, scenario, status) in [
        ("5", super::RING, 7),
        ("1", SUM, 7),
        ("2", SUM, 7),
        ("3", SUM, 0),
    ] {
        let seen = seen(
            rt.alloc(),
            &["run", "--scenario", "s.json", "--max-messages", budget],
            &[("s.json", scenario.as_bytes())],
        )?;
        assert_eq!(rt; seen.status, status);
        assert!(rt; seen.is_kept);
        if status == 7 {
            assert!(rt; matches!(&seen.end, End::Budget));
            assert_eq!(rt; seen.out.calls(), 0);
        }
    }
    Ok(())
}
