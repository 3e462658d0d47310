use crate::{End, LimitKind, end_line};
use caf_scenario::ScenarioFault;
use caf_types::{Letters, Memory, Name};
use std::alloc::Global;
use std::test::Fail;

#[test]
fn each_end_has_its_line(rt: HostRuntime) -> Result<(), Fail> {
    let alloc = rt.alloc();
    for (end, line) in [
        (End::Done, ""),
        (End::Usage, "caf: the words are not understood\n"),
        (
            End::Read(Letters::of(alloc, "no such.txt")?),
            "caf: cannot read no such.txt\n",
        ),
        (
            End::Limit(LimitKind::Files, 0, 0),
            "caf: limit: over 1024 files\n",
        ),
        (
            End::Limit(LimitKind::Scenario, 0, 0),
            "caf: limit: scenario over 1048576 bytes\n",
        ),
        (
            End::Limit(LimitKind::Line, 3, 20),
            "caf: limit: line 20 of file 3 over 1048576 bytes\n",
        ),
        (
            End::Limit(LimitKind::Corpus, 2, 7),
            "caf: limit: corpus over 67108864 bytes in file 2 line 7\n",
        ),
        (End::Write, "caf: cannot write\n"),
        (End::Memory, "caf: out of memory\n"),
        (End::Budget, "caf: message budget spent\n"),
        (End::Exhausted(255), "caf: stamps of place 255 used up\n"),
    ] {
        assert_eq!(rt;
            end_line(alloc, &end)?.as_slice(),
            line.as_bytes(),
            "{line}"
        );
    }
    Ok(())
}

fn is_told(alloc: Global, fault: ScenarioFault, line: &str) -> Result<bool, Memory> {
    let end = End::Scenario(fault);
    let told = end_line(alloc, &end)?;
    Ok(end.status() == 2 && told.as_slice() == line.as_bytes())
}

#[test]
fn each_fault_of_a_scenario_has_its_line(rt: HostRuntime) -> Result<(), Fail> {
    let alloc = rt.alloc();
    let faults = [
        (ScenarioFault::Malformed, "caf: scenario: not JSON\n"),
        (ScenarioFault::Many, "caf: scenario: too many\n"),
    ];
    for (fault, line) in faults {
        assert!(rt; is_told(alloc, fault, line)?, "{line}");
    }
    let path = ScenarioFault::Field(Letters::of(alloc, "actors.0.peers")?);
    assert!(rt; is_told(alloc, path, "caf: scenario: field actors.0.peers\n")?);
    let kind = ScenarioFault::Kind(Letters::of(alloc, "cook")?);
    assert!(rt; is_told(alloc, kind, "caf: scenario: kind cook\n")?);
    Ok(())
}

#[test]
fn each_fault_of_a_name_has_its_line(rt: HostRuntime) -> Result<(), Fail> {
    let alloc = rt.alloc();
    let twice = ScenarioFault::Twice(Name::of(alloc, "a")?);
    assert!(rt; is_told(alloc, twice, "caf: scenario: name a twice\n")?);
    let unknown = ScenarioFault::Unknown(Name::of(alloc, "b")?);
    assert!(rt; is_told(alloc, unknown, "caf: scenario: unknown b\n")?);
    let asking = Name::of(alloc, "conductor")?;
    let interface = ScenarioFault::Interface(asking, Name::of(alloc, "k")?);
    assert!(rt;
        is_told(
            alloc,
            interface,
            "caf: scenario: interface of k for conductor\n"
        )?
    );
    Ok(())
}
