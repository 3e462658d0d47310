use crate::opening_actors;
use caf_kinds::{KindName, Setup, Step};
use caf_types::{Places, Reason, Seq};
use std::test::Fail;

#[test]
fn a_conductor_stands_before_the_actors(rt: HostRuntime) -> Result<(), Fail> {
    let alloc = rt.alloc();
    let mut setups = Seq::new(alloc);
    setups.push(Setup {
        kind: KindName::Echo,
        peers: Places::new(alloc),
        asleep: true,
        reserve: Places::new(alloc),
    })?;
    let mut script = Seq::new(alloc);
    script.push(Step::Exit(1, Reason::Kill))?;
    script.push(Step::Sync)?;
    let actors = opening_actors(alloc, &setups, &script, Seq::new(alloc))?;
    assert_eq!(rt; actors.len(), 2);
    assert_eq!(rt; actors.as_slice()[0].place(), 0);
    assert_eq!(rt; actors.as_slice()[1].place(), 1);
    Ok(())
}
