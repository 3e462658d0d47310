use crate::LoadFault;
use caf_types::Seq;
use std::test::Fail;

#[test]
fn faults_tell_what_they_carry(rt: HostRuntime) -> Result<(), Fail> {
    let alloc = rt.alloc();
    let mut path = Seq::new(alloc);
    path.push(1)?;
    path.push(0)?;
    for (fault, text) in [
        (LoadFault::Unfit(path), "not a form of the type, at [1, 0]"),
        (LoadFault::Memory, "out of memory"),
    ] {
        assert_eq!(rt; format!(in alloc; "{fault}")?.as_str(), text);
    }
    Ok(())
}
