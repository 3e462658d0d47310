use crate::{
    FindFault, Interface, InterfaceFault, Registry, RegistryFault, Signature, assignable, result_of,
};
use caf_types::{Name, Seq, TypeId, TypeIds};
use std::alloc::Global;
use std::test::Fail;

const UNIT: TypeId = TypeId(0);

const UNSIGNED: TypeId = TypeId(2);

const SIGNED: TypeId = TypeId(3);

const CHUNK: TypeId = TypeId(200);

const COUNT: TypeId = TypeId(210);

const GET: TypeId = TypeId(215);

fn only(alloc: Global, id: TypeId) -> Result<TypeIds, Fail> {
    let mut types = TypeIds::new(alloc);
    types.push(id)?;
    Ok(types)
}

fn listed(alloc: Global, pairs: &[(TypeId, TypeId)]) -> Result<Seq<Signature>, Fail> {
    let mut list = Seq::new(alloc);
    for (input, answer) in pairs {
        let input = only(alloc, *input)?;
        let result = only(alloc, *answer)?;
        list.push(Signature { input, result })?;
    }
    Ok(list)
}

fn counter(alloc: Global) -> Result<Interface, Fail> {
    Ok(Interface::new(alloc, listed(alloc, &[(CHUNK, UNIT), (COUNT, UNSIGNED)])?)?)
}

fn lines(alloc: Global) -> Result<Interface, Fail> {
    Ok(Interface::new(alloc, listed(alloc, &[(CHUNK, UNIT)])?)?)
}

#[test]
fn an_input_stands_once(rt: HostRuntime) -> Result<(), Fail> {
    let alloc = rt.alloc();
    let twice = Interface::new(alloc, listed(alloc, &[(GET, SIGNED), (GET, SIGNED)])?);
    assert!(rt; matches!(twice, Err(InterfaceFault::Twice(1))));
    assert_eq!(rt; counter(alloc)?.signatures().len(), 2);
    Ok(())
}

#[test]
fn a_counter_stands_for_lines(rt: HostRuntime) -> Result<(), Fail> {
    let alloc = rt.alloc();
    let counter = counter(alloc)?;
    let lines = lines(alloc)?;
    assert!(rt; assignable(&counter, &lines));
    assert!(rt; !assignable(&lines, &counter));
    assert_eq!(rt;
        result_of(&counter, &[COUNT]).map(|types| types.as_slice()),
        Some([UNSIGNED].as_slice())
    );
    assert!(rt; result_of(&counter, &[GET]).is_none());
    Ok(())
}

#[test]
fn a_name_is_registered_once(rt: HostRuntime) -> Result<(), Fail> {
    let alloc = rt.alloc();
    let mut registry = Registry::new(alloc);
    assert!(rt;
        registry
            .put(Name::new(alloc, "a")?, 3, lines(alloc)?)
            .is_ok()
    );
    let again = registry.put(Name::new(alloc, "a")?, 4, counter(alloc)?);
    assert_eq!(rt; again, Err(RegistryFault::Known));
    assert_eq!(rt; registry.find("a", &lines(alloc)?), Ok(3));
    assert_eq!(rt;
        registry.find("a", &counter(alloc)?),
        Err(FindFault::Interface)
    );
    assert_eq!(rt; registry.find("b", &lines(alloc)?), Err(FindFault::Unknown));
    Ok(())
}

#[test]
fn faults_are_told_in_words(rt: HostRuntime) -> Result<(), Fail> {
    let alloc = rt.alloc();
    for (fault, text) in [
        (
            InterfaceFault::Twice(1),
            "the input at position 1 stands twice",
        ),
        (InterfaceFault::Memory, "out of memory"),
    ] {
        assert_eq!(rt; fault.to_string(alloc)?.as_str(), text);
    }
    for (fault, text) in [
        (RegistryFault::Known, "the name is known"),
        (RegistryFault::Memory, "out of memory"),
    ] {
        assert_eq!(rt; fault.to_string(alloc)?.as_str(), text);
    }
    for (fault, text) in [
        (FindFault::Unknown, "the name is unknown"),
        (FindFault::Interface, "the interface isn't the wanted one"),
    ] {
        assert_eq!(rt; fault.to_string(alloc)?.as_str(), text);
    }
    Ok(())
}
