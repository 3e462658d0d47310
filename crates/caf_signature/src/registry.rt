ghost use Rattle.std.specs.Prelude.{◌≡◌, ◌↔◌, IsTrue, IsErrOf, OnOk, OnErr};
ghost use Rattle.std.specs.Option.{option_copied};
ghost use Rattle.std.specs.FinMap as finite;
ghost use Rattle.caf_signature.specs.Registry.{registrations};
ghost use Rattle.caf_signature.specs.FindAnswer.{found_for};
ghost use Rattle.caf_signature.specs.declared.registry.RegistryFault.TheVariants as faults;

use crate::{Interface, assignable};
use caf_types::{Memory, Name};
use std::alloc::Global;
use std::collections::BTreeMap;
use std::marker::Model;
use thiserror::Error;

/// Why a name was not registered.
#[derive(Error, Clone, Copy, Debug, PartialEq, Eq, Drop)]
pub enum RegistryFault {
    /// Something stands under the name already.
    #[error("the name is known")]
    Known,
    /// Want of memory.
    #[error("out of memory")]
    Memory,
}

impl From<Memory> for RegistryFault {
    ghost from_gives = { λ _ fault. fault ≡ faults.Memory };

    fn from(_: Memory) -> RegistryFault {
        RegistryFault::Memory
    }
}

/// Why no place was found.
#[derive(Error, Clone, Copy, Debug, PartialEq, Eq, Drop)]
pub enum FindFault {
    /// Nothing stands under the name.
    #[error("the name is unknown")]
    Unknown,
    /// What stands under the name isn't assignable to the wanted interface.
    #[error("the interface isn't the wanted one")]
    Interface,
}

/// Which place stands under which name, with its interface. A name that is known stays as it is.
#[derive(Debug, Drop)]
pub struct Registry {
    alloc: Global,
    entries: BTreeMap<String, (u32, Interface)>,
}

impl Model for Registry {
    ghost use Rattle.caf_signature.specs.Registry.{Registrations, registrations_code, registrations};

    ghost Value = { Registrations };

    ghost coded = { registrations_code };

    ghost view = { λ registry. registrations registry.entries.entries };
}

impl Registry {
    /// A registry without names.
    pub fn new(alloc: Global) -> Registry
        ensures { result ≡ finite.empty }
    {
        Registry {
            alloc,
            entries: BTreeMap::new(alloc),
        }
    }

    /// Registers the place and its interface under the name. `Known` comes exactly where the name is
    /// present. After a refusal the registry is as before.
    pub fn put(&mut self, name: Name, place: u32, interface: Interface) -> Result<(), RegistryFault>
        ensures added { OnOk result (self.new ≡ finite.insert self.old name (place, interface)) }
        ensures known { IsErrOf result RegistryFault.Known ↔ IsTrue (finite.contains_key self.old name) }
        ensures kept { OnErr result (self.new ≡ self.old) }
    {
        if self.registered(name.as_str()).is_some() {
            return Err(RegistryFault::Known);
        }
        insert(
            self.alloc,
            &mut self.entries,
            name.as_str(),
            (place, interface),
        )?;
        Ok(())
    }

    /// The place under the name. `Unknown` comes exactly where the name is absent, and `Interface`
    /// exactly where it is present and its interface isn't assignable to `wanted`.
    pub fn find(&self, name: &str, wanted: &Interface) -> Result<u32, FindFault>
        ensures { result ≡ found_for wanted.now (finite.get self.now name.now) }
    {
        match self.registered(name) {
            None => Err(FindFault::Unknown),
            Some(registered) => {
                if assignable(&registered.1, wanted) {
                    Ok(registered.0)
                } else {
                    Err(FindFault::Interface)
                }
            }
        }
    }

    fn registered(&self, name: &str) -> Option<&(u32, Interface)>
        ensures { option_copied result ≡ finite.get self.now name.now }
    {
        self.entries.get(name)
    }
}

fn insert(
    alloc: Global,
    entries: &mut BTreeMap<String, (u32, Interface)>,
    name: &str,
    registered: (u32, Interface),
) -> Result<(), Memory>
    ensures added { let old = registrations entries.old.entries in
        OnOk result (registrations entries.new.entries ≡ finite.insert old name.now registered) }
    ensures kept { OnErr result (entries.new.entries ≡ entries.old.entries) }
{
    let key = String::from_str(alloc, name)?;
    entries.insert(key, registered)?;
    Ok(())
}
