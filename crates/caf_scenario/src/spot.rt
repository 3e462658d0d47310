//! Where something stands in a document, and the fault that it has there.
ghost use Rattle.std.specs.Prelude.{◌≡◌, string_bytes, IfOk, OnOk};
ghost use Rattle.caf_scenario.specs.Path.{at_member, at_position, list_name, spot_path};
ghost use Rattle.caf_scenario.specs.Read.{IsFault, field};

use crate::ScenarioFault;
use caf_types::{Letters, Memory};
use itoa::Buffer;
use std::alloc::Global;

/// One of a document's two lists.
#[derive(Clone, Copy, Debug, PartialEq, Eq, Drop)]
pub(crate) enum ListName {
    /// The actors.
    Actors,
    /// The steps.
    Script,
}

impl ListName {
    pub(crate) fn as_str(self) -> &'static str
        ensures { result.now ≡ list_name self }
    {
        match self {
            ListName::Actors => "actors",
            ListName::Script => "script",
        }
    }
}

/// An element of one of the lists.
#[derive(Clone, Copy, Debug, PartialEq, Eq, Drop)]
pub(crate) struct Spot {
    pub(crate) list: ListName,
    /// From 0.
    pub(crate) position: u64,
}

impl Spot {
    /// The fault of the element itself.
    pub(crate) fn fault(self, alloc: Global) -> ScenarioFault
        ensures { IsFault result (field (spot_path self)) }
    {
        match self.path(alloc) {
            Ok(path) => field_at(alloc, path.as_str()),
            Err(Memory) => ScenarioFault::Memory,
        }
    }

    /// The fault of the element's member of that name.
    pub(crate) fn member_fault(self, alloc: Global, name: &str) -> ScenarioFault
        ensures { IsFault result (field (at_member (spot_path self) name.now)) }
    {
        match self.member_path(alloc, name) {
            Ok(path) => field_at(alloc, path.as_str()),
            Err(Memory) => ScenarioFault::Memory,
        }
    }

    /// The fault of an element of the member of that name, which is an array.
    pub(crate) fn item_fault(self, alloc: Global, name: &str, position: u64) -> ScenarioFault
        ensures { IsFault result (field (at_position (at_member (spot_path self) name.now) position)) }
    {
        match self.item_path(alloc, name, position) {
            Ok(path) => field_at(alloc, path.as_str()),
            Err(Memory) => ScenarioFault::Memory,
        }
    }

    fn path(self, alloc: Global) -> Result<String, Memory>
        ensures { IfOk result (λ path. string_bytes path ≡ spot_path self) }
    {
        let mut path = String::from_str(alloc, self.list.as_str())?;
        push_position(&mut path, self.position)?;
        Ok(path)
    }

    fn member_path(self, alloc: Global, name: &str) -> Result<String, Memory>
        ensures { IfOk result (λ path. string_bytes path ≡ at_member (spot_path self) name.now) }
    {
        let mut path = self.path(alloc)?;
        path.push_str(".")?;
        path.push_str(name)?;
        Ok(path)
    }

    fn item_path(self, alloc: Global, name: &str, position: u64) -> Result<String, Memory>
        ensures { IfOk result (λ path. string_bytes path ≡ at_position (at_member (spot_path self) name.now) position) }
    {
        let mut path = self.member_path(alloc, name)?;
        push_position(&mut path, position)?;
        Ok(path)
    }
}

/// The fault of what stands at that path.
pub(crate) fn field_at(alloc: Global, path: &str) -> ScenarioFault
    ensures { IsFault result (field path.now) }
{
    match Letters::of(alloc, path) {
        Ok(path) => ScenarioFault::Field(path),
        Err(Memory) => ScenarioFault::Memory,
    }
}

/// Adds a dot and the position.
fn push_position(path: &mut String, position: u64) -> Result<(), Memory>
    ensures { OnOk result (string_bytes path.new ≡ at_position (string_bytes path.old) position) }
{
    let mut buffer = Buffer::new();
    path.push_str(".")?;
    path.push_str(buffer.format(position))?;
    Ok(())
}
