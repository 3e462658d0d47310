ghost use Rattle.std.specs.Prelude.{◌≡◌, ◌<◌, ◌≤◌, List, length, IfOk};
ghost use Rattle.std.specs.List.{AllByRecursion};
ghost use Rattle.caf_signature.specs.declared.interface.Signature.{Signature};
ghost use Rattle.caf_kinds.specs.Who.{IsWho};

use caf_signature::Interface;
use caf_types::{Memory, Places};
use std::alloc::Global;
use std::marker::Model;

/// A kind of actor, all of which take the same.
pub trait Typed: Drop {
    /// What they take, and the types of the answers.
    ghost interface: { List Signature };

    /// The interface.
    fn interface(alloc: Global) -> Result<Interface, Memory>
        ensures { IfOk result (λ found. found ≡ interface) };
}

/// Who an actor of the kind `K` is: its place, its peers, the places of its children, and its
/// interface. No reaction changes it. It has at most 255 peers, and the places are below 256.
#[derive(Debug, Drop)]
pub struct Identity<K: Typed> {
    kind: K,
    place: u32,
    peers: Places,
    reserve: Places,
    interface: Interface,
}

impl<K: Typed> Model for Identity<K> {
    ghost use Rattle.std.specs.Prelude.{◌≡◌};
    ghost use Rattle.caf_kinds.specs.Who.{Who, IsWho};
    ghost use Rattle.caf_kinds.specs.Identity.{IsIdentity};

    ghost Value = { Who };

    ghost view = { λ it. record { place = it.place; peers = it.peers; reserve = it.reserve } };

    ghost invariant = { λ it. IsIdentity K.interface it.interface (record { place = it.place; peers = it.peers; reserve = it.reserve }) };
}

impl<K: Typed> Identity<K> {
    /// The identity of an actor at that place, with these peers and these places for its children.
    pub(crate) fn new(
        alloc: Global,
        kind: K,
        place: u32,
        peers: Places,
        reserve: Places,
    ) -> Result<Identity<K>, Memory>
        requires few { length peers ≤ 255 }
        requires places { AllByRecursion (λ p. p < 256) reserve }
        ensures { IfOk result (λ it. it ≡ record { place = place; peers = peers; reserve = reserve }) }
    {
        let interface = K::interface(alloc)?;
        Ok(Identity {
            kind,
            place,
            peers,
            reserve,
            interface,
        })
    }

    /// What the kind takes.
    pub(crate) fn interface(&self) -> &Interface
        ensures value { result.now ≡ K.interface }
        ensures who { IsWho self.now }
    {
        &self.interface
    }

    /// Its place.
    pub(crate) fn place(&self) -> u32
        ensures { result ≡ self.now.place }
    {
        self.place
    }

    /// Whom it sends to.
    pub(crate) fn peers(&self) -> &Places
        ensures value { result.now ≡ self.now.peers }
        ensures who { IsWho self.now }
    {
        &self.peers
    }

    /// The places of its children.
    pub(crate) fn reserve(&self) -> &Places
        ensures value { result.now ≡ self.now.reserve }
        ensures who { IsWho self.now }
    {
        &self.reserve
    }
}
