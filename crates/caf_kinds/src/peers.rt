//! What the actors of a kind take, how many peers they may have, and what they ask of these.
ghost use Rattle.std.specs.Prelude.{◌≡◌, [], ◌∷◌, IfOk};
ghost use Rattle.caf_kinds.specs.Asking.{signature};
ghost use Rattle.caf_kinds.specs.Kinds.{interface_of, has_peers};
ghost use Rattle.caf_kinds.specs.Peers.{wanted_of};

use crate::asking::{interface, takes};
use crate::{
    AlarmKind, CalcKind, CellKind, Chunk, CollectorKind, ConductorKind, CounterKind, EchoKind,
    Element, Extent, Finish, HolderKind, KindName, LinesKind, One, Postings, QuitterKind,
    RelayKind, SourceKind, SpawnerKind, Typed, Unit, WatcherKind,
};
use caf_signature::Interface;
use caf_types::{Memory, Seq};
use std::alloc::Global;

impl KindName {
    /// What an actor of the kind takes.
    pub fn interface(self, alloc: Global) -> Result<Interface, Memory>
        ensures { IfOk result (λ found. found ≡ interface_of self) }
    {
        match self {
            KindName::Echo => EchoKind::interface(alloc),
            KindName::Cell => CellKind::interface(alloc),
            KindName::Calc => CalcKind::interface(alloc),
            KindName::Holder => HolderKind::interface(alloc),
            KindName::Quitter => QuitterKind::interface(alloc),
            KindName::Source => SourceKind::interface(alloc),
            KindName::Relay => RelayKind::interface(alloc),
            KindName::Counter => CounterKind::interface(alloc),
            KindName::Lines => LinesKind::interface(alloc),
            KindName::Collector => CollectorKind::interface(alloc),
            KindName::Watcher => WatcherKind::interface(alloc),
            KindName::Spawner => SpawnerKind::interface(alloc),
            KindName::Alarm => AlarmKind::interface(alloc),
            KindName::Conductor => ConductorKind::interface(alloc),
        }
    }

    /// Whether an actor of the kind may have so many peers.
    pub fn may_have_peers(self, count: u64) -> bool
        ensures { result ≡ has_peers self count }
    {
        match self {
            KindName::Echo => count == 0,
            KindName::Cell => count == 0,
            KindName::Calc => count == 0,
            KindName::Holder => count == 0,
            KindName::Quitter => count == 0,
            KindName::Source => 2 <= count && count <= 17,
            KindName::Relay => 1 <= count && count <= 255,
            KindName::Counter => count == 1,
            KindName::Lines => count == 1,
            KindName::Collector => count == 0,
            KindName::Watcher => count <= 255,
            KindName::Spawner => count == 0,
            KindName::Alarm => count == 0,
            KindName::Conductor => true,
        }
    }

    /// The interface that an actor of the kind asks of its peer at that position, from 0, of so many.
    pub fn wanted(self, alloc: Global, count: u64, position: u64) -> Result<Interface, Memory>
        ensures { IfOk result (λ found. found ≡ wanted_of self count position) }
    {
        match self {
            KindName::Source => {
                if position == count.saturating_sub(1) {
                    taker::<Finish>(alloc)
                } else {
                    taker::<Chunk>(alloc)
                }
            }
            KindName::Relay => RelayKind::interface(alloc),
            KindName::Counter => taker::<Postings>(alloc),
            KindName::Lines => taker::<Extent>(alloc),
            KindName::Echo
            | KindName::Cell
            | KindName::Calc
            | KindName::Holder
            | KindName::Quitter
            | KindName::Collector
            | KindName::Watcher
            | KindName::Spawner
            | KindName::Alarm
            | KindName::Conductor => interface(alloc, Seq::new(alloc)),
        }
    }
}

/// One that takes content of that type, and answers unit.
fn taker<T: Element>(alloc: Global) -> Result<Interface, Memory>
    ensures { IfOk result (λ found. found ≡ signature (T.id ∷ []) (0 ∷ []) ∷ []) }
{
    let mut signatures = Seq::new(alloc);
    takes::<One<T>, One<Unit>>(alloc, &mut signatures)?;
    interface(alloc, signatures)
}
