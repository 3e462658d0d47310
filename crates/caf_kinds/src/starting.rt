//! How an actor of each kind begins.
ghost use Rattle.std.specs.Prelude.{◌≡◌, ◌<◌, ◌≤◌, length, IfOk};
ghost use Rattle.std.specs.List.{AllByRecursion};
ghost use Rattle.caf_kinds.specs.Planning.{conductor_of};
ghost use Rattle.caf_kinds.specs.Starting.{CanStart, IsTypedStep, started, who_of};

use crate::planning::{all_places, script_of};
use crate::{
    AlarmClock, AlarmKind, Alarms, Calc, CalcKind, Cell, CellKind, Collector, CollectorKind,
    Conductor, ConductorKind, Counter, CounterKind, Echo, EchoKind, HeldTexts, Holder, HolderKind,
    Identity, Kind, KindName, Lines, LinesKind, Quitter, QuitterKind, Relay, RelayKind, Setup,
    Sights, Source, SourceKind, Spawner, SpawnerKind, Step, Typed, Watcher, WatcherKind,
};
use caf_types::{Memory, Octets, Places, Seq};
use std::alloc::Global;

impl Kind {
    /// The behaviour of the actor at that place, as its setup says. The setups of `places` are those of
    /// the places from 1 on. The script is the conductor's, whose peers are all of them, and the files are a
    /// source's.
    pub fn start(
        alloc: Global,
        place: u32,
        setup: &Setup,
        places: &Seq<Setup>,
        script: &Seq<Step>,
        files: Seq<Octets>,
    ) -> Result<Kind, Memory>
        requires { CanStart place setup.now places.now script.now files }
        ensures { IfOk result (λ kind. kind ≡ started (who_of place setup.now) setup.now places.now script.now files setup.now.kind) }
    {
        match setup.kind {
            KindName::Echo => Ok(Kind::Echo(Echo {
                identity: identity(alloc, EchoKind, place, setup)?,
                is_asleep: setup.asleep,
            })),
            KindName::Cell => Ok(Kind::Cell(Cell {
                identity: identity(alloc, CellKind, place, setup)?,
                value: 0,
            })),
            KindName::Calc => Ok(Kind::Calc(Calc {
                identity: identity(alloc, CalcKind, place, setup)?,
            })),
            KindName::Holder => Ok(Kind::Holder(Holder {
                identity: identity(alloc, HolderKind, place, setup)?,
                held: HeldTexts::new(alloc),
            })),
            KindName::Quitter => Ok(Kind::Quitter(Quitter {
                identity: identity(alloc, QuitterKind, place, setup)?,
            })),
            KindName::Source => Ok(Kind::Source(Source::new(
                alloc,
                identity(alloc, SourceKind, place, setup)?,
                files,
            )?)),
            KindName::Relay => Ok(Kind::Relay(Relay {
                identity: identity(alloc, RelayKind, place, setup)?,
            })),
            KindName::Counter => Ok(Kind::Counter(Counter {
                identity: identity(alloc, CounterKind, place, setup)?,
                count: 0,
            })),
            KindName::Lines => Ok(Kind::Lines(Lines {
                identity: identity(alloc, LinesKind, place, setup)?,
            })),
            KindName::Collector => Ok(Kind::Collector(Collector::new(
                alloc,
                identity(alloc, CollectorKind, place, setup)?,
            ))),
            KindName::Watcher => Ok(Kind::Watcher(Watcher {
                identity: identity(alloc, WatcherKind, place, setup)?,
                sights: Sights::new(alloc),
            })),
            KindName::Spawner => Ok(Kind::Spawner(Spawner {
                identity: identity(alloc, SpawnerKind, place, setup)?,
                started: 0,
                passed: 0,
            })),
            KindName::Alarm => Ok(Kind::Alarm(AlarmClock {
                identity: identity(alloc, AlarmKind, place, setup)?,
                alarms: Alarms::new(alloc),
            })),
            KindName::Conductor => Ok(Kind::Conductor(conductor(
                alloc, place, setup, places, script,
            )?)),
        }
    }
}

/// The conductor of these actors and this script.
fn conductor(
    alloc: Global,
    place: u32,
    setup: &Setup,
    places: &Seq<Setup>,
    script: &Seq<Step>,
) -> Result<Conductor, Memory>
    requires reserve { AllByRecursion (λ p. p < 256) setup.now.reserve }
    requires few { length places.now ≤ 255 }
    requires steps { length script.now ≤ 1000 }
    requires typed { AllByRecursion (IsTypedStep places.now) script.now }
    ensures { IfOk result (λ it. it ≡ conductor_of (who_of place setup.now) places.now script.now) }
{
    let peers = all_places(alloc, places.len() as u32)?;
    let reserve = copied(alloc, &setup.reserve)?;
    let identity = Identity::new(alloc, ConductorKind, place, peers, reserve)?;
    Ok(Conductor::new(identity, script_of(alloc, places, script.as_slice())?))
}

/// Who the actor at that place is.
fn identity<K: Typed>(
    alloc: Global,
    kind: K,
    place: u32,
    setup: &Setup,
) -> Result<Identity<K>, Memory>
    requires few { length setup.now.peers ≤ 255 }
    requires places { AllByRecursion (λ p. p < 256) setup.now.reserve }
    ensures { IfOk result (λ it. it ≡ who_of place setup.now) }
{
    let peers = copied(alloc, &setup.peers)?;
    let reserve = copied(alloc, &setup.reserve)?;
    Identity::new(alloc, kind, place, peers, reserve)
}

fn copied(alloc: Global, places: &Places) -> Result<Places, Memory>
    ensures { IfOk result (λ copy. copy ≡ places.now) }
{
    let copy = Vec::from_slice(alloc, places.as_slice())?;
    Ok(Places::of_vec(copy))
}
