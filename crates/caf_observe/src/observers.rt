ghost use Rattle.std.specs.Prelude.{◌≡◌, not, true, IfOk, IsOk, OnOk, OnErr};
ghost use Rattle.std.specs.List.Sorted.{IsStrictlyIncreasing};
ghost use Rattle.caf_observe.specs.Places.{has_place, with_place, without_place};
ghost use Rattle.caf_observe.specs.Observers.{AreSets, no_observers, with_link, without_link, with_monitor, without_monitor};
ghost use Rattle.caf_observe.specs.Observers as observers;

use caf_types::{Memory, Notice, Reason, Seq};
use std::alloc::{AllocError, Global};
use std::collections::BTreeSet;
use std::marker::Model;

/// The links and the monitors of an actor. A place is in each of the two sets at most once.
///
/// As in CAF ("Revisiting Actor Programming in C++"), links are mutual, so each side keeps the
/// other here, and monitors are one-sided: only the watched side keeps the watcher.
#[derive(Debug, Drop)]
pub struct Observers {
    links: BTreeSet<u32>,
    monitors: BTreeSet<u32>,
}

impl Model for Observers {
    ghost use Rattle.caf_observe.specs.Observers.{ObserverSets, AreSets};

    ghost Value = { ObserverSets };

    ghost view = { λ observers. record { links = observers.links.keys; monitors = observers.monitors.keys } };

    ghost invariant = { λ observers. AreSets (record { links = observers.links.keys; monitors = observers.monitors.keys }) };
}

impl Observers {
    /// No links and no monitors.
    pub fn new(alloc: Global) -> Observers
        ensures { result ≡ no_observers }
    {
        Observers {
            links: BTreeSet::new(alloc),
            monitors: BTreeSet::new(alloc),
        }
    }

    /// Adds `place` to the links, and says whether it was new. Only a new place can want memory; after
    /// want of memory the sets are as before.
    pub fn link(&mut self, place: u32) -> Result<bool, Memory>
        ensures added { OnOk result (self.new ≡ with_link self.old place) }
        ensures new { IfOk result (λ new. new ≡ not (has_place self.old.links place)) }
        ensures known { has_place self.old.links place ≡ true → IsOk result }
        ensures kept { OnErr result (self.new ≡ self.old) }
        ensures sets { AreSets self.new }
    {
        add(&mut self.links, place)
    }

    /// Takes `place` out of the links, and says whether it was there.
    pub fn unlink(&mut self, place: u32) -> bool
        ensures removed { self.new ≡ without_link self.old place }
        ensures known { result ≡ has_place self.old.links place }
        ensures sets { AreSets self.new }
    {
        take_out(&mut self.links, place)
    }

    /// Adds `place` to the monitors, and says whether it was new. Only a new place can want memory;
    /// after want of memory the sets are as before.
    pub fn watch(&mut self, place: u32) -> Result<bool, Memory>
        ensures added { OnOk result (self.new ≡ with_monitor self.old place) }
        ensures new { IfOk result (λ new. new ≡ not (has_place self.old.monitors place)) }
        ensures known { has_place self.old.monitors place ≡ true → IsOk result }
        ensures kept { OnErr result (self.new ≡ self.old) }
        ensures sets { AreSets self.new }
    {
        add(&mut self.monitors, place)
    }

    /// Takes `place` out of the monitors, and says whether it was there.
    pub fn unwatch(&mut self, place: u32) -> bool
        ensures removed { self.new ≡ without_monitor self.old place }
        ensures known { result ≡ has_place self.old.monitors place }
        ensures sets { AreSets self.new }
    {
        take_out(&mut self.monitors, place)
    }

    /// What the actor at place `me` sends when it quits with `reason`, each notice behind the place
    /// that it goes to: an exit notice to each link, then a down notice to each monitor.
    pub fn farewell(
        &self,
        alloc: Global,
        me: u32,
        reason: Reason,
    ) -> Result<Seq<(u32, Notice)>, Memory>
        ensures notices { IfOk result (λ notices. notices ≡ observers.farewell self.now me reason) }
        ensures sets { AreSets self.now }
    {
        let notices = notices(alloc, &self.links, &self.monitors, me, reason)?;
        Ok(Seq::of_vec(notices))
    }
}

fn add(places: &mut BTreeSet<u32>, place: u32) -> Result<bool, Memory>
    requires { IsStrictlyIncreasing places.old.keys }
    ensures added { OnOk result (places.new.keys ≡ with_place places.old.keys place) }
    ensures new { IfOk result (λ new. new ≡ not (has_place places.old.keys place)) }
    ensures known { has_place places.old.keys place ≡ true → IsOk result }
    ensures kept { OnErr result (places.new.keys ≡ places.old.keys) }
    ensures set { IsStrictlyIncreasing places.new.keys }
{
    Ok(places.insert(place)?)
}

fn take_out(places: &mut BTreeSet<u32>, place: u32) -> bool
    requires { IsStrictlyIncreasing places.old.keys }
    ensures removed { places.new.keys ≡ without_place places.old.keys place }
    ensures known { result ≡ has_place places.old.keys place }
    ensures set { IsStrictlyIncreasing places.new.keys }
{
    places.remove(&place)
}

fn notices(
    alloc: Global,
    links: &BTreeSet<u32>,
    monitors: &BTreeSet<u32>,
    me: u32,
    reason: Reason,
) -> Result<Vec<(u32, Notice)>, AllocError>
    ensures { IfOk result (λ notices. notices.items ≡
        observers.farewell (record { links = links.now.keys; monitors = monitors.now.keys }) me reason) }
{
    let exits = links.iter().map(|place| (*place, Notice::Exit(me, reason)));
    let downs = monitors
        .iter()
        .map(|place| (*place, Notice::Down(me, reason)));
    exits.chain(downs).collect(alloc)
}

#[cfg(test)]
mod tests {
    use super::*;
    use std::test::Fail;

    #[test]
    fn tells_links_then_monitors_in_order(rt: HostRuntime) -> Result<(), Fail> {
        let mut observers = Observers::new(rt.alloc());
        assert!(rt; observers.link(3)?);
        assert!(rt; observers.link(1)?);
        assert!(rt; observers.watch(2)?);
        let failed = observers.farewell(rt.alloc(), 5, Reason::Failed)?;
        let expected = [
            (1, Notice::Exit(5, Reason::Failed)),
            (3, Notice::Exit(5, Reason::Failed)),
            (2, Notice::Down(5, Reason::Failed)),
        ];
        assert_eq!(rt; failed.as_slice(), expected.as_slice());
        assert!(rt; !observers.link(3)?, "3 was a link");
        assert!(rt; !observers.watch(2)?, "2 was a monitor");
        assert!(rt; !observers.unlink(2), "2 is no link");
        assert!(rt; !observers.unwatch(3), "3 is no monitor");
        assert!(rt; observers.unlink(3));
        assert!(rt; observers.unwatch(2));
        let normal = observers.farewell(rt.alloc(), 0, Reason::Normal)?;
        assert_eq!(rt;
            normal.as_slice(),
            [(1, Notice::Exit(0, Reason::Normal))].as_slice()
        );
        Ok(())
    }
}
