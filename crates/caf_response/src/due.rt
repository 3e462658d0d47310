ghost use Rattle.std.specs.Prelude.{◌≡◌, [], OnOk, OnErr, count_by};
ghost use Rattle.std.specs.BTreeSet.{insert_key};
ghost use Rattle.std.specs.List.Sorted.{IsStrictlySortedBy};
ghost use Rattle.caf_response.specs.Lines.{key_order};
ghost use Rattle.caf_response.specs.Pending.{due_by, is_due, without_due};

use caf_types::Memory;
use std::alloc::Global;
use std::collections::{BTreeMap, BTreeSet};
use std::marker::Model;

/// The due counts of requests: at which count of ticks the time of a request is over.
#[derive(Debug, Drop)]
pub(crate) struct Due {
    /// Counts with the numbers of their requests.
    in_order: BTreeSet<(u64, u64)>,
    /// The count of each number.
    counts: BTreeMap<u64, u64>,
}

impl Model for Due {
    ghost use Rattle.std.specs.Prelude.{List, ℕ};
    ghost use Rattle.caf_response.specs.Due.{AreCounted};

    ghost Value = { List (ℕ × ℕ) };

    ghost view = { λ due. due.in_order.keys };

    ghost invariant = { λ due. AreCounted due.in_order.keys due.counts.entries };
}

impl Due {
    /// No due counts.
    pub(crate) fn new(alloc: Global) -> Due
        ensures { result ≡ [] }
    {
        Due {
            in_order: BTreeSet::new(alloc),
            counts: BTreeMap::new(alloc),
        }
    }

    /// Gives a request that has none a due count.
    pub(crate) fn set(&mut self, count: u64, number: u64) -> Result<(), Memory>
        requires { count_by (is_due number) self.old ≡ 0 }
        ensures set { OnOk result (self.new ≡ insert_key key_order self.old (count, number)) }
        ensures kept { OnErr result (self.new ≡ self.old) }
        ensures ordered { IsStrictlySortedBy key_order self.new }
    {
        match self.counts.insert(number, count) {
            Ok(_) => {}
            Err(_) => return Err(Memory),
        }
        match self.in_order.insert((count, number)) {
            Ok(_) => Ok(()),
            Err(_) => {
                self.counts.remove(&number);
                Err(Memory)
            }
        }
    }

    /// Ends the due count of a request, if it has one.
    pub(crate) fn end(&mut self, number: u64)
        ensures ended { self.new ≡ without_due number self.old }
        ensures ordered { IsStrictlySortedBy key_order self.new }
    {
        match self.counts.remove(&number) {
            Some(count) => {
                self.in_order.remove(&(count, number));
            }
            None => {}
        }
    }

    /// The request that is due first, where it is due by now.
    pub(crate) fn first(&self, now: u64) -> Option<u64>
        ensures { result ≡ due_by now self.now }
    {
        match self.in_order.first() {
            Some(first) => {
                if first.0 > now {
                    return None;
                }
                Some(first.1)
            }
            None => None,
        }
    }

    /// Ends all due counts.
    pub(crate) fn clear(&mut self)
        ensures { self.new ≡ [] }
    {
        self.in_order.clear();
        self.counts.clear();
    }
}
