ghost use Rattle.std.specs.Prelude.{◌≡◌, IfOk, OnOk};
ghost use Rattle.caf_actor.specs.Numbers.{no_numbers, number_for, counted};

use caf_types::Memory;
use std::alloc::Global;
use std::collections::BTreeMap;
use std::marker::Model;

/// For each receiver, the number of the next envelope to it, from 0. Numbers stop at 2^64 - 1.
#[derive(Debug, Drop)]
pub struct Numbers {
    next: BTreeMap<u32, u64>,
}

impl Model for Numbers {
    ghost use Rattle.std.specs.Prelude.{ℕ, List};

    ghost Value = { List (ℕ × ℕ) };

    ghost view = { λ numbers. numbers.next.entries };
}

impl Numbers {
    pub(crate) fn new(alloc: Global) -> Numbers
        ensures { result ≡ no_numbers }
    {
        Numbers {
            next: BTreeMap::new(alloc),
        }
    }

    /// The number of the next envelope to the place, which counts as sent.
    pub(crate) fn take(&mut self, to: u32) -> Result<u64, Memory>
        ensures number { IfOk result (λ number. number ≡ number_for self.old to) }
        ensures counted { OnOk result (self.new ≡ counted self.old to) }
    {
        let number = self.next_for(to);
        match self.next.insert(to, number.saturating_add(1)) {
            Ok(_) => Ok(number),
            Err(_) => Err(Memory),
        }
    }

    fn next_for(&self, to: u32) -> u64
        ensures { result ≡ number_for self.now to }
    {
        match self.next.get(&to) {
            Some(number) => *number,
            None => 0,
        }
    }
}
