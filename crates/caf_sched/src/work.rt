//! What a crew gives turns to, and what its workers pass before a turn.

use caf_turns::Marked;
use caf_types::{Memory, Places, TypeTable};
use std::alloc::Global;
use std::sync::Wait;

/// A body that takes turns.
pub trait Work: Marked + Drop {
    ghost use Rattle.caf_types.specs.Table.{Table};
    ghost use Rattle.caf_types.specs.TypeTable.{seen};
    ghost use Rattle.caf_sched.specs.Work.{IsServed};

    /// Whether a type table has the entries that a mark names.
    ghost has_entries: { Table → Self.Mark → Type 0 };

    /// Handles what is due, so many announcements, and answers the places that were sent to.
    ///
    /// The table has the entries that one of its marks names. Each mark stays, also after want of memory.
    fn turn<R: Wait>(
        &mut self,
        rt: &R,
        alloc: Global,
        table: &TypeTable,
        due: u64,
    ) -> Result<Places, Memory>
        requires entries { IsServed Self.has_mark has_entries (seen table.now) self.old }
        ensures marks { (m : Self.Mark) → Self.has_mark self.old m → Self.has_mark self.new m };

    /// How many envelopes it has handled. The count stops at 2^64 - 1.
    fn spent(&self) -> u64;
}

/// What a worker passes before it claims a body. It has no meaning and no fault.
pub trait Gate: Sync {
    /// The worker of this number is about to claim the body at this place.
    fn enter(&self, worker: u32, place: u32);
}

/// A gate that lets everyone through.
#[derive(Drop)]
pub struct OpenGate;

impl Gate for OpenGate {
    fn enter(&self, _worker: u32, _place: u32) {}
}
