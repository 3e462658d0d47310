ghost use Rattle.std.specs.Prelude.{◌≡◌, ◌+◌, ◌<◌, ◌≤◌, true, length, slice_index};
ghost use Rattle.caf_steps.specs.Reference.{retained, second, tested, read, written};
ghost use Rattle.caf_tuple.specs.Held.{IsReference};

use crate::block::{Block, View};
use crate::plays::{Part, Read, Release, Retain, Test, Write};
use atomic_table::Seat;

/// The seat of one reference, by which it makes its atomic steps.
///
/// A seat may be let go at any time, and its reference would then stay counted for ever. This
/// wrapper is not `Drop` and no other module sees into it: it ends by [`Held::release`] alone.
pub(crate) struct Held {
    seat: Seat<(), View>,
}

impl Held {
    /// The holder of a seat with one reference.
    pub(crate) fn of(seat: Seat<(), View>) -> Held
        ensures { result.seat ≡ seat }
    {
        Held { seat }
    }

    /// A second reference to the block: one `fetch_add` of its count, and the seat is split.
    pub(crate) fn retain(&mut self, block: &Block) -> Held
        requires refers { IsReference block.now.shared.table_id self.old.seat }
        requires room { 1 ≤ self.old.seat.me.0.seen.room }
        ensures refers { IsReference block.now.shared.table_id self.new.seat }
        ensures second_refers { IsReference block.now.shared.table_id result.seat }
        ensures old { self.new.seat.me.0.seen ≡ retained self.old.seat.me.0.seen }
        ensures new { result.seat.me.0.seen ≡ second self.old.seat.me.0.seen }
    {
        block.shared.fetch_add::<Retain>(&mut self.seat, 0, 1);
        let seat = block.shared.split_seat::<Part>(&mut self.seat);
        Held::of(seat)
    }

    /// One load of the count.
    pub(crate) fn test(&mut self, block: &Block) -> u64
        requires { IsReference block.now.shared.table_id self.old.seat }
        ensures refers { IsReference block.now.shared.table_id self.new.seat }
        ensures step { self.new.seat.me.0.seen ≡ tested result self.old.seat.me.0.seen }
        ensures counted { 1 ≤ result }
        ensures sole { self.old.seat.me.0.seen.sole ≡ true → result ≡ 1 }
    {
        block.shared.load::<Test>(&mut self.seat, 0)
    }

    /// One load of the payload's word at the index `i`.
    pub(crate) fn word(&mut self, block: &Block, i: usize) -> u64
        requires refers { IsReference block.now.shared.table_id self.old.seat }
        requires within { i < length self.old.seat.me.0.seen.content }
        ensures refers { IsReference block.now.shared.table_id self.new.seat }
        ensures step { self.new.seat.me.0.seen ≡ read i result self.old.seat.me.0.seen }
        ensures value { result ≡ slice_index self.old.seat.me.0.seen.content i }
    {
        block.shared.load::<Read>(&mut self.seat, i + 1)
    }

    /// One store of the payload's word at the index `i`.
    pub(crate) fn set(&mut self, block: &Block, i: usize, word: u64)
        requires refers { IsReference block.now.shared.table_id self.old.seat }
        requires within { i < length self.old.seat.me.0.seen.content }
        requires sole { self.old.seat.me.0.seen.sole ≡ true }
        ensures refers { IsReference block.now.shared.table_id self.new.seat }
        ensures step { self.new.seat.me.0.seen ≡ written i word self.old.seat.me.0.seen }
    {
        block.shared.store::<Write>(&mut self.seat, i + 1, word);
    }

    /// The reference is given up: one `fetch_sub` of the count.
    pub(crate) fn release(mut self, block: &Block)
        requires { IsReference block.now.shared.table_id self.seat }
    {
        block.shared.fetch_sub::<Release>(&mut self.seat, 0, 1);
        self.end();
    }

    /// A seat that has no reference is let go.
    fn end(self)
        requires { self.seat.me.0.refs ≡ 0 }
    {
        let Held { seat: _ } = self;
    }
}
