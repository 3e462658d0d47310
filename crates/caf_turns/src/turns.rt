//! The table of the bodies, and its seats.
ghost use Rattle.std.specs.Prelude.{◌≡◌, ◌≢◌, ℕ, ◌+◌, ◌-◌, ◌^◌, ◌<◌, ◌≤◌, ◌==◌, nat_lt, [], ◌∷◌, ◌++◌, length, map, replicate, Some, None, IfOk, IfErr, MatchOption, vec_capacity};
ghost use lib.ListN.{get_elem?};
ghost use mathlib.Core.Option.{some};
ghost use Rattle.caf_turns.specs.declared.step.Step.TheVariants.{Announce, Claim, Free, Look, Settle};
ghost use Rattle.caf_turns.specs.Limits.{all_parts, most_splits, most_announcements, most_due};
ghost use Rattle.caf_turns.specs.Rule.{Opens};
ghost use Rattle.caf_turns.specs.Seat.{TurnSeatSeen};
ghost use Rattle.caf_turns.specs.Steps.{IsIn, without, announced, last_look, ReadsAtLeast};

use crate::lists::{emptied, filled, keep_roomier};
use crate::marked::Marked;
use crate::plays::{Announces, Both, Claims, Cut, Enters, Frees, Leaves, Looks, Settles};
use crate::rule::OneHolder;
use crate::view::View;
use atomic_table::{Refused, Seat, Table};
use caf_types::Memory;
use std::alloc::Global;
use std::marker::Model;
use std::snapshot::Snapshot;

// The turn words of all bodies, then the words of what is due to each; and a slot for each body.
type Slots<T> = Table<Option<T>, View<T>, Snapshot<Vec<T>>, OneHolder, Global>;

/// Bodies, each at home in its slot or out with one seat. Contracts see which table it is, with its counts.
#[derive(Drop)]
pub struct Turns<T: Marked> {
    table: Slots<T>,
    alloc: Global,
}

impl<T: Marked> Model for Turns<T> {
    ghost use Rattle.std.specs.Prelude.{◌≡◌, ◌+◌, ◌<◌, ◌^◌};
    ghost use Rattle.atomic_table.specs.Seated.{TableId, table_id_coded};

    ghost Value = { TableId };

    ghost coded = { table_id_coded };

    ghost view = { λ t. t.table.shared.table_id };

    ghost invariant = { λ t. (t.table.shared.table_id.words ≡ t.table.shared.table_id.slots + t.table.shared.table_id.slots) × (0 < t.table.shared.table_id.slots) × (t.table.shared.table_id.slots < 2 ^ 32) };
}

/// What one thread knows of the bodies, and the right to take them out.
///
/// It has nothing in its hand between two calls. The first seat keeps the room of the list that `close` answers.
#[derive(Drop)]
pub struct TurnSeat<T> {
    seat: Seat<Option<T>, View<T>>,
    room: Vec<T>,
}

impl<T> Model for TurnSeat<T> {
    ghost Value = { TurnSeatSeen T };

    ghost view = { λ s. record { table = s.seat.table_id; opening = s.seat.me.0.opening; parts = s.seat.me.0.parts; splits = s.seat.me.0.splits; out = s.seat.me.0.out; steps = s.seat.me.0.steps } };

    ghost invariant = { λ s. (s.seat.me.1 ≡ []) × (s.seat.me.0.hand ≡ None) × (s.seat.me.0.parts ≢ 0) × (length s.seat.me.0.opening ≡ s.seat.table_id.slots) × (s.room.items ≡ []) × (s.seat.me.0.rooms ≢ 0 → s.seat.table_id.slots ≤ vec_capacity s.room) × (s.seat.me.0.splits < s.seat.me.0.parts) };
}

impl<T: Marked + Drop> Turns<T> {
    /// All bodies at home, with nothing due, and the first seat.
    ///
    /// The seat keeps the room of the list that `close` answers. Want of memory gives the bodies back as they were.
    pub fn make(alloc: Global, bodies: Vec<T>) -> Result<(Turns<T>, TurnSeat<T>), (Vec<T>, Memory)>
        requires { (0 < length bodies.items) × (length bodies.items < 2 ^ 32) }
        ensures made { IfOk result (λ r. (r.0.slots ≡ length bodies.items) × (r.1 ≡ record { table = r.0; opening = bodies.items; parts = all_parts; splits = most_splits; out = []; steps = [] })) }
        ensures kept { IfErr result (λ e. e.0.items ≡ bodies.items) }
    {
        let count = bodies.len();
        let key = Snapshot::of(&bodies);
        let Ok(words) = Vec::from_elem(alloc, 0u64, count + count) else {
            return Err((bodies, Memory));
        };
        let Ok(room) = Vec::with_capacity(alloc, count) else {
            return Err((bodies, Memory));
        };
        let slots = filled(alloc, bodies)?;
        match Slots::<T>::new(alloc, words.as_slice(), slots, &key) {
            Ok((table, seat)) => Ok((Turns { table, alloc }, TurnSeat { seat, room })),
            Err(Refused { slots }) => Err((emptied(slots, room), Memory)),
        }
    }

    /// Takes in another seat, which has no body out: its parts, and its accesses behind this one's.
    pub fn join(&self, into: &mut TurnSeat<T>, from: TurnSeat<T>)
        requires seats { (into.old.table ≡ self.now) × (from.table ≡ self.now) }
        requires home { from.out ≡ [] }
        ensures seat { into.new ≡ record into.old { parts = into.old.parts + from.parts; steps = into.old.steps ++ from.steps } }
        ensures announced { announced into.new.steps ≡ announced into.old.steps + announced from.steps }
    {
        let TurnSeat { seat, room } = from;
        self.table.shared.join_seat::<Both>(&mut into.seat, seat);
        keep_roomier(&mut into.room, room);
    }

    /// All bodies, in the order in which they were given, each with the marks that it was given with.
    ///
    /// Every other seat has been joined into this one. It takes no memory.
    pub fn close(self, seat: TurnSeat<T>) -> Vec<T>
        requires seat { seat.table ≡ self }
        requires all { (seat.parts ≡ all_parts) × (seat.out ≡ []) }
        ensures count { length result.items ≡ length seat.opening }
        ensures marks { (i : ℕ) (body : T) → get_elem? result.items i ≡ some body → Opens T.has_mark seat.opening i body }
    {
        let Turns { table, alloc: _ } = self;
        let TurnSeat { seat, mut room } = seat;
        let mut closed = table.close_with(seat);
        for i in 0..closed.slot_count() {
            let taken = closed.take(i);
            let Some(body) = taken else { unreachable!() };
            let Ok(()) = room.push(body) else {
                unreachable!()
            };
        }
        closed.free();
        room
    }
}

impl<T: Marked> Turns<T> {
    /// How many bodies there are.
    pub fn count(&self) -> u64
        ensures { result ≡ self.now.slots }
    {
        self.table.slot_count() as u64
    }

    /// A further seat, with one part of this one's and no access so far.
    ///
    /// Only the first seat has splits, `MOST_SPLITS` of them.
    pub fn split(&self, seat: &mut TurnSeat<T>) -> TurnSeat<T>
        requires seat { seat.old.table ≡ self.now }
        requires splits { 0 < seat.old.splits }
        ensures old { seat.new ≡ record seat.old { parts = seat.old.parts - 1; splits = seat.old.splits - 1 } }
        ensures new { result ≡ record { table = self.now; opening = seat.old.opening; parts = 1; splits = 0; out = []; steps = [] } }
    {
        let seat = self.table.shared.split_seat::<Cut>(&mut seat.seat);
        TurnSeat {
            seat,
            room: Vec::new(self.alloc),
        }
    }

    /// Adds 1 to what is due to the body `i`: true exactly where nothing was due to it.
    ///
    /// One `fetch_add`. What was due was below `MOST_DUE`, so the word can't wrap. As in CAF, where a mailbox
    /// tells the sender that it was empty, the one that is told true puts the body into a queue.
    pub fn announce(&self, seat: &mut TurnSeat<T>, i: u32) -> bool
        requires seat { seat.old.table ≡ self.now }
        requires place { i < self.now.slots }
        requires few { announced seat.old.steps < most_announcements }
        ensures first { (read : ℕ) × (seat.new ≡ record seat.old { steps = seat.old.steps ++ Announce i read ∷ [] }) × (read < most_due) × (result ≡ (read == 0)) }
        ensures announced { announced seat.new.steps ≡ announced seat.old.steps + 1 }
    {
        let word = self.table.slot_count() + i as usize;
        let was = self
            .table
            .shared
            .fetch_add::<Announces>(&mut seat.seat, word, 1);
        was == 0
    }

    /// The body `i`, with the marks that it was given with; `None` only where the one swap of its turn word read 1.
    ///
    /// CAF's scheduler keeps the same rule: an actor is resumed by one worker at a time.
    pub fn claim(&self, seat: &mut TurnSeat<T>, i: u32) -> Option<T>
        requires seat { seat.old.table ≡ self.now }
        requires place { i < self.now.slots }
        ensures body { MatchOption result (seat.new ≡ record seat.old { steps = seat.old.steps ++ Claim i 1 ∷ [] }) (λ body. (seat.new ≡ record seat.old { out = i ∷ seat.old.out; steps = seat.old.steps ++ Claim i 0 ∷ [] }) × Opens T.has_mark seat.old.opening i body) }
        ensures announced { announced seat.new.steps ≡ announced seat.old.steps }
    {
        let shared = &self.table.shared;
        if shared.swap::<Claims>(&mut seat.seat, i as usize, 1) != 0 {
            return None;
        }
        let body = shared.exchange(&mut seat.seat, i as usize, None);
        shared.load::<Leaves>(&mut seat.seat, i as usize);
        body
    }

    /// What is due to the body `i`, which this seat has out: one load. Until the seat settles or gives, no less is.
    pub fn look(&self, seat: &mut TurnSeat<T>, i: u32) -> u64
        requires seat { seat.old.table ≡ self.now }
        requires place { i < self.now.slots }
        requires out { IsIn i seat.old.out }
        ensures seat { seat.new ≡ record seat.old { steps = seat.old.steps ++ Look i result ∷ [] } }
        ensures known { last_look i seat.new.steps ≡ Some result }
        ensures bound { result ≤ most_due }
        ensures announced { announced seat.new.steps ≡ announced seat.old.steps }
    {
        let word = self.table.slot_count() + i as usize;
        self.table.shared.load::<Looks>(&mut seat.seat, word)
    }

    /// Takes `k` from what is due to the body `i`, which this seat has out: true exactly where more than `k` was due.
    ///
    /// One `fetch_sub`. The last look at `i`, with no settle, claim or free of `i` behind it, read at least `k`.
    pub fn settle(&self, seat: &mut TurnSeat<T>, i: u32, k: u64) -> bool
        requires seat { seat.old.table ≡ self.now }
        requires place { i < self.now.slots }
        requires out { IsIn i seat.old.out }
        requires look { ReadsAtLeast k (last_look i seat.old.steps) }
        ensures more { (read : ℕ) × (seat.new ≡ record seat.old { steps = seat.old.steps ++ Settle i k read ∷ [] }) × (k ≤ read) × (result ≡ nat_lt k read) }
        ensures announced { announced seat.new.steps ≡ announced seat.old.steps }
    {
        let word = self.table.slot_count() + i as usize;
        let was = self
            .table
            .shared
            .fetch_sub::<Settles>(&mut seat.seat, word, k);
        was > k
    }

    /// Puts the body `i`, which this seat has out, back, with the marks that it was first given with: one store.
    pub fn give(&self, seat: &mut TurnSeat<T>, i: u32, body: T)
        requires seat { seat.old.table ≡ self.now }
        requires place { i < self.now.slots }
        requires out { IsIn i seat.old.out }
        requires marks { Opens T.has_mark seat.old.opening i body }
        ensures seat { seat.new ≡ record seat.old { out = without i seat.old.out; steps = seat.old.steps ++ Free i ∷ [] } }
        ensures announced { announced seat.new.steps ≡ announced seat.old.steps }
    {
        let shared = &self.table.shared;
        shared.load::<Enters>(&mut seat.seat, i as usize);
        let empty = shared.exchange(&mut seat.seat, i as usize, Some(body));
        let None = empty else { unreachable!() };
        shared.store::<Frees>(&mut seat.seat, i as usize, 0);
    }
}
