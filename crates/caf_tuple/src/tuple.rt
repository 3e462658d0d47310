ghost use Rattle.std.specs.Prelude.{◌≡◌, ℕ, ◌↔◌, ◌+◌, ◌<◌, ◌≤◌, true, [], ◌∷◌, ◌++◌, drop, length, IfOk, OnOk, OnErr, IsErrOf, slice_index};
ghost use Rattle.caf_steps.specs.Reference.{fresh, retained, second, tested, read, written, looked};
ghost use Rattle.caf_tuple.specs.Tuple.{Owns, GaveUp};
ghost use Rattle.caf_tuple.specs.declared.tuple.Owned.TheVariants.{Kept};

use crate::block::{Block, Counted, MOST_WORDS};
use crate::fault::TupleFault;
use crate::held::Held;
use atomic_table::Table;
use caf_types::Memory;
use std::alloc::Global;
use std::marker::Model;
use std::mem;
use std::sync::Arc;

/// The room of the one reference to a new block.
const FULL_ROOM: u64 = 1 << 62;

/// One reference to a block of words, which other references may share.
///
/// So actors share the content of a message as long as none of them writes it, and one that writes
/// copies it first where others hold it (CAF manual, copy on write).
///
/// A reference may move to another thread. Dropping it gives the reference up, as [`Tuple::release`] does.
pub struct Tuple {
    block: Arc<Block, Global>,
    held: Held,
    room: u64,
}

impl Model for Tuple {
    ghost use Rattle.std.specs.Prelude.{◌≡◌};
    ghost use Rattle.std.specs.Arc.{arc_value};
    ghost use Rattle.caf_steps.specs.declared.reference.Reference.{Reference};
    ghost use Rattle.caf_tuple.specs.Held.{IsReference};

    ghost Value = { Reference };

    ghost view = { λ tuple. tuple.held.seat.me.0.seen };

    ghost invariant = { λ tuple. IsReference (arc_value tuple.block).shared.table_id tuple.held.seat × (tuple.held.seat.me.0.seen.room ≡ tuple.room) };
}

/// How [`Tuple::own`] made a reference sole.
#[derive(Drop)]
pub enum Owned {
    /// Its test read 1: it was the only reference.
    Kept,
    /// Its test read `count`, at least 2. The content was copied to a new block, and `before` is
    /// the old reference, which still counts.
    Copied { count: u64, before: Tuple },
}

impl Tuple {
    /// The one reference to a new block with these words, which is sole.
    ///
    /// `Large` exactly where there are more than [`MOST_WORDS`] words.
    pub fn make(alloc: Global, words: &[u64]) -> Result<Tuple, TupleFault>
        ensures made { IfOk result (λ tuple. tuple ≡ fresh words.now) }
        ensures large { IsErrOf result TupleFault.Large ↔ (MOST_WORDS < length words.now) }
    {
        if words.len() > MOST_WORDS {
            return Err(TupleFault::Large);
        }
        let laid = with_count(alloc, words)?;
        Ok(of_words(alloc, laid)?)
    }

    /// The number of words.
    pub fn len(&self) -> u64
        ensures words { result ≡ length self.now.content }
        ensures within { result ≤ MOST_WORDS }
    {
        (self.block.word_count() - 1) as u64
    }

    /// How many further references may come from this one, at most: 2^62 at a new block.
    pub fn room(&self) -> u64
        ensures { result ≡ self.now.room }
    {
        self.room
    }

    /// A second reference with the same content. Of the room `r` of this one the new reference has
    /// `q = r / 2048`, and this one keeps `r - 1 - q`. Neither is sole afterwards.
    ///
    /// After want of memory this reference is as before.
    pub fn retain(&mut self) -> Result<Tuple, Memory>
        requires { 1 ≤ self.old.room }
        ensures new { IfOk result (λ tuple. tuple ≡ second self.old) }
        ensures old { OnOk result (self.new ≡ retained self.old) }
        ensures memory { OnErr result (self.new ≡ self.old) }
    {
        let block = Arc::try_clone(&self.block)?;
        let held = self.held.retain(&block);
        let room = self.room / 2048;
        self.room -= 1 + room;
        Ok(Tuple { block, held, room })
    }

    /// Gives the reference up, as dropping it does.
    pub fn release(self) {
        drop(self);
    }

    /// One load of the count of references, which is at least 1. The reference is sole afterwards
    /// exactly where it read 1.
    pub fn test(&mut self) -> u64
        ensures step { self.new ≡ tested result self.old }
        ensures counted { 1 ≤ result }
        ensures sole { self.old.sole ≡ true → result ≡ 1 }
    {
        self.held.test(&self.block)
    }

    /// The word at the index `i`: that of the content.
    pub fn word(&mut self, i: u64) -> u64
        requires { i < length self.old.content }
        ensures step { self.new ≡ read i result self.old }
        ensures value { result ≡ slice_index self.old.content i }
    {
        self.held.word(&self.block, i as usize)
    }

    /// Changes the word at the index `i`. The reference has to be sole, so no other reads the change.
    pub fn set(&mut self, i: u64, v: u64)
        requires within { i < length self.old.content }
        requires sole { self.old.sole ≡ true }
        ensures { self.new ≡ written i v self.old }
    {
        self.held.set(&self.block, i as usize, v);
    }

    /// A tuple of its own with the same content. Each word is read once, in order.
    ///
    /// After want of memory the content is as before, and the steps grew by reads of the first words.
    pub fn copy(&mut self, alloc: Global) -> Result<Tuple, Memory>
        ensures copied { IfOk result (λ tuple. tuple ≡ fresh self.old.content) }
        ensures looked { OnOk result (self.new ≡ looked (length self.old.content) self.old) }
        ensures memory { OnErr result ((n : ℕ) × (n ≤ length self.old.content) × (self.new ≡ looked n self.old)) }
    {
        let laid = self.copy_words(alloc)?;
        let copy = of_words(alloc, laid)?;
        Ok(copy)
    }

    /// Makes the reference sole, with the same content, by one test and at most one copy. A sole
    /// reference is kept.
    ///
    /// After want of memory the content is as before. The steps grew by the one test, which read at
    /// least 2, and by reads.
    pub fn own(&mut self, alloc: Global) -> Result<Owned, Memory>
        ensures owned { IfOk result (λ owned. Owns owned self.old self.new) }
        ensures sole { self.old.sole ≡ true → IfOk result (λ owned. owned ≡ Kept) }
        ensures memory { OnErr result (GaveUp self.old self.new) }
    {
        let count = self.test();
        if count == 1 {
            return Ok(Owned::Kept);
        }
        let laid = self.copy_words(alloc)?;
        let copy = of_words(alloc, laid)?;
        let before = mem::replace(self, copy);
        Ok(Owned::Copied { count, before })
    }

    // The count of 1 and a copy of the words behind it.
    fn copy_words(&mut self, alloc: Global) -> Result<Vec<u64>, Memory>
        ensures within { length self.old.content ≤ MOST_WORDS }
        ensures copied { IfOk result (λ laid. laid.items ≡ 1 ∷ self.old.content) }
        ensures looked { OnOk result (self.new ≡ looked (length self.old.content) self.old) }
        ensures memory { OnErr result ((n : ℕ) × (n ≤ length self.old.content) × (self.new ≡ looked n self.old)) }
    {
        let len = self.len();
        let mut laid = Vec::with_capacity(alloc, len as usize + 1)?;
        laid.push_reserved(1);
        for i in 0..len {
            let word = self.word(i);
            laid.push_reserved(word);
        }
        Ok(laid)
    }
}

// The count of 1 and the words behind it.
fn with_count(alloc: Global, words: &[u64]) -> Result<Vec<u64>, Memory>
    requires { length words.now ≤ MOST_WORDS }
    ensures { IfOk result (λ laid. laid.items ≡ 1 ∷ words.now) }
{
    let mut laid = Vec::with_capacity(alloc, words.len() + 1)?;
    laid.push_reserved(1);
    laid.extend_from_slice(words)?;
    Ok(laid)
}

// The one reference to a new block of these words, the first of which is the count of 1.
fn of_words(alloc: Global, laid: Vec<u64>) -> Result<Tuple, Memory>
    requires count { laid.items ≡ 1 ∷ drop 1 laid.items }
    requires within { length laid.items ≤ MOST_WORDS + 1 }
    ensures { IfOk result (λ tuple. tuple ≡ fresh (drop 1 laid.items)) }
{
    let (table, seat) = Table::<(), _, _, Counted, _>::of_words(alloc, laid.as_slice(), &laid)?;
    let block = Arc::new(alloc, table)?;
    Ok(Tuple {
        block,
        held: Held::of(seat),
        room: FULL_ROOM,
    })
}

impl Drop for Tuple {
    fn drop(self) {
        let Tuple {
            block,
            held,
            room: _,
        } = self;
        held.release(&block);
    }
}
