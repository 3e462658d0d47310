//! The block of a tuple: a table whose first word counts the references, with the payload behind it.

use atomic_table::{Table, TableRule};
use caf_steps::Reference;
use std::alloc::Global;

/// The greatest number of words of a tuple: 32 MiB.
pub const MOST_WORDS: usize = 4_194_304;

/// What a seat at a block knows. No value of this type is made.
pub struct View {
    /// The references that the seat has: 1, for a moment 2 while it is retained, and 0 after its release.
    pub refs: u64,
    /// The reference as its holder sees it.
    pub seen: Reference,
}

/// The rule of a block. Its key is the list of the words that the table is made with.
pub struct Counted;

impl TableRule<(), View, Vec<u64>> for Counted {
    ghost use Rattle.caf_tuple.specs.Block.{TupleRule, first_view};

    ghost holds = { λ _. TupleRule };

    ghost first = { λ words. first_view words.items };
}

/// A block: its words under the rule.
pub type Block = Table<(), View, Vec<u64>, Counted, Global>;
