//! What holds of every message: laws that follow from the definitions alone, by functions that do
//! nothing, and the exchange that each replacement goes through.
ghost use Rattle.std.specs.Prelude.{◌≡◌, ℕ, true, length, List, Option, IfOk, OnOk, OnErr};
ghost use Rattle.caf_types.specs.ShapeTree.{ShapeTree};
ghost use Rattle.caf_types.specs.Table.{Table};
ghost use Rattle.caf_words.specs.Datum.{Data};
ghost use Rattle.caf_steps.specs.Reference.{fresh};
ghost use Rattle.caf_tuple.specs.Tuple.{GaveUp};
ghost use Rattle.caf_message.specs.Answers.{LargeExactly};
ghost use Rattle.caf_message.specs.Message.{IsAsBefore, BecomesSole, Replaces, HandsBack};
ghost use Rattle.caf_message.specs.declared.replacing.Replaced.TheVariants.{Fresh, InPlace};
ghost use Rattle.caf_message.specs.Entries.{TableEntries, HasEntries};
ghost use Rattle.caf_message.specs.Fits.{Means, FitsTable, FitsEntries};

use crate::replacing::rewrite;
use crate::{MessageFault, Replaced};
use caf_tuple::{Owned, Tuple};
use caf_types::Memory;
use std::alloc::Global;
use std::mem;

/// Where each ID has a shape, a content means one list of IDs and one list of values.
pub fn one_meaning()
    ensures { (shape_of : ℕ → Option ShapeTree) (words ids others : List ℕ) (values rivals : Data)
        → Means shape_of words ids values → Means shape_of words others rivals → (ids ≡ others) × (values ≡ rivals) }
{}

/// What fits some entries fits every table that has them.
pub fn entries_fit_their_tables()
    ensures { (table : Table) (entries : TableEntries) (words : List ℕ) → HasEntries table entries → FitsEntries entries words → FitsTable table words }
{}

/// Makes the content of a reference these words, and hands the old reference back where the content
/// is in a new block.
///
/// Where the length stays, one test decides. It read 1, and the reference is written in place; or it
/// read the count that is told, at least 2, and the content was copied. The old reference shows that
/// test and the reads of the copy, and still counts until it is given up.
///
/// `Large` exactly where there are over [`MOST_WORDS`](caf_tuple::MOST_WORDS) words. After a refusal
/// the content is as before, and the steps grew by at most one test and by reads.
pub fn exchange_words(
    alloc: Global,
    tuple: &mut Tuple,
    words: &[u64],
) -> Result<(Replaced, Option<Tuple>), MessageFault>
    ensures answer { IfOk result (λ done. Replaces done.0 words.now tuple.old tuple.new) }
    ensures before { IfOk result (λ done. HandsBack done.0 done.1 tuple.old) }
    ensures content { OnOk result (tuple.new.content ≡ words.now) }
    ensures sole_in_place { tuple.old.sole ≡ true → length words.now ≡ length tuple.old.content
        → IfOk result (λ done. done.0 ≡ InPlace) }
    ensures large { LargeExactly result words.now }
    ensures refused { OnErr result (IsAsBefore tuple.old tuple.new) }
{
    if words.len() as u64 == tuple.len() {
        Ok(write_over(alloc, tuple, words)?)
    } else {
        renew(alloc, tuple, words)
    }
}

/// Puts the words into a new block.
fn renew(
    alloc: Global,
    tuple: &mut Tuple,
    words: &[u64],
) -> Result<(Replaced, Option<Tuple>), MessageFault>
    ensures answer { IfOk result (λ done. (done.0 ≡ Fresh) × (tuple.new ≡ fresh words.now)) }
    ensures before { IfOk result (λ done. HandsBack done.0 done.1 tuple.old) }
    ensures large { LargeExactly result words.now }
    ensures refused { OnErr result (tuple.new ≡ tuple.old) }
{
    let renewed = Tuple::make(alloc, words)?;
    let before = mem::replace(tuple, renewed);
    Ok((Replaced::Fresh, Some(before)))
}

/// Writes as many words as stand there.
fn write_over(
    alloc: Global,
    tuple: &mut Tuple,
    words: &[u64],
) -> Result<(Replaced, Option<Tuple>), Memory>
    requires { length words.now ≡ length tuple.old.content }
    ensures answer { IfOk result (λ done. Replaces done.0 words.now tuple.old tuple.new) }
    ensures before { IfOk result (λ done. HandsBack done.0 done.1 tuple.old) }
    ensures content { OnOk result (tuple.new.content ≡ words.now) }
    ensures sole_in_place { tuple.old.sole ≡ true → IfOk result (λ done. done.0 ≡ InPlace) }
    ensures refused { OnErr result (IsAsBefore tuple.old tuple.new) }
{
    let done = own(alloc, tuple)?;
    rewrite(tuple, words);
    Ok(done)
}

/// Makes the reference sole.
fn own(alloc: Global, tuple: &mut Tuple) -> Result<(Replaced, Option<Tuple>), Memory>
    ensures answer { IfOk result (λ done. BecomesSole done.0 tuple.old tuple.new) }
    ensures before { IfOk result (λ done. HandsBack done.0 done.1 tuple.old) }
    ensures sole { OnOk result (tuple.new.sole ≡ true) }
    ensures content { OnOk result (tuple.new.content ≡ tuple.old.content) }
    ensures sole_in_place { tuple.old.sole ≡ true → IfOk result (λ done. done.0 ≡ InPlace) }
    ensures refused { OnErr result (GaveUp tuple.old tuple.new) }
{
    match tuple.own(alloc)? {
        Owned::Kept => Ok((Replaced::InPlace, None)),
        Owned::Copied { count, before } => Ok((Replaced::Copied(count), Some(before))),
    }
}
