//! Reading the words of a tuple, one after the other.
ghost use Rattle.std.specs.Prelude.{◌≡◌, ◌+◌, ◌≤◌, ◌↔◌, drop, length, IfOk, OnOk, IsTrue};
ghost use Rattle.std.specs.Bool.{OnTrue};
ghost use Rattle.caf_steps.specs.declared.reference.Reference.{Reference};
ghost use Rattle.caf_steps.specs.Reference.{fresh, looked};
ghost use Rattle.caf_message.specs.Content.{IsContent, ids_in};
ghost use Rattle.caf_words.specs.Several.{ids_of};
ghost use Rattle.caf_message.specs.Message.{HasLooked};

use caf_tuple::Tuple;
use caf_types::{Memory, TypeId};
use std::alloc::Global;

/// Whether the content begins with these types: their number, then each of them.
pub(crate) fn has_types(tuple: &mut Tuple, types: &[TypeId]) -> bool
    requires { IsContent tuple.old.content }
    ensures answer { IsTrue result ↔ (ids_in tuple.old.content ≡ ids_of types.now) }
    ensures looked { HasLooked tuple.old tuple.new }
    ensures head { OnTrue result (tuple.new ≡ looked (length types.now + 1) tuple.old) }
{
    if tuple.word(0) != types.len() as u64 {
        return false;
    }
    for (i, id) in types.iter().enumerate() {
        if tuple.word(i as u64 + 1) != id.0 as u64 {
            return false;
        }
    }
    true
}

/// The words from `first` on, read by a reference that read those before.
pub(crate) fn words_from(tuple: &mut Tuple, alloc: Global, first: u64) -> Result<Vec<u64>, Memory>
    requires { first ≤ length tuple.old.content }
    ensures words { IfOk result (λ words. words.items ≡ drop first tuple.old.content) }
    ensures content { tuple.new.content ≡ tuple.old.content }
    ensures all { (r : Reference) → tuple.old ≡ looked first r → OnOk result (tuple.new ≡ looked (length r.content) r) }
    ensures looked { (r : Reference) → tuple.old ≡ looked first r → HasLooked r tuple.new }
{
    let len = tuple.len();
    let mut words = Vec::with_capacity(alloc, (len - first) as usize)?;
    for i in first..len {
        let word = tuple.word(i);
        words.push_reserved(word);
    }
    Ok(words)
}

/// A tuple of its own with the same content.
pub(crate) fn copied(tuple: &mut Tuple, alloc: Global) -> Result<Tuple, Memory>
    ensures copied { IfOk result (λ copy. copy ≡ fresh tuple.old.content) }
    ensures content { tuple.new.content ≡ tuple.old.content }
    ensures all { OnOk result (tuple.new ≡ looked (length tuple.old.content) tuple.old) }
    ensures looked { HasLooked tuple.old tuple.new }
{
    Ok(tuple.copy(alloc)?)
}
