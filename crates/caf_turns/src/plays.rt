//! What each access tells the seat that makes it.
ghost use Rattle.std.specs.Prelude.{◌≡◌, ◌≢◌, ℕ, ◌+◌, ◌-◌, ◌<◌, ◌≤◌, length, [], ◌∷◌, ◌++◌, Some, None};
ghost use Rattle.caf_turns.specs.declared.step.Step.TheVariants.{Announce, Claim, Look, Settle, Free};
ghost use Rattle.caf_turns.specs.Rule.{Opens};
ghost use Rattle.caf_turns.specs.Views.{kept_part, new_part, joined, stepped, lifted, carried, lowered, put, spent};
ghost use Rattle.caf_turns.specs.Limits.{most_due};

use crate::marked::Marked;
use crate::view::View;
use atomic_table::{Join, Play, Split};

/// What was due grows by 1. It was below the bound.
pub struct Announces;

impl<T> Play<Option<T>, View<T>> for Announces {
    ghost then = { λ st m r k. (k.0 ≡ stepped m.0 (Announce (st.word - length m.0.opening) r)) × (r < most_due) × (k.1 ≡ m.1) };
}

/// What is due is read.
pub struct Looks;

impl<T> Play<Option<T>, View<T>> for Looks {
    ghost then = { λ st m r k. (k.0 ≡ stepped m.0 (Look (st.word - length m.0.opening) r)) × (r ≤ most_due) × (k.1 ≡ m.1) };
}

/// Some of what was due is taken. It was there.
pub struct Settles;

impl<T> Play<Option<T>, View<T>> for Settles {
    ghost then = { λ st m r k. (k.0 ≡ stepped m.0 (Settle (st.word - length m.0.opening) st.first r)) × (st.first ≤ r) × (k.1 ≡ m.1) };
}

/// A swap of the turn word for 1. Where it read 0, the body is in the hand, with its opening marks.
pub struct Claims;

impl<T: Marked> Play<Option<T>, View<T>> for Claims {
    ghost then = { λ st m r k. (r ≡ 0 → (k.0 ≡ lifted st.word (stepped m.0 (Claim st.word r))) × ((y : T) × (k.1 ≡ (st.word, Some y) ∷ m.1) × Opens T.has_mark m.0.opening st.word y)) × (r ≢ 0 → (r ≡ 1) × (k.0 ≡ stepped m.0 (Claim st.word r)) × (k.1 ≡ m.1)) };
}

/// A load that leaves the empty slot: the body is out.
pub struct Leaves;

impl<T> Play<Option<T>, View<T>> for Leaves {
    ghost then = { λ st m r k. (k.0 ≡ carried st.word m.0) × (k.1 ≡ []) };
}

/// A load that takes the empty slot again.
pub struct Enters;

impl<T> Play<Option<T>, View<T>> for Enters {
    ghost then = { λ st m r k. (k.0 ≡ lowered st.word m.0) × (k.1 ≡ (st.word, None) ∷ []) };
}

/// The store of 0 that frees the body.
pub struct Frees;

impl<T> Play<Option<T>, View<T>> for Frees {
    ghost then = { λ st m r k. (k.0 ≡ put (stepped m.0 (Free st.word))) × (k.1 ≡ []) };
}

/// A new seat gets one part.
pub struct Cut;

impl<T> Split<View<T>> for Cut {
    ghost left = { kept_part };

    ghost right = { new_part };
}

/// One seat gets all that another has.
pub struct Both;

impl<T> Join<View<T>> for Both {
    ghost both = { joined };

    ghost spent = { spent };
}
