//! Things that are kept in order of a key, those of equal keys in order of arrival.
ghost use Rattle.std.specs.Prelude.{◌≡◌, ℕ, ◌∷◌, [], ◌++◌, OnOk, IfErr, OnErr, MatchOption};
ghost use Rattle.caf_response.specs.Lines.{in_line};

use std::collections::{BTreeMap, VecDeque};
use std::mem;

/// What has a key that it is kept by.
pub(crate) trait Lined: Drop {
    ghost key: { Self → ℕ × ℕ };

    /// The key.
    fn key(&self) -> (u64, u32)
        ensures { result ≡ key self.now };
}

/// Those of one key, in order of arrival. There is at least one, and mostly no other.
#[derive(Debug, Drop)]
pub(crate) struct Line<T> {
    pub(crate) first: T,
    pub(crate) later: VecDeque<T>,
}

/// Lines by their keys, so that nothing counts arrivals.
pub(crate) type Lines<T> = BTreeMap<(u64, u32), Line<T>>;

impl<T: Drop> Line<T> {
    /// Puts one at the end. It comes back where memory is wanted.
    pub(crate) fn add(&mut self, item: T) -> Result<(), T>
        ensures added { OnOk result (in_line self.new ≡ in_line self.old ++ item ∷ []) }
        ensures back { IfErr result (λ refused. refused ≡ item) }
        ensures kept { OnErr result (in_line self.new ≡ in_line self.old) }
    {
        match self.later.push_back(item) {
            Ok(()) => Ok(()),
            Err(refused) => Err(refused.value),
        }
    }

    /// Takes the first one, where another one stands behind it.
    pub(crate) fn take_first(&mut self) -> Option<T>
        ensures { MatchOption result ((in_line self.new ≡ in_line self.old) × (self.new.later.items ≡ [])) (λ first. in_line self.old ≡ first ∷ in_line self.new) }
    {
        match self.later.pop_front() {
            Some(next) => Some(mem::replace(&mut self.first, next)),
            None => None,
        }
    }

    /// The first one, where it is the only one.
    pub(crate) fn into_only(self) -> T
        ensures { result ≡ self.first }
    {
        let Line { first, .. } = self;
        first
    }
}
