//! The rule of the bodies, which holds between any two accesses.

use crate::marked::Marked;
use crate::view::View;
use atomic_table::TableRule;
use std::snapshot::Snapshot;

/// A body has one holder. The key of the rule is the list of the bodies as they were given.
pub struct OneHolder;

impl<T: Marked> TableRule<Option<T>, View<T>, Snapshot<Vec<T>>> for OneHolder {
    ghost use Rattle.caf_turns.specs.Rule.{TurnRule};
    ghost use Rattle.caf_turns.specs.Views.{first_view};

    ghost holds = { λ key s. TurnRule T.has_mark key.value.items s };

    ghost first = { λ key. first_view key.value.items };
}
