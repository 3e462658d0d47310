ghost use Rattle.std.specs.Prelude.{◌≡◌, [], ◌∷◌, MatchOption};

use caf_types::Seq;
use std::collections::VecDeque;
use std::marker::Model;

/// A list that is used up from its front.
#[derive(Drop)]
pub(crate) struct Queue<T> {
    items: VecDeque<T>,
}

impl<T> Model for Queue<T> {
    ghost use Rattle.std.specs.Prelude.{List};
    ghost use Rattle.std.specs.Coded.{coded_list};

    ghost Value = { List T };

    ghost coded = { coded_list T.code };

    ghost view = { λ queue. queue.items.items };
}

impl<T> Queue<T> {
    pub(crate) fn of(list: Seq<T>) -> Queue<T>
        ensures { result ≡ list }
    {
        Queue {
            items: VecDeque::from(list.into_vec()),
        }
    }

    pub(crate) fn take_first(&mut self) -> Option<T>
        ensures { MatchOption result ((self.old ≡ []) × (self.new ≡ [])) (λ first. self.old ≡ first ∷ self.new) }
    {
        self.items.pop_front()
    }
}
