//! The rule of a deque of tickets, and what a push, a pop and a steal tell the end that makes them.

use crate::view::View;
use crossbeam_deque::protocol::{Outcome, Protocol};

/// Each ticket that was put was drawn at one end, or is held.
pub struct Tickets;

impl Protocol<u32, View> for Tickets {
    ghost use Rattle.std.specs.Prelude.{[]};
    ghost use Rattle.caf_sched.specs.Tickets.{TicketRule, view};

    ghost holds = { TicketRule };

    ghost first = { view [] [] };

    ghost guest = { view [] [] };
}

/// What is pushed is put.
pub struct Puts;

impl Outcome<u32, View> for Puts {
    ghost use Rattle.std.specs.Prelude.{◌≡◌, ◌++◌};
    ghost use Rattle.caf_sched.specs.Tickets.{view};

    ghost then = { λ v xs w. w ≡ view (v.puts ++ xs) v.drawn };
}

/// What is popped or stolen is drawn.
pub struct Draws;

impl Outcome<u32, View> for Draws {
    ghost use Rattle.std.specs.Prelude.{◌≡◌, ◌++◌};
    ghost use Rattle.caf_sched.specs.Tickets.{view};

    ghost then = { λ v xs w. w ≡ view v.puts (v.drawn ++ xs) };
}
