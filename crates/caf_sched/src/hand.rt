//! What one worker has of all deques.
ghost use Rattle.std.specs.Prelude.{◌≡◌, ◌+◌, ◌<◌, ◌++◌, [], ◌∷◌, length, All, MatchOption, OnOk, OnErr, IfOk};
ghost use Rattle.caf_sched.specs.Ends.{new_own, new_other};
ghost use Rattle.caf_sched.specs.Hand.{DrewOne, Draws, AllRose, NoneFell, HasDrawn, drawn_of, empties_of, new_hand};

use crate::ends::{Other, Own};
use caf_types::Memory;
use std::alloc::Global;
use std::marker::Model;
use std::sync::Wait;

/// What a draw found.
#[derive(Clone, Copy, Debug, PartialEq, Eq, Drop)]
pub enum Draw {
    /// A ticket, which no other hand draws.
    Ticket(u32),
    /// Each deque was tried once, and held nothing then.
    Empty,
}

/// A deque of its own, on which it puts tickets, and an end of each other deque, from which it steals.
///
/// Contracts see the tickets that it put, those that it drew, by deque, and its empty tries, by deque; its own deque
/// comes first.
#[derive(Drop)]
pub struct Hand {
    own: Own,
    others: Vec<Other>,
}

impl Model for Hand {
    ghost use Rattle.std.specs.Prelude.{◌∷◌};
    ghost use Rattle.caf_sched.specs.Hand.{HandSeen, drawn_of, empties_of};

    ghost Value = { HandSeen };

    ghost view = { λ h. record { puts = h.own.puts; drawn = h.own.drawn ∷ drawn_of h.others.items; empties = h.own.empties ∷ empties_of h.others.items } };
}

impl Hand {
    /// A hand of new ends.
    pub(crate) fn new(own: Own, others: Vec<Other>) -> Hand
        requires { (own ≡ new_own) × All (λ o. o ≡ new_other) others.items }
        ensures { result ≡ new_hand (length others.items + 1) }
    {
        Hand { own, others }
    }

    /// A further end of its own deque.
    pub(crate) fn other(&self) -> Result<Other, Memory>
        ensures { IfOk result (λ o. o ≡ new_other) }
    {
        self.own.other()
    }

    /// Adds a ticket at the back of its own deque. After want of memory the hand is as before.
    pub fn put(&mut self, ticket: u32) -> Result<(), Memory>
        ensures put { OnOk result (self.new ≡ record self.old { puts = self.old.puts ++ ticket ∷ [] }) }
        ensures kept { OnErr result (self.new ≡ self.old) }
    {
        self.own.put(ticket)
    }

    /// A ticket of its own deque, or else one that it steals. Each deque is tried at most once.
    ///
    /// `Empty` comes only where the number of empty tries rose for each deque in this call.
    pub fn draw<R: Wait>(&mut self, rt: &R) -> Draw
        ensures puts { self.new.puts ≡ self.old.puts }
        ensures found { Draws self.old self.new result }
        ensures counts { NoneFell self.old.empties self.new.empties }
        ensures made { HasDrawn self.new }
    {
        match self.find(rt) {
            Some(ticket) => Draw::Ticket(ticket),
            None => Draw::Empty,
        }
    }

    fn find<R: Wait>(&mut self, rt: &R) -> Option<u32>
        ensures puts { self.new.puts ≡ self.old.puts }
        ensures found { MatchOption result ((self.new.drawn ≡ self.old.drawn) × AllRose self.old.empties self.new.empties) (DrewOne self.old.drawn self.new.drawn) }
        ensures counts { NoneFell self.old.empties self.new.empties }
        ensures made { HasDrawn self.new }
    {
        if let Some(ticket) = self.own.draw() {
            return Some(ticket);
        }
        steal_one(rt, self.others.as_mut_slice())
    }
}

// Tries each of these ends, from the first on, until one has a ticket.
fn steal_one<R: Wait>(rt: &R, others: &mut [Other]) -> Option<u32>
    ensures count { length others.new ≡ length others.old }
    ensures found { MatchOption result ((drawn_of others.new ≡ drawn_of others.old) × AllRose (empties_of others.old) (empties_of others.new)) (DrewOne (drawn_of others.old) (drawn_of others.new)) }
    ensures counts { NoneFell (empties_of others.old) (empties_of others.new) }
{
    let Some((first, rest)) = others.split_first_mut() else {
        return None;
    };
    if let Some(ticket) = first.draw(rt) {
        return Some(ticket);
    }
    steal_one(rt, rest)
}
