//! The laws of steady actors. A law is the contract of a function that does nothing.
ghost use Rattle.caf_steady.specs.Classes.{TakesItsClass};
ghost use Rattle.caf_steady.specs.Steady.{ReadsInTurn};

use caf_actor::Behavior;

/// An actor that stays steady has, after any batches, the outline and has sent what follows from
/// reading what it took in turn; and nothing waits in its lists.
pub fn steady_actors_read_in_turn<B: Behavior>()
    ensures { ReadsInTurn B.rules }
{}

/// Where each place, given what may come to it, stays steady and sends only what may come to others,
/// each place of a legal record in which the outside sent Start alone took only what may come to it.
pub fn each_place_takes_its_class<B: Behavior>()
    ensures { TakesItsClass B.rules }
{}
