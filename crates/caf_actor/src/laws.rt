//! What the layers above rest on besides the calls of an actor: how one message goes to several
//! places, and laws that follow from the definitions alone. A law is the contract of a function that
//! does nothing.
ghost use Rattle.caf_actor.specs.Carriers.{EndsAsDeclared, CarriersRest};
ghost use Rattle.caf_actor.specs.Resolutions.{TakesOutWhatItResolves, GivesWhatItResolves, NoneAfterQuitting};

use crate::Behavior;
pub use crate::sharing::{address, another_message};

/// In every run, a request is resolved by a value of the types that it declared, or by an error.
pub fn requests_end_as_declared<B: Behavior>()
    ensures { EndsAsDeclared B.is_valid B.rules }
{}

/// Where all is at rest, each carrier of a request is a hold or a cached envelope, and no cached
/// envelope is eligible.
pub fn carriers_rest_in_holds_and_lists<B: Behavior>()
    ensures { CarriersRest B.is_valid B.rules }
{}

/// Once an actor has quit, no batch reaches its behaviour or changes its reason, and none resolves a
/// request.
pub fn none_handled_after_quitting<B: Behavior>()
    ensures { NoneAfterQuitting B.rules }
{}

/// What an envelope resolves is what its handling takes out of the waiting requests; these change else
/// only by issuing and by a quit.
pub fn takes_out_what_it_resolves<B: Behavior>()
    ensures { TakesOutWhatItResolves B.rules }
{}

/// A response gives the behaviour what it resolves, and nothing else; a response that isn't waited for
/// gives it nothing.
pub fn gives_what_it_resolves<B: Behavior>()
    ensures { GivesWhatItResolves B.rules }
{}
