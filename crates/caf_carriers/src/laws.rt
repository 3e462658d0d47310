//! The laws of carriers. A law is the contract of a function that does nothing; each holds for any
//! behaviour, any number of places and any number of ticks, in every state of every run that opens
//! with actors that have taken nothing. The machine of all places on one thread, the carriers of a
//! request and its resolutions are defined in `caf_actor` (`Run`, `Carriers`, `Resolutions`).
ghost use Rattle.caf_actor.specs.Carriers.{OneCarrier, CarrierArises, ResolvesOnce, WaitsOrIsResolved, StandsInOnePlace, ClosesAll};
ghost use Rattle.caf_actor.specs.Record.{machine_of};
ghost use Rattle.caf_carriers.specs.Delivery.{CompleteIsAllTaken, NoneHandledAfterQuitting};
ghost use Rattle.caf_carriers.specs.Requests.{LegalIsCarried, RestingStands};

use caf_actor::Behavior;

/// In every state of a run, a request that waits has exactly one carrier and at most one due count;
/// one that isn't issued yet and one that a response resolved have no carrier; and every other one,
/// as one that its due count resolved or that its requester forgot when it quit, has at most one
/// carrier and no due count.
pub fn one_carrier<B: Behavior>()
    ensures { OneCarrier B.is_valid B.rules }
{}

/// A step makes a carrier only where it issues the request, or out of the carrier that there was.
pub fn carrier_arises<B: Behavior>()
    ensures { CarrierArises B.is_valid B.rules }
{}

/// No request is resolved twice.
pub fn resolves_once<B: Behavior>()
    ensures { ResolvesOnce B.is_valid B.rules }
{}

/// What an actor issued that hasn't quit waits, or it was resolved exactly once.
pub fn waits_or_is_resolved<B: Behavior>()
    ensures { WaitsOrIsResolved B.is_valid B.rules }
{}

/// Where all is at rest, a request that an actor issued that hasn't quit, and that wasn't resolved,
/// stands in exactly one place: one hold, or one cached envelope that isn't eligible.
pub fn stands_in_one_place<B: Behavior>()
    ensures { StandsInOnePlace B.is_valid B.rules }
{}

/// Where the record of a closer at place 0 is complete, every other place has quit, and each request
/// that place 0 issued was resolved exactly once.
pub fn closes_all<B: Behavior>()
    ensures { ClosesAll B.is_valid B.rules }
{}

/// In a complete record every message sent was taken once, as sent, in order per sender: what a place
/// took from another, in the order of taking, is what the other sent to it, in the order of sending.
pub fn every_message_is_taken<B: Behavior>()
    ensures { CompleteIsAllTaken (machine_of B.rules) }
{}

/// None is handled after quitting: once an actor has quit, nothing that leaves its lists reaches its
/// behaviour, neither in that batch nor in a later one.
pub fn none_handled_after_quitting<B: Behavior>()
    ensures { NoneHandledAfterQuitting B.rules }
{}

/// In the run that a legal record's merge is, each request is carried in every state; none is resolved
/// twice, and each by a value of the declared types or by an error; and what an actor issued that hasn't
/// quit waits at the end, or it was resolved.
pub fn legal_record_is_carried<B: Behavior>()
    ensures { LegalIsCarried B.is_valid B.rules }
{}

/// At the end of a legal record that is at rest, as a complete one is, an unresolved request of an actor
/// that hasn't quit stands in exactly one place: one hold, or one cached envelope; and no cached envelope
/// is eligible.
pub fn resting_record_stands<B: Behavior>()
    ensures { RestingStands B.is_valid B.rules }
{}
