//! The responses of a line.
ghost use Rattle.std.specs.Prelude.{◌≡◌, ℕ, suc, length, [], ◌∷◌, ◌++◌, Bool, false, OnOk, OnErr, IfSome, IfNone, Some, slice_get};
ghost use Rattle.std.specs.Bool.{OnTrue, OnFalse};
ghost use Rattle.std.specs.List.{AllByRecursion};
ghost use Rattle.std.specs.Option.{option_map};
ghost use Rattle.caf_message.specs.Envelope.{plain_envelope};
ghost use Rattle.caf_message.specs.declared.envelope.Taken.{Taken};
ghost use Rattle.caf_message.specs.Lists.{pick};
ghost use Rattle.caf_mailbox.specs.Arrived.{Arrived, arrived, at_arrived, is_to, number_taken};
ghost use Rattle.caf_mailbox.specs.Awaited as awaits;
ghost use Rattle.caf_mailbox.specs.Order.{AreBelow};
ghost use Rattle.caf_mailbox.specs.Responses.{no_responses, first_number, has_key, room_in, HereFirst, FollowsKeys, IsFirstTo, IsLastFree};

use crate::Awaited;
use crate::queue::Numbered;
use caf_message::Envelope;
use caf_types::Memory;
use std::alloc::Global;
use std::collections::{BTreeMap, BTreeSet};
use std::marker::Model;

/// A place for a response.
#[derive(Debug, Drop)]
pub(crate) struct Slot {
    /// The number of the request that it answers.
    pub(crate) request: u64,
    /// None until it is put in.
    pub(crate) envelope: Option<Envelope>,
}

/// Responses in order of arrival. One is found by the number of its request, and taken out of the
/// middle, in logarithmic time. The places for a batch are made first, so that putting the responses
/// in takes no memory.
#[derive(Debug, Drop)]
pub(crate) struct Responses {
    /// Places by number of arrival. Free ones stand behind all others.
    slots: BTreeMap<u64, Slot>,
    /// For each place the number of the request and the number of arrival.
    by_request: BTreeSet<(u64, u64)>,
}

impl Model for Responses {
    ghost use Rattle.caf_mailbox.specs.Responses.{CachedResponses, here_in, room_in, AreListed};

    ghost Value = { CachedResponses };

    ghost view = { λ responses. record { here = here_in responses.slots.entries; room = room_in responses.slots.entries } };

    ghost invariant = { λ responses. AreListed responses.slots.entries responses.by_request.keys };
}

impl Responses {
    /// No responses, and no places.
    pub(crate) fn new(alloc: Global) -> Responses
        ensures { result ≡ no_responses }
    {
        Responses {
            slots: BTreeMap::new(alloc),
            by_request: BTreeSet::new(alloc),
        }
    }

    /// Whether there is neither a response nor a place for one.
    pub(crate) fn is_empty(&self) -> bool
        ensures { OnTrue result (self.now ≡ no_responses) }
    {
        self.slots.is_empty()
    }

    /// Makes a place behind all others. After want of memory all is as before.
    pub(crate) fn make_place(&mut self, number: u64, request: u64) -> Result<(), Memory>
        requires here { AreBelow number self.old.here }
        requires room { AreBelow number self.old.room }
        ensures here { self.new.here ≡ self.old.here }
        ensures made { OnOk result (self.new.room ≡ self.old.room ++ (number, request) ∷ []) }
        ensures kept { OnErr result (self.new.room ≡ self.old.room) }
    {
        match self.by_request.insert((request, number)) {
            Ok(_) => {}
            Err(_) => return Err(Memory),
        }
        let slot = Slot {
            request,
            envelope: None,
        };
        match self.slots.insert(number, slot) {
            Ok(_) => Ok(()),
            Err(_) => {
                self.by_request.remove(&(request, number));
                Err(Memory)
            }
        }
    }

    /// Gives up all free places.
    pub(crate) fn give_up_places(&mut self)
        ensures here { self.new.here ≡ self.old.here }
        ensures room { self.new.room ≡ [] }
    {
        while self.give_up_last() {}
    }

    /// Gives up the last place, if it is free. Says whether it was.
    fn give_up_last(&mut self) -> bool
        ensures here { self.new.here ≡ self.old.here }
        ensures fewer { OnTrue result (length self.old.room ≡ suc (length self.new.room)) }
        ensures none { OnFalse result (self.new.room ≡ []) }
    {
        if !is_last_free(&self.slots) {
            return false;
        }
        match self.slots.pop_last() {
            Some((number, slot)) => {
                strike_out(&mut self.by_request, number, slot);
                true
            }
            None => false,
        }
    }

    /// Puts a response into the first free place, which was made for it.
    pub(crate) fn put_in(&mut self, number: u64, envelope: Envelope)
        requires { slice_get self.old.room 0 ≡ Some (number, envelope.mid.number) }
        ensures here { self.new.here ≡ self.old.here ++ (number, plain_envelope envelope) ∷ [] }
        ensures room { self.old.room ≡ (number, envelope.mid.number) ∷ self.new.room }
    {
        match self.slots.get_mut(&number) {
            Some(slot) => fill(slot, envelope),
            None => unreachable!(),
        }
    }

    /// The number of arrival of the first response that may be handled.
    pub(crate) fn first(&self, awaited: Awaited) -> Option<u64>
        ensures { (test : Taken → Bool) → AllByRecursion (λ z. test z.1 ≡ awaits.is_awaited awaited z.1.mid.number) self.now.here
            → result ≡ number_taken (pick (at_arrived test) self.now.here) }
    {
        match awaited {
            Awaited::Any => self.first_here(),
            Awaited::Only(request) => self.first_to(request),
            Awaited::Nothing => None,
        }
    }

    /// The number of arrival of the first one.
    fn first_here(&self) -> Option<u64>
        ensures { result ≡ first_number self.now.here }
    {
        match self.slots.first_key_value() {
            Some((number, slot)) => number_if_in(*number, slot),
            None => None,
        }
    }

    /// The number of arrival of the first one to the request of that number.
    fn first_to(&self, request: u64) -> Option<u64>
        ensures { result ≡ number_taken (pick (is_to request) self.now.here) }
    {
        let number = first_place_to(&self.by_request, request)?;
        match self.slots.get(&number) {
            Some(slot) => number_if_in(number, slot),
            None => None,
        }
    }

    /// Takes out the one that was found, if one was. No place is free.
    pub(crate) fn take(&mut self, found: Option<u64>) -> Option<Numbered>
        requires { self.old.room ≡ [] }
        ensures taken { (test : Arrived → Bool) → found ≡ number_taken (pick test self.old.here)
            → option_map (λ one. (arrived one, self.new.here)) result ≡ pick test self.old.here }
        ensures kept { IfNone result (self.new.here ≡ self.old.here) }
        ensures room { self.new.room ≡ [] }
    {
        let number = found?;
        let slot = self.slots.remove(&number)?;
        self.by_request.remove(&(slot.request, number));
        let envelope = slot.envelope?;
        Some(Numbered { number, envelope })
    }
}

/// The number of arrival, where the response is in.
fn number_if_in(number: u64, slot: &Slot) -> Option<u64>
    ensures { result ≡ option_map (λ e. number) slot.now.envelope }
{
    if slot.envelope.is_some() {
        return Some(number);
    }
    None
}

/// Puts a response in.
fn fill(slot: &mut Slot, envelope: Envelope)
    ensures { slot.new ≡ record { request = slot.old.request; envelope = Some envelope } }
{
    slot.envelope = Some(envelope);
}

/// Takes a place that is gone out of the numbers of requests.
fn strike_out(by_request: &mut BTreeSet<(u64, u64)>, number: u64, slot: Slot)
    ensures { FollowsKeys by_request.old.keys by_request.new.keys (slot.request, number) false }
{
    by_request.remove(&(slot.request, number));
}

/// Whether there is a last place, and no response is in it.
fn is_last_free(slots: &BTreeMap<u64, Slot>) -> bool
    ensures free { OnTrue result (IsLastFree slots.now.entries) }
    ensures full { OnFalse result (HereFirst slots.now.entries → room_in slots.now.entries ≡ []) }
{
    match slots.last_key_value() {
        Some((_, slot)) => {
            if slot.envelope.is_some() {
                return false;
            }
            true
        }
        None => false,
    }
}

/// The number of arrival of the first place that was made for a response to that request.
fn first_place_to(by_request: &BTreeSet<(u64, u64)>, request: u64) -> Option<u64>
    ensures some { IfSome result (λ n. IsFirstTo request n by_request.now.keys) }
    ensures none { IfNone result ((n : ℕ) → has_key by_request.now.keys (request, n) ≡ false) }
{
    match by_request.range((request, 0)..).next() {
        Some(key) => {
            if key.0 > request {
                return None;
            }
            Some(key.1)
        }
        None => None,
    }
}
