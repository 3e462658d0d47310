//! Which places have quit, as a watcher knows, and the requests that it holds until they are so many.
ghost use Rattle.std.specs.Prelude.{◌≡◌, ◌≤◌, ◌==◌, [], ◌∷◌, ◌++◌, length, map, filter, not, false, nat_lt, nat_le, IfOk, OnOk};
ghost use Rattle.std.specs.List.{list_any};
ghost use Rattle.caf_observe.specs.Places.{with_place};
ghost use Rattle.caf_actor.specs.PlainForms.{plain_output};
ghost use Rattle.caf_kinds.specs.Sights.{AreSights, no_sights, is_reached, places_content, sought, with_down, told, notified};
ghost use Rattle.caf_kinds.specs.Places.{numbers_of};

use crate::asking::small_message;
use crate::{One, PlaceList, PlaceNumber};
use caf_actor::{Origin, Output};
use caf_message::Message;
use caf_types::{Memory, Seq};
use std::alloc::{AllocError, Global};
use std::marker::Model;
use std::mem;

/// A request that is held until so many places have quit.
#[derive(Clone, Copy, Debug, Drop)]
pub struct Sought {
    /// Whose request it is.
    pub requester: u32,
    /// The requester's number of it.
    pub number: u64,
    /// How many places are sought.
    pub least: u64,
}

/// The places of which a down notice came, and the requests that are held until they are so many.
#[derive(Debug, Drop)]
pub struct Sights {
    /// In rising order.
    gone: Seq<PlaceNumber>,
    /// In the order in which they came.
    held: Seq<Sought>,
}

impl Model for Sights {
    ghost use Rattle.caf_kinds.specs.Sights as sights;
    ghost use Rattle.caf_kinds.specs.Sights.{AreSights};
    ghost use Rattle.caf_kinds.specs.Places.{numbers_of};

    ghost Value = { sights.Sights };

    ghost view = { λ it. record { gone = numbers_of it.gone; held = it.held } };

    ghost invariant = { λ it. AreSights (record { gone = numbers_of it.gone; held = it.held }) };
}

impl Sights {
    /// No place has quit, and no request is held.
    pub(crate) fn new(alloc: Global) -> Sights
        ensures { result ≡ no_sights }
    {
        Sights {
            gone: Seq::new(alloc),
            held: Seq::new(alloc),
        }
    }

    /// How many places have quit.
    pub(crate) fn count(&self) -> u64
        ensures count { result ≡ length self.now.gone }
        ensures valid { AreSights self.now }
    {
        self.gone.len()
    }

    /// The message [places] of those that have quit.
    pub(crate) fn places(&self, alloc: Global) -> Result<Message, Memory>
        ensures { IfOk result (λ message. message.content ≡ places_content self.now.gone) }
    {
        message_of(alloc, &self.gone)
    }

    /// Holds a request that seeks more places than have quit.
    pub(crate) fn hold(&mut self, origin: Origin, least: u64) -> Result<(), Memory>
        requires { nat_le least (length self.old.gone) ≡ false }
        ensures { OnOk result (self.new ≡ record self.old { held = self.old.held ++ sought origin least ∷ [] }) }
    {
        self.held.push(Sought {
            requester: origin.mid.requester,
            number: origin.mid.number,
            least,
        })
    }

    /// Takes in that a down notice of the place came, and delivers the held requests that are reached
    /// now. Nothing is looked through where that was known.
    pub(crate) fn notify(&mut self, alloc: Global, place: u32) -> Result<Seq<Output>, Memory>
        ensures { IfOk result (λ outputs. (self.new, map plain_output outputs) ≡ notified self.old (with_down self.old.gone place)) }
    {
        match PlaceNumber::new(place) {
            Some(place) => self.notify_of(alloc, place),
            None => {
                self.know();
                Ok(Seq::new(alloc))
            }
        }
    }

    fn know(&self)
        ensures { AreSights self.now }
    {
        let _ = &self.gone;
    }

    fn notify_of(&mut self, alloc: Global, place: PlaceNumber) -> Result<Seq<Output>, Memory>
        ensures { IfOk result (λ outputs. (self.new, map plain_output outputs) ≡ notified self.old (with_place self.old.gone place.number)) }
    {
        if has(self.gone.as_slice(), place) {
            return Ok(Seq::new(alloc));
        }
        let gone = with(alloc, self.gone.as_slice(), place)?;
        let held = mem::replace(&mut self.held, Seq::new(alloc));
        let (held, outputs) = split(alloc, &gone, held)?;
        self.gone = gone;
        self.held = held;
        Ok(outputs)
    }
}

fn has(places: &[PlaceNumber], place: PlaceNumber) -> bool
    ensures { result ≡ list_any (λ (p : PlaceNumber). p.number == place.number) places.now }
{
    places.iter().any(|known| known.number() == place.number())
}

/// The places below it, it, and the places above it.
fn with(
    alloc: Global,
    places: &[PlaceNumber],
    place: PlaceNumber,
) -> Result<Seq<PlaceNumber>, Memory>
    ensures { IfOk result (λ all. numbers_of all ≡ with_place (numbers_of places.now) place.number) }
{
    let mut all = below(alloc, places, place)?;
    all.push(place)?;
    let above = above(alloc, places, place)?;
    all.extend_from_slice(above.as_slice())?;
    Ok(Seq::of_vec(all))
}

fn below(
    alloc: Global,
    places: &[PlaceNumber],
    place: PlaceNumber,
) -> Result<Vec<PlaceNumber>, AllocError>
    ensures { IfOk result (λ all. all.items ≡ filter (λ (p : PlaceNumber). nat_lt p.number place.number) places.now) }
{
    let places = places.iter().copied();
    places
        .filter(|known| known.number() < place.number())
        .collect(alloc)
}

fn above(
    alloc: Global,
    places: &[PlaceNumber],
    place: PlaceNumber,
) -> Result<Vec<PlaceNumber>, AllocError>
    ensures { IfOk result (λ all. all.items ≡ filter (λ (p : PlaceNumber). nat_lt place.number p.number) places.now) }
{
    let places = places.iter().copied();
    places
        .filter(|known| known.number() > place.number())
        .collect(alloc)
}

/// The requests that aren't reached by these places, and the others delivered them.
fn split(
    alloc: Global,
    gone: &Seq<PlaceNumber>,
    held: Seq<Sought>,
) -> Result<(Seq<Sought>, Seq<Output>), Memory>
    requires { length gone.now ≤ 256 }
    ensures kept { IfOk result (λ parts. parts.0 ≡ filter (λ h. not (is_reached (length gone.now) h)) held) }
    ensures delivered { IfOk result (λ parts. map plain_output parts.1 ≡ map (told (numbers_of gone.now)) (filter (is_reached (length gone.now)) held)) }
{
    let count = gone.len();
    let mut kept = Seq::new(alloc);
    let mut outputs = Seq::new(alloc);
    for sought in held.into_vec() {
        if sought.least <= count {
            let message = message_of(alloc, gone)?;
            outputs.push(Output::Deliver(sought.requester, sought.number, message))?;
        } else {
            kept.push(sought)?;
        }
    }
    Ok((kept, outputs))
}

/// The message [places].
fn message_of(alloc: Global, places: &Seq<PlaceNumber>) -> Result<Message, Memory>
    requires { length places.now ≤ 256 }
    ensures { IfOk result (λ message. message.content ≡ places_content (numbers_of places.now)) }
{
    let places = Vec::from_slice(alloc, places.as_slice())?;
    small_message(alloc, &One(PlaceList(Seq::of_vec(places))))
}
