//! Requests that are held with their texts, in the order in which they came.
ghost use Rattle.std.specs.Prelude.{◌≡◌, [], ◌∷◌, ◌++◌, length, map, OnOk, OnErr, IfOk};
ghost use Rattle.caf_actor.specs.PlainForms.{plain_output};
ghost use Rattle.caf_kinds.specs.Asking.{of_text};
ghost use Rattle.caf_kinds.specs.Lawful.{IsContentOf};
ghost use Rattle.caf_kinds.specs.Held.{held, held_view, delivered, AreTexts};

use caf_actor::{Origin, Output};
use caf_message::Message;
use caf_types::{Memory, Seq};
use std::alloc::Global;
use std::marker::Model;

/// A held request, and the text that it is answered by.
#[derive(Debug, Drop)]
pub struct HeldRequest {
    requester: u32,
    number: u64,
    message: Message,
}

/// Held requests with their texts, in the order in which they came.
#[derive(Debug, Drop)]
pub struct HeldTexts {
    requests: Seq<HeldRequest>,
}

impl Model for HeldTexts {
    ghost use Rattle.std.specs.Prelude.{List, map};
    ghost use Rattle.caf_kinds.specs.Held.{Held, held_view, AreTexts};

    ghost Value = { List Held };

    ghost view = { λ it. map held_view it.requests };

    ghost invariant = { λ it. AreTexts (map held_view it.requests) };
}

impl HeldTexts {
    /// No request.
    pub(crate) fn new(alloc: Global) -> HeldTexts
        ensures { result ≡ [] }
    {
        HeldTexts {
            requests: Seq::new(alloc),
        }
    }

    /// How many there are.
    pub(crate) fn len(&self) -> u64
        ensures { result ≡ length self.now }
    {
        self.requests.len()
    }

    /// That each is a text.
    pub(crate) fn know(&self)
        ensures { AreTexts self.now }
    {
        let _ = &self.requests;
    }

    /// Holds the request with its text.
    pub(crate) fn hold(&mut self, origin: Origin, text: Message) -> Result<(), Memory>
        requires { IsContentOf of_text text.content }
        ensures { OnOk result (self.new ≡ self.old ++ held origin text.content ∷ []) }
    {
        self.requests.push(HeldRequest {
            requester: origin.mid.requester,
            number: origin.mid.number,
            message: text,
        })
    }

    /// Delivers each its text.
    pub(crate) fn deliver_all(self, alloc: Global) -> Result<Seq<Output>, Memory>
        ensures { IfOk result (λ outputs. map plain_output outputs ≡ map delivered self) }
    {
        let HeldTexts { requests } = self;
        delivered(alloc, requests)
    }
}

fn delivered(alloc: Global, requests: Seq<HeldRequest>) -> Result<Seq<Output>, Memory>
    ensures { IfOk result (λ outputs. map plain_output outputs ≡ map delivered (map held_view requests)) }
{
    let mut outputs = Seq::new(alloc);
    for request in requests.into_vec() {
        let HeldRequest {
            requester,
            number,
            message,
        } = request;
        outputs.push(Output::Deliver(requester, number, message))?;
    }
    Ok(outputs)
}
