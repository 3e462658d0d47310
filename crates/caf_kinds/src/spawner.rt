//! A spawner starts its children, one after the other, and lets them add in turn.
ghost use Rattle.std.specs.Prelude.{◌≡◌, ◌<◌, slice_get, IfOk, IfSome};
ghost use Rattle.caf_kinds.specs.declared.place.PlaceNumber.{PlaceNumber};
ghost use Rattle.std.specs.Option.{option_map};
ghost use Rattle.caf_words.specs.Several.{ids_of};
ghost use Rattle.caf_actor.specs.PlainForms.{plain_input, plain_reaction};
ghost use Rattle.caf_kinds.specs.Spawner as spawner;

use crate::asking::{answers, failed, has, has_same_ids, interface, quiet, small_message, takes};
use crate::{Add, Identity, One, PlaceNumber, Signed, Spawn, Three, Typed};
use caf_actor::{Answer, Input, Output, Reaction};
use caf_message::Message;
use caf_signature::Interface;
use caf_types::{Memory, Places, Sec, Seq, TypeId, TypeIds};
use std::alloc::Global;

/// What every spawner takes.
#[derive(Debug, Drop)]
pub struct SpawnerKind;

impl Typed for SpawnerKind {
    ghost interface = { spawner.interface };

    fn interface(alloc: Global) -> Result<Interface, Memory> {
        let mut signatures = Seq::new(alloc);
        takes::<One<Spawn>, One<PlaceNumber>>(alloc, &mut signatures)?;
        takes::<Three<Add, Signed, Signed>, One<Signed>>(alloc, &mut signatures)?;
        interface(alloc, signatures)
    }
}

/// Starts its children, one after the other, and lets them add in turn.
#[derive(Debug, Drop)]
pub struct Spawner {
    pub(crate) identity: Identity<SpawnerKind>,
    /// How many of its children were started, in the order of its reserve.
    pub(crate) started: u64,
    /// How many contents it passed on. The number stops at 2^64 - 1.
    pub(crate) passed: u64,
}

impl Spawner {
    pub(crate) fn react(&mut self, alloc: Global, input: Input) -> Result<Reaction, Memory>
        ensures { IfOk result (λ reaction. (self.new, plain_reaction reaction) ≡ spawner.reacted self.old (plain_input input)) }
    {
        match input {
            Input::Content(_, message) => self.take(alloc, message),
            Input::Start
            | Input::Stop
            | Input::Tick
            | Input::Response(_, _)
            | Input::Failed(_, _)
            | Input::Down(_, _) => Ok(quiet(alloc)),
        }
    }

    fn take(&mut self, alloc: Global, message: Message) -> Result<Reaction, Memory>
        ensures { IfOk result (λ reaction. (self.new, plain_reaction reaction) ≡ spawner.given self.old message.content) }
    {
        let mut message = message;
        if has::<One<Spawn>>(alloc, &mut message)? {
            return self.begin(alloc);
        }
        if has::<Three<Add, Signed, Signed>>(alloc, &mut message)? {
            return Ok(self.pass(alloc));
        }
        Ok(answers(alloc, failed()))
    }

    /// Starts the next child.
    fn begin(&mut self, alloc: Global) -> Result<Reaction, Memory>
        ensures { IfOk result (λ reaction. (self.new, plain_reaction reaction) ≡ spawner.begins self.old (slice_get self.old.identity.reserve self.old.started)) }
    {
        match self.child(self.started) {
            Some(child) => {
                self.started += 1;
                begun(alloc, child)
            }
            None => Ok(answers(alloc, Answer::Error(Sec::NoPlace))),
        }
    }

    /// The child at that position of the reserve.
    fn child(&self, position: u64) -> Option<PlaceNumber>
        ensures place { option_map (λ (p : PlaceNumber). p.number) result ≡ slice_get self.now.identity.reserve position }
        ensures position { IfSome result (λ place. position < 18446744073709551615) }
    {
        let reserve = self.identity.reserve();
        if position >= reserve.len() {
            return None;
        }
        PlaceNumber::new(*reserve.get(position)?)
    }

    /// Passes content on to the started child whose turn it is.
    fn pass(&mut self, alloc: Global) -> Reaction
        ensures { (self.new, plain_reaction result) ≡ spawner.passes self.old (spawner.in_turn self.old) }
    {
        match self.in_turn() {
            Some(child) => {
                self.passed = self.passed.saturating_add(1);
                answers(alloc, Answer::Delegate(child))
            }
            None => answers(alloc, failed()),
        }
    }

    fn in_turn(&self) -> Option<u32>
        ensures { result ≡ spawner.in_turn self.now }
    {
        if self.started == 0 {
            return None;
        }
        let position = self.passed % self.started;
        self.identity.reserve().get(position).copied()
    }
}

/// The child begins, and its place is the answer.
fn begun(alloc: Global, child: PlaceNumber) -> Result<Reaction, Memory>
    ensures { IfOk result (λ reaction. plain_reaction reaction ≡ spawner.begun child.number) }
{
    let mut outputs = Seq::new(alloc);
    outputs.push(Output::Spawn(child.number()))?;
    let message = small_message(alloc, &One(child))?;
    Ok(Reaction {
        outputs,
        answer: Answer::Value(message),
        quit: None,
    })
}

/// Whether every spawner passes content of these types on.
pub(crate) fn passes_on(types: &TypeIds) -> bool
    ensures { result ≡ spawner.delegates (ids_of types.now) }
{
    let added = [TypeId(211), TypeId(3), TypeId(3)];
    has_same_ids(added.as_slice(), types.as_slice())
}
