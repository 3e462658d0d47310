//! A conductor plays its script, step by step, and keeps what became of each step.
ghost use Rattle.std.specs.Prelude.{◌≡◌, ◌++◌, map, IfOk, OnOk};
ghost use Rattle.caf_types.specs.TypeTable.{seen};
ghost use Rattle.caf_types.specs.Table.{shape_at};
ghost use Rattle.caf_message.specs.Fits.{FitsTable};
ghost use Rattle.caf_actor.specs.PlainForms.{plain_input, plain_output, plain_reaction};
ghost use Rattle.caf_actor.specs.PlainReaction as answer;
ghost use Rattle.caf_actor.specs.Rules.{InputFits};
ghost use Rattle.caf_script.specs.Reply.{plain_reply};
ghost use Rattle.caf_script.specs.Reply as reply;
ghost use Rattle.caf_script.specs.Script.{goes_on, answered, resolved, ticked};
ghost use Rattle.caf_kinds.specs.Reacting as reacting;
ghost use Rattle.caf_kinds.specs.Conductor.{IsPlan, IsConducting};
ghost use Rattle.caf_kinds.specs.Conductor as conductor;

use crate::asking::{answers, failed, interface, quiet};
use crate::{Identity, Signal, Typed};
use caf_actor::{Answer, Input, Output, Reaction};
use caf_message::Message;
use caf_script::{Script, StepReply};
use caf_signature::Interface;
use caf_types::{Memory, Places, Sec, Seq, TypeTable};
use std::alloc::Global;
use std::marker::Model;

/// What every conductor takes: nothing.
#[derive(Debug, Drop)]
pub struct ConductorKind;

impl Typed for ConductorKind {
    ghost interface = { conductor.interface };

    fn interface(alloc: Global) -> Result<Interface, Memory> {
        interface(alloc, Seq::new(alloc))
    }
}

/// Plays its script, step by step, and keeps what became of each step. Its peers are all other actors.
#[derive(Debug, Drop)]
pub struct Conductor {
    identity: Identity<ConductorKind>,
    script: Script,
}

impl Model for Conductor {
    ghost use Rattle.caf_kinds.specs.Conductor.{Conducting, IsPlan};

    ghost Value = { Conducting };

    ghost view = { λ it. record { identity = it.identity; script = it.script } };

    ghost invariant = { λ it. IsPlan it.identity.peers it.script.plan };
}

impl Conductor {
    /// A conductor of this script.
    pub(crate) fn new(identity: Identity<ConductorKind>, script: Script) -> Conductor
        requires { IsPlan identity.peers script.plan }
        ensures { result ≡ record { identity = identity; script = script } }
    {
        Conductor { identity, script }
    }

    pub(crate) fn interface(&self) -> &Interface
        ensures value { result.now ≡ conductor.interface }
        ensures valid { IsConducting self.now }
    {
        let _ = &self.script;
        self.identity.interface()
    }

    pub(crate) fn reserve(&self) -> &Places
        ensures value { result.now ≡ self.now.identity.reserve }
        ensures valid { IsConducting self.now }
    {
        let _ = &self.script;
        self.identity.reserve()
    }

    /// What became of each step.
    pub(crate) fn replies(&self) -> &Seq<StepReply>
        ensures { map plain_reply result.now ≡ self.now.script.replies }
    {
        self.script.replies()
    }

    pub(crate) fn react(
        &mut self,
        alloc: Global,
        table: &TypeTable,
        input: Input,
    ) -> Result<Reaction, Memory>
        requires { InputFits (shape_at (seen table.now)) (plain_input input) }
        ensures { IfOk result (λ reaction. (self.new, plain_reaction reaction) ≡ conductor.reacted self.old (plain_input input)) }
    {
        match input {
            Input::Start => self.begin(alloc),
            Input::Stop => self.stop(alloc),
            Input::Tick => self.tick(alloc),
            Input::Response(tag, message) => self.answer(alloc, table, tag, message),
            Input::Failed(tag, why) => self.fail(alloc, tag, why),
            Input::Down(_, _) => Ok(quiet(alloc)),
            Input::Content(_, _) => Ok(answers(alloc, failed())),
        }
    }

    fn begin(&mut self, alloc: Global) -> Result<Reaction, Memory>
        ensures { IfOk result (λ reaction. (self.new, plain_reaction reaction) ≡ conductor.plays self.old (goes_on self.old.script)) }
    {
        let outputs = self.script.go_on(alloc)?;
        Ok(sends(outputs))
    }

    fn answer(
        &mut self,
        alloc: Global,
        table: &TypeTable,
        tag: u32,
        message: Message,
    ) -> Result<Reaction, Memory>
        requires { FitsTable (seen table.now) message.content }
        ensures { IfOk result (λ reaction. (self.new, plain_reaction reaction) ≡ conductor.plays self.old (goes_on (answered self.old.script tag message.content))) }
    {
        let outputs = self.script.answer(alloc, table, tag, message)?;
        Ok(sends(outputs))
    }

    fn fail(&mut self, alloc: Global, tag: u32, why: Sec) -> Result<Reaction, Memory>
        ensures { IfOk result (λ reaction. (self.new, plain_reaction reaction) ≡ conductor.plays self.old (goes_on (resolved self.old.script tag (reply.Failed why)))) }
    {
        let outputs = self.script.fail(alloc, tag, why)?;
        Ok(sends(outputs))
    }

    /// Hands the tick on, and then goes on with the script.
    fn tick(&mut self, alloc: Global) -> Result<Reaction, Memory>
        ensures { IfOk result (λ reaction. (self.new, plain_reaction reaction) ≡ conductor.ticks self.old (goes_on (ticked self.old.script))) }
    {
        let peers = self.identity.peers();
        let mut outputs = Signal::Tick.to_all(alloc, peers.as_slice())?;
        let played = self.script.tick(alloc)?;
        append(&mut outputs, played)?;
        Ok(sends(outputs))
    }

    /// Tells all others to quit; the script is over.
    fn stop(&mut self, alloc: Global) -> Result<Reaction, Memory>
        ensures { IfOk result (λ reaction. (self.new, plain_reaction reaction) ≡ conductor.stops self.old) }
    {
        let peers = self.identity.peers();
        let outputs = Signal::Kill.to_all(alloc, peers.as_slice())?;
        self.script.stop();
        Ok(sends(outputs))
    }
}

/// These outputs, and no answer.
fn sends(outputs: Seq<Output>) -> Reaction
    ensures { plain_reaction result ≡ reacting.sends (map plain_output outputs) answer.Nothing }
{
    Reaction {
        outputs,
        answer: Answer::Nothing,
        quit: None,
    }
}

fn append(outputs: &mut Seq<Output>, more: Seq<Output>) -> Result<(), Memory>
    ensures { OnOk result (outputs.new ≡ outputs.old ++ more) }
{
    for output in more.into_vec() {
        outputs.push(output)?;
    }
    Ok(())
}
