//! What an actor does with one envelope that has left its list.
ghost use Rattle.std.specs.Prelude.{◌≡◌, OnOk, IfOk, IsOk, false};
ghost use Rattle.caf_types.specs.Table.{shape_at};
ghost use Rattle.caf_types.specs.TypeTable.{seen};
ghost use Rattle.caf_message.specs.Content.{ids_in};
ghost use Rattle.caf_message.specs.Entries.{HasEntries};
ghost use Rattle.caf_message.specs.Envelope.{plain_body, plain_envelope, BodyFits, EnvelopeFits};
ghost use Rattle.caf_message.specs.Fits.{FitsTable};
ghost use Rattle.caf_response.specs.declared.pending.Waiting.{Waiting};
ghost use Rattle.caf_response.specs.Pending.{is_waiting};
ghost use Rattle.caf_actor.specs.PlainForms.{plain_input, reached};
ghost use Rattle.caf_actor.specs.Answering.{is_asked};
ghost use Rattle.caf_actor.specs.Rules.{MayBeGiven, InputFits, is_input};
ghost use Rattle.caf_actor.specs.Reacting as reacting;
ghost use Rattle.caf_actor.specs.Handling.{response_input, failure_input, TakesNoMemory};
ghost use Rattle.caf_actor.specs.Effect.{KeepsTurn};
ghost use Rattle.caf_actor.specs.Handling as handling;

use crate::content::{has_types, passing_of};
use crate::post::Posts;
use crate::{Behavior, Input, Origin, Snapshot};
use caf_message::{Body, Envelope, Message};
use caf_types::{Memory, Notice, Reason, Sec, TypeTable};
use std::alloc::Global;

/// Whether an envelope may have changed which of the cached ones are eligible.
#[derive(Clone, Copy, Debug, PartialEq, Eq)]
pub(crate) enum Effect {
    /// The behaviour, what it awaits, and whether the actor has begun and quit are as before.
    Same,
    /// They may have changed.
    Changed,
}

impl<B: Behavior> Snapshot<B> {
    fn handle_content(
        &mut self,
        alloc: Global,
        table: &TypeTable,
        posts: &mut Posts,
        origin: Origin,
        message: Message,
    ) -> Result<Effect, Memory>
        requires entries { HasEntries (seen table.now) B.entries }
        requires fits { FitsTable (seen table.now) message.content }
        ensures handled { OnOk result (handling.handle_content B.rules (reached self.old posts.old) origin message.content ≡ reached self.new posts.new) }
        ensures dropped { is_input (B.rules.interface self.old.behavior) (ids_in message.content) ≡ false → is_asked origin ≡ false → IsOk result }
        ensures same { IfOk result (λ effect. KeepsTurn effect self.old self.new) }
    {
        let mut message = message;
        match passing_of(&self.behavior, &mut message) {
            Some(passes) => {
                self.give_content(alloc, table, posts, origin, message, passes)?;
                Ok(Effect::Changed)
            }
            None => {
                self.refuse(posts, origin, Sec::UnexpectedMessage)?;
                Ok(Effect::Same)
            }
        }
    }

    /// A response that isn't waited for is dropped.
    fn handle_response(
        &mut self,
        alloc: Global,
        table: &TypeTable,
        posts: &mut Posts,
        number: u64,
        message: Message,
    ) -> Result<Effect, Memory>
        requires entries { HasEntries (seen table.now) B.entries }
        requires fits { FitsTable (seen table.now) message.content }
        ensures handled { OnOk result (handling.handle_response B.rules (reached self.old posts.old) number (λ (w : Waiting). response_input w message.content) ≡ reached self.new posts.new) }
        ensures dropped { is_waiting self.old.pending number ≡ false → IsOk result }
        ensures same { IfOk result (λ effect. KeepsTurn effect self.old self.new) }
    {
        let mut message = message;
        match self.pending.resolve(number) {
            None => Ok(Effect::Same),
            Some(waiting) => {
                if has_types(&mut message, waiting.expected.as_slice()) {
                    self.give(alloc, table, posts, Input::Response(waiting.tag, message))?;
                    return Ok(Effect::Changed);
                }
                let input = Input::Failed(waiting.tag, Sec::UnexpectedResponse);
                self.give(alloc, table, posts, input)?;
                Ok(Effect::Changed)
            }
        }
    }

    fn handle_failure(
        &mut self,
        alloc: Global,
        table: &TypeTable,
        posts: &mut Posts,
        number: u64,
        sec: Sec,
    ) -> Result<Effect, Memory>
        requires entries { HasEntries (seen table.now) B.entries }
        ensures handled { OnOk result (handling.handle_response B.rules (reached self.old posts.old) number (λ (w : Waiting). failure_input w sec) ≡ reached self.new posts.new) }
        ensures dropped { is_waiting self.old.pending number ≡ false → IsOk result }
        ensures same { IfOk result (λ effect. KeepsTurn effect self.old self.new) }
    {
        match self.pending.resolve(number) {
            None => Ok(Effect::Same),
            Some(waiting) => {
                self.give(alloc, table, posts, Input::Failed(waiting.tag, sec))?;
                Ok(Effect::Changed)
            }
        }
    }

    /// Takes the place of an exit notice out of the links, and quits for any reason but `Normal`.
    /// Place 0 drops exit notices.
    fn handle_exit(
        &mut self,
        alloc: Global,
        posts: &mut Posts,
        from: u32,
        reason: Reason,
    ) -> Result<Effect, Memory>
        ensures handled { OnOk result (handling.handle_exit (reached self.old posts.old) from reason ≡ reached self.new posts.new) }
        ensures dropped { self.old.place ≡ 0 → IsOk result }
        ensures normal { reason ≡ Reason.Normal → IsOk result }
        ensures same { IfOk result (λ effect. KeepsTurn effect self.old self.new) }
    {
        if self.place == 0 {
            return Ok(Effect::Same);
        }
        self.observers.unlink(from);
        match reason {
            Reason::Normal => return Ok(Effect::Same),
            Reason::UserShutdown => self.quit_with(alloc, posts, Reason::UserShutdown)?,
            Reason::Kill => self.quit_with(alloc, posts, Reason::Kill)?,
            Reason::Failed => self.quit_with(alloc, posts, Reason::Failed)?,
        }
        Ok(Effect::Changed)
    }

    /// Gives the behaviour an input, which may change all that it skips.
    fn tell_behavior(
        &mut self,
        alloc: Global,
        table: &TypeTable,
        posts: &mut Posts,
        input: Input,
    ) -> Result<Effect, Memory>
        requires entries { HasEntries (seen table.now) B.entries }
        requires fits { InputFits (shape_at (seen table.now)) (plain_input input) }
        requires given { MayBeGiven B.rules self.old.behavior (plain_input input) }
        ensures given { OnOk result (reacting.give B.rules (reached self.old posts.old) (plain_input input) ≡ reached self.new posts.new) }
        ensures same { IfOk result (λ effect. KeepsTurn effect self.old self.new) }
    {
        self.give(alloc, table, posts, input)?;
        Ok(Effect::Changed)
    }

    fn handle_notice(
        &mut self,
        alloc: Global,
        table: &TypeTable,
        posts: &mut Posts,
        notice: Notice,
    ) -> Result<Effect, Memory>
        requires entries { HasEntries (seen table.now) B.entries }
        ensures handled { OnOk result (handling.handle_notice B.rules (reached self.old posts.old) notice ≡ reached self.new posts.new) }
        ensures free { TakesNoMemory self.old.observers notice → IsOk result }
        ensures same { IfOk result (λ effect. KeepsTurn effect self.old self.new) }
    {
        match notice {
            Notice::Start => self.tell_behavior(alloc, table, posts, Input::Start),
            Notice::Stop => self.tell_behavior(alloc, table, posts, Input::Stop),
            Notice::Exit(from, reason) => self.handle_exit(alloc, posts, from, reason),
            Notice::Down(from, reason) => {
                self.tell_behavior(alloc, table, posts, Input::Down(from, reason))
            }
            Notice::Link(from) => {
                self.observers.link(from)?;
                Ok(Effect::Same)
            }
            Notice::Unlink(from) => {
                self.observers.unlink(from);
                Ok(Effect::Same)
            }
            Notice::Watch(from) => {
                self.observers.watch(from)?;
                Ok(Effect::Same)
            }
            Notice::Unwatch(from) => {
                self.observers.unwatch(from);
                Ok(Effect::Same)
            }
            Notice::Begin(_) => {
                self.has_begun = true;
                Ok(Effect::Changed)
            }
            Notice::Tick(_) => {
                self.handle_tick(alloc, table, posts)?;
                Ok(Effect::Changed)
            }
        }
    }

    /// Does what an envelope asks.
    pub(crate) fn handle(
        &mut self,
        alloc: Global,
        table: &TypeTable,
        posts: &mut Posts,
        envelope: Envelope,
    ) -> Result<Effect, Memory>
        requires entries { HasEntries (seen table.now) B.entries }
        requires fits { EnvelopeFits (shape_at (seen table.now)) (plain_envelope envelope) }
        ensures handled { OnOk result (handling.handle_one B.rules (reached self.old posts.old) (plain_envelope envelope) ≡ reached self.new posts.new) }
        ensures same { IfOk result (λ effect. KeepsTurn effect self.old self.new) }
    {
        let (origin, body) = Origin::split(envelope);
        match self.quit {
            Some(reason) => {
                self.handle_shell(posts, reason, origin, body)?;
                Ok(Effect::Changed)
            }
            None => self.handle_body(alloc, table, posts, origin, body),
        }
    }

    fn handle_body(
        &mut self,
        alloc: Global,
        table: &TypeTable,
        posts: &mut Posts,
        origin: Origin,
        body: Body,
    ) -> Result<Effect, Memory>
        requires entries { HasEntries (seen table.now) B.entries }
        requires fits { BodyFits (shape_at (seen table.now)) (plain_body body) }
        ensures handled { OnOk result (handling.handle_body B.rules (reached self.old posts.old) origin (plain_body body) ≡ reached self.new posts.new) }
        ensures same { IfOk result (λ effect. KeepsTurn effect self.old self.new) }
    {
        match body {
            Body::System(notice) => self.handle_notice(alloc, table, posts, notice),
            Body::Failure(sec) => self.handle_failure(alloc, table, posts, origin.mid.number, sec),
            Body::Content(message) => {
                if origin.mid.response {
                    return self.handle_response(alloc, table, posts, origin.mid.number, message);
                }
                self.handle_content(alloc, table, posts, origin, message)
            }
        }
    }
}
