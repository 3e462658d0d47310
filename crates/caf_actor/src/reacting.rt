//! What follows where the behaviour is given an input: its outputs are sent, then its answer, then what
//! its quitting causes.
ghost use Rattle.std.specs.Prelude.{◌≡◌, ◌≤◌, Some, None, OnOk, IfOk, IsSome, true, false};
ghost use Rattle.caf_types.specs.Table.{shape_at};
ghost use Rattle.caf_types.specs.TypeTable.{seen};
ghost use Rattle.caf_steps.specs.Reference.{retained, second};
ghost use Rattle.caf_message.specs.Content.{ids_in};
ghost use Rattle.caf_message.specs.Entries.{HasEntries};
ghost use Rattle.caf_message.specs.Fits.{FitsTable};
ghost use Rattle.caf_actor.specs.PlainForms.{plain_input, reached};
ghost use Rattle.caf_actor.specs.PlainInput as plain_in;
ghost use Rattle.caf_actor.specs.Answering.{kept_content};
ghost use Rattle.caf_actor.specs.Rules.{MayBeGiven, InputFits, is_input};
ghost use Rattle.caf_actor.specs.Reacting as reacting;

use crate::post::Posts;
use crate::sharing::another_message;
use crate::{Behavior, Input, Origin, Reaction, Snapshot};
use caf_message::Message;
use caf_types::{Memory, TypeTable};
use std::alloc::Global;

/// Content for a behaviour, and a second reference to it, where the content may be delegated.
struct Given {
    input: Input,
    second: Option<Message>,
}

impl<B: Behavior> Snapshot<B> {
    /// Gives the behaviour an input that is no content.
    pub(crate) fn give(
        &mut self,
        alloc: Global,
        table: &TypeTable,
        posts: &mut Posts,
        input: Input,
    ) -> Result<(), Memory>
        requires entries { HasEntries (seen table.now) B.entries }
        requires fits { InputFits (shape_at (seen table.now)) (plain_input input) }
        requires given { MayBeGiven B.rules self.old.behavior (plain_input input) }
        ensures { OnOk result (reacting.give B.rules (reached self.old posts.old) (plain_input input) ≡ reached self.new posts.new) }
    {
        let reaction = self.behavior.react(alloc, table, input)?;
        let Reaction {
            outputs: sent,
            quit,
            ..
        } = reaction;
        self.send_outputs(alloc, posts, sent)?;
        self.quit_where(alloc, posts, quit)
    }

    /// Gives the behaviour content of its interface, and answers it. Where the content may be
    /// delegated (`passes`), a second reference to it is kept meanwhile.
    pub(crate) fn give_content(
        &mut self,
        alloc: Global,
        table: &TypeTable,
        posts: &mut Posts,
        origin: Origin,
        message: Message,
        passes: bool,
    ) -> Result<(), Memory>
        requires entries { HasEntries (seen table.now) B.entries }
        requires fits { FitsTable (seen table.now) message.content }
        requires given { is_input (B.rules.interface self.old.behavior) (ids_in message.content) ≡ true }
        requires passes { passes ≡ B.rules.delegates self.old.behavior (ids_in message.content) }
        requires valid { B.is_valid self.old.behavior }
        ensures { OnOk result (reacting.give_content B.rules (reached self.old posts.old) origin message.content ≡ reached self.new posts.new) }
    {
        let Given { input, second } = content_input(alloc, origin, message, passes)?;
        let reaction = self.behavior.react(alloc, table, input)?;
        let Reaction {
            outputs,
            answer,
            quit,
        } = reaction;
        self.send_outputs(alloc, posts, outputs)?;
        self.answer(posts, origin, second, answer)?;
        self.quit_where(alloc, posts, quit)
    }
}

/// The content for a behaviour: this very reference, which is retained once where it may be delegated
/// and has room.
fn content_input(
    alloc: Global,
    origin: Origin,
    message: Message,
    passes: bool,
) -> Result<Given, Memory>
    ensures input { IfOk result (λ given. plain_input given.input ≡ plain_in.Content origin message.content) }
    ensures second { passes ≡ true → IfOk result (λ given. IsSome given.second) }
    ensures same { passes ≡ true → IfOk result (λ given. kept_content given.second ≡ message.content) }
    ensures alone { passes ≡ false → IfOk result (λ given. (given.input ≡ Input.Content origin message) × (given.second ≡ None)) }
    ensures shared { passes ≡ true → 1 ≤ message.room → IfOk result (λ given. (given.input ≡ Input.Content origin (retained message)) × (given.second ≡ Some (second message))) }
{
    let mut message = message;
    let second = if passes {
        Some(another_message(alloc, &mut message, true)?)
    } else {
        None
    };
    Ok(Given {
        input: Input::Content(origin, message),
        second,
    })
}
