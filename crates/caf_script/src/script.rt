ghost use Rattle.std.specs.Prelude.{◌≡◌, ◌+◌, [], ◌++◌, length, map, slice_get, IfOk, OnOk, IsTrue};
ghost use Rattle.caf_types.specs.TypeTable.{seen};
ghost use Rattle.caf_message.specs.Fits.{FitsTable};
ghost use Rattle.caf_actor.specs.PlainForms.{plain_output};
ghost use Rattle.caf_script.specs.Step.{plain_step, sent};
ghost use Rattle.caf_script.specs.Reply.{plain_reply};
ghost use Rattle.caf_script.specs.Reply as reply;
ghost use Rattle.caf_script.specs.Script.{IsLeft};
ghost use Rattle.caf_script.specs.Script as script;

use crate::answer::reply_in;
use crate::{Plan, Planned, Replies, StepReply, Wait};
use caf_actor::Output;
use caf_message::Message;
use caf_types::{Memory, Sec, Seq, TypeIds, TypeTable};
use std::alloc::Global;

/// The steps of an actor, and what became of each.
#[derive(Debug, Drop)]
pub struct Script {
    /// The steps still to come.
    pub plan: Plan,
    /// Of each step that was played, the types of its answer; none where it is no request.
    pub expected: Seq<TypeIds>,
    /// What became of each step.
    pub replies: Replies,
    /// How many ticks have come that no step has used. The number stops at 2^64 - 1.
    pub ticks: u64,
    /// Whether no step is played any more.
    pub is_over: bool,
}

impl Script {
    /// A script without steps.
    pub fn new(alloc: Global) -> Script
        ensures { result ≡ script.no_script }
    {
        Script {
            plan: Plan::new(alloc),
            expected: Seq::new(alloc),
            replies: Replies::new(alloc),
            ticks: 0,
            is_over: false,
        }
    }

    /// Adds a step at the end.
    pub fn add(&mut self, step: Planned) -> Result<(), Memory>
        ensures { OnOk result (self.new ≡ script.planned self.old (plain_step step)) }
    {
        self.plan.add(step)?;
        self.replies.add()
    }

    /// Plays the steps to come, in order, up to the first that has to wait, and gives what they send.
    /// After want of memory some of them may be gone.
    pub fn go_on(&mut self, alloc: Global) -> Result<Seq<Output>, Memory>
        ensures played { IfOk result (λ outputs. (self.new, map plain_output outputs) ≡ script.goes_on self.old) }
        ensures left { IsLeft self.old self.new }
    {
        if self.is_over {
            return Ok(Seq::new(alloc));
        }
        self.play(alloc)
    }

    /// Keeps the answer of the request with that tag, and goes on.
    pub fn answer(
        &mut self,
        alloc: Global,
        table: &TypeTable,
        tag: u32,
        message: Message,
    ) -> Result<Seq<Output>, Memory>
        requires { FitsTable (seen table.now) message.content }
        ensures played { IfOk result (λ outputs. (self.new, map plain_output outputs) ≡ script.goes_on (script.answered self.old tag message.content)) }
        ensures left { IsLeft self.old self.new }
    {
        if let Some(step) = step_of(tag) {
            let reply = self.reply_to(alloc, table, step, message)?;
            self.replies.set(alloc, step, reply);
        }
        self.go_on(alloc)
    }

    /// Keeps the error by which the request with that tag was answered, and goes on.
    pub fn fail(&mut self, alloc: Global, tag: u32, why: Sec) -> Result<Seq<Output>, Memory>
        ensures played { IfOk result (λ outputs. (self.new, map plain_output outputs) ≡ script.goes_on (script.resolved self.old tag (reply.Failed why))) }
        ensures left { IsLeft self.old self.new }
    {
        if let Some(step) = step_of(tag) {
            self.replies.set(alloc, step, StepReply::Error(why));
        }
        self.go_on(alloc)
    }

    /// Takes note of a tick, and goes on.
    pub fn tick(&mut self, alloc: Global) -> Result<Seq<Output>, Memory>
        ensures played { IfOk result (λ outputs. (self.new, map plain_output outputs) ≡ script.goes_on (script.ticked self.old)) }
        ensures left { IsLeft self.old self.new }
    {
        self.ticks = self.ticks.saturating_add(1);
        self.go_on(alloc)
    }

    /// Plays no step from now on.
    pub fn stop(&mut self)
        ensures { self.new ≡ script.ended self.old }
    {
        self.is_over = true;
    }

    /// What became of each step.
    pub fn replies(&self) -> &Seq<StepReply>
        ensures { map plain_reply result.now ≡ self.now.replies }
    {
        self.replies.as_seq()
    }

    fn play(&mut self, alloc: Global) -> Result<Seq<Output>, Memory>
        ensures played { IfOk result (λ outputs. (self.new, map plain_output outputs) ≡ script.play self.old.plan self.old []) }
        ensures left { IsLeft self.old self.new }
    {
        let mut outputs = Seq::new(alloc);
        for _turn in 0..self.plan.len() {
            if !self.can_play() {
                return Ok(outputs);
            }
            self.play_next(alloc, &mut outputs)?;
        }
        Ok(outputs)
    }

    /// Whether there is a next step, and what it waits for has come.
    fn can_play(&self) -> bool
        ensures { result ≡ script.can_play self.now }
    {
        match self.plan.wait() {
            None => false,
            Some(wait) => self.is_met(wait),
        }
    }

    fn is_met(&self, wait: Wait) -> bool
        ensures { result ≡ script.is_met self.now wait }
    {
        match wait {
            Wait::Nothing => true,
            Wait::Replies => !self.replies.wait(),
            Wait::Tick => self.ticks > 0,
        }
    }

    /// Plays the next step, which can be played.
    fn play_next(&mut self, alloc: Global, outputs: &mut Seq<Output>) -> Result<(), Memory>
        requires { IsTrue (script.can_play self.old) }
        ensures same { OnOk result (script.play self.new.plan self.new (map plain_output outputs.new) ≡ script.play self.old.plan self.old (map plain_output outputs.old)) }
        ensures left { IsLeft self.old self.new }
        ensures shorter { OnOk result (length self.new.plan + 1 ≡ length self.old.plan) }
    {
        match self.plan.take() {
            Some(step) => self.play_step(alloc, step, outputs),
            None => Ok(()),
        }
    }

    /// Plays a step that was taken from the plan.
    fn play_step(
        &mut self,
        alloc: Global,
        step: Planned,
        outputs: &mut Seq<Output>,
    ) -> Result<(), Memory>
        ensures script { OnOk result (self.new ≡ script.behind self.old (plain_step step) self.old.plan) }
        ensures plan { self.new.plan ≡ self.old.plan }
        ensures outputs { OnOk result (map plain_output outputs.new ≡ map plain_output outputs.old ++ sent (plain_step step)) }
    {
        match step {
            Planned::Send(output) => {
                self.expected.push(Seq::new(alloc))?;
                outputs.push(output)
            }
            Planned::Ask(output, types) => {
                self.replies
                    .set(alloc, self.expected.len(), StepReply::Open_);
                self.expected.push(types)?;
                outputs.push(output)
            }
            Planned::Sync => self.expected.push(Seq::new(alloc)),
            Planned::Tick => {
                self.ticks = self.ticks.saturating_sub(1);
                self.expected.push(Seq::new(alloc))
            }
        }
    }

    /// What content means as the answer to that step.
    fn reply_to(
        &self,
        alloc: Global,
        table: &TypeTable,
        step: u64,
        message: Message,
    ) -> Result<StepReply, Memory>
        requires { FitsTable (seen table.now) message.content }
        ensures { IfOk result (λ reply. plain_reply reply ≡ script.answer_to (slice_get self.now.expected step) message.content) }
    {
        match self.expected.get(step) {
            Some(types) => reply_in(alloc, table, types.as_slice(), message),
            None => Ok(StepReply::Error(Sec::UnexpectedResponse)),
        }
    }
}

/// The step whose request has that tag.
fn step_of(tag: u32) -> Option<u64>
    ensures { result ≡ script.step_of tag }
{
    if tag == 0 {
        return None;
    }
    Some(tag as u64 - 1)
}
