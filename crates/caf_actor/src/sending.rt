//! How an actor sends: each envelope has the stamp of the batch and the next number of its receiver.
ghost use Rattle.std.specs.Prelude.{◌≡◌, ◌≤◌, false, [], ◌∷◌, ◌++◌, length, map, None, IfOk, OnOk, IsOk};
ghost use Rattle.caf_message.specs.Envelope.{plain_body};
ghost use Rattle.caf_message.specs.Envelope as envelope;
ghost use Rattle.caf_observe.specs.Places.{has_place, without_place};
ghost use Rattle.caf_response.specs.Holds.{take_hold};
ghost use Rattle.caf_response.specs.Promise.{plain_reply};
ghost use Rattle.caf_actor.specs.PlainForms.{plain_output, reached};
ghost use Rattle.caf_actor.specs.Sending.{may_issue};
ghost use Rattle.caf_actor.specs.Sending as sending;
ghost use Rattle.caf_actor.specs.Sharing.{contents_of, tell_each, bodies, contents, shared_among};
ghost use Rattle.caf_message.specs.declared.envelope.Plain.TheVariants as «plain»;

use crate::post::{Post, Posts};
use crate::queue::Queue;
use crate::sharing::address;
use crate::{Output, Snapshot};
use caf_message::{Body, Envelope, Message};
use caf_response::{IssueFault, Mode, Reply};
use caf_types::{Memory, Mid, Notice, Places, Priority, Sec, Seq, TypeIds};
use std::alloc::{AllocError, Global};

impl<B> Snapshot<B> {
    /// Posts one envelope.
    pub(crate) fn post(
        &mut self,
        posts: &mut Posts,
        to: u32,
        mid: Mid,
        priority: Priority,
        body: Body,
    ) -> Result<(), Memory>
        ensures posted { OnOk result (sending.post (reached self.old posts.old) to mid priority (plain_body body) ≡ reached self.new posts.new) }
        ensures sent { OnOk result (bodies posts.new ≡ bodies posts.old ++ body ∷ []) }
    {
        let seq = self.numbers.take(to)?;
        let envelope = Envelope {
            sender: self.place,
            seq,
            mid,
            priority,
            stamp: self.stamp,
            body,
        };
        posts.push(Post { to, envelope })
    }

    /// The mid of what is neither a request nor a response.
    fn no_request(&self) -> Mid
        ensures { result ≡ envelope.no_request self.now.place }
    {
        Mid {
            requester: self.place,
            number: 0,
            response: false,
        }
    }

    /// Posts content that is no request.
    pub(crate) fn tell(
        &mut self,
        posts: &mut Posts,
        to: u32,
        priority: Priority,
        message: Message,
    ) -> Result<(), Memory>
        ensures told { OnOk result (sending.tell (reached self.old posts.old) to priority message.content ≡ reached self.new posts.new) }
        ensures reference { OnOk result (bodies posts.new ≡ bodies posts.old ++ Body.Content message ∷ []) }
    {
        let mid = self.no_request();
        self.post(posts, to, mid, priority, Body::Content(message))
    }

    /// Posts a system notice, which is urgent.
    pub(crate) fn notify(
        &mut self,
        posts: &mut Posts,
        to: u32,
        notice: Notice,
    ) -> Result<(), Memory>
        ensures { OnOk result (sending.notify (reached self.old posts.old) to notice ≡ reached self.new posts.new) }
    {
        let mid = self.no_request();
        self.post(posts, to, mid, Priority::Urgent, Body::System(notice))
    }

    /// Posts the answer to a request.
    pub(crate) fn send_reply(&mut self, posts: &mut Posts, reply: Reply) -> Result<(), Memory>
        ensures { OnOk result (sending.send_reply (reached self.old posts.old) (plain_reply reply) ≡ reached self.new posts.new) }
    {
        let Reply {
            to,
            mid,
            priority,
            body,
        } = reply;
        self.post(posts, to, mid, priority, body)
    }

    fn tell_many(
        &mut self,
        alloc: Global,
        posts: &mut Posts,
        places: Places,
        priority: Priority,
        message: Message,
    ) -> Result<(), Memory>
        ensures told { OnOk result (sending.tell_many (reached self.old posts.old) places priority message.content ≡ reached self.new posts.new) }
        ensures references { 4096 ≤ message.room → length places ≤ 1024 → OnOk result (bodies posts.new ≡ bodies posts.old ++ contents (shared_among message places)) }
    {
        let addressed = address(alloc, places, message)?;
        self.tell_each(posts, priority, addressed)
    }

    /// Tells each place the message that stands with it.
    fn tell_each(
        &mut self,
        posts: &mut Posts,
        priority: Priority,
        addressed: Seq<(u32, Message)>,
    ) -> Result<(), Memory>
        ensures told { OnOk result (tell_each (reached self.old posts.old) priority (contents_of addressed) ≡ reached self.new posts.new) }
        ensures references { OnOk result (bodies posts.new ≡ bodies posts.old ++ contents addressed) }
    {
        let mut addressed = Queue::of(addressed);
        while let Some((to, message)) = addressed.take_first() {
            self.tell(posts, to, priority, message)?;
        }
        Ok(())
    }

    /// Posts a request, which waits for its response. It is dropped where no number is left for it.
    fn request(
        &mut self,
        posts: &mut Posts,
        to: u32,
        priority: Priority,
        mode: Mode,
        tag: u32,
        expected: TypeIds,
        message: Message,
    ) -> Result<(), Memory>
        ensures requested { OnOk result (sending.request (reached self.old posts.old) to priority mode tag expected message.content ≡ reached self.new posts.new) }
        ensures dropped { may_issue self.old ≡ false → IsOk result }
    {
        match self.pending.issue(mode, tag, expected) {
            Ok(number) => self.post_request(posts, to, number, priority, message),
            Err(IssueFault::Spent) => Ok(()),
            Err(IssueFault::Memory) => Err(Memory),
        }
    }

    /// Posts a request whose time is over after so many ticks.
    fn request_within(
        &mut self,
        posts: &mut Posts,
        ticks: u32,
        to: u32,
        priority: Priority,
        mode: Mode,
        tag: u32,
        expected: TypeIds,
        message: Message,
    ) -> Result<(), Memory>
        ensures requested { OnOk result (sending.request_within (reached self.old posts.old) ticks to priority mode tag expected message.content ≡ reached self.new posts.new) }
        ensures dropped { may_issue self.old ≡ false → IsOk result }
    {
        let due = self.clock.due_after(ticks);
        match self.pending.issue_within(mode, tag, expected, due) {
            Ok(number) => self.post_request(posts, to, number, priority, message),
            Err(IssueFault::Spent) => Ok(()),
            Err(IssueFault::Memory) => Err(Memory),
        }
    }

    fn post_request(
        &mut self,
        posts: &mut Posts,
        to: u32,
        number: u64,
        priority: Priority,
        message: Message,
    ) -> Result<(), Memory>
        ensures { OnOk result (sending.post (reached self.old posts.old) to (sending.mid_of self.old.place number) priority («plain».Content message.content) ≡ reached self.new posts.new) }
    {
        let mid = Mid {
            requester: self.place,
            number,
            response: false,
        };
        self.post(posts, to, mid, priority, Body::Content(message))
    }

    /// Delivers a held request. Where there is none, nothing is sent.
    fn deliver(
        &mut self,
        posts: &mut Posts,
        requester: u32,
        number: u64,
        message: Message,
    ) -> Result<(), Memory>
        ensures settled { OnOk result (sending.settle (reached self.old posts.old) requester number («plain».Content message.content) ≡ reached self.new posts.new) }
        ensures dropped { take_hold self.old.holds requester number ≡ None → IsOk result }
    {
        match self.holds.take(requester, number) {
            Some(promise) => self.send_reply(posts, promise.deliver(message)),
            None => Ok(()),
        }
    }

    /// Breaks a held request. Where there is none, nothing is sent.
    fn break_hold(
        &mut self,
        posts: &mut Posts,
        requester: u32,
        number: u64,
        sec: Sec,
    ) -> Result<(), Memory>
        ensures settled { OnOk result (sending.settle (reached self.old posts.old) requester number («plain».Failure sec) ≡ reached self.new posts.new) }
        ensures dropped { take_hold self.old.holds requester number ≡ None → IsOk result }
    {
        match self.holds.take(requester, number) {
            Some(promise) => self.send_reply(posts, promise.fail(sec)),
            None => Ok(()),
        }
    }

    fn link(&mut self, posts: &mut Posts, to: u32) -> Result<(), Memory>
        ensures linked { OnOk result (sending.link (reached self.old posts.old) to ≡ reached self.new posts.new) }
        ensures dropped { to ≡ self.old.place → IsOk result }
    {
        if to == self.place {
            return Ok(());
        }
        self.observers.link(to)?;
        self.notify(posts, to, Notice::Link(self.place))
    }

    fn unlink(&mut self, posts: &mut Posts, to: u32) -> Result<(), Memory>
        ensures { OnOk result (sending.unlink (reached self.old posts.old) to ≡ reached self.new posts.new) }
    {
        self.observers.unlink(to);
        self.notify(posts, to, Notice::Unlink(self.place))
    }

    fn watch(&mut self, posts: &mut Posts, to: u32) -> Result<(), Memory>
        ensures watched { OnOk result (sending.watch (reached self.old posts.old) to ≡ reached self.new posts.new) }
        ensures dropped { to ≡ self.old.place → IsOk result }
    {
        if to == self.place {
            return Ok(());
        }
        self.notify(posts, to, Notice::Watch(self.place))
    }

    /// Starts the child at the place, unless it was started before.
    fn spawn(&mut self, alloc: Global, posts: &mut Posts, place: u32) -> Result<(), Memory>
        ensures spawned { OnOk result (sending.spawn (reached self.old posts.old) place ≡ reached self.new posts.new) }
        ensures dropped { has_place self.old.unstarted place ≡ false → IsOk result }
    {
        if !self.unstarted.as_slice().contains(&place) {
            return Ok(());
        }
        self.take_unstarted(alloc, place)?;
        self.notify(posts, place, Notice::Begin(self.place))
    }

    /// Takes the place out of those whose child wasn't started.
    fn take_unstarted(&mut self, alloc: Global, place: u32) -> Result<(), Memory>
        ensures { OnOk result (self.new ≡ record self.old { unstarted = without_place self.old.unstarted place }) }
    {
        let others = without(alloc, self.unstarted.as_slice(), place)?;
        self.unstarted = Places::of_vec(others);
        Ok(())
    }

    /// Keeps a content until so many ticks have come.
    fn delay(
        &mut self,
        ticks: u32,
        to: u32,
        priority: Priority,
        message: Message,
    ) -> Result<(), Memory>
        ensures { OnOk result (self.new ≡ sending.with_delayed self.old ticks to priority message.content) }
    {
        let due = self.clock.due_after(ticks);
        match self.delays.add(due, to, priority, message) {
            Ok(()) => Ok(()),
            Err((_, memory)) => Err(memory),
        }
    }

    /// Does what one output says.
    fn send_output(
        &mut self,
        alloc: Global,
        posts: &mut Posts,
        output: Output,
    ) -> Result<(), Memory>
        ensures { OnOk result (sending.send_output (reached self.old posts.old) (plain_output output) ≡ reached self.new posts.new) }
    {
        match output {
            Output::Tell(to, priority, message) => self.tell(posts, to, priority, message),
            Output::TellMany(places, priority, message) => {
                self.tell_many(alloc, posts, places, priority, message)
            }
            Output::Request(to, priority, mode, tag, expected, message) => {
                self.request(posts, to, priority, mode, tag, expected, message)
            }
            Output::Exit(to, reason) => self.notify(posts, to, Notice::Exit(self.place, reason)),
            Output::Link(to) => self.link(posts, to),
            Output::Unlink(to) => self.unlink(posts, to),
            Output::Watch(to) => self.watch(posts, to),
            Output::Unwatch(to) => self.notify(posts, to, Notice::Unwatch(self.place)),
            Output::Deliver(requester, number, message) => {
                self.deliver(posts, requester, number, message)
            }
            Output::Break(requester, number, sec) => {
                self.break_hold(posts, requester, number, sec)
            }
            Output::Spawn(place) => self.spawn(alloc, posts, place),
            Output::Tick(to) => self.notify(posts, to, Notice::Tick(self.place)),
            Output::Delay(ticks, to, priority, message) => self.delay(ticks, to, priority, message),
            Output::Within(ticks, to, priority, mode, tag, expected, message) => {
                self.request_within(posts, ticks, to, priority, mode, tag, expected, message)
            }
        }
    }

    /// Does what the outputs say, in their order.
    pub(crate) fn send_outputs(
        &mut self,
        alloc: Global,
        posts: &mut Posts,
        outputs: Seq<Output>,
    ) -> Result<(), Memory>
        ensures { OnOk result (sending.send_outputs (reached self.old posts.old) (map plain_output outputs) ≡ reached self.new posts.new) }
    {
        let mut outputs = Queue::of(outputs);
        while let Some(output) = outputs.take_first() {
            self.send_output(alloc, posts, output)?;
        }
        Ok(())
    }
}

/// The other places.
fn without(alloc: Global, places: &[u32], place: u32) -> Result<Vec<u32>, AllocError>
    ensures { IfOk result (λ others. others.items ≡ without_place places.now place) }
{
    places
        .iter()
        .copied()
        .filter(|other| *other != place)
        .collect(alloc)
}
