//! How an actor quits, and what is left of it.
ghost use Rattle.std.specs.Prelude.{◌≡◌, OnOk};
ghost use Rattle.caf_message.specs.Envelope.{plain_body};
ghost use Rattle.caf_actor.specs.PlainForms.{reached};
ghost use Rattle.caf_actor.specs.Quitting.{all_cached};
ghost use Rattle.caf_actor.specs.Quitting as quitting;

use crate::post::Posts;
use crate::queue::Queue;
use crate::{Origin, Snapshot};
use caf_mailbox::Caches;
use caf_message::Body;
use caf_response::{Delays, Holds};
use caf_types::{Memory, Notice, Reason, Sec, Seq};
use std::alloc::Global;
use std::mem;

impl<B> Snapshot<B> {
    /// Quits where there is a reason to.
    pub(crate) fn quit_where(
        &mut self,
        alloc: Global,
        posts: &mut Posts,
        quit: Option<Reason>,
    ) -> Result<(), Memory>
        ensures { OnOk result (quitting.quit_where (reached self.old posts.old) quit ≡ reached self.new posts.new) }
    {
        match quit {
            Some(reason) => self.quit_with(alloc, posts, reason),
            None => Ok(()),
        }
    }

    /// Breaks the holds in their order, meets what is cached as a quit actor does, and tells the
    /// links and the monitors.
    pub(crate) fn quit_with(
        &mut self,
        alloc: Global,
        posts: &mut Posts,
        reason: Reason,
    ) -> Result<(), Memory>
        ensures { OnOk result (quitting.quit_with (reached self.old posts.old) reason ≡ reached self.new posts.new) }
    {
        let caches = mem::replace(&mut self.caches, Caches::new(alloc));
        let holds = mem::replace(&mut self.holds, Holds::new(alloc));
        self.pending.forget();
        self.delays = Delays::new(alloc);
        self.quit = Some(reason);
        self.break_holds(posts, holds)?;
        self.shell_all(posts, reason, caches)?;
        self.say_farewell(alloc, posts, reason)
    }

    fn break_holds(&mut self, posts: &mut Posts, holds: Holds) -> Result<(), Memory>
        ensures { OnOk result (quitting.break_holds (reached self.old posts.old) holds ≡ reached self.new posts.new) }
    {
        let mut holds = holds;
        while let Some(promise) = holds.first() {
            self.send_reply(posts, promise.fail(Sec::BrokenPromise))?;
        }
        Ok(())
    }

    /// Meets all that is cached, the urgent list first.
    fn shell_all(&mut self, posts: &mut Posts, reason: Reason, caches: Caches) -> Result<(), Memory>
        ensures { OnOk result (quitting.shell_all (reached self.old posts.old) reason (all_cached caches) ≡ reached self.new posts.new) }
    {
        let mut caches = caches;
        while let Some(envelope) = caches.pop_any() {
            let (origin, body) = Origin::split(envelope);
            self.handle_shell(posts, reason, origin, body)?;
        }
        Ok(())
    }

    /// Does what a quit actor does with an envelope: a request, a link and a watch are answered, and
    /// everything else is dropped.
    pub(crate) fn handle_shell(
        &mut self,
        posts: &mut Posts,
        reason: Reason,
        origin: Origin,
        body: Body,
    ) -> Result<(), Memory>
        ensures { OnOk result (quitting.handle_shell (reached self.old posts.old) reason origin (plain_body body) ≡ reached self.new posts.new) }
    {
        match body {
            Body::Content(_) => {
                if origin.mid.response {
                    return Ok(());
                }
                self.refuse(posts, origin, Sec::RequestReceiverDown)
            }
            Body::Failure(_) => Ok(()),
            Body::System(notice) => self.shell_notice(posts, reason, notice),
        }
    }

    fn shell_notice(
        &mut self,
        posts: &mut Posts,
        reason: Reason,
        notice: Notice,
    ) -> Result<(), Memory>
        ensures { OnOk result (quitting.shell_notice (reached self.old posts.old) reason notice ≡ reached self.new posts.new) }
    {
        match notice {
            Notice::Link(from) => self.notify(posts, from, Notice::Exit(self.place, reason)),
            Notice::Watch(from) => self.notify(posts, from, Notice::Down(self.place, reason)),
            Notice::Start
            | Notice::Stop
            | Notice::Exit(_, _)
            | Notice::Unlink(_)
            | Notice::Unwatch(_)
            | Notice::Down(_, _)
            | Notice::Begin(_)
            | Notice::Tick(_) => Ok(()),
        }
    }

    /// Tells the links and the monitors that it quit.
    fn say_farewell(
        &mut self,
        alloc: Global,
        posts: &mut Posts,
        reason: Reason,
    ) -> Result<(), Memory>
        ensures { OnOk result (quitting.say_farewell (reached self.old posts.old) reason ≡ reached self.new posts.new) }
    {
        let notices = self.observers.farewell(alloc, self.place, reason)?;
        self.notify_all(posts, notices)
    }

    fn notify_all(&mut self, posts: &mut Posts, notices: Seq<(u32, Notice)>) -> Result<(), Memory>
        ensures { OnOk result (quitting.notify_all (reached self.old posts.old) notices ≡ reached self.new posts.new) }
    {
        let mut notices = Queue::of(notices);
        while let Some((to, notice)) = notices.take_first() {
            self.notify(posts, to, notice)?;
        }
        Ok(())
    }
}
