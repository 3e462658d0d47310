//! How content is answered.
ghost use Rattle.std.specs.Prelude.{◌≡◌, true, false, OnOk, IsOk, IsSome};
ghost use Rattle.caf_response.specs.Promise.{plain_handoff};
ghost use Rattle.caf_actor.specs.PlainForms.{plain_answer};
ghost use Rattle.caf_actor.specs.PlainForms.{reached};
ghost use Rattle.caf_actor.specs.Answering.{promised_to, is_delegation, kept_content};
ghost use Rattle.caf_actor.specs.Answering as answering;

use crate::post::Posts;
use crate::{Answer, Origin, Snapshot};
use caf_message::{Body, Message};
use caf_response::{Handoff, Promise};
use caf_types::{Memory, Sec};

impl<B> Snapshot<B> {
    /// Answers a request by an error. Content that is no request is dropped.
    pub(crate) fn refuse(
        &mut self,
        posts: &mut Posts,
        origin: Origin,
        sec: Sec,
    ) -> Result<(), Memory>
        ensures refused { OnOk result (answering.refuse (reached self.old posts.old) origin sec ≡ reached self.new posts.new) }
        ensures dropped { answering.is_asked origin ≡ false → IsOk result }
    {
        if origin.is_asked() {
            return self.send_reply(posts, origin.promise().fail(sec));
        }
        Ok(())
    }

    /// Does what the behaviour answered to content. A second reference to the content is there where
    /// it is delegated.
    pub(crate) fn answer(
        &mut self,
        posts: &mut Posts,
        origin: Origin,
        second: Option<Message>,
        answer: Answer,
    ) -> Result<(), Memory>
        requires { is_delegation (plain_answer answer) ≡ true → IsSome second }
        ensures { OnOk result (answering.answer (reached self.old posts.old) origin (kept_content second) (plain_answer answer) ≡ reached self.new posts.new) }
    {
        if origin.is_asked() {
            return self.answer_request(posts, origin, second, answer);
        }
        self.answer_tell(posts, origin, second, answer)
    }

    fn answer_request(
        &mut self,
        posts: &mut Posts,
        origin: Origin,
        second: Option<Message>,
        answer: Answer,
    ) -> Result<(), Memory>
        requires { is_delegation (plain_answer answer) ≡ true → IsSome second }
        ensures { OnOk result (answering.answer_request (reached self.old posts.old) (promised_to origin) (kept_content second) (plain_answer answer) ≡ reached self.new posts.new) }
    {
        match answer {
            Answer::Value(value) => self.send_reply(posts, origin.promise().deliver(value)),
            Answer::Error(sec) => self.send_reply(posts, origin.promise().fail(sec)),
            Answer::Delegate(to) => match second {
                Some(content) => {
                    let handoff = origin.promise().delegate(to, content);
                    self.send_handoff(posts, handoff)
                }
                None => unreachable!(),
            },
            Answer::Hold => self.hold(origin.promise()),
            Answer::Nothing => Ok(()),
        }
    }

    /// A delegation sends content that is no request on; any other answer is dropped.
    fn answer_tell(
        &mut self,
        posts: &mut Posts,
        origin: Origin,
        second: Option<Message>,
        answer: Answer,
    ) -> Result<(), Memory>
        requires { is_delegation (plain_answer answer) ≡ true → IsSome second }
        ensures answered { OnOk result (answering.answer_tell (reached self.old posts.old) origin (kept_content second) (plain_answer answer) ≡ reached self.new posts.new) }
        ensures dropped { is_delegation (plain_answer answer) ≡ false → IsOk result }
    {
        match answer {
            Answer::Delegate(to) => match second {
                Some(content) => self.tell(posts, to, origin.priority, content),
                None => unreachable!(),
            },
            Answer::Value(_) | Answer::Error(_) | Answer::Hold | Answer::Nothing => Ok(()),
        }
    }

    /// Passes a request on.
    fn send_handoff(&mut self, posts: &mut Posts, handoff: Handoff) -> Result<(), Memory>
        ensures { OnOk result (answering.send_handoff (reached self.old posts.old) (plain_handoff handoff) ≡ reached self.new posts.new) }
    {
        let Handoff {
            to,
            mid,
            priority,
            message,
        } = handoff;
        self.post(posts, to, mid, priority, Body::Content(message))
    }

    fn hold(&mut self, promise: Promise) -> Result<(), Memory>
        ensures { OnOk result (self.new ≡ answering.with_held self.old promise) }
    {
        match promise.hold(&mut self.holds) {
            Ok(()) => Ok(()),
            Err((promise, memory)) => {
                let _ = promise.fail(Sec::BrokenPromise);
                Err(memory)
            }
        }
    }
}
