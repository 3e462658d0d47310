ghost use Rattle.std.specs.Prelude.{◌≡◌, [], ◌∷◌, ◌++◌, map, slice_set, OnOk};
ghost use Rattle.std.specs.List.{list_any};
ghost use Rattle.caf_script.specs.Reply as reply;
ghost use Rattle.caf_script.specs.Reply.{plain_reply};
ghost use Rattle.caf_script.specs.declared.replies.StepReply.{StepReply};

use caf_types::{Memory, Sec, Seq};
use caf_words::Value;
use std::alloc::Global;
use std::marker::Model;
use std::mem;

/// What became of a step.
#[derive(Debug, Drop)]
pub enum StepReply {
    /// It was not played, or it is no request.
    Unsent,
    /// It was sent, and is not yet resolved.
    Open_,
    /// It was answered by these values.
    Value(Seq<Value>),
    /// It was answered by an error, or its time was over.
    Error(Sec),
}

/// What became of a script's steps, in order.
#[derive(Debug, Drop)]
pub struct Replies {
    replies: Seq<StepReply>,
}

impl Model for Replies {
    ghost use Rattle.std.specs.Prelude.{List, map};
    ghost use Rattle.caf_script.specs.Reply.{Reply, plain_reply};

    ghost Value = { List Reply };

    ghost view = { λ it. map plain_reply it.replies };
}

impl Replies {
    /// Of no step.
    pub(crate) fn new(alloc: Global) -> Replies
        ensures { result ≡ [] }
    {
        Replies {
            replies: Seq::new(alloc),
        }
    }

    /// One step more, which was not played yet.
    pub(crate) fn add(&mut self) -> Result<(), Memory>
        ensures { OnOk result (self.new ≡ self.old ++ reply.Unsent ∷ []) }
    {
        self.replies.push(StepReply::Unsent)
    }

    /// Whether a request waits.
    pub(crate) fn wait(&self) -> bool
        ensures { result ≡ list_any reply.is_open self.now }
    {
        is_any_open(self.replies.as_slice())
    }

    /// Keeps what became of the step at that position, from 0; nothing where there is no such step.
    pub(crate) fn set(&mut self, alloc: Global, step: u64, reply: StepReply)
        ensures { self.new ≡ slice_set self.old step (plain_reply reply) }
    {
        let mut replies = mem::replace(&mut self.replies, Seq::new(alloc)).into_vec();
        set(&mut replies, step, reply);
        self.replies = Seq::of_vec(replies);
    }

    /// The replies.
    pub fn as_seq(&self) -> &Seq<StepReply>
        ensures { map plain_reply result.now ≡ self.now }
    {
        &self.replies
    }
}

fn is_any_open(replies: &[StepReply]) -> bool
    ensures { result ≡ list_any (λ (told : StepReply). reply.is_open (plain_reply told)) replies.now }
{
    replies.iter().any(|told| is_open(told))
}

fn is_open(told: &StepReply) -> bool
    ensures { result ≡ reply.is_open (plain_reply told.now) }
{
    matches!(told, StepReply::Open_)
}

fn set(replies: &mut Vec<StepReply>, step: u64, reply: StepReply)
    ensures { replies.new.items ≡ slice_set replies.old.items step reply }
{
    if step < replies.len() as u64 {
        replies[step as usize] = reply;
    }
}
