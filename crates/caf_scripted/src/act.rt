ghost use Rattle.std.specs.Prelude.{◌≡◌};
ghost use Rattle.caf_scripted.specs.Script.{only, passes_on, no_cue, without_ticks, exits_alone};

use caf_response::Mode;
use caf_types::{Reason, Sec, TypeId};

/// What a scripted behaviour does at one content.
#[derive(Clone, Copy, Debug, PartialEq, Eq, Drop)]
pub struct Act {
    /// What it sends first.
    pub sending: Option<Sending>,
    /// What it sends then.
    pub afterwards: Option<Sending>,
    /// How it answers.
    pub reply: Reply,
    /// Whether it sleeps from now on; None leaves that as it is.
    pub sleeps: Option<bool>,
    /// The reason to quit, if it quits.
    pub quit: Option<Reason>,
}

/// What it sends. Where no place is named, it is the first peer, or its own place without one.
#[derive(Clone, Copy, Debug, PartialEq, Eq, Drop)]
pub enum Sending {
    /// The content.
    Tell,
    /// The content to all peers, where these are at most 512, by one message that shares its tuple
    /// with the content where that has room.
    Fan,
    /// The content as a request: how it waits, its tag, and the one type that is expected.
    Ask(Mode, u32, TypeId),
    /// An exit notice.
    Exit(Reason),
    /// A link.
    Link,
    /// The end of a link.
    Unlink,
    /// A watch.
    Watch,
    /// The end of a watch.
    Unwatch,
    /// The content to the held request of that requester and number.
    Deliver(u32, u64),
    /// The error to the held request of that requester and number.
    Break(u32, u64, Sec),
    /// Starts the first child, or its own place without one.
    Spawn,
    /// The content after so many ticks.
    Delay(u32),
    /// The content as a request within so many ticks: these, how it waits, its tag, and the one type
    /// that is expected.
    AskWithin(u32, Mode, u32, TypeId),
}

/// How it answers.
#[derive(Clone, Copy, Debug, PartialEq, Eq, Drop)]
pub enum Reply {
    /// With the content itself, where its interface declares its types as the result, and else with
    /// the error `Failed`.
    Echo,
    /// With the error `Failed`.
    Fail,
    /// Not at all where the content is no request, and else with the error `Failed`.
    Ignore,
    /// The first peer is to answer.
    Delegate,
    /// Later.
    Hold,
}

/// What a scripted behaviour does at one input that is no content. It answers nothing.
#[derive(Clone, Copy, Debug, PartialEq, Eq, Drop)]
pub struct Cue {
    /// What it sends first. At [`Input::Stop`](caf_actor::Input::Stop) it sends none.
    pub sending: Option<Sending>,
    /// The content that it sends: one element of type `unsigned`, with normal priority.
    pub number: u64,
    /// What it sends then to each peer, where these are at most 512.
    pub signal: Option<Signal>,
    /// The reason to quit, if it quits.
    pub quit: Option<Reason>,
}

/// What each peer is sent.
#[derive(Clone, Copy, Debug, PartialEq, Eq, Drop)]
pub enum Signal {
    /// An exit notice.
    Exit(Reason),
    /// A tick, where one has come. At any other input it is none.
    Tick,
}

/// What a scripted behaviour remembers of an input that is no content.
#[derive(Clone, Copy, Debug, PartialEq, Eq, Drop)]
pub enum Note {
    /// A run begins.
    Started,
    /// A run is at rest.
    Stopped,
    /// The request with this tag was answered by a value.
    Responded(u32),
    /// The request with this tag failed.
    Failed(u32, Sec),
    /// A watched place quit.
    Down(u32, Reason),
    /// A tick has come.
    Ticked,
}

impl Act {
    /// Whether it passes its content on.
    pub(crate) fn delegates(&self) -> bool
        ensures { result ≡ passes_on self.now }
    {
        matches!(self.reply, Reply::Delegate)
    }

    /// Answers so, and does nothing else.
    pub const fn only(reply: Reply) -> Act
        ensures { result ≡ only reply }
    {
        Act {
            sending: None,
            afterwards: None,
            reply,
            sleeps: None,
            quit: None,
        }
    }
}

impl Cue {
    /// Does nothing.
    pub const fn none() -> Cue
        ensures { result ≡ no_cue }
    {
        Cue {
            sending: None,
            number: 0,
            signal: None,
            quit: None,
        }
    }

    /// The same, but that it hands no tick on.
    pub(crate) fn without_ticks(self) -> Cue
        ensures { result ≡ without_ticks self }
    {
        let signal = match self.signal {
            Some(Signal::Exit(reason)) => Some(Signal::Exit(reason)),
            Some(Signal::Tick) | None => None,
        };
        Cue { signal, ..self }
    }

    /// Its exit notices alone.
    pub(crate) fn exits_alone(self) -> Cue
        ensures { result ≡ exits_alone self }
    {
        let calm = self.without_ticks();
        Cue {
            sending: None,
            ..calm
        }
    }
}
