ghost use Rattle.std.specs.Prelude.{◌≡◌, OnOk, OnErr, IfErr, IfNone, is_some};
ghost use Rattle.std.specs.Option.{option_map};
ghost use Rattle.caf_response.specs.Delays.{no_delays, delayed, next_delay, given_out, as_parcel, due_key};

use crate::line::{Lined, Lines};
use crate::lines::{add_to, take_within};
use caf_message::Message;
use caf_types::{Memory, Priority};
use std::alloc::Global;
use std::collections::BTreeMap;
use std::marker::Model;

/// A message that is sent later.
#[derive(Debug, Drop)]
pub(crate) struct Delayed {
    /// The count of ticks at which it is due.
    pub(crate) due: u64,
    /// Where it goes.
    pub(crate) to: u32,
    pub(crate) priority: Priority,
    pub(crate) message: Message,
}

impl Lined for Delayed {
    ghost key = { due_key };

    /// By due count alone.
    fn key(&self) -> (u64, u32) {
        (self.due, 0)
    }
}

/// Messages that are sent later: each at its count of ticks, and those of one count in order of
/// adding.
#[derive(Debug, Drop)]
pub struct Delays {
    alloc: Global,
    lines: Lines<Delayed>,
}

impl Model for Delays {
    ghost use Rattle.std.specs.Prelude.{List};
    ghost use Rattle.caf_response.specs.Delays.{PlainDelay, plain_delays, due_key};
    ghost use Rattle.caf_response.specs.Lines.{in_lines, AreFiled};

    ghost Value = { List PlainDelay };

    ghost view = { λ delays. plain_delays (in_lines delays.lines.entries) };

    ghost invariant = { λ delays. AreFiled due_key delays.lines.entries };
}

impl Delays {
    /// No messages.
    pub fn new(alloc: Global) -> Delays
        ensures { result ≡ no_delays }
    {
        Delays {
            alloc,
            lines: BTreeMap::new(alloc),
        }
    }

    /// Puts a message in, which is due at that count of ticks, behind those that are due no later.
    /// It comes back where memory is wanted.
    pub fn add(
        &mut self,
        due: u64,
        to: u32,
        priority: Priority,
        message: Message,
    ) -> Result<(), (Message, Memory)>
        ensures added { OnOk result (self.new ≡ delayed self.old due to priority message.content) }
        ensures back { IfErr result (λ refused. refused.0 ≡ message) }
        ensures kept { OnErr result (self.new ≡ self.old) }
    {
        let item = Delayed {
            due,
            to,
            priority,
            message,
        };
        match add_to(&mut self.lines, self.alloc, item) {
            Ok(()) => Ok(()),
            Err(refused) => Err((refused.message, Memory)),
        }
    }

    /// Takes out the first message by due count, then order of adding, where it is due by now: its
    /// place, its priority and itself. None exactly where none is due. It takes no memory.
    pub fn next(&mut self, now: u64) -> Option<(u32, Priority, Message)>
        ensures next { option_map (λ found. given_out found self.new) result ≡ option_map as_parcel (next_delay self.old now) }
        ensures some { is_some result ≡ is_some (next_delay self.old now) }
        ensures kept { IfNone result (self.new ≡ self.old) }
    {
        match take_within(&mut self.lines, now) {
            Some(item) => Some((item.to, item.priority, item.message)),
            None => None,
        }
    }
}
