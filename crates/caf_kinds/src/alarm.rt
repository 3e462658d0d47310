//! An alarm answers a request after as many ticks as it asks for.
ghost use Rattle.std.specs.Prelude.{◌≡◌, ◌<◌, ◌+◌, ◌&&◌, nat_le, nat_lt, IfOk};
ghost use Rattle.std.specs.Option.{option_map};
ghost use Rattle.caf_types.specs.TypeTable.{seen};
ghost use Rattle.caf_types.specs.Table.{shape_at};
ghost use Rattle.caf_message.specs.Lists.{pick};
ghost use Rattle.caf_message.specs.Entries.{HasEntries};
ghost use Rattle.caf_message.specs.Fits.{FitsTable};
ghost use Rattle.caf_actor.specs.PlainForms.{plain_input, plain_answer, plain_reaction};
ghost use Rattle.caf_actor.specs.Rules.{InputFits};
ghost use Rattle.caf_kinds.specs.Core.{core_entries};
ghost use Rattle.caf_kinds.specs.Alarms.{has_number, awaited};
ghost use Rattle.caf_kinds.specs.Alarm as alarm;

use crate::asking::{answers, done, failed, has, interface, quiet, row_in, small_message, takes};
use crate::{Alarms, Asker, Identity, One, Ring, Two, Typed, Unit, Unsigned, atom};
use caf_actor::{Answer, Input, Origin, Output, Reaction};
use caf_message::Message;
use caf_signature::Interface;
use caf_types::{Memory, Priority, Seq, TypeTable};
use caf_words::Row;
use std::alloc::Global;

/// What every alarm takes.
#[derive(Debug, Drop)]
pub struct AlarmKind;

impl Typed for AlarmKind {
    ghost interface = { alarm.interface };

    fn interface(alloc: Global) -> Result<Interface, Memory> {
        let mut signatures = Seq::new(alloc);
        takes::<Two<atom::Alarm, Unsigned>, One<Unsigned>>(alloc, &mut signatures)?;
        takes::<Two<Ring, Unsigned>, One<Unit>>(alloc, &mut signatures)?;
        interface(alloc, signatures)
    }
}

/// Answers a request after as many ticks as it asks for.
#[derive(Debug, Drop)]
pub struct AlarmClock {
    pub(crate) identity: Identity<AlarmKind>,
    pub(crate) alarms: Alarms,
}

impl AlarmClock {
    pub(crate) fn react(
        &mut self,
        alloc: Global,
        table: &TypeTable,
        input: Input,
    ) -> Result<Reaction, Memory>
        requires entries { HasEntries (seen table.now) core_entries }
        requires fits { InputFits (shape_at (seen table.now)) (plain_input input) }
        ensures { IfOk result (λ reaction. (self.new, plain_reaction reaction) ≡ alarm.reacted self.old (plain_input input)) }
    {
        match input {
            Input::Content(origin, message) => self.take(alloc, table, origin, message),
            Input::Start
            | Input::Stop
            | Input::Tick
            | Input::Response(_, _)
            | Input::Failed(_, _)
            | Input::Down(_, _) => Ok(quiet(alloc)),
        }
    }

    fn take(
        &mut self,
        alloc: Global,
        table: &TypeTable,
        origin: Origin,
        message: Message,
    ) -> Result<Reaction, Memory>
        requires entries { HasEntries (seen table.now) core_entries }
        requires fits { FitsTable (seen table.now) message.content }
        ensures { IfOk result (λ reaction. (self.new, plain_reaction reaction) ≡ alarm.given self.old origin message.content) }
    {
        let mut message = message;
        if has::<Two<atom::Alarm, Unsigned>>(alloc, &mut message)? {
            let asked = row_in(alloc, table, &mut message)?;
            return self.alarm(alloc, origin, asked);
        }
        if has::<Two<Ring, Unsigned>>(alloc, &mut message)? {
            let asked = row_in(alloc, table, &mut message)?;
            return self.ring(alloc, asked);
        }
        Ok(answers(alloc, failed()))
    }

    fn alarm(
        &mut self,
        alloc: Global,
        origin: Origin,
        asked: Option<Two<atom::Alarm, Unsigned>>,
    ) -> Result<Reaction, Memory>
        ensures { IfOk result (λ reaction. (self.new, plain_reaction reaction) ≡ alarm.alarms self.old origin (option_map ⟦<Two<atom::Alarm, Unsigned> as Row>⟧.means asked)) }
    {
        match asked {
            Some(Two(_, Unsigned(ticks))) => self.alarm_after(alloc, origin, ticks),
            None => Ok(answers(alloc, failed())),
        }
    }

    fn alarm_after(&mut self, alloc: Global, origin: Origin, ticks: u64) -> Result<Reaction, Memory>
        ensures { IfOk result (λ reaction. (self.new, plain_reaction reaction) ≡ alarm.alarms_after self.old origin ticks) }
    {
        if origin.mid.number == 0 {
            return Ok(quiet(alloc));
        }
        if ticks <= u32::MAX as u64 && self.alarms.last() < u64::MAX {
            return self.set(alloc, origin, ticks as u32);
        }
        Ok(answers(alloc, failed()))
    }

    /// Holds the request, and lets its number ring after so many ticks.
    fn set(&mut self, alloc: Global, origin: Origin, ticks: u32) -> Result<Reaction, Memory>
        requires { self.old.alarms.last < 18446744073709551615 }
        ensures { IfOk result (λ reaction. (self.new, plain_reaction reaction) ≡ alarm.sets self.old origin ticks) }
    {
        let number = self.alarms.hold(origin)?;
        let message = small_message(alloc, &Two(Ring::new(), Unsigned(number)))?;
        let mut outputs = Seq::new(alloc);
        let me = self.identity.place();
        outputs.push(Output::Delay(ticks, me, Priority::Normal, message))?;
        Ok(Reaction {
            outputs,
            answer: Answer::Hold,
            quit: None,
        })
    }

    fn ring(
        &mut self,
        alloc: Global,
        asked: Option<Two<Ring, Unsigned>>,
    ) -> Result<Reaction, Memory>
        ensures { IfOk result (λ reaction. (self.new, plain_reaction reaction) ≡ alarm.rings self.old (option_map ⟦<Two<Ring, Unsigned> as Row>⟧.means asked)) }
    {
        match asked {
            Some(Two(_, Unsigned(number))) => self.deliver(alloc, number),
            None => Ok(answers(alloc, failed())),
        }
    }

    /// Delivers the request of that number its number.
    fn deliver(&mut self, alloc: Global, number: u64) -> Result<Reaction, Memory>
        ensures { IfOk result (λ reaction. (self.new, plain_reaction reaction) ≡ alarm.delivers self.old (pick (has_number number) self.old.alarms.held)) }
    {
        let answer = done(alloc)?;
        match self.alarms.take(number) {
            Some(asker) => delivered(alloc, number, asker, answer),
            None => Ok(answers(alloc, answer)),
        }
    }
}

fn delivered(alloc: Global, number: u64, asker: Asker, answer: Answer) -> Result<Reaction, Memory>
    ensures { IfOk result (λ reaction. plain_reaction reaction ≡ alarm.delivered (awaited number asker) (plain_answer answer)) }
{
    let message = small_message(alloc, &One(Unsigned(number)))?;
    let mut outputs = Seq::new(alloc);
    outputs.push(Output::Deliver(asker.requester, asker.number, message))?;
    Ok(Reaction {
        outputs,
        answer,
        quit: None,
    })
}
