ghost use Rattle.std.specs.Prelude.{◌≡◌, map, IfOk};
ghost use Rattle.std.specs.Option.{option_map, option_copied};
ghost use Rattle.caf_types.specs.TypeTable.{seen};
ghost use Rattle.caf_types.specs.Table.{shape_at};
ghost use Rattle.caf_message.specs.Entries.{HasEntries};
ghost use Rattle.caf_actor.specs.PlainForms.{plain_input, plain_reaction};
ghost use Rattle.caf_actor.specs.Rules.{InputFits};
ghost use Rattle.caf_script.specs.Reply.{plain_reply};
ghost use Rattle.caf_kinds.specs.Core.{core_entries};
ghost use Rattle.caf_kinds.specs.Kinds as kinds;
ghost use Rattle.caf_kinds.specs.Laws as laws;

use crate::relay::delegates;
use crate::spawner::passes_on;
use crate::{
    AlarmClock, Calc, Cell, Collector, Conductor, Counter, Echo, Holder, Lines, Quitter, Relay,
    Source, Spawner, Watcher,
};
use caf_actor::{Behavior, Input, Reaction};
use caf_index::Index;
use caf_message::Entries;
use caf_script::StepReply;
use caf_signature::Interface;
use caf_types::{Memory, Places, Seq, TypeIds, TypeTable};
use std::alloc::Global;

/// An actor's behaviour, of one of the kinds.
#[derive(Debug, Drop)]
pub enum Kind {
    /// See [`Echo`].
    Echo(Echo),
    /// See [`Cell`].
    Cell(Cell),
    /// See [`Calc`].
    Calc(Calc),
    /// See [`Holder`].
    Holder(Holder),
    /// See [`Quitter`].
    Quitter(Quitter),
    /// See [`Source`].
    Source(Source),
    /// See [`Relay`].
    Relay(Relay),
    /// See [`Counter`].
    Counter(Counter),
    /// See [`Lines`].
    Lines(Lines),
    /// See [`Collector`].
    Collector(Collector),
    /// See [`Watcher`].
    Watcher(Watcher),
    /// See [`Spawner`].
    Spawner(Spawner),
    /// See [`AlarmClock`].
    Alarm(AlarmClock),
    /// See [`Conductor`].
    Conductor(Conductor),
}

impl Entries for Kind {
    ghost entries = { core_entries };
}

impl Behavior for Kind {
    ghost rules = { kinds.kind_rules };

    ghost is_valid = { kinds.IsValid };

    fn interface(&self) -> &Interface {
        match self {
            Kind::Echo(echo) => echo.identity.interface(),
            Kind::Cell(cell) => cell.interface(),
            Kind::Calc(calc) => calc.identity.interface(),
            Kind::Holder(holder) => holder.interface(),
            Kind::Quitter(quitter) => quitter.identity.interface(),
            Kind::Source(source) => source.interface(),
            Kind::Relay(relay) => relay.identity.interface(),
            Kind::Counter(counter) => counter.identity.interface(),
            Kind::Lines(lines) => lines.identity.interface(),
            Kind::Collector(collector) => collector.identity.interface(),
            Kind::Watcher(watcher) => watcher.interface(),
            Kind::Spawner(spawner) => spawner.identity.interface(),
            Kind::Alarm(alarm) => alarm.identity.interface(),
            Kind::Conductor(conductor) => conductor.interface(),
        }
    }

    fn reserve(&self) -> &Places {
        match self {
            Kind::Echo(echo) => echo.identity.reserve(),
            Kind::Cell(cell) => cell.reserve(),
            Kind::Calc(calc) => calc.identity.reserve(),
            Kind::Holder(holder) => holder.reserve(),
            Kind::Quitter(quitter) => quitter.identity.reserve(),
            Kind::Source(source) => source.reserve(),
            Kind::Relay(relay) => relay.identity.reserve(),
            Kind::Counter(counter) => counter.identity.reserve(),
            Kind::Lines(lines) => lines.identity.reserve(),
            Kind::Collector(collector) => collector.identity.reserve(),
            Kind::Watcher(watcher) => watcher.reserve(),
            Kind::Spawner(spawner) => spawner.identity.reserve(),
            Kind::Alarm(alarm) => alarm.identity.reserve(),
            Kind::Conductor(conductor) => conductor.reserve(),
        }
    }

    fn skips(&self, types: &TypeIds) -> bool {
        match self {
            Kind::Echo(echo) => echo.skips(types),
            Kind::Cell(_)
            | Kind::Calc(_)
            | Kind::Holder(_)
            | Kind::Quitter(_)
            | Kind::Source(_)
            | Kind::Relay(_)
            | Kind::Counter(_)
            | Kind::Lines(_)
            | Kind::Collector(_)
            | Kind::Watcher(_)
            | Kind::Spawner(_)
            | Kind::Alarm(_)
            | Kind::Conductor(_) => false,
        }
    }

    fn delegates(&self, types: &TypeIds) -> bool {
        match self {
            Kind::Relay(_) => delegates(types),
            Kind::Spawner(_) => passes_on(types),
            Kind::Echo(_)
            | Kind::Cell(_)
            | Kind::Calc(_)
            | Kind::Holder(_)
            | Kind::Quitter(_)
            | Kind::Source(_)
            | Kind::Counter(_)
            | Kind::Lines(_)
            | Kind::Collector(_)
            | Kind::Watcher(_)
            | Kind::Alarm(_)
            | Kind::Conductor(_) => false,
        }
    }

    fn react(
        &mut self,
        alloc: Global,
        table: &TypeTable,
        input: Input,
    ) -> Result<Reaction, Memory> {
        self.meet(alloc, table, input)
    }

    ghost stays_valid = { laws.stays_valid };

    ghost stays_same_actor = { laws.stays_same_actor };

    ghost skips_inputs = { laws.skips_inputs };

    ghost fits_its_table = { laws.fits_its_table };

    ghost fits_its_entries = { laws.fits_its_entries };

    ghost answers_requests = { laws.answers_requests };

    ghost answers_as_declared = { laws.answers_as_declared };

    ghost delegates_as_told = { laws.delegates_as_told };

    ghost sends_to_peers = { laws.sends_to_peers };

    ghost sends_few = { laws.sends_few };

    ghost ticks_at_ticks = { laws.ticks_at_ticks };

    ghost stops_with_exits = { laws.stops_with_exits };
}

impl Kind {
    /// Gives the input to the kind.
    fn meet(&mut self, alloc: Global, table: &TypeTable, input: Input) -> Result<Reaction, Memory>
        requires entries { HasEntries (seen table.now) core_entries }
        requires fits { InputFits (shape_at (seen table.now)) (plain_input input) }
        ensures { IfOk result (λ reaction. (self.new, plain_reaction reaction) ≡ kinds.reacted self.old (plain_input input)) }
    {
        match self {
            Kind::Echo(echo) => echo.react(alloc, input),
            Kind::Cell(cell) => cell.react(alloc, table, input),
            Kind::Calc(calc) => calc.react(alloc, table, input),
            Kind::Holder(holder) => holder.react(alloc, table, input),
            Kind::Quitter(quitter) => quitter.react(alloc, table, input),
            Kind::Source(source) => source.react(alloc, input),
            Kind::Relay(relay) => relay.react(alloc, table, input),
            Kind::Counter(counter) => counter.react(alloc, table, input),
            Kind::Lines(lines) => lines.react(alloc, table, input),
            Kind::Collector(collector) => collector.react(alloc, table, input),
            Kind::Watcher(watcher) => watcher.react(alloc, table, input),
            Kind::Spawner(spawner) => spawner.react(alloc, input),
            Kind::Alarm(alarm) => alarm.react(alloc, table, input),
            Kind::Conductor(conductor) => conductor.react(alloc, table, input),
        }
    }

    /// What a collector has put together so far. None exactly where it is no collector.
    pub fn index(&self) -> Option<&Index>
        ensures { option_copied result ≡ kinds.index_of self.now }
    {
        match self {
            Kind::Collector(collector) => Some(&collector.index),
            Kind::Echo(_)
            | Kind::Cell(_)
            | Kind::Calc(_)
            | Kind::Holder(_)
            | Kind::Quitter(_)
            | Kind::Source(_)
            | Kind::Relay(_)
            | Kind::Counter(_)
            | Kind::Lines(_)
            | Kind::Watcher(_)
            | Kind::Spawner(_)
            | Kind::Alarm(_)
            | Kind::Conductor(_) => None,
        }
    }

    /// What became of each step of a conductor's script. None exactly where it is no conductor.
    pub fn replies(&self) -> Option<&Seq<StepReply>>
        ensures { option_map (λ replies. map plain_reply replies) (option_copied result) ≡ kinds.replies_of self.now }
    {
        match self {
            Kind::Conductor(conductor) => Some(conductor.replies()),
            Kind::Echo(_)
            | Kind::Cell(_)
            | Kind::Calc(_)
            | Kind::Holder(_)
            | Kind::Quitter(_)
            | Kind::Source(_)
            | Kind::Relay(_)
            | Kind::Counter(_)
            | Kind::Lines(_)
            | Kind::Collector(_)
            | Kind::Watcher(_)
            | Kind::Spawner(_)
            | Kind::Alarm(_) => None,
        }
    }
}
