//! A watcher watches and links its peers, and tells which places have quit.
ghost use Rattle.std.specs.Prelude.{◌≡◌, IfOk};
ghost use Rattle.std.specs.Option.{option_map};
ghost use Rattle.caf_types.specs.TypeTable.{seen};
ghost use Rattle.caf_types.specs.Table.{shape_at};
ghost use Rattle.caf_message.specs.Entries.{HasEntries};
ghost use Rattle.caf_message.specs.Fits.{FitsTable};
ghost use Rattle.caf_actor.specs.PlainForms.{plain_input, plain_reaction};
ghost use Rattle.caf_actor.specs.Rules.{InputFits};
ghost use Rattle.caf_kinds.specs.Core.{core_entries};
ghost use Rattle.caf_kinds.specs.Watcher.{IsWatching};
ghost use Rattle.caf_kinds.specs.Watcher as watcher;

use crate::asking::{answers, done, failed, has, interface, quiet, row_in, takes};
use crate::{
    Identity, Link, One, PlaceList, Seen, Sights, Signal, Two, Typed, Unit, Unsigned, Watch,
};
use caf_actor::{Answer, Input, Origin, Reaction};
use caf_message::Message;
use caf_signature::Interface;
use caf_types::{Memory, Places, Seq, TypeTable};
use caf_words::Row;
use std::alloc::Global;

/// What every watcher takes.
#[derive(Debug, Drop)]
pub struct WatcherKind;

impl Typed for WatcherKind {
    ghost interface = { watcher.interface };

    fn interface(alloc: Global) -> Result<Interface, Memory> {
        let mut signatures = Seq::new(alloc);
        takes::<One<Watch>, One<Unit>>(alloc, &mut signatures)?;
        takes::<One<Link>, One<Unit>>(alloc, &mut signatures)?;
        takes::<Two<Seen, Unsigned>, One<PlaceList>>(alloc, &mut signatures)?;
        interface(alloc, signatures)
    }
}

/// Watches and links its peers, and tells which places have quit.
#[derive(Debug, Drop)]
pub struct Watcher {
    pub(crate) identity: Identity<WatcherKind>,
    pub(crate) sights: Sights,
}

impl Watcher {
    pub(crate) fn interface(&self) -> &Interface
        ensures value { result.now ≡ watcher.interface }
        ensures valid { IsWatching self.now }
    {
        let _ = self.sights.count();
        self.identity.interface()
    }

    pub(crate) fn reserve(&self) -> &Places
        ensures value { result.now ≡ self.now.identity.reserve }
        ensures valid { IsWatching self.now }
    {
        let _ = self.sights.count();
        self.identity.reserve()
    }

    pub(crate) fn react(
        &mut self,
        alloc: Global,
        table: &TypeTable,
        input: Input,
    ) -> Result<Reaction, Memory>
        requires entries { HasEntries (seen table.now) core_entries }
        requires fits { InputFits (shape_at (seen table.now)) (plain_input input) }
        ensures { IfOk result (λ reaction. (self.new, plain_reaction reaction) ≡ watcher.reacted self.old (plain_input input)) }
    {
        match input {
            Input::Content(origin, message) => self.take(alloc, table, origin, message),
            Input::Down(place, _) => self.notify(alloc, place),
            Input::Start
            | Input::Stop
            | Input::Tick
            | Input::Response(_, _)
            | Input::Failed(_, _) => Ok(quiet(alloc)),
        }
    }

    fn take(
        &mut self,
        alloc: Global,
        table: &TypeTable,
        origin: Origin,
        message: Message,
    ) -> Result<Reaction, Memory>
        requires entries { HasEntries (seen table.now) core_entries }
        requires fits { FitsTable (seen table.now) message.content }
        ensures { IfOk result (λ reaction. (self.new, plain_reaction reaction) ≡ watcher.given self.old origin message.content) }
    {
        let mut message = message;
        if has::<One<Watch>>(alloc, &mut message)? {
            return self.watch(alloc);
        }
        if has::<One<Link>>(alloc, &mut message)? {
            return self.link(alloc);
        }
        if has::<Two<Seen, Unsigned>>(alloc, &mut message)? {
            let asked = row_in(alloc, table, &mut message)?;
            return self.see(alloc, origin, asked);
        }
        Ok(answers(alloc, failed()))
    }

    fn watch(&self, alloc: Global) -> Result<Reaction, Memory>
        ensures { IfOk result (λ reaction. (self.now, plain_reaction reaction) ≡ watcher.watches self.now) }
    {
        let peers = self.identity.peers();
        Ok(Reaction {
            outputs: Signal::Watch.to_all(alloc, peers.as_slice())?,
            answer: done(alloc)?,
            quit: None,
        })
    }

    fn link(&self, alloc: Global) -> Result<Reaction, Memory>
        ensures { IfOk result (λ reaction. (self.now, plain_reaction reaction) ≡ watcher.links self.now) }
    {
        let peers = self.identity.peers();
        Ok(Reaction {
            outputs: Signal::Link.to_all(alloc, peers.as_slice())?,
            answer: done(alloc)?,
            quit: None,
        })
    }

    fn see(
        &mut self,
        alloc: Global,
        origin: Origin,
        asked: Option<Two<Seen, Unsigned>>,
    ) -> Result<Reaction, Memory>
        ensures { IfOk result (λ reaction. (self.new, plain_reaction reaction) ≡ watcher.sees self.old origin (option_map ⟦<Two<Seen, Unsigned> as Row>⟧.means asked)) }
    {
        match asked {
            Some(Two(_, Unsigned(least))) => self.seek(alloc, origin, least),
            None => Ok(answers(alloc, failed())),
        }
    }

    /// Answers with the places that have quit where they are so many, and else holds the request.
    fn seek(&mut self, alloc: Global, origin: Origin, least: u64) -> Result<Reaction, Memory>
        ensures { IfOk result (λ reaction. (self.new, plain_reaction reaction) ≡ watcher.seeks self.old origin least) }
    {
        if least <= self.sights.count() {
            let places = self.sights.places(alloc)?;
            return Ok(answers(alloc, Answer::Value(places)));
        }
        if origin.mid.number > 0 {
            self.sights.hold(origin, least)?;
            return Ok(answers(alloc, Answer::Hold));
        }
        Ok(quiet(alloc))
    }

    fn notify(&mut self, alloc: Global, place: u32) -> Result<Reaction, Memory>
        ensures { IfOk result (λ reaction. (self.new, plain_reaction reaction) ≡ watcher.downed self.old place) }
    {
        Ok(Reaction {
            outputs: self.sights.notify(alloc, place)?,
            answer: Answer::Nothing,
            quit: None,
        })
    }
}
