ghost use Rattle.std.specs.Prelude.{◌≡◌, IfOk, OnOk};
ghost use Rattle.caf_types.specs.Table.{shape_at};
ghost use Rattle.caf_types.specs.TypeTable.{seen};
ghost use Rattle.caf_words.specs.Several.{ids_of};
ghost use Rattle.caf_message.specs.Entries.{HasEntries};
ghost use Rattle.caf_actor.specs.PlainForms.{plain_input, plain_reaction};
ghost use Rattle.caf_actor.specs.Rules.{Rules, MayBeGiven, InputFits, StaysValid, StaysSameActor, SkipsInputs, FitsItsTable, FitsItsEntries, AnswersRequests, AnswersAsDeclared, DelegatesAsTold, SendsToPeers, SendsFew, TicksAtTicks, StopsWithExits};

use crate::{Input, Reaction};
use caf_message::Entries;
use caf_signature::Interface;
use caf_types::{Memory, Places, TypeIds, TypeTable};
use std::alloc::Global;

/// What an actor does with the content, the responses and the notices that it is given.
///
/// As in CAF (the CAF manual, "Actors"), a behaviour is a value of its own, which each reaction may
/// change. Its meaning is `rules`, for the values of which `is_valid` holds. The laws below the calls
/// are what every other layer rests on.
pub trait Behavior: Entries + Drop {
    /// What it means: its place, interface, peers and reserve, what it skips and delegates, and its
    /// next value and its reaction at each input.
    ghost rules: { Rules Self };

    /// The values that occur.
    ghost is_valid: { Self → Type 0 };

    /// What it takes, and the types of the answers.
    fn interface(&self) -> &Interface
        ensures value { result.now ≡ rules.interface self.now }
        ensures valid { is_valid self.now };

    /// The places of its children, which belong to it alone. They don't change.
    fn reserve(&self) -> &Places
        ensures value { result.now ≡ rules.reserve self.now }
        ensures valid { is_valid self.now };

    /// Whether content of these types is kept for later.
    fn skips(&self, types: &TypeIds) -> bool
        ensures { result ≡ rules.skips self.now (ids_of types.now) };

    /// Whether content of these types may be answered by a delegation. Only then the actor keeps a
    /// second reference to it, so that else the behaviour is given the one reference.
    fn delegates(&self, types: &TypeIds) -> bool
        ensures { result ≡ rules.delegates self.now (ids_of types.now) };

    /// Takes an input. After want of memory the behaviour is broken: nothing is said of its value.
    fn react(&mut self, alloc: Global, table: &TypeTable, input: Input) -> Result<Reaction, Memory>
        requires entries { HasEntries (seen table.now) Self.entries }
        requires fits { InputFits (shape_at (seen table.now)) (plain_input input) }
        requires given { MayBeGiven rules self.old (plain_input input) }
        ensures next { OnOk result (self.new ≡ rules.next self.old (plain_input input)) }
        ensures reaction { IfOk result (λ reaction. plain_reaction reaction ≡ rules.reaction self.old (plain_input input)) };

    /// A reaction leaves a value that may occur.
    ghost stays_valid: { StaysValid is_valid rules };

    /// A reaction leaves the place, the interface, the peers and the reserve.
    ghost stays_same_actor: { StaysSameActor is_valid rules };

    /// Only inputs of the interface are skipped.
    ghost skips_inputs: { SkipsInputs is_valid rules };

    /// The messages of a reaction fit the table.
    ghost fits_its_table: { FitsItsTable is_valid rules Self.entries };

    /// The messages of a reaction fit the needed entries, where that of the input does.
    ghost fits_its_entries: { FitsItsEntries is_valid rules Self.entries };

    /// A request is never answered by nothing.
    ghost answers_requests: { AnswersRequests is_valid rules };

    /// A value has the declared types.
    ghost answers_as_declared: { AnswersAsDeclared is_valid rules };

    /// Content is delegated only where `delegates` says so of its types.
    ghost delegates_as_told: { DelegatesAsTold is_valid rules };

    /// It sends to its peers, to its children and to itself alone.
    ghost sends_to_peers: { SendsToPeers is_valid rules };

    /// A reaction has at most 1,024 outputs, where a `TellMany` counts once for each place, and
    /// `Deliver`, `Break` and `Tick` don't count.
    ghost sends_few: { SendsFew is_valid rules };

    /// It hands ticks on only where it is given one.
    ghost ticks_at_ticks: { TicksAtTicks is_valid rules };

    /// Its outputs at Stop are exits alone.
    ghost stops_with_exits: { StopsWithExits is_valid rules };
}
