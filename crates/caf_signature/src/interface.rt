ghost use Rattle.std.specs.Prelude.{◌≡◌, ◌↔◌, MatchOption, IsTrue, IsNone, IfSome, Contains, find};
ghost use Rattle.std.specs.List.{list_any};
ghost use Rattle.std.specs.Option.{option_copied};
ghost use Rattle.caf_signature.specs.Interface.{inputs, takes, HaveDifferingInputs, IsFirstRepeat, InterfaceAnswer, is_assignable, IsAssignable, result_for};
ghost use Rattle.caf_signature.specs.Interface as interfaces;

use caf_types::{Seq, TypeId, TypeIds};
use std::alloc::Global;
use std::marker::Model;
use thiserror::Error;

/// The types of content that an actor takes, and the types of its answer.
#[derive(Debug, Drop)]
pub struct Signature {
    /// The types of the content.
    pub input: TypeIds,
    /// The types of the answer.
    pub result: TypeIds,
}

/// Why a list of signatures is no interface.
#[derive(Error, Clone, Copy, Debug, PartialEq, Eq, Drop)]
pub enum InterfaceFault {
    /// The least position, from 0, whose input stands at an earlier one too.
    #[error("the input at position {0} stands twice")]
    Twice(u64),
    /// Want of memory, which [`Interface::new`] doesn't answer: it takes none.
    #[error("out of memory")]
    Memory,
}

/// The signatures of a typed actor: for each input one result.
///
/// As in CAF (the CAF manual, "Statically Typed Actors"), an actor is used through any interface
/// whose signatures are some of its own.
#[derive(Debug, Drop)]
pub struct Interface {
    signatures: Seq<Signature>,
}

impl Model for Interface {
    ghost use Rattle.std.specs.Prelude.{List};
    ghost use Rattle.caf_signature.specs.declared.interface.Signature.{Signature};
    ghost use Rattle.caf_signature.specs.Interface.{HaveDifferingInputs};

    ghost Value = { List Signature };

    ghost view = { λ interface. interface.signatures };

    ghost invariant = { λ interface. HaveDifferingInputs interface.signatures };
}

impl Interface {
    /// The interface of these signatures. `Twice` comes exactly where an input stands twice, and there is no
    /// other refusal: the call takes no memory.
    ///
    /// Each input is compared with all before it, so the time is quadratic in the number of
    /// signatures, of which an actor has a few.
    pub fn new(_alloc: Global, list: Seq<Signature>) -> Result<Interface, InterfaceFault>
        ensures { InterfaceAnswer result list }
    {
        match first_repeat(list.as_slice()) {
            Some(place) => Err(InterfaceFault::Twice(place)),
            None => Ok(Interface { signatures: list }),
        }
    }

    /// The signatures, in the order in which they were given.
    pub fn signatures(&self) -> &Seq<Signature>
        ensures list { result.now ≡ self.now }
        ensures differing { HaveDifferingInputs self.now }
    {
        &self.signatures
    }
}

/// Whether an actor of interface `from` may be used as one of interface `to`: each signature of `to`
/// is one of `from`. The time is the product of their numbers of signatures.
pub fn assignable(from: &Interface, to: &Interface) -> bool
    ensures value { result ≡ is_assignable from.now to.now }
    ensures meaning { IsTrue result ↔ IsAssignable from.now to.now }
{
    has_signatures(from.signatures.as_slice(), to.signatures.as_slice())
}

/// The result that the interface declares for content of these types; None exactly where they are no
/// input of it.
pub fn result_of<'a>(interface: &'a Interface, types: &[TypeId]) -> Option<&'a TypeIds>
    ensures value { option_copied result ≡ result_for interface.now types.now }
    ensures none { IsNone result ↔ (¬ Contains (inputs interface.now) types.now) }
    ensures some { IfSome result (λ types'. Contains interface.now (record { input = types.now; result = types'.now })) }
{
    match find_input(interface.signatures.as_slice(), types) {
        Some(signature) => Some(&signature.result),
        None => None,
    }
}

fn first_repeat(signatures: &[Signature]) -> Option<u64>
    ensures { MatchOption result (HaveDifferingInputs signatures.now) (IsFirstRepeat signatures.now) }
{
    for (i, signature) in signatures.iter().enumerate() {
        if find_input(&signatures[..i], signature.input.as_slice()).is_some() {
            return Some(i as u64);
        }
    }
    None
}

fn has_signatures(signatures: &[Signature], wanted: &[Signature]) -> bool
    ensures { result ≡ is_assignable signatures.now wanted.now }
{
    wanted
        .iter()
        .all(|wanted| has_signature(signatures, wanted))
}

fn has_signature(signatures: &[Signature], wanted: &Signature) -> bool
    ensures { result ≡ list_any (interfaces.is_same wanted.now) signatures.now }
{
    signatures
        .iter()
        .any(|signature| is_same(wanted, signature))
}

fn is_same(left: &Signature, right: &Signature) -> bool
    ensures { result ≡ interfaces.is_same left.now right.now }
{
    same_types(left.input.as_slice(), right.input.as_slice())
        && same_types(left.result.as_slice(), right.result.as_slice())
}

fn find_input<'a>(signatures: &'a [Signature], input: &[TypeId]) -> Option<&'a Signature>
    ensures { option_copied result ≡ find (takes input.now) signatures.now }
{
    signatures
        .iter()
        .find(|signature| same_types(input, signature.input.as_slice()))
}

fn same_types(left: &[TypeId], right: &[TypeId]) -> bool
    ensures { result ≡ interfaces.same_types left.now right.now }
{
    left == right
}
