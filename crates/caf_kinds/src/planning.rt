//! What a conductor's script sends, step by step.
ghost use Rattle.std.specs.Prelude.{◌≡◌, ◌+◌, ◌<◌, ◌≤◌, length, Some, IfOk, OnOk};
ghost use Rattle.std.specs.List.{AllByRecursion};
ghost use Rattle.std.specs.Option.{option_copied};
ghost use Rattle.caf_types.specs.TypeTable.{seen};
ghost use Rattle.caf_script.specs.Step.{plain_step};
ghost use Rattle.caf_kinds.specs.Core.{core};
ghost use Rattle.caf_kinds.specs.Starting.{IsMessage, IsTypedStep};
ghost use Rattle.caf_kinds.specs.Lawful.{IsSound};
ghost use Rattle.caf_kinds.specs.Conductor.{IsPlan, MayPlay};
ghost use Rattle.caf_kinds.specs.Planning.{IsBuiltTo, content_for, places_from, planned_step};
ghost use Rattle.caf_kinds.specs.Planning as planning;
ghost use Rattle.caf_kinds.specs.Setups as setups;

use crate::{Setup, Step, core_table};
use caf_actor::Output;
use caf_message::{Message, MessageBuilder, MessageFault};
use caf_script::{Planned, Script};
use caf_signature::result_of;
use caf_types::{Memory, Places, Seq, TypeId, TypeIds, TypeTable};
use caf_words::Value;
use std::alloc::Global;

/// The script of these steps.
pub(crate) fn script_of(
    alloc: Global,
    places: &Seq<Setup>,
    steps: &[Step],
) -> Result<Script, Memory>
    requires typed { AllByRecursion (IsTypedStep places.now) steps.now }
    requires few { length steps.now ≤ 1000 }
    ensures script { IfOk result (λ script. script ≡ planning.script_of places.now steps.now) }
    ensures plan { IfOk result (λ script. IsPlan (places_from 1 (length places.now)) script.plan) }
{
    let table = core_table(alloc)?;
    let mut script = Script::new(alloc);
    for before in 0..steps.len() {
        let step = planned(alloc, &table, places, before as u32 + 1, &steps[before])?;
        script.add(step)?;
    }
    Ok(script)
}

/// The step with that number, as it is played.
fn planned(
    alloc: Global,
    table: &TypeTable,
    places: &Seq<Setup>,
    number: u32,
    step: &Step,
) -> Result<Planned, Memory>
    requires table { seen table.now ≡ core }
    requires typed { IsTypedStep places.now step.now }
    ensures step { IfOk result (λ planned. plain_step planned ≡ planned_step places.now number step.now) }
    ensures played { IfOk result (λ planned. MayPlay (places_from 1 (length places.now)) (plain_step planned)) }
{
    match step {
        Step::Tell(to, priority, types, values) => {
            let message = message_of(alloc, table, types, values)?;
            Ok(Planned::Send(Output::Tell(*to, *priority, message)))
        }
        Step::Request(to, priority, mode, types, values) => {
            let message = message_of(alloc, table, types, values)?;
            let expected = answer_types(alloc, places, *to, types)?;
            let again = copied(alloc, &expected)?;
            let output = Output::Request(*to, *priority, *mode, number, expected, message);
            Ok(Planned::Ask(output, again))
        }
        Step::Within(to, priority, mode, types, values, ticks) => {
            let message = message_of(alloc, table, types, values)?;
            let expected = answer_types(alloc, places, *to, types)?;
            let again = copied(alloc, &expected)?;
            let output = Output::Within(*ticks, *to, *priority, *mode, number, expected, message);
            Ok(Planned::Ask(output, again))
        }
        Step::Exit(to, reason) => Ok(Planned::Send(Output::Exit(*to, *reason))),
        Step::Sync => Ok(Planned::Sync),
        Step::Tick => Ok(Planned::Tick),
    }
}

/// The types with which the actor at that place answers content of these types.
fn answer_types(
    alloc: Global,
    places: &Seq<Setup>,
    to: u32,
    types: &TypeIds,
) -> Result<TypeIds, Memory>
    ensures { IfOk result (λ found. found ≡ planning.answer_types places.now to types.now) }
{
    match setup_at(places, to) {
        Some(setup) => answer_of(alloc, setup, types),
        None => Ok(Seq::new(alloc)),
    }
}

fn setup_at(places: &Seq<Setup>, to: u32) -> Option<&Setup>
    ensures { option_copied result ≡ setups.setup_at places.now to }
{
    if to == 0 {
        return None;
    }
    places.get(to as u64 - 1)
}

fn answer_of(alloc: Global, setup: &Setup, types: &TypeIds) -> Result<TypeIds, Memory>
    ensures { IfOk result (λ found. found ≡ planning.answer_of (Some setup.now) types.now) }
{
    let interface = setup.kind.interface(alloc)?;
    match result_of(&interface, types.as_slice()) {
        Some(result) => copied(alloc, result),
        None => Ok(Seq::new(alloc)),
    }
}

fn copied(alloc: Global, types: &TypeIds) -> Result<TypeIds, Memory>
    ensures { IfOk result (λ copy. copy ≡ types.now) }
{
    let copy = Vec::from_slice(alloc, types.as_slice())?;
    Ok(Seq::of_vec(copy))
}

/// The message of these values of these types.
fn message_of(
    alloc: Global,
    table: &TypeTable,
    types: &TypeIds,
    values: &Seq<Value>,
) -> Result<Message, Memory>
    requires table { seen table.now ≡ core }
    requires message { IsMessage types.now values.now }
    ensures content { IfOk result (λ message. message.content ≡ content_for types.now values.now) }
    ensures sound { OnOk result (IsSound (content_for types.now values.now)) }
{
    let builder = builder_of(alloc, table, types.as_slice(), values.as_slice())?;
    match builder.finish() {
        Ok(message) => Ok(message),
        Err(MessageFault::Memory) => Err(Memory),
        Err(MessageFault::Large) => unreachable!(),
    }
}

fn builder_of(
    alloc: Global,
    table: &TypeTable,
    types: &[TypeId],
    values: &[Value],
) -> Result<MessageBuilder, Memory>
    requires table { seen table.now ≡ core }
    requires message { IsMessage types.now values.now }
    ensures { IfOk result (λ builder. IsBuiltTo (length types.now) types.now values.now builder) }
{
    let mut builder = MessageBuilder::new(alloc);
    for i in 0..types.len() {
        push(&mut builder, table, types, values, i)?;
    }
    Ok(builder)
}

/// Adds the value at that position.
fn push(
    builder: &mut MessageBuilder,
    table: &TypeTable,
    types: &[TypeId],
    values: &[Value],
    i: usize,
) -> Result<(), Memory>
    requires table { seen table.now ≡ core }
    requires message { IsMessage types.now values.now }
    requires within { i < length types.now }
    requires built { IsBuiltTo i types.now values.now builder.old }
    ensures { OnOk result (IsBuiltTo (i + 1) types.now values.now builder.new) }
{
    builder.push(table, types[i], &values[i])?;
    Ok(())
}

/// So many places, from 1 on.
pub(crate) fn all_places(alloc: Global, count: u32) -> Result<Places, Memory>
    ensures { IfOk result (λ places. places ≡ places_from 1 count) }
{
    let mut places = Seq::new(alloc);
    for before in 0..count {
        places.push(before + 1)?;
    }
    Ok(places)
}
