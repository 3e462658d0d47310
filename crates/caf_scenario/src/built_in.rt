//! The scenario that indexes files.
ghost use Rattle.std.specs.Prelude.{◌≡◌, ◌≤◌, ◌++◌, [], ◌∷◌, map, string_bytes, IfOk, OnOk};
ghost use Rattle.std.specs.List.{range_with_len};
ghost use Rattle.caf_types.specs.declared.notice.Priority.TheVariants as priority;
ghost use Rattle.caf_response.specs.declared.pending.Mode.TheVariants as mode;
ghost use Rattle.caf_kinds.specs.declared.setup.KindName.TheVariants as name;
ghost use Rattle.caf_words.specs.Several.{ids_of};
ghost use Rattle.caf_words.specs.Datum.{data_of};
ghost use Rattle.caf_words.specs.Value.{datum};
ghost use Rattle.caf_scenario.specs.Scenario.{plain_step};
ghost use Rattle.caf_scenario.specs.Builtin.{IsBuiltin, builtin_names, builtin_setups, builtin_script, collector_place, counters_telling, one_unit, plain_setup};
ghost use Rattle.caf_scenario.specs.Builtin as built;

use crate::Scenario;
use crate::setups::reserve_of;
use caf_kinds::{Element, Index, KindName, Setup, Start, Step};
use caf_response::Mode;
use caf_types::{Memory, Name, Places, Priority, Seq, TypeId, TypeIds};
use caf_words::Value;
use std::alloc::{AllocError, Global};

/// The scenario that indexes files, over so many counters: a source tells its chunks to the lines and the relay,
/// the relay gives each to one of the counters `c1`, `c2` and so on, and all tell what they found to the collector,
/// which is asked for its index.
pub fn builtin(alloc: Global, counters: u32) -> Result<Scenario, Memory>
    requires some { 1 ≤ counters }
    requires few { counters ≤ 200 }
    ensures { IfOk result (λ scenario. IsBuiltin counters scenario) }
{
    let names = names_of(alloc, counters)?;
    let setups = setups_of(alloc, counters)?;
    let script = script_of(alloc, counters)?;
    Ok(Scenario {
        names,
        setups,
        script,
    })
}

fn names_of(alloc: Global, counters: u32) -> Result<Seq<Name>, Memory>
    requires few { counters ≤ 200 }
    ensures { IfOk result (λ names. names ≡ builtin_names counters) }
{
    let mut names = Seq::new(alloc);
    names.push(Name::of(alloc, "src")?)?;
    names.push(Name::of(alloc, "lines")?)?;
    names.push(Name::of(alloc, "relay")?)?;
    push_counter_names(alloc, &mut names, counters)?;
    names.push(Name::of(alloc, "col")?)?;
    Ok(names)
}

/// Adds the names of so many counters.
fn push_counter_names(alloc: Global, names: &mut Seq<Name>, counters: u32) -> Result<(), Memory>
    requires few { counters ≤ 200 }
    ensures { OnOk result (names.new ≡ names.old ++ map built.counter_name (range_with_len 1 counters)) }
{
    for before in 0..counters {
        let name = counter_name(alloc, before + 1)?;
        names.push(name)?;
    }
    Ok(())
}

/// The name of the counter of that number.
fn counter_name(alloc: Global, number: u32) -> Result<Name, Memory>
    requires some { 1 ≤ number }
    requires few { number ≤ 200 }
    ensures { IfOk result (λ name. name ≡ built.counter_name number) }
{
    let text = numbered(alloc, number)?;
    Name::of(alloc, text.as_str())
}

fn numbered(alloc: Global, number: u32) -> Result<String, AllocError>
    ensures { IfOk result (λ text. string_bytes text ≡ built.counter_name number) }
{
    format!(in alloc; "c{number}")
}

fn setups_of(alloc: Global, counters: u32) -> Result<Seq<Setup>, Memory>
    requires few { counters ≤ 200 }
    ensures { IfOk result (λ setups. setups ≡ builtin_setups counters) }
{
    let collector = 4 + counters;
    let mut setups = Seq::new(alloc);
    let peers = places_of(alloc, &[2, 3, collector])?;
    setups.push(setup(alloc, KindName::Source, peers))?;
    let peers = places_of(alloc, &[collector])?;
    setups.push(setup(alloc, KindName::Lines, peers))?;
    let peers = reserve_of(alloc, 4, counters)?;
    setups.push(setup(alloc, KindName::Relay, peers))?;
    push_counters(alloc, &mut setups, collector, counters)?;
    setups.push(setup(alloc, KindName::Collector, Seq::new(alloc)))?;
    Ok(setups)
}

/// Adds so many counters that tell their postings to that place.
fn push_counters(
    alloc: Global,
    setups: &mut Seq<Setup>,
    collector: u32,
    counters: u32,
) -> Result<(), Memory>
    ensures { OnOk result (setups.new ≡ setups.old ++ counters_telling collector counters) }
{
    for _ in 0..counters {
        let peers = places_of(alloc, &[collector])?;
        setups.push(setup(alloc, KindName::Counter, peers))?;
    }
    Ok(())
}

fn places_of(alloc: Global, list: &[u32]) -> Result<Places, Memory>
    ensures { IfOk result (λ places. places ≡ list.now) }
{
    Ok(Seq::of_vec(Vec::from_slice(alloc, list)?))
}

fn setup(alloc: Global, kind: KindName, peers: Places) -> Setup
    ensures { result ≡ plain_setup kind peers }
{
    Setup {
        kind,
        peers,
        asleep: false,
        reserve: Seq::new(alloc),
    }
}

fn script_of(alloc: Global, counters: u32) -> Result<Seq<Step>, Memory>
    requires few { counters ≤ 200 }
    ensures { IfOk result (λ script. map plain_step script ≡ builtin_script counters) }
{
    let mut script = Seq::new(alloc);
    script.push(start_step(alloc)?)?;
    script.push(index_step(alloc, 4 + counters)?)?;
    Ok(script)
}

fn start_step(alloc: Global) -> Result<Step, Memory>
    ensures { IfOk result (λ step. plain_step step ≡ built.start_said) }
{
    let types = one_type(alloc, Start::type_id())?;
    let values = one_unit(alloc)?;
    Ok(Step::Tell(1, Priority::Normal, types, values))
}

fn index_step(alloc: Global, collector: u32) -> Result<Step, Memory>
    ensures { IfOk result (λ step. plain_step step ≡ built.index_asked collector) }
{
    let types = one_type(alloc, Index::type_id())?;
    let values = one_unit(alloc)?;
    Ok(Step::Request(
        collector,
        Priority::Normal,
        Mode::Multiplexed,
        types,
        values,
    ))
}

fn one_type(alloc: Global, id: TypeId) -> Result<TypeIds, Memory>
    ensures { IfOk result (λ types. ids_of types ≡ id.0 ∷ []) }
{
    let mut types = Seq::new(alloc);
    types.push(id)?;
    Ok(types)
}

/// The value of an atom.
fn one_unit(alloc: Global) -> Result<Seq<Value>, Memory>
    ensures { IfOk result (λ values. data_of (map datum values) ≡ one_unit) }
{
    let mut values = Seq::new(alloc);
    values.push(Value::Unit)?;
    Ok(values)
}
