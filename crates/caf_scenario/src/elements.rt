//! The elements of messages: one value of a type each.
ghost use Rattle.std.specs.Prelude.{◌≡◌, Some, map, nat_lt, length, codes, IfOk};
ghost use Rattle.std.specs.Option.{option_map};
ghost use Rattle.serde_json.specs.View.{view, members_view};
ghost use Rattle.caf_types.specs.Shape.{tree};
ghost use Rattle.caf_types.specs.TypeTable.{seen};
ghost use Rattle.caf_words.specs.Datum.{data_of};
ghost use Rattle.caf_words.specs.Several.{ids_of};
ghost use Rattle.caf_words.specs.Spelling.{spellings};
ghost use Rattle.caf_words.specs.Value.{datum};
ghost use Rattle.caf_message.specs.Content.{content_of};
ghost use Rattle.caf_json.specs.Reading.{unjson};
ghost use Rattle.caf_kinds.specs.Core.{core};
ghost use Rattle.caf_scenario.specs.Path.{at_member, spot_path};
ghost use Rattle.caf_scenario.specs.First.{first_of};
ghost use Rattle.caf_scenario.specs.Elements.{one_member, read_value, value_of, typed_value, element_of, elements_of};
ghost use Rattle.caf_scenario.specs.Contents.{element_seen, AreContents};
ghost use Rattle.caf_scenario.specs.Steps.{element_fault};
ghost use Rattle.caf_scenario.specs.Read.{Passes};

use crate::ScenarioFault;
use crate::spot::Spot;
use caf_events::LoadFault;
use caf_json::value_of_json;
use caf_types::{Memory, Seq, Shape, TypeId, TypeIds, TypeTable};
use caf_words::{Value, spell};
use serde_json::{Map, Value as Json};
use std::alloc::Global;

/// The most words that a message may have.
const MOST_WORDS: u64 = 4_194_304;

/// The ID of an element's type, and its value.
#[derive(Debug, Drop)]
struct Element {
    id: TypeId,
    value: Value,
}

/// What a message has: the IDs of its types, and as many values.
#[derive(Debug, Drop)]
pub(crate) struct Contents {
    pub(crate) types: TypeIds,
    pub(crate) values: Seq<Value>,
}

/// The contents of the message of the step at that spot.
pub(crate) fn contents_of(
    alloc: Global,
    table: &TypeTable,
    spot: Spot,
    elements: &[Json],
) -> Result<Contents, ScenarioFault>
    requires { seen table.now ≡ core }
    ensures { Passes (λ contents. AreContents contents.types contents.values (elements_of (map view elements.now))) result
        (first_of (element_fault (at_member (spot_path spot) (codes "message"))) 0 (map view elements.now)) }
{
    let mut types = Seq::new(alloc);
    let mut values = Seq::new(alloc);
    for (i, element) in elements.iter().enumerate() {
        let read = element_at(alloc, table, spot, i as u64, element)?;
        types.push(read.id)?;
        values.push(read.value)?;
    }
    Ok(Contents { types, values })
}

fn element_at(
    alloc: Global,
    table: &TypeTable,
    spot: Spot,
    position: u64,
    json: &Json,
) -> Result<Element, ScenarioFault>
    requires { seen table.now ≡ core }
    ensures { Passes (λ element. element_of (view json.now) ≡ Some (element_seen element)) result
        (element_fault (at_member (spot_path spot) (codes "message")) position (view json.now)) }
{
    match element_of(alloc, table, json)? {
        Some(element) => Ok(element),
        None => Err(spot.item_fault(alloc, "message", position)),
    }
}

fn element_of(alloc: Global, table: &TypeTable, json: &Json) -> Result<Option<Element>, Memory>
    requires { seen table.now ≡ core }
    ensures { IfOk result (λ element. option_map element_seen element ≡ element_of (view json.now)) }
{
    match json.as_object() {
        None => Ok(None),
        Some(members) => match one_member(members) {
            None => Ok(None),
            Some((name, member)) => typed_value(alloc, table, name, member),
        },
    }
}

/// The name and the value of an object's one member.
fn one_member(members: &Map<String, Json>) -> Option<(&str, &Json)>
    ensures { option_map (λ member. (member.0.now, view member.1.now)) result ≡ one_member (members_view members.now.entries) }
{
    let mut each = members.iter();
    match each.next() {
        None => None,
        Some((name, member)) => {
            if each.next().is_some() {
                return None;
            }
            Some((name.as_str(), member))
        }
    }
}

/// The value of the type of that name.
fn typed_value(
    alloc: Global,
    table: &TypeTable,
    name: &str,
    json: &Json,
) -> Result<Option<Element>, Memory>
    requires { seen table.now ≡ core }
    ensures { IfOk result (λ element. option_map element_seen element ≡ typed_value (name.now, view json.now)) }
{
    match table.find(name) {
        None => Ok(None),
        Some(id) => match value_of(alloc, table, id, json)? {
            None => Ok(None),
            Some(value) => Ok(Some(Element { id, value })),
        },
    }
}

fn value_of(
    alloc: Global,
    table: &TypeTable,
    id: TypeId,
    json: &Json,
) -> Result<Option<Value>, Memory>
    requires { seen table.now ≡ core }
    ensures { IfOk result (λ value. option_map datum value ≡ value_of id.0 (view json.now)) }
{
    match table.shape(id) {
        None => Ok(None),
        Some(shape) => read_value(alloc, shape, json),
    }
}

fn read_value(alloc: Global, shape: &Shape, json: &Json) -> Result<Option<Value>, Memory>
    ensures { IfOk result (λ value. option_map datum value ≡ read_value (unjson (tree shape.now) (view json.now))) }
{
    match value_of_json(alloc, shape, json) {
        Ok(value) => Ok(Some(value)),
        Err(LoadFault::Memory) => Err(Memory),
        Err(LoadFault::Unfit(_)) => Ok(None),
    }
}

/// Whether a message of these types and values would have too many words.
pub(crate) fn is_large(alloc: Global, contents: &Contents) -> Result<bool, Memory>
    ensures { IfOk result (λ large. large ≡ nat_lt 4194304 (length (content_of (ids_of contents.now.types) (data_of (map datum contents.now.values))))) }
{
    let types = contents.types.len();
    if types >= MOST_WORDS {
        return Ok(true);
    }
    has_more_words(alloc, contents.values.as_slice(), MOST_WORDS - 1 - types)
}

/// Whether the spellings of the values have more words than that.
fn has_more_words(alloc: Global, values: &[Value], most: u64) -> Result<bool, Memory>
    ensures { IfOk result (λ more. more ≡ nat_lt most (length (spellings (data_of (map datum values.now))))) }
{
    let mut left = most;
    for value in values {
        let words = spell(alloc, value)?;
        if words.len() > left {
            return Ok(true);
        }
        left -= words.len();
    }
    Ok(false)
}
