ghost use Rattle.std.specs.Prelude.{◌≡◌, List, ◌++◌, [], ◌∷◌, map, OnOk, OnErr, IfOk, vec_len, true, false};
ghost use Rattle.serde_json.specs.Data.{null, boolean, number, string, unsigned, array, no_items, object, no_members, put as with_put, Data as JsonData};
ghost use Rattle.serde_json.specs.Find.{of_integer};
ghost use Rattle.serde_json.specs.View.{view, members_view};
ghost use Rattle.hex.specs.Hex.{encode_lower};
ghost use Rattle.caf_events.specs.Item.{event_of, events_in};
ghost use Rattle.caf_json.specs.Builder.{frame_of, frames_of, built, filled_state, IsOpen};
ghost use Rattle.caf_json.specs.Stack.{Frame, give, named, array_given, object_given, opened_array, opened_object, state, step, steps};

use crate::part::Part;
use caf_events::Item;
use caf_types::{Letters, Memory};
use serde_json::{Map, Value as Json};
use std::alloc::Global;

/// Builds JSON from events, with the arrays and objects that are open on a stack.
///
/// After want of memory it is broken, unless nothing was open.
#[derive(Drop)]
pub(crate) struct Builder {
    alloc: Global,
    parts: Vec<Part>,
    last: Json,
}

/// What became of an open part when a value was put in.
#[derive(Drop)]
pub(crate) enum Filled {
    Open(Part),
    Whole(Json),
}

fn null_json() -> Json
    ensures { view result ≡ null }
{
    Json::Null
}

fn flag_json(value: bool) -> Json
    ensures { view result ≡ boolean value }
{
    Json::Bool(value)
}

fn empty_array(alloc: Global) -> Json
    ensures { view result ≡ array no_items }
{
    Json::Array(Vec::new(alloc))
}

fn empty_object(alloc: Global) -> Json
    ensures { view result ≡ object no_members }
{
    Json::Object(Map::new(alloc))
}

fn unsigned_json(value: u64) -> Json
    ensures { view result ≡ number (unsigned value) }
{
    Json::from(value)
}

fn signed_json(value: i64) -> Json
    ensures { view result ≡ number (of_integer value) }
{
    Json::from(value)
}

fn text_json(alloc: Global, text: &str) -> Result<Json, Memory>
    ensures { IfOk result (λ j. view j ≡ string text.now) }
{
    Ok(Json::try_from_str(alloc, text)?)
}

fn bytes_json(alloc: Global, bytes: &[u8]) -> Result<Json, Memory>
    ensures { IfOk result (λ j. view j ≡ string (encode_lower bytes.now)) }
{
    let digits = hex::encode(alloc, bytes)?;
    Ok(Json::String(digits))
}

fn add_part(parts: &mut Vec<Part>, part: Part) -> Result<(), Memory>
    ensures added { OnOk result (parts.new.items ≡ parts.old.items ++ part ∷ []) }
    ensures kept { OnErr result (parts.new.items ≡ parts.old.items) }
{
    match parts.push(part) {
        Ok(()) => Ok(()),
        Err(_) => Err(Memory),
    }
}

fn open_part(parts: &mut Vec<Part>, part: Part) -> Result<(), Memory>
    ensures added { OnOk result (frames_of parts.new.items ≡ frame_of part ∷ frames_of parts.old.items) }
    ensures kept { OnErr result (parts.new.items ≡ parts.old.items) }
{
    add_part(parts, part)?;
    Ok(())
}

#[tactic(auto, using(crate::proofs::BuilderLemmas::array_whole, crate::proofs::BuilderLemmas::array_open))]
fn fill_array(missing: u64, items: Vec<Json>, value: Json) -> Result<Filled, Memory>
    ensures { IfOk result (λ filled. (fs : List Frame) → (last : JsonData) →
        filled_state fs last filled ≡ array_given missing (map view items.items ++ view value ∷ []) (give fs last) (λ f. state (f ∷ fs) last)) }
{
    let mut items = items;
    serde_json::push(&mut items, value)?;
    if missing == 0 {
        Ok(Filled::Whole(Json::Array(items)))
    } else {
        Ok(Filled::Open(Part::Array {
            missing: missing - 1,
            items,
        }))
    }
}

#[tactic(auto, using(crate::proofs::BuilderLemmas::object_whole, crate::proofs::BuilderLemmas::object_open))]
fn fill_object(
    alloc: Global,
    missing: u64,
    members: Map<String, Json>,
    key: Letters,
    value: Json,
) -> Result<Filled, Memory>
    ensures { IfOk result (λ filled. (fs : List Frame) → (last : JsonData) →
        filled_state fs last filled ≡ object_given missing (with_put key (view value) (members_view members.entries)) key (give fs last) (λ f. state (f ∷ fs) last)) }
{
    let mut members = members;
    serde_json::put(&mut members, alloc, key.as_str(), value)?;
    if missing == 0 {
        Ok(Filled::Whole(Json::Object(members)))
    } else {
        Ok(Filled::Open(Part::Object {
            missing: missing - 1,
            members,
            key,
        }))
    }
}

fn fill(alloc: Global, part: Part, value: Json) -> Result<Filled, Memory>
    ensures { IfOk result (λ filled. (fs : List Frame) → (last : JsonData) → filled_state fs last filled ≡ give (frame_of part ∷ fs) last (view value)) }
{
    match part {
        Part::Array { missing, items } => fill_array(missing, items, value),
        Part::Object {
            missing,
            members,
            key,
        } => fill_object(alloc, missing, members, key, value),
    }
}

fn with_name(alloc: Global, part: Part, name: &str) -> Result<Part, Memory>
    ensures { IfOk result (λ part_named. (fs : List Frame) → frame_of part_named ∷ fs ≡ named name.now (frame_of part ∷ fs)) }
{
    match part {
        Part::Array { missing, items } => Ok(Part::Array { missing, items }),
        Part::Object {
            missing,
            members,
            key: _,
        } => Ok(Part::Object {
            missing,
            members,
            key: Letters::of(alloc, name)?,
        }),
    }
}

impl Builder {
    /// A builder without events. It takes no memory.
    pub(crate) fn new(alloc: Global) -> Builder
        ensures { built result ≡ state [] null }
    {
        Builder {
            alloc,
            parts: Vec::new(alloc),
            last: Json::Null,
        }
    }

    /// What events build.
    pub(crate) fn of_events(alloc: Global, items: &[Item]) -> Result<Builder, Memory>
        ensures { IfOk result (λ builder. built builder ≡ steps (state [] null) (events_in items.now)) }
    {
        let mut builder = Builder::new(alloc);
        for item in items {
            builder.take(item)?;
        }
        Ok(builder)
    }

    /// The last whole value.
    pub(crate) fn finish(self) -> Json
        ensures { view result ≡ view self.last }
    {
        self.last
    }

    /// Whether an array or an object is open.
    pub(crate) fn is_open(&self) -> bool
        ensures open { result ≡ true → IsOpen (built self.now) }
        ensures none { result ≡ false → vec_len self.now.parts ≡ 0 }
    {
        let parts = self.parts.as_slice();
        !parts.is_empty()
    }

    /// Builds the event in.
    pub(crate) fn take(&mut self, item: &Item) -> Result<(), Memory>
        ensures added { OnOk result (built self.new ≡ step (built self.old) (event_of item.now)) }
        ensures kept { OnErr result (vec_len self.old.parts ≡ 0 → built self.new ≡ built self.old) }
    {
        match item {
            Item::Unit => self.put(null_json()),
            Item::Flag(flag) => self.put(flag_json(*flag)),
            Item::Unsigned(number) => self.put(unsigned_json(*number)),
            Item::Signed(number) => self.put(signed_json(*number)),
            Item::Text(text) => {
                let json = text_json(self.alloc, text.as_str())?;
                self.put(json)
            }
            Item::Bytes(bytes) => {
                let json = bytes_json(self.alloc, bytes.as_slice())?;
                self.put(json)
            }
            Item::Place(place) => self.put(unsigned_json(*place as u64)),
            Item::List(length) => self.open_list(*length),
            Item::Object(fields) => self.open_object(*fields),
            Item::Field(name) => self.name_next(name.as_str()),
        }
    }

    /// Puts a value into the innermost open part, and what is then whole into the one around it.
    fn put(&mut self, value: Json) -> Result<(), Memory>
        ensures added { OnOk result (built self.new ≡ give (frames_of self.old.parts.items) (view self.old.last) (view value)) }
        ensures kept { OnErr result (vec_len self.old.parts ≡ 0 → built self.new ≡ built self.old) }
    {
        let mut value = value;
        while let Some(part) = self.parts.pop() {
            match fill(self.alloc, part, value)? {
                Filled::Open(part) => {
                    open_part(&mut self.parts, part)?;
                    return Ok(());
                }
                Filled::Whole(whole) => value = whole,
            }
        }
        self.last = value;
        Ok(())
    }

    #[tactic(auto, using(crate::proofs::BuilderLemmas::array_none, crate::proofs::BuilderLemmas::array_some))]
    fn open_list(&mut self, length: u64) -> Result<(), Memory>
        ensures added { OnOk result (built self.new ≡ opened_array length (frames_of self.old.parts.items) (view self.old.last)) }
        ensures kept { OnErr result (vec_len self.old.parts ≡ 0 → built self.new ≡ built self.old) }
    {
        if length == 0 {
            self.put(empty_array(self.alloc))?;
            return Ok(());
        }
        let items = Vec::new(self.alloc);
        open_part(
            &mut self.parts,
            Part::Array {
                missing: length - 1,
                items,
            },
        )?;
        Ok(())
    }

    #[tactic(auto, using(crate::proofs::BuilderLemmas::object_none, crate::proofs::BuilderLemmas::object_some))]
    fn open_object(&mut self, fields: u64) -> Result<(), Memory>
        ensures added { OnOk result (built self.new ≡ opened_object fields (frames_of self.old.parts.items) (view self.old.last)) }
        ensures kept { OnErr result (vec_len self.old.parts ≡ 0 → built self.new ≡ built self.old) }
    {
        if fields == 0 {
            self.put(empty_object(self.alloc))?;
            return Ok(());
        }
        let members = Map::new(self.alloc);
        let key = Letters::of(self.alloc, "")?;
        open_part(
            &mut self.parts,
            Part::Object {
                missing: fields - 1,
                members,
                key,
            },
        )?;
        Ok(())
    }

    fn name_next(&mut self, name: &str) -> Result<(), Memory>
        ensures added { OnOk result (built self.new ≡ state (named name.now (frames_of self.old.parts.items)) (view self.old.last)) }
        ensures kept { OnErr result (vec_len self.old.parts ≡ 0 → built self.new ≡ built self.old) }
    {
        match self.parts.pop() {
            None => Ok(()),
            Some(part) => {
                let part = with_name(self.alloc, part, name)?;
                open_part(&mut self.parts, part)?;
                Ok(())
            }
        }
    }
}
