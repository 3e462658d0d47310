ghost use Rattle.std.specs.Prelude.{◌≡◌, true, false, [], ◌∷◌, ◌++◌, OnOk, OnErr};
ghost use Rattle.serde_json.specs.View.{view};
ghost use Rattle.caf_types.specs.ShapeTree.{ShapeTree};
ghost use Rattle.caf_words.specs.Datum.{Datum, fits};
ghost use Rattle.caf_events.specs.Event.{events};
ghost use Rattle.caf_events.specs.Item.{event_of};
ghost use Rattle.caf_events.specs.Range.{IsInRange};
ghost use Rattle.caf_events.specs.Tells.{Tells, Keeps};
ghost use Rattle.caf_json.specs.Form.{HasJson, names_differ};
ghost use Rattle.caf_json.specs.Saver.{SavesJson};
ghost use Rattle.caf_json.specs.Stack.{json};

use crate::builder::Builder;
use caf_events::{Item, SaveItem};
use caf_types::Memory;
use serde_json::Value as Json;
use std::alloc::Global;

/// Saves a value as JSON.
///
/// Each event is built in as it comes. The events are kept beside what they build, so that it can be
/// built anew where want of memory broke it.
#[derive(Drop)]
pub struct JsonSaver {
    alloc: Global,
    items: Vec<Item>,
    builder: Builder,
    is_broken: bool,
}

impl JsonSaver {
    /// A saver without events. It takes no memory.
    pub fn new(alloc: Global) -> JsonSaver
        ensures { SavesJson result [] }
    {
        JsonSaver {
            alloc,
            items: Vec::new(alloc),
            builder: Builder::new(alloc),
            is_broken: false,
        }
    }

    /// The JSON form of the one value that was saved. It takes no memory.
    pub fn finish(self) -> Json
        requires { (f : ShapeTree) × (d : Datum) × (fits f d ≡ true) × SavesJson self (events f d) }
        ensures form { (f : ShapeTree) → (d : Datum) → fits f d ≡ true → SavesJson self (events f d) → view result ≡ json f d }
        ensures has { (f : ShapeTree) → (d : Datum) → fits f d ≡ true → SavesJson self (events f d) → names_differ f ≡ true → HasJson f d (view result) }
    {
        let JsonSaver {
            alloc: _,
            items: _,
            builder,
            is_broken: _,
        } = self;
        builder.finish()
    }

    /// Builds anew what was told.
    fn mend(&mut self) -> Result<(), Memory>
        ensures mended { OnOk result (self.new.is_broken ≡ false) }
        ensures kept { Keeps SavesJson self.old self.new }
    {
        let builder = Builder::of_events(self.alloc, self.items.as_slice())?;
        self.builder = builder;
        self.is_broken = false;
        Ok(())
    }

    /// Adds the event to what isn't broken.
    fn add(&mut self, item: Item) -> Result<(), Memory>
        requires range { IsInRange (event_of item) }
        requires whole { self.old.is_broken ≡ false }
        ensures added { OnOk result (Tells SavesJson self.old self.new (event_of item ∷ [])) }
        ensures kept { OnErr result (Keeps SavesJson self.old self.new) }
    {
        let before = self.items.as_slice().len();
        list(&mut self.items, item)?;
        let is_open = self.builder.is_open();
        match self.builder.take(&self.items.as_slice()[before]) {
            Ok(()) => Ok(()),
            Err(fault) => {
                self.items.truncate(before);
                self.is_broken = is_open;
                Err(fault)
            }
        }
    }
}

fn list(items: &mut Vec<Item>, item: Item) -> Result<(), Memory>
    ensures added { OnOk result (items.new.items ≡ items.old.items ++ item ∷ []) }
    ensures kept { OnErr result (items.new.items ≡ items.old.items) }
{
    match items.push(item) {
        Ok(()) => Ok(()),
        Err(_) => Err(Memory),
    }
}

impl SaveItem for JsonSaver {
    ghost told = { SavesJson };

    fn alloc(&self) -> Global {
        self.alloc
    }

    fn save_item(&mut self, item: Item) -> Result<(), Memory> {
        if self.is_broken {
            self.mend()?;
        }
        self.add(item)
    }
}
