ghost use Rattle.std.specs.Prelude.{◌≡◌, true, [], string_bytes, OnOk, OnErr};
ghost use Rattle.caf_types.specs.ShapeTree.{ShapeTree};
ghost use Rattle.caf_words.specs.Datum.{Datum, fits};
ghost use Rattle.caf_text.specs.TextForm.{text_form, HasText};
ghost use Rattle.caf_events.specs.Event.{events};
ghost use Rattle.caf_inspect.specs.TextBuilder.{built};
ghost use Rattle.caf_inspect.specs.TextSaver.{text_state, SavesText};
ghost use Rattle.caf_inspect.specs.TextStack.{put_behind};

use crate::text_builder::{Open, TextBuilder};
use caf_events::{Item, SaveItem};
use caf_types::{Letters, Memory};
use std::alloc::Global;

/// Saves a value as text.
///
/// It keeps how many values the open lists and objects still miss, so the text only grows. What an event
/// adds is written aside, and added once.
#[derive(Debug, Drop)]
pub struct TextSaver {
    alloc: Global,
    parts: Vec<Open>,
    text: String,
}

impl TextSaver {
    /// A saver without events. It takes no memory.
    pub fn new(alloc: Global) -> TextSaver
        ensures { SavesText result [] }
    {
        TextSaver {
            alloc,
            parts: Vec::new(alloc),
            text: String::new(alloc),
        }
    }

    /// The text form of the one value that was saved. It takes no memory.
    pub fn finish(self) -> Letters
        requires { (f : ShapeTree) × (d : Datum) × (fits f d ≡ true) × SavesText self (events f d) }
        ensures form { (f : ShapeTree) → (d : Datum) → fits f d ≡ true → SavesText self (events f d) → result ≡ text_form f d }
        ensures has { (f : ShapeTree) → (d : Datum) → fits f d ≡ true → SavesText self (events f d) → HasText f d result }
    {
        match Letters::from_utf8(self.text.into_bytes()) {
            Some(text) => text,
            None => unreachable!(),
        }
    }

    /// Puts what was written behind the text.
    fn add(&mut self, builder: TextBuilder) -> Result<(), Memory>
        ensures added { OnOk result (text_state self.new ≡ put_behind (string_bytes self.old.text) (built builder)) }
        ensures kept { OnErr result (text_state self.new ≡ text_state self.old) }
    {
        self.text.push_str(builder.text.as_str())?;
        self.parts = builder.parts;
        Ok(())
    }
}

impl SaveItem for TextSaver {
    ghost told = { SavesText };

    fn alloc(&self) -> Global {
        self.alloc
    }

    fn save_item(&mut self, item: Item) -> Result<(), Memory> {
        let mut builder = TextBuilder::behind(self.alloc, self.parts.as_slice())?;
        builder.take(&item)?;
        self.add(builder)?;
        Ok(())
    }
}
