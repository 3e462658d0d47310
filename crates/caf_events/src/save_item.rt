ghost use Rattle.std.specs.Prelude.{List, [], ◌∷◌, OnOk, OnErr};
ghost use Rattle.caf_events.specs.Event.{Event};
ghost use Rattle.caf_events.specs.Item.{event_of};
ghost use Rattle.caf_events.specs.Range.{IsInRange};
ghost use Rattle.caf_events.specs.Tells.{Tells, Keeps};

use crate::{Item, Save, measured};
use caf_types::{Letters, Memory, Seq};
use std::alloc::Global;

/// A saver that is told each event as one [`Item`], and so is a [`Save`].
pub trait SaveItem {
    /// Whether these are the events that the saver was told.
    ghost told: { Self → List Event → Type 0 };

    /// Where the texts and bytes of its items are made.
    fn alloc(&self) -> Global;

    /// Adds the event, whose numbers, texts and bytes are in range. Want of memory adds none: what was
    /// told before stays.
    fn save_item(&mut self, item: Item) -> Result<(), Memory>
        requires { IsInRange (event_of item) }
        ensures added { OnOk result (Tells told self.old self.new (event_of item ∷ [])) }
        ensures kept { OnErr result (Keeps told self.old self.new) };
}

impl<S: SaveItem> Save for S {
    ghost told = { S.told };

    fn unit(&mut self) -> Result<(), Memory> {
        self.save_item(Item::Unit)
    }

    fn flag(&mut self, v: bool) -> Result<(), Memory> {
        self.save_item(Item::Flag(v))
    }

    fn unsigned(&mut self, v: u64) -> Result<(), Memory> {
        self.save_item(Item::Unsigned(v))
    }

    fn signed(&mut self, v: i64) -> Result<(), Memory> {
        self.save_item(Item::Signed(v))
    }

    fn text(&mut self, v: &str) -> Result<(), Memory> {
        let _ = measured(v.as_bytes());
        let text = Letters::of(self.alloc(), v)?;
        self.save_item(Item::Text(text))
    }

    fn bytes(&mut self, v: &[u8]) -> Result<(), Memory> {
        let _ = measured(v);
        let bytes = Vec::from_slice(self.alloc(), v)?;
        self.save_item(Item::Bytes(Seq::of_vec(bytes)))
    }

    fn place(&mut self, v: u32) -> Result<(), Memory> {
        self.save_item(Item::Place(v))
    }

    fn list(&mut self, length: u64) -> Result<(), Memory> {
        self.save_item(Item::List(length))
    }

    fn object(&mut self, fields: u64) -> Result<(), Memory> {
        self.save_item(Item::Object(fields))
    }

    fn field(&mut self, name: &str) -> Result<(), Memory> {
        let name = Letters::of(self.alloc(), name)?;
        self.save_item(Item::Field(name))
    }
}
