ghost use Rattle.std.specs.Prelude.{◌≡◌, true, []};
ghost use Rattle.caf_types.specs.ShapeTree.{ShapeTree};
ghost use Rattle.caf_words.specs.Datum.{Datum, fits};
ghost use Rattle.caf_words.specs.Spelling.{spelling, Spells};
ghost use Rattle.caf_events.specs.Event.{events};
ghost use Rattle.caf_inspect.specs.WordSaver.{SavesWords};

use caf_events::{Save, measured};
use caf_types::{Memory, Seq, Words};
use caf_words::{
    write_bytes, write_flag, write_object_head, write_place, write_signed, write_text, write_unit,
    write_word,
};
use std::alloc::Global;

/// Saves a value as words.
#[derive(Debug, Drop)]
pub struct WordSaver {
    words: Vec<u64>,
}

impl WordSaver {
    /// A saver without events. It takes no memory.
    pub fn new(alloc: Global) -> WordSaver
        ensures { SavesWords result [] }
    {
        WordSaver {
            words: Vec::new(alloc),
        }
    }

    /// The spelling of the one value that was saved.
    pub fn finish(self) -> Words
        requires { (f : ShapeTree) × (d : Datum) × (fits f d ≡ true) × SavesWords self (events f d) }
        ensures form { (f : ShapeTree) → (d : Datum) → fits f d ≡ true → SavesWords self (events f d) → result ≡ spelling d }
        ensures spelled { (f : ShapeTree) → (d : Datum) → fits f d ≡ true → SavesWords self (events f d) → Spells f d result }
    {
        Seq::of_vec(self.words)
    }
}

impl Save for WordSaver {
    ghost told = { SavesWords };

    fn unit(&mut self) -> Result<(), Memory> {
        write_unit(&mut self.words)?;
        Ok(())
    }

    fn flag(&mut self, v: bool) -> Result<(), Memory> {
        write_flag(&mut self.words, v)?;
        Ok(())
    }

    fn unsigned(&mut self, v: u64) -> Result<(), Memory> {
        write_word(&mut self.words, v)?;
        Ok(())
    }

    fn signed(&mut self, v: i64) -> Result<(), Memory> {
        write_signed(&mut self.words, v)?;
        Ok(())
    }

    fn text(&mut self, v: &str) -> Result<(), Memory> {
        let bytes = v.as_bytes();
        let _ = measured(bytes);
        write_text(&mut self.words, v)?;
        Ok(())
    }

    fn bytes(&mut self, v: &[u8]) -> Result<(), Memory> {
        let _ = measured(v);
        write_bytes(&mut self.words, v)?;
        Ok(())
    }

    fn place(&mut self, v: u32) -> Result<(), Memory> {
        write_place(&mut self.words, v)?;
        Ok(())
    }

    fn list(&mut self, length: u64) -> Result<(), Memory> {
        write_word(&mut self.words, length)?;
        Ok(())
    }

    fn object(&mut self, fields: u64) -> Result<(), Memory> {
        write_object_head(&mut self.words, fields)?;
        Ok(())
    }

    fn field(&mut self, _name: &str) -> Result<(), Memory> {
        Ok(())
    }
}
