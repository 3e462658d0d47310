ghost use Rattle.std.specs.Prelude.{◌≡◌, ◌++◌, [], ◌∷◌, string_bytes, IfOk, OnOk};
ghost use Rattle.caf_events.specs.Item.{event_of};
ghost use Rattle.caf_inspect.specs.TextBuilder.{frame_of, frames_of, built};
ghost use Rattle.caf_inspect.specs.TextStack.{give, in_list, in_object, opened, state, step};

use caf_events::Item;
use caf_text::{add_bytes, add_flag, add_place, add_plain, add_quoted, add_signed, add_unsigned};
use caf_types::Memory;
use std::alloc::Global;

/// A list or an object of which values are missing: so many behind the next one.
#[derive(Clone, Copy, Debug, PartialEq, Eq, Drop)]
pub(crate) enum Open {
    List(u64),
    Object(u64),
}

/// Writes the text of events, with how many values the open lists and objects still miss.
///
/// After want of memory it is broken.
#[derive(Debug, Drop)]
pub(crate) struct TextBuilder {
    alloc: Global,
    pub(crate) parts: Vec<Open>,
    pub(crate) text: String,
}

fn add_part(parts: &mut Vec<Open>, part: Open) -> Result<(), Memory>
    ensures { OnOk result (parts.new.items ≡ parts.old.items ++ part ∷ []) }
{
    match parts.push(part) {
        Ok(()) => Ok(()),
        Err(_) => Err(Memory),
    }
}

fn open_part(parts: &mut Vec<Open>, part: Open) -> Result<(), Memory>
    ensures { OnOk result (frames_of parts.new.items ≡ frame_of part ∷ frames_of parts.old.items) }
{
    add_part(parts, part)?;
    Ok(())
}

impl TextBuilder {
    /// A builder with these parts open, which has written nothing.
    pub(crate) fn behind(alloc: Global, parts: &[Open]) -> Result<TextBuilder, Memory>
        ensures { IfOk result (λ builder. built builder ≡ state (frames_of parts.now) []) }
    {
        let parts = Vec::from_slice(alloc, parts)?;
        Ok(TextBuilder {
            alloc,
            parts,
            text: String::new(alloc),
        })
    }

    /// Writes the event.
    pub(crate) fn take(&mut self, item: &Item) -> Result<(), Memory>
        ensures { OnOk result (built self.new ≡ step (built self.old) (event_of item.now)) }
    {
        match item {
            Item::Unit => add_plain(&mut self.text, "unit")?,
            Item::Flag(flag) => add_flag(&mut self.text, *flag)?,
            Item::Unsigned(number) => add_unsigned(&mut self.text, *number)?,
            Item::Signed(number) => add_signed(&mut self.text, *number)?,
            Item::Text(text) => add_quoted(self.alloc, &mut self.text, text.as_str())?,
            Item::Bytes(bytes) => add_bytes(self.alloc, &mut self.text, bytes.as_slice())?,
            Item::Place(place) => add_place(&mut self.text, *place)?,
            Item::List(length) => return self.open_list(*length),
            Item::Object(fields) => return self.open_object(*fields),
            Item::Field(name) => {
                add_plain(&mut self.text, name.as_str())?;
                return add_plain(&mut self.text, ": ");
            }
        }
        self.close()
    }

    /// Writes what stands behind a value: a comma, or the closing bytes of the parts that it ends.
    fn close(&mut self) -> Result<(), Memory>
        ensures { OnOk result (built self.new ≡ give (frames_of self.old.parts.items) (string_bytes self.old.text)) }
    {
        while let Some(part) = self.parts.pop() {
            match part {
                Open::List(missing) => {
                    if missing > 0 {
                        add_plain(&mut self.text, ", ")?;
                        open_part(&mut self.parts, Open::List(missing - 1))?;
                        return Ok(());
                    }
                    add_plain(&mut self.text, "]")?;
                }
                Open::Object(missing) => {
                    if missing > 0 {
                        add_plain(&mut self.text, ", ")?;
                        open_part(&mut self.parts, Open::Object(missing - 1))?;
                        return Ok(());
                    }
                    add_plain(&mut self.text, "}")?;
                }
            }
        }
        Ok(())
    }

    fn open_list(&mut self, length: u64) -> Result<(), Memory>
        ensures { OnOk result (built self.new ≡ opened length in_list 91 93 (frames_of self.old.parts.items) (string_bytes self.old.text)) }
    {
        if length == 0 {
            add_plain(&mut self.text, "[]")?;
            self.close()?;
            return Ok(());
        }
        add_plain(&mut self.text, "[")?;
        open_part(&mut self.parts, Open::List(length - 1))?;
        Ok(())
    }

    fn open_object(&mut self, fields: u64) -> Result<(), Memory>
        ensures { OnOk result (built self.new ≡ opened fields in_object 123 125 (frames_of self.old.parts.items) (string_bytes self.old.text)) }
    {
        if fields == 0 {
            add_plain(&mut self.text, "{}")?;
            self.close()?;
            return Ok(());
        }
        add_plain(&mut self.text, "{")?;
        open_part(&mut self.parts, Open::Object(fields - 1))?;
        Ok(())
    }
}
