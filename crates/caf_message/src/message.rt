ghost use Rattle.std.specs.Prelude.{◌≡◌, ◌↔◌, ◌≤◌, length, IfOk, OnOk, OnErr, IsTrue};
ghost use Rattle.caf_steps.specs.Reference.{fresh, retained, second, looked};
ghost use Rattle.caf_message.specs.Content.{ids_in};
ghost use Rattle.caf_words.specs.Several.{ids_of};
ghost use Rattle.caf_message.specs.Message.{HasLooked};

use crate::words;
use caf_tuple::Tuple;
use caf_types::{Memory, TypeId, Words};
use std::alloc::Global;
use std::fmt;
use std::marker::Model;

/// A list of typed elements in a counted tuple, which other messages may share.
///
/// Its content is the number of elements, their type IDs, and the elements' spellings. A message may
/// move to another thread, and dropping it gives its reference up. As in CAF, messages are copied on
/// write ("Revisiting Actor Programming in C++").
#[derive(Drop)]
pub struct Message {
    pub(crate) tuple: Tuple,
}

impl Model for Message {
    ghost use Rattle.caf_steps.specs.declared.reference.Reference.{Reference};
    ghost use Rattle.caf_message.specs.Content.{IsContent};

    ghost Value = { Reference };

    ghost view = { λ message. message.tuple };

    ghost invariant = { λ message. IsContent message.tuple.content };
}

impl Message {
    /// The room of its tuple: how many further references may come from it, at most.
    pub fn room(&self) -> u64
        ensures { result ≡ self.now.room }
    {
        self.tuple.room()
    }

    /// A second message with the same content, in the same tuple. Of the room `r` of this one it has
    /// `q = r / 2048`, and this one keeps `r - 1 - q`. After want of memory this one is as before.
    pub fn retain(&mut self) -> Result<Message, Memory>
        requires { 1 ≤ self.old.room }
        ensures new { IfOk result (λ message. message ≡ second self.old) }
        ensures old { OnOk result (self.new ≡ retained self.old) }
        ensures memory { OnErr result (self.new ≡ self.old) }
    {
        let tuple = self.tuple.retain()?;
        Ok(Message { tuple })
    }

    /// The content. Each word is read once.
    pub fn words(&mut self, alloc: Global) -> Result<Words, Memory>
        ensures words { IfOk result (λ words. words ≡ self.old.content) }
        ensures all { OnOk result (self.new ≡ looked (length self.old.content) self.old) }
        ensures looked { HasLooked self.old self.new }
    {
        let words = words::words_from(&mut self.tuple, alloc, 0)?;
        Ok(Words::of_vec(words))
    }

    /// A message with the same content in a tuple of its own. Each word is read once.
    pub fn copy(&mut self, alloc: Global) -> Result<Message, Memory>
        ensures copied { IfOk result (λ message. message ≡ fresh self.old.content) }
        ensures all { OnOk result (self.new ≡ looked (length self.old.content) self.old) }
        ensures looked { HasLooked self.old self.new }
    {
        let tuple = words::copied(&mut self.tuple, alloc)?;
        Ok(Message { tuple })
    }

    /// Whether its IDs are these types. It reads the number of elements and IDs alone, and takes no
    /// memory.
    pub fn has_types(&mut self, types: &[TypeId]) -> bool
        ensures answer { IsTrue result ↔ (ids_in self.old.content ≡ ids_of types.now) }
        ensures looked { HasLooked self.old self.new }
    {
        words::has_types(&mut self.tuple, types)
    }
}

impl fmt::Debug for Message {
    fn fmt<W: fmt::Write>(&self, f: &mut fmt::Formatter<W>) -> fmt::Result {
        let length = self.tuple.len();
        write!(f, "Message({length} words)")
    }
}
