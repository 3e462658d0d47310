ghost use Rattle.std.specs.Prelude.{◌≡◌, ◌∷◌, ◌++◌, [], ℕ, true, length, IfOk, OnOk, OnErr, Option, Some};
ghost use Rattle.caf_types.specs.ShapeTree.{ShapeTree};
ghost use Rattle.caf_types.specs.Table.{shape_at};
ghost use Rattle.caf_types.specs.TypeTable.{seen};
ghost use Rattle.caf_words.specs.Datum.{fits};
ghost use Rattle.caf_words.specs.Value.{datum};
ghost use Rattle.caf_words.specs.Spelling.{spelling};
ghost use Rattle.caf_steps.specs.Reference.{fresh};
ghost use Rattle.caf_message.specs.Fits.{Fits};
ghost use Rattle.caf_message.specs.Builder.{BuiltFits, built_content};
ghost use Rattle.caf_message.specs.Answers.{LargeExactly};

use crate::row::push_words;
use crate::{Message, MessageFault};
use caf_tuple::Tuple;
use caf_types::{Memory, TypeId, TypeTable};
use caf_words::{Value, spell, write_word};
use std::alloc::Global;
use std::marker::Model;

/// A message under construction, element by element, seen as the IDs and the spellings so far.
#[derive(Debug, Drop)]
pub struct MessageBuilder {
    ids: Vec<u64>,
    words: Vec<u64>,
}

impl Model for MessageBuilder {
    ghost use Rattle.caf_message.specs.Builder.{Built, IsBuilt};

    ghost Value = { Built };

    ghost view = { λ builder. record { ids = builder.ids.items; words = builder.words.items } };

    ghost invariant = { λ builder. IsBuilt record { ids = builder.ids.items; words = builder.words.items } };
}

impl MessageBuilder {
    /// A message without elements so far.
    pub fn new(alloc: Global) -> MessageBuilder
        ensures ids { result.ids ≡ [] }
        ensures words { result.words ≡ [] }
    {
        MessageBuilder {
            ids: Vec::new(alloc),
            words: Vec::new(alloc),
        }
    }

    /// Adds an element at the end: a value of the shape that the ID has in the table. After want of
    /// memory the builder is as before.
    pub fn push(&mut self, table: &TypeTable, id: TypeId, value: &Value) -> Result<(), Memory>
        requires { (shape : ShapeTree) × (shape_at (seen table.now) id.0 ≡ Some shape) × (fits shape (datum value.now) ≡ true) }
        ensures ids { OnOk result (self.new.ids ≡ self.old.ids ++ id.0 ∷ []) }
        ensures words { OnOk result (self.new.words ≡ self.old.words ++ spelling (datum value.now)) }
        ensures fits { (shape_of : ℕ → Option ShapeTree) → shape_of id.0 ≡ shape_at (seen table.now) id.0
            → BuiltFits shape_of self.old → OnOk result (BuiltFits shape_of self.new) }
        ensures memory { OnErr result (self.new ≡ self.old) }
    {
        let words = spell(*self.words.allocator(), value)?;
        write_word(&mut self.ids, id.0 as u64)?;
        if let Err(memory) = push_words(&mut self.words, words.as_slice()) {
            let _ = self.ids.pop();
            return Err(memory);
        }
        Ok(())
    }

    /// The message. `Large` exactly where its content is over [`MOST_WORDS`](caf_tuple::MOST_WORDS) words.
    pub fn finish(self) -> Result<Message, MessageFault>
        ensures made { IfOk result (λ message. message ≡ fresh (built_content self)) }
        ensures large { LargeExactly result (built_content self) }
        ensures fits { (shape_of : ℕ → Option ShapeTree) → BuiltFits shape_of self → OnOk result (Fits shape_of (built_content self)) }
    {
        let MessageBuilder { ids, words } = self;
        let alloc = *words.allocator();
        let content = joined(alloc, ids.as_slice(), words.as_slice())?;
        let tuple = Tuple::make(alloc, content.as_slice())?;
        Ok(Message { tuple })
    }
}

/// The number of IDs, these, and the words.
fn joined(alloc: Global, ids: &[u64], words: &[u64]) -> Result<Vec<u64>, Memory>
    ensures { IfOk result (λ content. content.items ≡ length ids.now ∷ (ids.now ++ words.now)) }
{
    let mut content = Vec::new(alloc);
    write_word(&mut content, ids.len() as u64)?;
    push_words(&mut content, ids)?;
    push_words(&mut content, words)?;
    Ok(content)
}
