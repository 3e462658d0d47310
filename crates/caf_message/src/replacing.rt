ghost use Rattle.std.specs.Prelude.{◌≡◌, ◌<◌, ℕ, true, length, slice_set, Option, IfOk, OnOk, OnErr};
ghost use Rattle.caf_types.specs.ShapeTree.{ShapeTree};
ghost use Rattle.caf_steps.specs.Reference.{fresh};
ghost use Rattle.caf_message.specs.Content.{content_of, ids_in};
ghost use Rattle.caf_message.specs.Fits.{Fits, HaveShapes};
ghost use Rattle.caf_message.specs.Message.{IsAsBefore, Rewrites, Replaces};
ghost use Rattle.caf_message.specs.declared.replacing.Replaced.TheVariants.{InPlace};
ghost use Rattle.caf_message.specs.Answers.{LargeExactly};

use crate::laws::exchange_words;
use crate::{Message, MessageFault, row};
use caf_tuple::Tuple;
use caf_words::Row;
use std::alloc::Global;

/// How [`Message::replace`] changed the content.
#[derive(Clone, Copy, Debug, PartialEq, Eq, Drop)]
pub enum Replaced {
    /// The length changed, so the content is in a new tuple.
    Fresh,
    /// No other message shared the tuple, and it was written in place.
    InPlace,
    /// So many messages shared the tuple, at least 2: it was copied, and the copy was written.
    Copied(u64),
}

impl Message {
    /// A message of the row's types and values. `Large` exactly where its content is over
    /// [`MOST_WORDS`](caf_tuple::MOST_WORDS) words.
    pub fn of<T: Row>(alloc: Global, row: &T) -> Result<Message, MessageFault>
        ensures made { IfOk result (λ message. message ≡ fresh (content_of T.ids (T.means row.now))) }
        ensures large { LargeExactly result (content_of T.ids (T.means row.now)) }
        ensures fits { (shape_of : ℕ → Option ShapeTree) → HaveShapes shape_of T.ids T.shapes → OnOk result (Fits shape_of (content_of T.ids (T.means row.now))) }
    {
        let content = row::content(alloc, row)?;
        let tuple = Tuple::make(alloc, content.as_slice())?;
        Ok(Message { tuple })
    }

    /// Makes the content the row's. Other messages keep theirs. A sole message whose length stays is
    /// written in place. It goes through [`exchange_words`], and gives up the old reference that this
    /// hands back.
    ///
    /// `Large` exactly where the content would be over [`MOST_WORDS`](caf_tuple::MOST_WORDS) words.
    /// After a refusal the content is as before, and the steps grew by at most one test and by reads.
    pub fn replace<T: Row>(&mut self, alloc: Global, row: &T) -> Result<Replaced, MessageFault>
        requires { ids_in self.old.content ≡ T.ids }
        ensures content { OnOk result (self.new.content ≡ content_of T.ids (T.means row.now)) }
        ensures answer { IfOk result (λ replaced. Replaces replaced (content_of T.ids (T.means row.now)) self.old self.new) }
        ensures sole_in_place { self.old.sole ≡ true → length (content_of T.ids (T.means row.now)) ≡ length self.old.content
            → IfOk result (λ replaced. replaced ≡ InPlace) }
        ensures large { LargeExactly result (content_of T.ids (T.means row.now)) }
        ensures fits { (shape_of : ℕ → Option ShapeTree) → HaveShapes shape_of T.ids T.shapes → OnOk result (Fits shape_of self.new.content) }
        ensures refused { OnErr result (IsAsBefore self.old self.new) }
    {
        let content = row::content(alloc, row)?;
        let (replaced, _) = exchange_words(alloc, &mut self.tuple, content.as_slice())?;
        Ok(replaced)
    }
}

/// Writes the words that differ into a sole reference.
pub(crate) fn rewrite(tuple: &mut Tuple, words: &[u64])
    requires sole { tuple.old.sole ≡ true }
    requires same_length { length words.now ≡ length tuple.old.content }
    ensures { Rewrites words.now tuple.old tuple.new }
{
    for (i, word) in words.iter().enumerate() {
        write_at(tuple, i as u64, *word);
    }
}

/// Writes the word where another one stands.
fn write_at(tuple: &mut Tuple, i: u64, word: u64)
    requires sole { tuple.old.sole ≡ true }
    requires within { i < length tuple.old.content }
    ensures { Rewrites (slice_set tuple.old.content i word) tuple.old tuple.new }
{
    if tuple.word(i) != word {
        tuple.set(i, word);
    }
}
