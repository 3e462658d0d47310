//! What holds of every inbox, by functions that do nothing.
ghost use Rattle.std.specs.Prelude.{◌≡◌, ℕ, List, Contains};
ghost use Rattle.std.specs.List.{AllByRecursion};
ghost use mathlib.Core.Option.{some};
ghost use lib.ListN.{get_elem?};
ghost use Rattle.caf_types.specs.Table.{Table, shape_at};
ghost use Rattle.caf_message.specs.Entries.{TableEntries, HasEntries, entry_shape};
ghost use Rattle.caf_message.specs.Envelope.{EnvelopeFits};
ghost use Rattle.caf_message.specs.declared.envelope.Envelope.{Envelope};
ghost use Rattle.caf_message.specs.declared.envelope.Taken.{Taken};
ghost use Rattle.caf_inbox.specs.declared.view.View.{View};
ghost use Rattle.caf_inbox.specs.declared.view.Role.TheVariants.{Reading, Sending};
ghost use Rattle.caf_inbox.specs.Rule.{InboxRule};
ghost use Rattle.caf_inbox.specs.Senders.{from_sender, IsPrefix, AreWithin, AreBehind};

use crate::lane::Lane;
use crate::reader::Reader;
use caf_message::{Entries, entries_fit_their_tables};

/// Between any two steps on an inbox, what the reader took of a sender is a prefix of what that sender's lane pushed:
/// each envelope once, in order, as it was pushed.
pub fn taken_is_a_prefix()
    ensures { (held : List Envelope) (views : List View) → InboxRule held views
        → (i j : ℕ) (reader lane : View) → get_elem? views i ≡ some reader → get_elem? views j ≡ some lane
        → reader.role ≡ Reading → lane.role ≡ Sending → IsPrefix (from_sender lane.sender reader.log) lane.log }
{}

/// By each note of the reader that a lane has met, what was taken of its sender is a prefix of what it pushed.
pub fn each_note_is_behind<E: Entries>(lane: &Lane<E>)
    ensures { AreBehind lane.now.sender lane.now.pushed lane.now.met }
{
    let _pass = &lane.pass;
}

/// What the reader took of a sender is all that the lane pushed, where the reader met a note that the lane made after
/// its last push, a take after that answered `None`, and the lane met a note that the reader made after its last batch.
pub fn all_was_taken<E: Entries>(reader: &Reader<E>, lane: &Lane<E>)
    requires met { Contains reader.now.met (record { sender = lane.now.sender; pushed = lane.now.pushed }) }
    requires none { AreWithin reader.now.taken reader.now.met }
    requires heard { Contains lane.now.met reader.now.taken }
    ensures { from_sender lane.now.sender reader.now.taken ≡ lane.now.pushed }
{
    each_note_is_behind(lane);
}

/// What fits the entries of an inbox fits every table that has them.
pub fn a_batch_fits_its_tables()
    ensures { (table : Table) (entries : TableEntries) (batch : List Taken) → HasEntries table entries
        → AllByRecursion (EnvelopeFits (entry_shape entries)) batch → AllByRecursion (EnvelopeFits (shape_at table)) batch }
{
    entries_fit_their_tables();
}
