/// A type that needs entries of a type table, the same for every value of the type.
///
/// Its one meaning is a finite map from IDs to names and shapes. What carries messages, as an inbox
/// or the behaviour of an actor, is of such a type: the contents in it fit these entries, and so fit
/// every table that has them.
pub trait Entries {
    ghost use Rattle.caf_message.specs.Entries.{TableEntries};

    /// The entries that it needs.
    ghost entries: { TableEntries };
}
