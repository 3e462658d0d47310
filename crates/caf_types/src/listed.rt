use crate::Entry;

/// A type of a table: what its block declared, and the ID that it got.
#[derive(Debug, Drop)]
pub struct Listed {
    /// The ID, which no other type of the table has.
    pub(crate) id: u16,
    /// The name and the shape.
    pub(crate) entry: Entry,
}
