use caf_types::{Letters, Octets};

/// An event that is kept, with what it carries.
#[derive(Debug, Drop)]
pub enum Item {
    /// The value of the shape without parts.
    Unit,
    /// A flag.
    Flag(bool),
    /// A whole number of 64 bits.
    Unsigned(u64),
    /// A whole number of 64 bits in two's complement.
    Signed(i64),
    /// A text.
    Text(Letters),
    /// Bytes.
    Bytes(Octets),
    /// The number of a place.
    Place(u32),
    /// A list with its length.
    List(u64),
    /// An object with its number of fields.
    Object(u64),
    /// A field with its name.
    Field(Letters),
}
