//! The numbers that bound a set of seats.

/// How many seats may be split from the first one, in all.
pub const MOST_SPLITS: u64 = 1_023;

/// How many announcements a seat may have made.
pub const MOST_ANNOUNCEMENTS: u64 = 1 << 53;

/// What is due to a body never passes this: the first seat and those split from it make no more announcements.
pub const MOST_DUE: u64 = (MOST_SPLITS + 1) * MOST_ANNOUNCEMENTS;
