//! The numbers that several layers cite.

/// How many places a run has at most, the conductor's included: places are numbered below it.
pub const PLACES: u32 = 256;

/// The sender number of the outside, which is no place's.
pub const OUTSIDE: u32 = PLACES;

/// The latest stamp: a batch is taken only while all stamps are below it.
pub const LATEST_STAMP: u64 = 1 << 40;

/// The last number of a request, and the last count of ticks.
pub const LAST_COUNT: u64 = 1 << 63;

/// The first ID that a block may have; those below are for the built-in types.
pub const FIRST_ID: u16 = 200;

/// The last ID that a block may have.
pub const LAST_ID: u16 = 65_534;

/// How deep a declared shape nests at most. A shape without parts nests 1.
pub const DEEPEST: u64 = 16;

/// How many bytes a name has at most.
pub const LONGEST_NAME: usize = 64;
