/// An access of a seat to a word, with what it read. No value of this type is made.
pub enum Step {
    /// 1 more became due to the body of this number, to which this much was due.
    Announce(u32, u64),
    /// The turn word of this body was swapped for 1, and read this.
    Claim(u32, u64),
    /// This much was due to this body.
    Look(u32, u64),
    /// So much was taken from what was due to this body, to which this much was due.
    Settle(u32, u64, u64),
    /// This body went back.
    Free(u32),
}
