/// One step of a reference, which is one atomic access to its block, or the making of the reference.
///
/// A reference's list of steps grows at such an access alone, so a step that was not made cannot
/// stand in it.
#[derive(Clone, Copy, Debug, PartialEq, Eq, Drop)]
pub enum Step {
    /// The reference came into being: with its block, or by a retain of another reference.
    Make,
    /// It was retained, which added 1 to the count.
    Retain,
    /// It read this count of references.
    Test(u64),
    /// At this index it read this word.
    Read(u64, u64),
    /// At this index it wrote this word.
    Write(u64, u64),
}
