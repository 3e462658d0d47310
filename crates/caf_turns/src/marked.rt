/// What stays true of a body from turn to turn.
///
/// Whether a body has a mark is told by what the body holds. No mark is kept when the program runs.
pub trait Marked {
    /// A plain value that says what stays true.
    type Mark;

    /// Whether a body has this mark.
    ghost has_mark: { Self → Self.Mark → Type 0 };
}
