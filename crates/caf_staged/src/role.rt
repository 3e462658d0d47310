use caf_scripted::Part;

/// What one place of a play does.
#[derive(Clone, Copy, Debug)]
pub struct Role<'a> {
    /// What its actor is.
    pub part: Part<'a>,
    /// The stamp with which it begins.
    pub stamp: u64,
}
