use crate::Step;
use std::collections::LinkedList;

/// A reference as its holder's contracts see it. No value of this type is made, and the lists are of
/// std's type that contracts see as a plain list.
pub struct Reference {
    /// The words of the block, which are the same for all its references.
    pub content: LinkedList<u64>,
    /// The steps of this reference alone since it was made, in order.
    pub steps: LinkedList<Step>,
    /// How many further references may come from this one.
    pub room: u64,
    /// No other reference to the block exists, and this one knows it.
    pub sole: bool,
}
