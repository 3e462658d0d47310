use crate::step::Step;
use std::collections::LinkedList;

/// What a seat knows. No value of this type is made.
pub struct View<T> {
    /// The bodies as they were given.
    pub opening: LinkedList<T>,
    /// Of the parts of the first seat, those that came to this one; a seat that was joined has none.
    pub parts: u64,
    /// How many more seats may be split from this one.
    pub splits: u64,
    /// Whether this seat keeps the room of the bodies' list: 1 or 0.
    pub rooms: u64,
    /// The numbers of the bodies that it has out.
    pub out: LinkedList<u32>,
    /// The body that is on its way out or back.
    pub hand: Option<u32>,
    /// Its accesses, the newest last.
    pub steps: LinkedList<Step>,
}
