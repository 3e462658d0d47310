use std::collections::LinkedList;

/// What one end of a deque knows. No value of this type is made.
pub struct View {
    /// The tickets that it put, in order. Only the owner's end puts.
    pub puts: LinkedList<u32>,
    /// The tickets that it drew, in order.
    pub drawn: LinkedList<u32>,
}
