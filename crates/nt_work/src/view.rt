//! What a pass put and took. Only contracts speak of these; no program makes a value of them.
use crate::item::Item;
use std::collections::LinkedList;

/// What the pass of this number put and took, each in order.
pub struct Hand {
    pub number: u64,
    pub put: LinkedList<Item>,
    pub taken: LinkedList<Item>,
}

/// What is seen of a pass: what it put and took, how many numbers behind its own it can give away,
/// how many parts of the queue it holds, and what the passes that it met put and took.
pub struct View {
    pub hand: Hand,
    pub spare: u64,
    pub parts: u64,
    pub met: LinkedList<Hand>,
}

/// An item that was put or taken, by the pass of this number.
pub struct Move {
    pub by: u64,
    pub item: Item,
}
