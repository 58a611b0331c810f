// What a loader knows of its region.
use std::collections::LinkedList;

/// An atom of a block: the table's place of the block, and the place of the atom, from 1.
#[derive(Clone, Copy)]
pub struct Row {
    pub block: u64,
    pub atom: u16,
}

/// A block whose words are all stored: its place and its number of words.
pub struct Sealed {
    pub place: u64,
    pub size: u64,
}

/// The regions part: the words stored so far, in order (both marks of a block as 0), the sealed blocks, and those of
/// them that are published.
pub struct RoomAccount {
    pub used: LinkedList<u64>,
    pub sealed: LinkedList<Sealed>,
    pub published: LinkedList<u64>,
}
