// What a caller loaded: lists that only grow.
use crate::room::Row;
use std::collections::LinkedList;

/// The state of a page, as loaded, or as found by an exchange that was lost.
pub struct StateLoad {
    pub page: u64,
    pub word: u64,
}

/// A code word of a row.
pub struct CodeLoad {
    pub row: Row,
    pub code: u8,
    pub word: u64,
}

/// A first word of a block, or a name, atom or bond word.
pub struct WordLoad {
    pub place: u64,
    pub word: u64,
}

/// A log word, or a mark of a block, with the front seen at the load.
pub struct ShownLoad {
    pub place: u64,
    pub word: u64,
    pub front: u64,
}

/// What was loaded since the board was opened.
pub struct Loads {
    pub fronts: LinkedList<u64>,
    pub epochs: LinkedList<u64>,
    pub announcements: LinkedList<u64>,
    pub states: LinkedList<StateLoad>,
    pub lost: LinkedList<StateLoad>,
    pub codes: LinkedList<CodeLoad>,
    /// Name, atom and bond words.
    pub facts: LinkedList<WordLoad>,
    /// First words of blocks.
    pub heads: LinkedList<WordLoad>,
    pub marks: LinkedList<ShownLoad>,
    /// Log words.
    pub shown: LinkedList<ShownLoad>,
}

/// How long each list was.
pub struct Lengths {
    pub fronts: u64,
    pub epochs: u64,
    pub announcements: u64,
    pub states: u64,
    pub lost: u64,
    pub codes: u64,
    pub facts: u64,
    pub heads: u64,
    pub marks: u64,
    pub shown: u64,
}
