// What a caller knows of the class tree, and its counts.
use crate::room::Row;
use std::collections::LinkedList;

/// What was loaded of a link or of the next page.
pub enum Link {
    Unread,
    Absent,
    To(u64),
}

/// The word of a page that names another: its next page, or the link of a pair.
pub enum Way {
    More,
    Branch(u64),
}

/// A page that was reached since the pin, with the page and the word that named it.
pub struct Reached {
    pub page: u64,
    pub from: u64,
    pub way: Way,
    pub path: LinkedList<u64>,
    pub rank: u64,
    pub leaf: bool,
    /// Codes or entries loaded as other than 0, from the front.
    pub slots: LinkedList<u64>,
    /// The slot after them was loaded as 0.
    pub zero: bool,
    pub links: LinkedList<Link>,
    pub more: Link,
}

/// The tree part: the front seen at the pin (0 once a leaf was passed unread), the pages reached since, the leaves of
/// the last depth that it keeps in mind beyond its pin, which stay where they are, the rows begun and those placed.
pub struct TreeAccount {
    pub front: u64,
    pub reached: LinkedList<Reached>,
    pub lasting: LinkedList<Reached>,
    pub begun: LinkedList<Row>,
    pub placed: LinkedList<Row>,
}

/// The own pages that went into the tree.
pub struct Counts {
    pub linked: u64,
}
