// What a caller knows of epochs, announcements and pages.
use std::collections::LinkedList;

/// A page of the caller's own, and its first words as stored since it was taken.
pub struct Own {
    pub page: u64,
    pub words: LinkedList<u64>,
}

/// A page that the caller unlinked, and the stamp loaded for it: 0 while there is none.
pub struct Parted {
    pub page: u64,
    pub stamp: u64,
}

/// The pool part: the announced epoch (0 while unpinned), an epoch that is known to have come, the scan of
/// announcements (its first epoch, the least epoch so far, the seats passed), and the pages.
pub struct PoolAccount {
    pub announced: u64,
    pub risen: u64,
    pub first: u64,
    pub low: u64,
    pub passed: u64,
    pub own: LinkedList<Own>,
    pub parted: LinkedList<Parted>,
}
