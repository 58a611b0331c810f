// What a caller knows of the publication log.

/// Whether a caller has the lock, and whether it has loaded the front since: then the front that it has seen is the
/// front.
pub enum Holding {
    Away,
    Taken,
    Fronted,
}

/// A withdrawal that is marked: the number that it names, and the block of that number.
pub struct Ending {
    pub target: u64,
    pub block: u64,
}

/// What the holder of the lock has stored and not yet shown: the block whose first mark is stored, the block whose last
/// mark is stored, the log word.
pub struct Pending {
    pub shows: Option<u64>,
    pub ends: Option<Ending>,
    pub logged: Option<u64>,
}

/// The log part of an account: the front that was seen, the lock, and the pending step.
pub struct LogAccount {
    pub seen: u64,
    pub holding: Holding,
    pub pending: Pending,
}
