// Why a call under the lock adds no event.

/// The front is the log's size.
#[derive(Clone, Copy, Debug, PartialEq, Eq, Drop)]
pub struct LogFull {
    pub front: u32,
}

/// Why a withdrawal is refused.
#[derive(Clone, Copy, Debug, PartialEq, Eq, Drop)]
pub enum WithdrawError {
    /// The number is 0, past the front, or a withdrawal's.
    Unknown { front: u32 },
    /// This event has withdrawn it.
    Gone { at: u32 },
    /// The number may be withdrawn, but the front is the log's size.
    LogFull { front: u32 },
}
