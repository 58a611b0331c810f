// What the calls of a caller answered.
use crate::loads::Lengths;
use crate::room::Row;
use htss_defs::{Event, Hit, Need, Query};
use std::collections::LinkedList;

/// What a search answered.
pub enum Reply {
    Hits(LinkedList<Hit>),
    OverBudget,
}

/// What one call answered.
pub enum Entry {
    /// The number of the event, and the event.
    Published(u64, Event),
    Withdrawn(u64, Event),
    /// The query, the budget, the front and the reply.
    Answered(Query, u64, u64, Reply),
    /// The number, and a front at which it is no publication's.
    Unknown(u64, u64),
    /// The number, and the event that has ended it.
    Gone(u64, u64),
    /// The front at which the log was full.
    LogFull(u64),
    /// The words left, and the words needed.
    DataFull(u64, u64),
    NoPage,
    /// The pages of the chain.
    ChainFull(u64),
    /// The need, the front, and the rows.
    Swept(Need, u64, LinkedList<Row>),
}

/// An entry, and how long the lists of loads were when it was added.
pub struct Noted {
    pub entry: Entry,
    pub at: Lengths,
}
