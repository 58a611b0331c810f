// A line of a report.
use htss_defs::{FileName, Hit, Shape};
use report_text::{LoadLine, LogLine, WithdrawLine};

/// A line of a report, by what it tells.
#[derive(Debug, Drop)]
pub enum Line {
    /// The first line: the shape of the board and the budget.
    Header {
        shape: Shape,
        budget: u64,
    },
    /// The first line of a load.
    Load {
        line: u32,
        file: FileName,
    },
    /// What became of a record.
    Answer {
        answer: LoadLine,
    },
    /// The last line of a load: how many records were published.
    Loaded {
        count: u32,
    },
    /// A withdrawal.
    Withdraw {
        line: u32,
        number: u32,
        answer: WithdrawLine,
    },
    /// The first line of a search that was answered at a front.
    Search {
        line: u32,
        file: FileName,
        front: u32,
    },
    /// A search whose query is refused.
    NotRead {
        line: u32,
        file: FileName,
        at: u64,
        code: u8,
    },
    /// A hit.
    OneHit {
        hit: Hit,
    },
    /// The last line of a search that has hits or none.
    HitsEnd {
        count: u32,
        rows: u64,
        records: u32,
    },
    /// The last line of a search whose work exceeds its budget.
    OverBudget {
        budget: u64,
    },
    /// The first line of the log: how many events it has.
    Log {
        count: u32,
    },
    /// An event.
    Event {
        number: u32,
        event: LogLine,
    },
    /// The last line.
    End,
}
