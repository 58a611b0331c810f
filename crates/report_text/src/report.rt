// What a report tells, part by part.
use crate::{Blocks, Hits, LoadLines, LogLines};
use htss_defs::{FileName, Name, Shape};

/// A report: the shape of the board and the budget, a block for each job in their order, and the log.
#[derive(Debug, Drop)]
pub struct Report {
    pub shape: Shape,
    pub budget: u64,
    pub blocks: Blocks,
    pub events: LogLines,
}

/// What a job of a script line asked, and what it was answered.
#[derive(Debug, Drop)]
pub enum Block {
    Load {
        line: u32,
        file: FileName,
        answers: LoadLines,
    },
    Withdraw {
        line: u32,
        number: u32,
        answer: WithdrawLine,
    },
    Search {
        line: u32,
        file: FileName,
        answer: SearchLine,
    },
}

/// What became of a record of a file.
#[derive(Debug, Drop)]
pub enum LoadLine {
    Published { number: u32, name: Name },
    Refused { place: u32, line: u64, code: u8 },
    DataFull { place: u32, left: u32, need: u32 },
    NoPage { place: u32 },
    ChainFull { place: u32, pages: u32 },
    LogFull { place: u32, front: u32 },
}

/// What a withdrawal was answered.
#[derive(Clone, Copy, Debug, PartialEq, Eq)]
pub enum WithdrawLine {
    At { event: u32 },
    Unknown { front: u32 },
    Gone { at: u32 },
    LogFull { front: u32 },
}

/// What a search was answered.
#[derive(Debug, Drop)]
pub enum SearchLine {
    Hits {
        front: u32,
        hits: Hits,
        rows: u64,
        records: u32,
    },
    OverBudget {
        front: u32,
        budget: u64,
    },
    Refused {
        line: u64,
        code: u8,
    },
}

/// An event of the log.
#[derive(Debug, Drop)]
pub enum LogLine {
    Publish {
        loader: u8,
        atoms: u16,
        bonds: u16,
        name: Name,
    },
    Withdraw {
        loader: u8,
        number: u32,
    },
}
