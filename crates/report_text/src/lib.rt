//! The report of a registry: what was asked of it, what it answered, and its log, as a text.
#![tactic(auto)]

mod header;
mod lists;
mod load_lines;
mod log_lines;
mod parts;
mod report;
mod search_lines;
mod typed;
mod withdraw_lines;
mod write;

pub use lists::{Blocks, Hits, LoadLines, LogLines};
pub use report::{Block, LoadLine, LogLine, Report, SearchLine, WithdrawLine};
pub use typed::are_typed;
pub use write::{write_block, write_header, write_log, write_report};
