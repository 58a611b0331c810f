//! The text of a report of a registry, read back.
#![tactic(auto)]

mod reader;
mod state;

pub use reader::{ReportRefusal, read_report};
