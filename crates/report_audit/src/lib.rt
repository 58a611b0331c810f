//! The check of a given report.
#![tactic(auto)]

mod audit;
mod blocks;
mod callers;
mod carried;
mod loads;
mod records_kept;
mod searches;
mod so_far;
mod tally;
#[cfg(test)]
mod tests;
mod turns;
mod verdict;
mod withdrawals;

pub use audit::audit_report;
pub use callers::caller_for;
pub use tally::{Caller, Carried, Tally};
pub use verdict::Verdict;
