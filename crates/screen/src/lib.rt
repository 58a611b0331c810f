//! A query that is asked of many molecules, each of which is screened by the codes of its atoms first.
#![tactic(auto)]

mod screener;

pub use embed::Found;
pub use screener::Screener;
