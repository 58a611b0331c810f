//! The lock of the publication log, and what is done under it: one event, or none.
#![tactic(auto)]

mod appends;
mod frees;
mod law;
mod locked;
mod refusals;

pub use law::{law_of_history, law_of_moments};
pub use locked::{Locked, front, lock};
pub use refusals::{LogFull, WithdrawError};
