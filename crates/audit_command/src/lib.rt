//! The command that holds a report against its script and files.
#![tactic(auto)]

mod command;
mod laws;
mod verdicts;

pub use command::audit;
pub use laws::law_of_audits;
pub use verdicts::judge;
