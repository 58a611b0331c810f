//! The command that runs a script on a board, with the board's callers in threads, and reports what each job answered.
#![tactic(auto)]

mod apart;
mod ended;
mod groups;
mod seats;
mod texts;
mod whole_run;

pub use ended::Ended;
pub use whole_run::run;
