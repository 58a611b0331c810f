//! The top call of `htss`: all that the program does, over any shelf of files, any sink for its text and any runtime,
//! and the exit status of a process that does it.
#![tactic(auto)]

#[cfg(test)]
mod audit_lines;
#[cfg(test)]
mod audit_tests;
#[cfg(test)]
mod run_tests;
mod status;
mod top;
#[cfg(test)]
mod tree_tests;

pub use run_command::Ended;
pub use status::exit;
pub use top::htss;
