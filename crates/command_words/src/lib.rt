//! The words of the command line of `htss`.
#![tactic(auto)]

mod command;
mod parse;
mod strays;
mod tasks;
mod values;
mod words;

pub use command::Command;
pub use words::read_words;
