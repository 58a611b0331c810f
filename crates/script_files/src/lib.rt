//! The script of a command and the files of its jobs, as they are read.
#![tactic(auto)]

mod files;
mod script;

pub use files::{read_all_files, read_files};
pub use script::script_of;
