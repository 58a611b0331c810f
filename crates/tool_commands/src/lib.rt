//! The commands of the program that never wait: records are found, checked and made, the codes of atoms are told, and
//! reports are audited.
#![tactic(auto)]

mod check_taker;
mod codes;
mod commands;
mod find_taker;
mod generate;
mod list;
mod read_back;
mod search;
mod summary_taker;
mod taker;
mod tool;
mod vec_sink;

pub use commands::do_command;
pub use generate::make;
pub use tool::htss_tool;
