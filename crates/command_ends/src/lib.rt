//! What a command of the program leaves: its text, or what there is of it and the line that says why there is no more.
#![tactic(auto)]

mod answer;
mod file;
mod stop;

pub use answer::{refuse, write_answer, write_difference, write_stopped, write_text};
pub use file::read_file;
pub use stop::{Stop, read_stop};
