//! The lines of a report of a registry, read one by one.
#![tactic(auto)]

mod header;
mod line;
mod load_lines;
mod log_lines;
mod numbers;
mod reading;
mod search_lines;
mod values;
mod withdraw_lines;
mod words;

pub use line::Line;
pub use reading::read_line;
