//! The jobs of a script, done by one caller of a board.
#![tactic(auto)]

mod copies;
mod jobs;
mod load;

pub use jobs::do_job;
