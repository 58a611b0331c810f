//! Stages a record: its block is written into the region of a loader, and its rows are inserted into the class tree.
#![tactic(auto)]

mod rows;
mod stages;

pub use stages::{StageError, stage, stage_with};
