//! Rows are put into the class tree: a tree of pages in which each row stands below its five codes, and which all
//! loaders fill at once, without a lock, by single exchanges of words that are 0, and of links to full leaves.
#![tactic(auto)]

mod fill;
mod find;
mod insert;
mod law;
mod leaf;
mod link;
mod read;
mod split;
mod taken;
mod walks;

pub use board_core::Row;
pub use descent::{RowSink, descend};
pub use insert::{InsertError, insert_row};
pub use law::law_of_chains;
