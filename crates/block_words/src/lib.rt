//! The words of a record's block: how they are written, and how a name and a molecule are read from them.
#![tactic(auto)]

mod head;
mod reader;
mod words;
mod writer;

pub use reader::{read_mol, read_name};
pub use writer::BlockWriter;
