//! The records of SDfiles as their bytes come, and molfiles.
#![tactic(auto)]

mod cut;
mod molfile;
mod reader;
mod unmarked;

pub use cut::first_section;
pub use molfile::read_molfile;
pub use reader::{Next, RecordReader, one_record_list};
pub use unmarked::UnmarkedReader;
