//! A descent from the root of the class tree, which gives each row whose codes all cover a need.
#![tactic(auto)]

mod loads;
mod need;
mod rows;
mod walk;

pub use loads::Visit;
pub use need::descend;
pub use rows::{Asks, RowSink};
pub use walk::sweep;
