//! The board as plain data: its words, what a caller knows, and the rule that ties them. No value of these types is
//! made when a program runs.
#![tactic(auto)]

mod account;
mod entry;
mod loads;
mod log;
mod pool;
mod room;
mod ruled;
mod tree;

pub use account::{Account, View, Who};
pub use entry::{Entry, Noted, Reply};
pub use loads::{CodeLoad, Lengths, Loads, ShownLoad, StateLoad, WordLoad};
pub use log::{Ending, Holding, LogAccount, Pending};
pub use pool::{Own, Parted, PoolAccount};
pub use room::{RoomAccount, Row, Sealed};
pub use ruled::Ruled;
pub use tree::{Counts, Link, Reached, TreeAccount, Way};
