//! The least embedding of a query in a molecule.
#![tactic(auto)]

mod anchored;
mod candidates;
mod count;
mod extend;
mod matcher;
mod placed;
mod places;
mod plan;
mod search;
mod target;

pub use matcher::{Matcher, cost_of, first_map, least_map};
pub use search::Found;
