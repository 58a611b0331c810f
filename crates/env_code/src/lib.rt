//! The codes of an atom of a molecule: what surrounds it within four bonds.
#![tactic(auto)]

mod bond_counts;
mod coder;
mod kinds;
mod walk;

pub use bond_counts::BondCounts;
pub use coder::{Coder, codes_of};
pub use kinds::is_of_kind;
pub use walk::{LaneTable, Walk, near_words};
