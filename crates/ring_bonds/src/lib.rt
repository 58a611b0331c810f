//! Which bonds of a molecule or a query are in a ring.
#![tactic(auto)]

mod forest;
mod marker;
mod marking;
mod molecule;
mod query;

pub use marker::RingMarker;
pub use marking::ring_flags;
pub use molecule::{mark_linked, mark_rings};
pub use query::marked_query;
