//! Pages that return only when nobody holds them: callers pin an epoch while they read pages, and a page that was
//! retired is taken again once no announced epoch is as early as its stamp. Epoch-based reclamation after Fraser, over
//! words and accounts.
#![tactic(auto)]

mod law;
mod pins;
mod retires;
mod scans;
mod takes;

pub use law::{law_of_counts, law_of_holding};
pub use pins::{pin, unpin};
pub use retires::retire;
pub use takes::{NoPage, keep, take};
