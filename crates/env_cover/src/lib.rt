//! What an atom of a query needs of the codes of an atom of a molecule, and which codes cover it.
#![tactic(auto)]

mod cover;
mod law;
mod needs;
mod sure;

pub use cover::{allows_some, covers, covers_atom, covers_code, has_cover};
pub use law::law_of_cover;
pub use needs::{Needs, need_of, pivot};
