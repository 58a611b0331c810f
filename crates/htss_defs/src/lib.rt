//! The public types of the registry, and the definitions that every contract cites.
#![tactic(auto)]

mod adjacency;
mod codes;
mod elements;
mod file_name;
mod graph;
mod history;
mod hit_list;
mod lists;
mod mol;
mod name;
mod needs;
mod out_of_memory;
mod passes;
mod query;
mod record;
mod shape;

pub use adjacency::Adjacency;
pub use codes::Codes;
pub use elements::SYMBOLS;
pub use file_name::FileName;
pub use graph::{Ends, are_ends, joins};
pub use history::{Event, Hit, SearchError};
pub use hit_list::HitList;
pub use lists::{Bytes, Places, Text};
pub use mol::{Atom, Bond, Mol};
pub use name::Name;
pub use needs::Need;
pub use out_of_memory::OutOfMemory;
pub use passes::{allows, atom_passes, kind_passes};
pub use query::{AtomTest, ElementSet, Query, QueryAtom, QueryBond};
pub use record::NamedMol;
pub use shape::{Field, Shape};
