//! The records of sections: what the lines of a section say, or which of them is refused.
#![tactic(auto)]

mod atoms;
mod blocks;
mod bonds;
mod counts;
mod cursor;
mod draft;
mod fields;
mod lines;
mod outcome;
mod properties;
mod record;
mod section;
mod symbols;

pub use blocks::read_draft;
pub use bonds::{ReadBond, bond_line, is_place};
pub use counts::Counts;
pub use draft::{Draft, Part, Stop};
pub use fields::{count_of, field, next_word, number_of};
pub use lines::next_line;
pub use outcome::SectionOutcome;
pub use properties::take_property;
pub use section::{read_section, read_unmarked};
pub use symbols::{charge_value, symbol_value};
