//! A full leaf's rows by their next code, and the words of the pages that take the leaf's place.
#![tactic(auto)]

mod groups;
mod words;

pub use groups::{Groups, group};
