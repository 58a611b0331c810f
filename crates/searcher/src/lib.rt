//! A search of a board: a descent finds rows that cover, and the records of these are read and searched.
#![tactic(auto)]

mod at_front;
mod blocks;
mod finding;
mod given;
mod live;
mod sizes;

pub use at_front::search;
