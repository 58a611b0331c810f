//! Query molfiles: what a drawn query asks for, or which of its lines is refused.
#![tactic(auto)]

mod atoms;
mod bonds;
mod draft;
mod lists;
mod properties;
mod query;

pub use query::{QueryRefusal, read_query};
