//! The jobs of a group, done by workers beside each other.
#![tactic(auto)]

mod dealing;
mod gate;
mod group;
mod meet;
mod merge;
mod walk;

pub use gate::{Gate, NoGate, Place, Worker};
pub use group::run_group;
