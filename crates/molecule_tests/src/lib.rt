//! Tests of the crates that read and mark molecules and queries.
#![tactic(auto)]

#[cfg(test)]
mod queries;
#[cfg(test)]
mod records;
#[cfg(test)]
mod rings;
#[cfg(test)]
mod sections;
