//! Tests of the crates that find queries in molecules: embeddings, codes, covers and the plain registry.
#![tactic(auto)]

#[cfg(test)]
mod codes;
#[cfg(test)]
mod covers;
#[cfg(test)]
mod embeddings;
#[cfg(test)]
mod made;
#[cfg(test)]
mod registries;
