//! Tests of the pool of pages (page_pool).
#![tactic(auto)]

#[cfg(test)]
mod hands;
#[cfg(test)]
mod made;
#[cfg(test)]
mod pools;
