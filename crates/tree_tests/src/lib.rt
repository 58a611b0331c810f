//! Tests of the tree of classes that walk its words themselves: loaders insert rows beside each other, the board is
//! closed, and each row is looked for.
#![tactic(auto)]

#[cfg(test)]
mod boards;
#[cfg(test)]
mod checks;
#[cfg(test)]
mod copies;
#[cfg(test)]
mod crowds;
#[cfg(test)]
mod enough;
#[cfg(test)]
mod loads;
#[cfg(test)]
mod pages;
#[cfg(test)]
mod sketches;
#[cfg(test)]
mod walks;
