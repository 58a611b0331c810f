use crate::{Mol, Name};

/// A record: its name and its molecule.
#[derive(Debug, Drop)]
pub struct NamedMol {
    pub name: Name,
    pub mol: Mol,
}
