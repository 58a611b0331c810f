use crate::AtomTest;

/// What an atom of a query needs of the codes of an atom of a molecule, so that it may stand there: its test allows the
/// element, and each lane reaches the one here.
#[derive(Clone, Copy, Debug, PartialEq, Eq)]
pub struct Need {
    pub test: AtomTest,
    pub words: [u64; 5],
}
