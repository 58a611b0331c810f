/// The codes of an atom: five words of eight lanes of one byte, lane 0 the lowest. Code 0 tells of the atom itself,
/// code k, for k from 1 to 4, of the atoms within distance k.
#[derive(Clone, Copy, Debug, PartialEq, Eq)]
pub struct Codes {
    pub words: [u64; 5],
}
