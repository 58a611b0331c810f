use htss_defs::{Mol, Name};

/// What a section of an SDfile is: a record, whose ring bonds are marked, or the first line that is
/// refused, with the code of the refusal.
#[derive(Debug, Drop)]
pub enum SectionOutcome {
    Accepted { name: Name, mol: Mol },
    Refused { line: u64, code: u8 },
}
