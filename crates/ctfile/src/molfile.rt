// A molfile: one section.
ghost use Rattle.std.specs.Prelude.{IfOk};
ghost use Rattle.ctfile.specs.Stream.{IsFirstOutcome, answer_outcome};

use crate::cut::first_section;
use htss_defs::{Mol, Name, OutOfMemory};
use mol_section::{SectionOutcome, read_section};
use std::alloc::Global;

/// The name and the molecule of the first section of the bytes, an empty one too, with its ring bonds marked, or the
/// line of the bytes, counted from 1, that is refused, with the code of the refusal.
pub fn read_molfile(
    alloc: Global,
    bytes: &[u8],
) -> Result<Result<(Name, Mol), (u64, u8)>, OutOfMemory>
    ensures { IfOk result (λ answer. IsFirstOutcome bytes.now (answer_outcome answer)) }
{
    Ok(match read_section(alloc, first_section(bytes), 1)? {
        SectionOutcome::Accepted { name, mol } => Ok((name, mol)),
        SectionOutcome::Refused { line, code } => Err((line, code)),
    })
}
