// The query of a query file.
ghost use Rattle.std.specs.Prelude.{◌≡◌, IfOk};
ghost use Rattle.mol_section.specs.Lines.{lines_of};
ghost use Rattle.query_mol.specs.QueryAtoms.{told_atoms};
ghost use Rattle.query_mol.specs.QueryOutcome.{IsQueryOutcome, IsFirstQueryOutcome};

use crate::draft::QueryDraft;
use ctfile::first_section;
use htss_defs::{Adjacency, Atom, AtomTest, OutOfMemory, Query, QueryAtom};
use mol_section::{Stop, read_draft};
use ring_bonds::marked_query;
use std::alloc::Global;

/// Where a query was refused: the number of the line, from 1, and the code of the refusal.
#[derive(Clone, Copy, Debug, PartialEq, Eq)]
pub struct QueryRefusal {
    pub line: u64,
    pub code: u8,
}

/// The query of the first section of the bytes, an empty one too, or the line of the bytes, counted from 1, that is
/// refused, with the code of the refusal. Besides the codes of records these are 20, more than 64 atoms, 21, an atom
/// list that cannot be read or that an atom `L` lacks, and 22, a topology that is not 0 to 2.
pub fn read_query(alloc: Global, bytes: &[u8]) -> Result<Result<Query, QueryRefusal>, OutOfMemory>
    ensures { IfOk result (λ outcome. IsFirstQueryOutcome bytes.now outcome) }
{
    section_query(alloc, first_section(bytes))
}

// The query of a section, or where it is refused.
fn section_query(alloc: Global, bytes: &[u8]) -> Result<Result<Query, QueryRefusal>, OutOfMemory>
    ensures { IfOk result (λ outcome. IsQueryOutcome (lines_of bytes.now) outcome) }
{
    let mut graph = Adjacency::new();
    match read_draft::<QueryDraft>(alloc, bytes, &mut graph) {
        Err(Stop::Memory) => Err(OutOfMemory),
        Err(Stop::Refused { line, code }) => Ok(Err(QueryRefusal {
            line: line + 1,
            code,
        })),
        Ok(read) => {
            let atoms = told_atoms(alloc, &read.atoms, &read.tests)?;
            Ok(Ok(marked_query(atoms, read.bonds).unwrap()))
        }
    }
}

// The atoms whose tests are told.
fn told_atoms(
    alloc: Global,
    atoms: &[Atom],
    tests: &[Option<AtomTest>],
) -> Result<Vec<QueryAtom>, OutOfMemory>
    ensures { IfOk result (λ told. told.items ≡ told_atoms atoms.now tests.now) }
{
    let mut told = Vec::with_capacity(alloc, atoms.len())?;
    for (atom, test) in atoms.iter().zip(tests) {
        if let Some(test) = test {
            told.push(QueryAtom {
                test: *test,
                charge: atom.charge,
                mass: atom.mass,
            })?;
        }
    }
    Ok(told)
}
