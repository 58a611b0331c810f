// `codes`: the codes of the atoms of a molfile.
ghost use Rattle.std.specs.Prelude.{◌≡◌, ◌^◌, ◌<◌, ◌++◌, length, IfOk, OnOk};
ghost use Rattle.htss_defs.specs.Marked.{IsMarked};
ghost use Rattle.mol_section.specs.SectionRecord.{Outcome};
ghost use Rattle.ctfile.specs.Stream.{IsFirstOutcome};
ghost use Rattle.command_ends.specs.RecordTexts.{codes_lines, codes_text};

use ctfile::read_molfile;
use env_code::Coder;
use hit_report::{push_codes, push_refused};
use htss_defs::{Mol, OutOfMemory};
use std::alloc::Global;

/// A line for each atom of the molfile, or the line of its refusal.
pub fn codes_text(alloc: Global, bytes: &[u8]) -> Result<Vec<u8>, OutOfMemory>
    requires { length bytes.now < 2 ^ 32 }
    ensures { IfOk result (λ text. (outcome : Outcome) × IsFirstOutcome bytes.now outcome
        × (text.items ≡ codes_text outcome)) }
{
    let mut text = Vec::new(alloc);
    match read_molfile(alloc, bytes)? {
        Ok((_name, mol)) => push_lines(&mut text, &mol)?,
        Err((line, code)) => push_refused(&mut text, 1, line, code)?,
    }
    Ok(text)
}

// Appends a line for each atom.
fn push_lines(text: &mut Vec<u8>, mol: &Mol) -> Result<(), OutOfMemory>
    requires { IsMarked mol.now }
    ensures { OnOk result (text.new.items ≡ text.old.items ++ codes_lines mol.now) }
{
    let mut coder = Coder::new();
    coder.load(mol);
    for atom in 1..mol.atoms().len() as u16 + 1 {
        push_codes(text, atom, &coder.codes(mol, atom))?;
    }
    Ok(())
}
