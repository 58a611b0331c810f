// What the counts line says.
ghost use Rattle.std.specs.Prelude.{◌≡◌, ℕ, ◌≤◌, Some, None, IfOk, IfErr};
ghost use Rattle.mol_section.specs.SectionLines.{counts_refusal};
ghost use Rattle.mol_section.specs.SectionLines.{atoms_field, bonds_field, lists_field};

use crate::fields::{count_of, field};

/// The numbers of atoms, bonds and atom lists of a section.
#[derive(Clone, Copy, Debug)]
pub struct Counts {
    pub atoms: u16,
    pub bonds: u16,
    pub lists: u16,
}

/// The counts of a counts line, or the code of its refusal.
pub fn counts_of(line: &[u8]) -> Result<Counts, u8>
    ensures refused { IfErr result (λ code. counts_refusal line.now ≡ Some code) }
    ensures accepted { IfOk result (λ _. counts_refusal line.now ≡ None) }
    ensures atoms { IfOk result (λ counts. atoms_field line.now ≡ Some counts.atoms) }
    ensures bonds { IfOk result (λ counts. bonds_field line.now ≡ Some counts.bonds) }
    ensures lists { IfOk result (λ counts. lists_field line.now ≡ Some counts.lists) }
    ensures some { IfOk result (λ counts. 1 ≤ counts.atoms) }
    ensures few { IfOk result (λ counts. counts.atoms ≤ 999) }
    ensures few_bonds { IfOk result (λ counts. counts.bonds ≤ 999) }
{
    let Some(atoms) = count_of(field(line, 1, 3)) else {
        return Err(1);
    };
    let Some(bonds) = count_of(field(line, 4, 6)) else {
        return Err(1);
    };
    let Some(lists) = count_of(field(line, 7, 9)) else {
        return Err(1);
    };
    let Some(stext) = count_of(field(line, 16, 18)) else {
        return Err(1);
    };
    let version = field(line, 34, 39);
    if !version.is_empty() && version != b"V2000".as_slice() {
        return Err(2);
    }
    if stext != 0 {
        return Err(3);
    }
    if atoms == 0 {
        return Err(14);
    }
    Ok(Counts {
        atoms,
        bonds,
        lists,
    })
}
