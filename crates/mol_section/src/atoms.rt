// What an atom line says.
ghost use Rattle.std.specs.Prelude.{◌≡◌, ℕ, Some, IfOk, IfErr};
ghost use Rattle.mol_section.specs.SectionLines.{atom_refusal};
ghost use Rattle.mol_section.specs.AtomLines.{SaysAtom};

use crate::fields::field;
use crate::symbols::{charge_value, symbol_value};
use htss_defs::Atom;

/// The atom of an atom line, or the code of its refusal.
pub fn atom_of(line: &[u8]) -> Result<Atom, u8>
    ensures refused { IfErr result (λ code. atom_refusal line.now ≡ Some code) }
    ensures accepted { IfOk result (λ atom. SaysAtom line.now atom) }
{
    let symbol = field(line, 32, 34);
    if symbol.is_empty() {
        return Err(4);
    }
    let Some((element, mass)) = symbol_value(symbol) else {
        return Err(5);
    };
    let Some(charge) = charge_value(field(line, 37, 39)) else {
        return Err(6);
    };
    Ok(Atom {
        element,
        charge,
        mass,
    })
}
