ghost use Rattle.std.specs.Prelude.{◌≡◌, ℕ, ◌<◌, ◌≤◌, ◌↔◌, false, length, IsTrue, slice_index, ◌==◌};
ghost use Rattle.std.specs.Int.{bit_at};
ghost use Rattle.htss_defs.specs.Molecule.{IsMolecule};
ghost use Rattle.htss_defs.specs.Marked.{IsMarked};
ghost use Rattle.htss_defs.specs.Codes.{codes_at};
ghost use Rattle.htss_defs.specs.Passes.{allows};
ghost use Rattle.htss_defs.specs.Needs.{Covers};
ghost use Rattle.env_code.specs.Coders.{IsCoder};
ghost use Rattle.env_cover.specs.Reach.{Reaches, CoversCode};
ghost use Rattle.env_cover.specs.Cover.{HasAllowed};
ghost use Rattle.env_cover.specs.Screening.{HasCover};

use env_code::Coder;
use htss_defs::{AtomTest, Codes, Mol, Need, allows};
use std::simd::prelude::*;

/// Whether codes cover a need: the test of the need allows the element in lane 0 of code 0, and every
/// lane of the codes is at least the lane of the need. Eight lanes are compared at once; it ends at
/// the first code that does not cover.
pub fn covers(need: &Need, codes: &Codes) -> bool
    ensures { IsTrue result ↔ Covers need.now codes.now }
{
    let lowest = codes.words[0].to_le_bytes()[0];
    allows_lane(need.test, lowest) && reach_all(&need.words, &codes.words)
}

/// Whether one code covers a need at its level, from 0 to 4.
pub fn covers_code(need: &Need, level: u8, code: u64) -> bool
    requires { level < 5 }
    ensures { IsTrue result ↔ CoversCode need.now level code }
{
    if level == 0 && !allows_lane(need.test, code.to_le_bytes()[0]) {
        return false;
    }
    reaches(need.words[level as usize], code)
}

/// Whether the codes of the atom at a place, from 1 to the number of atoms of the molecule that was
/// loaded last, cover the need. The element and then code 0 are compared first: only for an atom that
/// passes them it costs the neighbourhood within distance 4.
pub fn covers_atom(need: &Need, coder: &mut Coder, mol: &Mol, atom: u16) -> bool
    requires loaded { IsCoder mol.now coder.old }
    requires some { 1 ≤ atom }
    requires within { atom ≤ length mol.now.atoms }
    ensures covers { IsTrue result ↔ Covers need.now (codes_at mol.now atom) }
    ensures loaded { IsCoder mol.now coder.new }
{
    let element = mol.atoms()[atom as usize - 1].element;
    if !allows(need.test, element) {
        return false;
    }
    if !reaches(need.words[0], coder.own_word(mol, atom)) {
        return false;
    }
    covers(need, &coder.codes(mol, atom))
}

/// Whether the test of the need allows the element of some atom. Where it allows none, no atom's
/// codes cover the need, and none has to be coded.
pub fn allows_some(need: &Need, mol: &Mol) -> bool
    ensures allowed { IsTrue result ↔ HasAllowed need.now mol.now }
    ensures none { result ≡ false → (place : ℕ) → 1 ≤ place → place ≤ length mol.now.atoms
        → Covers need.now (codes_at mol.now place) → ⊥ }
{
    for atom in mol.atoms() {
        if allows(need.test, atom.element) {
            return true;
        }
    }
    false
}

/// Whether the codes of some atom of a marked molecule cover the need. Where no atom has an element
/// for it, none is coded; else it ends at the first atom that covers. It needs the coder to work with,
/// whatever that was: of which molecule it is afterwards is open.
pub fn has_cover(coder: &mut Coder, need: &Need, mol: &Mol) -> bool
    requires marked { IsMarked mol.now }
    ensures cover { IsTrue result ↔ HasCover need.now mol.now }
    ensures valid { IsMolecule mol.now }
{
    let atoms = mol.atoms().len() as u16;
    if !allows_some(need, mol) {
        return false;
    }
    coder.load(mol);
    for atom in 1..atoms + 1 {
        if covers_atom(need, coder, mol, atom) {
            return true;
        }
    }
    false
}

fn reach_all(needs: &[u64; 5], codes: &[u64; 5]) -> bool
    ensures { IsTrue result ↔ ((k : ℕ) → k < 5
        → Reaches (slice_index needs.now k) (slice_index codes.now k)) }
{
    for k in 0..5 {
        if !reaches(needs[k], codes[k]) {
            return false;
        }
    }
    true
}

// Whether each of the eight lanes is at least the one that is needed.
fn reaches(need: u64, code: u64) -> bool
    ensures { IsTrue result ↔ Reaches need code }
{
    let needed = u8x8::from_array(need.to_le_bytes());
    let there = u8x8::from_array(code.to_le_bytes());
    needed.simd_le(there).all()
}

// What the test says of any value of a lane, also where that is no element.
fn allows_lane(test: AtomTest, lane: u8) -> bool
    ensures { result ≡ allows test lane }
{
    if lane < 128 {
        return allows(test, lane);
    }
    match test {
        AtomTest::Element(element) => lane == element,
        AtomTest::OneOf(set) => has_bit(set.0, lane),
        AtomTest::NoneOf(set) => !has_bit(set.0, lane),
        _ => true,
    }
}

// Whether the bit is set: none is past the width.
fn has_bit(bits: u128, index: u8) -> bool
    ensures { result ≡ (bit_at bits index == 1) }
{
    index < 128 && (bits >> index) & 1 == 1
}
