ghost use Rattle.std.specs.Prelude.{◌≡◌, ◌+◌, ◌*◌, ◌≤◌, ◌<◌, length};
ghost use Rattle.htss_defs.specs.Name.{IsName};
ghost use Rattle.htss_defs.specs.Molecule.{IsMolecule};
ghost use Rattle.htss_defs.specs.Marked.{IsMarked};
ghost use Rattle.htss_defs.specs.Codes.{codes_at};
ghost use Rattle.env_code.specs.Coders.{IsCoder};
ghost use Rattle.block_words.specs.Writing.{atoms_from, codes_from, bonds_from, size_of, code_word, written};
ghost use Rattle.block_words.specs.Writers.{AreCodesOf};

use crate::words::{atom_word, bond_word, head_word, name_word};
use env_code::Coder;
use htss_defs::{Codes, Mol, Name};
use std::marker::Model;

/// The codes of one atom, with its place, which is at least 1.
#[derive(Drop)]
pub struct AtomCodes {
    pub atom: u16,
    pub codes: Codes,
}

/// Where the parts of a block begin, and its number of words.
#[derive(Clone, Copy)]
struct Parts {
    atoms: u32,
    codes: u32,
    bonds: u32,
    size: u32,
}

/// Gives the words of the block of a name and a marked molecule, one by one. Contracts see the two.
/// It takes no memory.
#[derive(Drop)]
pub struct BlockWriter<'a> {
    name: &'a Name,
    mol: &'a Mol,
    coder: &'a mut Coder,
    // of the atom whose code was asked last, and at first of the first atom
    held: AtomCodes,
}

impl<'a> Model for BlockWriter<'a> {
    ghost use Rattle.htss_defs.specs.declared.record.NamedMol.{NamedMol};
    ghost use Rattle.block_words.specs.Writers.{IsWriter};

    ghost Value = { NamedMol };

    ghost view = { λ w. record { name = w.name.now; mol = w.mol.now } };

    ghost invariant = { λ w. IsWriter w.name.now w.mol.now w.coder.now w.held };
}

impl<'a> BlockWriter<'a> {
    /// Makes ready for the name and the molecule that the coder was loaded with, at the cost of the codes of one atom.
    pub fn new(coder: &'a mut Coder, name: &'a Name, mol: &'a Mol) -> BlockWriter<'a>
        requires marked { IsMarked mol.now }
        requires loaded { IsCoder mol.now coder.old }
        ensures { result ≡ record { name = name.now; mol = mol.now } }
    {
        // that they keep their rules
        let _bytes = name.bytes();
        let _atoms = mol.atoms();
        let codes = coder.codes(mol, 1);
        BlockWriter {
            name,
            mol,
            coder,
            held: AtomCodes { atom: 1, codes },
        }
    }

    /// The number of words, 3 to 7006.
    pub fn size(&self) -> u32
        ensures value { result ≡ size_of self.now.name self.now.mol }
        ensures least { 3 ≤ result }
        ensures most { result ≤ 7006 }
        ensures name { IsName self.now.name }
        ensures molecule { IsMolecule self.now.mol }
        ensures marked { IsMarked self.now.mol }
    {
        parts_of(self.name, self.mol).size
    }

    /// The word at a place, counted from 0. The cost does not depend on the block, but for the first
    /// code word that is asked of an atom after that of another one: it costs the neighbourhood of the
    /// atom within distance 4.
    pub fn word(&mut self, index: u32) -> u64
        requires { index < size_of self.old.name self.old.mol }
        ensures word { result ≡ written self.old.name self.old.mol index }
        ensures same { self.new ≡ self.old }
    {
        let parts = parts_of(self.name, self.mol);
        if parts.codes <= index && index < parts.bonds {
            self.code_word(index - parts.codes)
        } else {
            plain_word(self.name, self.mol, parts, index)
        }
    }

    // A code word, counted from 0.
    fn code_word(&mut self, place: u32) -> u64
        requires { place < 5 * length self.old.mol.atoms }
        ensures word { result ≡ code_word self.old.mol place }
        ensures same { self.new ≡ self.old }
    {
        let mol = self.mol;
        let atom = (place / 5 + 1) as u16;
        turn_to(&mut self.held, self.coder, mol, atom);
        self.held.codes.words[(place % 5) as usize]
    }
}

fn parts_of(name: &Name, mol: &Mol) -> Parts
    ensures atoms { result.atoms ≡ atoms_from name.now }
    ensures codes { result.codes ≡ codes_from name.now mol.now }
    ensures bonds { result.bonds ≡ bonds_from name.now mol.now }
    ensures size { result.size ≡ size_of name.now mol.now }
    ensures most { result.size ≤ 7006 }
{
    let bytes = name.bytes().len() as u32;
    let count = mol.atoms().len() as u32;
    let atoms = 3 + (bytes + 7) / 8;
    let codes = atoms + count;
    let bonds = codes + 5 * count;
    Parts {
        atoms,
        codes,
        bonds,
        size: bonds + mol.bonds().len() as u32,
    }
}

// The word at a place where no code stands.
fn plain_word(name: &Name, mol: &Mol, parts: Parts, index: u32) -> u64
    requires atoms { parts.atoms ≡ atoms_from name.now }
    requires codes { parts.codes ≡ codes_from name.now mol.now }
    requires bonds { parts.bonds ≡ bonds_from name.now mol.now }
    requires within { index < size_of name.now mol.now }
    requires no_code { codes_from name.now mol.now ≤ index → bonds_from name.now mol.now ≤ index }
    ensures { result ≡ written name.now mol.now index }
{
    if index == 0 {
        head_word(name, mol)
    } else if index < 3 {
        0
    } else if index < parts.atoms {
        name_word(name.bytes(), 8 * (index as usize - 3))
    } else if index < parts.codes {
        atom_word(mol.atoms()[(index - parts.atoms) as usize])
    } else {
        bond_word(mol.bonds()[(index - parts.bonds) as usize])
    }
}

// Holds the codes of the atom at this place, from 1 to the number of atoms.
fn turn_to(held: &mut AtomCodes, coder: &mut Coder, mol: &Mol, atom: u16)
    requires loaded { IsCoder mol.now coder.old }
    requires held { AreCodesOf mol.now held.old }
    requires some { 1 ≤ atom }
    requires within { atom ≤ length mol.now.atoms }
    ensures held { AreCodesOf mol.now held.new }
    ensures atom { held.new.atom ≡ atom }
    ensures loaded { IsCoder mol.now coder.new }
{
    if held.atom != atom {
        held.codes = coder.codes(mol, atom);
        held.atom = atom;
    }
}
