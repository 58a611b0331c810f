// The words of a block one by one, each from what it shows.
ghost use Rattle.std.specs.Prelude.{◌≡◌, ◌+◌, ◌≤◌, slice_index};
ghost use Rattle.block_words.specs.Writing.{head_word, name_word, atom_word, bond_word};

use htss_defs::{Atom, Bond, Mol, Name};

/// The first word: the numbers of atoms, of bonds and of bytes of the name.
pub fn head_word(name: &Name, mol: &Mol) -> u64
    ensures { result ≡ head_word name.now mol.now }
{
    let atoms = mol.atoms().len() as u64;
    let bonds = mol.bonds().len() as u64;
    let bytes = name.bytes().len() as u64;
    atoms + bonds * (1 << 10) + bytes * (1 << 20)
}

/// Eight bytes from a place on, which is at most 80, the first one lowest. Each past the end is 0.
pub fn name_word(bytes: &[u8], from: usize) -> u64
    requires { from ≤ 80 }
    ensures { result ≡ name_word bytes.now from }
{
    u64::from_le_bytes([
        byte_or_0(bytes, from),
        byte_or_0(bytes, from + 1),
        byte_or_0(bytes, from + 2),
        byte_or_0(bytes, from + 3),
        byte_or_0(bytes, from + 4),
        byte_or_0(bytes, from + 5),
        byte_or_0(bytes, from + 6),
        byte_or_0(bytes, from + 7),
    ])
}

fn byte_or_0(bytes: &[u8], index: usize) -> u8
    ensures { result ≡ slice_index bytes.now index }
{
    if index < bytes.len() { bytes[index] } else { 0 }
}

/// The word of an atom: 8 bits of the element, 8 of the charge, moved by 128, and 16 of the mass.
pub fn atom_word(atom: Atom) -> u64
    ensures { result ≡ atom_word atom }
{
    let raised = (i16::from(atom.charge) + 128) as u64;
    u64::from(atom.element) + raised * (1 << 8) + u64::from(atom.mass) * (1 << 16)
}

/// The word of a bond: 16 bits of each place, 8 of the type, and the flag.
pub fn bond_word(bond: Bond) -> u64
    ensures { result ≡ bond_word bond }
{
    let ends = u64::from(bond.first) + u64::from(bond.second) * (1 << 16);
    ends + u64::from(bond.kind) * (1 << 32) + u64::from(bond.ring) * (1 << 40)
}
