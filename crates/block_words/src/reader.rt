ghost use Rattle.std.specs.Prelude.{◌≡◌, ◌≤◌, ◌<◌, length, slice_index, IfOk};
ghost use Rattle.board_core.specs.Blocks.{bytes_in, block_size, byte_of, atom_of, bond_of, name_in, molecule_in};
ghost use Rattle.board_core.specs.Records.{ShowsRecord};

use crate::head::{atom_words_at, atoms_in, bond_words_at, bonds_in, bytes_in};
use htss_defs::{Atom, Bond, Mol, Name, OutOfMemory};
use std::alloc::Global;

/// The name that the words of a record's block show. It takes no memory.
pub fn read_name(words: &[u64]) -> Name
    requires whole { block_size (slice_index words.now 0) ≤ length words.now }
    requires valid { ShowsRecord (slice_index words.now) }
    ensures { result ≡ name_in (slice_index words.now) }
{
    let count = bytes_in(words[0]);
    let mut bytes = [0; 128];
    for index in 0..count {
        bytes[index] = byte_at(words, index);
    }
    let Some(name) = Name::new(&bytes[..count]) else {
        unreachable!()
    };
    name
}

/// The molecule that the words of a record's block show, at the cost of its atoms and bonds.
pub fn read_mol(alloc: Global, words: &[u64]) -> Result<Mol, OutOfMemory>
    requires whole { block_size (slice_index words.now 0) ≤ length words.now }
    requires valid { ShowsRecord (slice_index words.now) }
    ensures { IfOk result (λ mol. mol ≡ molecule_in (slice_index words.now)) }
{
    let atoms = read_atoms(alloc, words)?;
    let bonds = read_bonds(alloc, words)?;
    Ok(Mol::of_valid(atoms, bonds))
}

fn read_atoms(alloc: Global, words: &[u64]) -> Result<Vec<Atom>, OutOfMemory>
    requires whole { block_size (slice_index words.now 0) ≤ length words.now }
    ensures { IfOk result (λ atoms. atoms.items ≡ (molecule_in (slice_index words.now)).atoms) }
{
    let count = atoms_in(words[0]);
    let from = atom_words_at(words[0]);
    let mut atoms = Vec::with_capacity(alloc, count)?;
    for index in 0..count {
        atoms.push(atom_of(words[from + index]))?;
    }
    Ok(atoms)
}

fn read_bonds(alloc: Global, words: &[u64]) -> Result<Vec<Bond>, OutOfMemory>
    requires whole { block_size (slice_index words.now 0) ≤ length words.now }
    ensures { IfOk result (λ bonds. bonds.items ≡ (molecule_in (slice_index words.now)).bonds) }
{
    let count = bonds_in(words[0]);
    let from = bond_words_at(words[0]);
    let mut bonds = Vec::with_capacity(alloc, count)?;
    for index in 0..count {
        bonds.push(bond_of(words[from + index]))?;
    }
    Ok(bonds)
}

// The byte of the name at a place, counted from 0.
fn byte_at(words: &[u64], index: usize) -> u8
    requires whole { block_size (slice_index words.now 0) ≤ length words.now }
    requires within { index < bytes_in (slice_index words.now 0) }
    ensures { result ≡ byte_of (slice_index words.now) index }
{
    let word = words[3 + index / 8];
    ((word >> (8 * (index % 8))) % (1 << 8)) as u8
}

// The atom of its word.
fn atom_of(word: u64) -> Atom
    ensures { result ≡ atom_of word }
{
    Atom {
        element: (word % (1 << 8)) as u8,
        charge: ((word / (1 << 8) % (1 << 8)) as i16 - 128) as i8,
        mass: (word / (1 << 16) % (1 << 16)) as u16,
    }
}

// The bond of its word.
fn bond_of(word: u64) -> Bond
    ensures { result ≡ bond_of word }
{
    Bond {
        first: (word % (1 << 16)) as u16,
        second: (word / (1 << 16) % (1 << 16)) as u16,
        kind: (word / (1 << 32) % (1 << 8)) as u8,
        ring: word / (1 << 40) % 2 == 1,
    }
}
