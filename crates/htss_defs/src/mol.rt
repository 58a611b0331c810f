ghost use Rattle.std.specs.Prelude.{◌≡◌, ℕ, ◌<◌, ◌≤◌, ◌↔◌, IsTrue, IsSome, IfSome, All, AllPairs, length};
ghost use Rattle.htss_defs.specs.Molecule.{IsAtom, IsBond, IsMolecule, Molecule, AreBondsApart};
ghost use Rattle.htss_defs.specs.Molecule.{bond_ends, molecule_graph};
ghost use Rattle.htss_defs.specs.Marked.{with_ring};

use crate::adjacency::Adjacency;
use crate::graph::{Ends, are_ends};
use std::marker::Model;

/// An atom of a molecule: the element is 1 to 118, the charge -15 to 15, the mass 0 (not given) to 999.
#[derive(Clone, Copy, Debug, PartialEq, Eq)]
pub struct Atom {
    pub element: u8,
    pub charge: i8,
    pub mass: u16,
}

/// A bond of a molecule. Places count from 1, the type is 1 to 4, and `ring` says whether it is a ring bond where the
/// molecule is marked.
#[derive(Clone, Copy, Debug, PartialEq, Eq)]
pub struct Bond {
    pub first: u16,
    pub second: u16,
    pub kind: u8,
    pub ring: bool,
}

impl Bond {
    /// The places that the bond joins.
    pub fn ends(self) -> Ends
        ensures { result ≡ bond_ends self }
    {
        Ends {
            first: self.first,
            second: self.second,
        }
    }
}

/// A molecule of 1 to 999 atoms and at most 999 bonds: contracts see its two lists.
#[derive(Debug, Drop)]
pub struct Mol {
    atoms: Vec<Atom>,
    bonds: Vec<Bond>,
}

impl Model for Mol {
    ghost Value = { Molecule };

    ghost view = { λ m. record { atoms = m.atoms.items; bonds = m.bonds.items } };

    ghost invariant = { λ m. IsMolecule (record { atoms = m.atoms.items; bonds = m.bonds.items }) };
}

impl Mol {
    /// The molecule of these lists, or `None` exactly where they break a rule of molecules. It takes no memory.
    pub fn new(atoms: Vec<Atom>, bonds: Vec<Bond>) -> Option<Mol>
        ensures valid { IsSome result ↔ IsMolecule (record { atoms = atoms.items; bonds = bonds.items }) }
        ensures value { IfSome result (λ m. m ≡ record { atoms = atoms.items; bonds = bonds.items }) }
    {
        if is_molecule(&atoms, &bonds) {
            Some(Mol { atoms, bonds })
        } else {
            None
        }
    }

    /// The molecule of lists that keep the rules. It takes no memory.
    pub fn of_valid(atoms: Vec<Atom>, bonds: Vec<Bond>) -> Mol
        requires { IsMolecule (record { atoms = atoms.items; bonds = bonds.items }) }
        ensures { result ≡ record { atoms = atoms.items; bonds = bonds.items } }
    {
        Mol { atoms, bonds }
    }

    /// The atoms.
    pub fn atoms(&self) -> &[Atom]
        ensures items { result.now ≡ self.now.atoms }
        ensures valid { IsMolecule self.now }
    {
        &self.atoms
    }

    /// The bonds.
    pub fn bonds(&self) -> &[Bond]
        ensures items { result.now ≡ self.now.bonds }
        ensures valid { IsMolecule self.now }
    {
        &self.bonds
    }

    /// Sets the flag of one bond.
    pub fn set_ring(&mut self, bond: usize, ring: bool)
        requires { bond < length self.old.bonds }
        ensures { self.new ≡ with_ring self.old bond ring }
    {
        self.bonds[bond].ring = ring;
    }

    /// Makes the adjacency that of the molecule, whatever it was.
    pub fn link(&self, adjacency: &mut Adjacency)
        ensures graph { adjacency.new ≡ molecule_graph self.now }
        ensures valid { IsMolecule self.now }
    {
        adjacency.restart(self.atoms.len() as u16);
        for bond in &self.bonds {
            adjacency.add(bond.ends());
        }
    }
}

fn is_molecule(atoms: &[Atom], bonds: &[Bond]) -> bool
    ensures { IsTrue result ↔ IsMolecule (record { atoms = atoms.now; bonds = bonds.now }) }
{
    !atoms.is_empty()
        && atoms.len() <= 999
        && bonds.len() <= 999
        && are_atoms(atoms)
        && are_bonds(bonds, atoms.len())
        && are_apart(bonds, atoms.len() as u16)
}

fn are_atoms(atoms: &[Atom]) -> bool
    ensures { IsTrue result ↔ All IsAtom atoms.now }
{
    atoms.iter().all(|atom| is_atom(*atom))
}

fn is_atom(atom: Atom) -> bool
    ensures { IsTrue result ↔ IsAtom atom }
{
    1 <= atom.element
        && atom.element <= 118
        && -15 <= atom.charge
        && atom.charge <= 15
        && atom.mass <= 999
}

fn are_bonds(bonds: &[Bond], atoms: usize) -> bool
    ensures { IsTrue result ↔ All (IsBond atoms) bonds.now }
{
    bonds.iter().all(|bond| is_bond(*bond, atoms))
}

fn is_bond(bond: Bond, atoms: usize) -> bool
    ensures { IsTrue result ↔ IsBond atoms bond }
{
    are_ends(bond.ends(), atoms) && 1 <= bond.kind && bond.kind <= 4
}

// Whether they join different pairs of places.
fn are_apart(bonds: &[Bond], atoms: u16) -> bool
    requires atoms { atoms ≤ 999 }
    requires few { length bonds.now ≤ 999 }
    requires each { All (IsBond atoms) bonds.now }
    ensures { IsTrue result ↔ AllPairs AreBondsApart bonds.now }
{
    let mut adjacency = Adjacency::new();
    adjacency.restart(atoms);
    for bond in bonds {
        if !adjacency.add_new(bond.ends()) {
            return false;
        }
    }
    true
}
