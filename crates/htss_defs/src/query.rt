ghost use Rattle.std.specs.Prelude.{◌≡◌, ℕ, ◌≤◌, ◌↔◌, IsTrue, IsSome, IfSome, All, AllPairs, length};
ghost use Rattle.htss_defs.specs.QueryGraph.{IsAtomTest, IsQueryAtom, IsQueryBond, IsQuery};
ghost use Rattle.htss_defs.specs.QueryGraph.{QueryGraph, AreQueryBondsApart, query_bond_ends};
ghost use Rattle.htss_defs.specs.QueryGraph.{query_shape};
ghost use Rattle.htss_defs.specs.Marked.{IsMarkedQuery};

use crate::adjacency::Adjacency;
use crate::graph::{Ends, are_ends};
use std::marker::Model;

/// A set of elements: bit e stands for element e.
#[derive(Clone, Copy, Debug, PartialEq, Eq)]
pub struct ElementSet(pub u128);

/// What an atom of a query asks of the element. `NoneOf` allows each element that is not listed, but for hydrogen.
#[derive(Clone, Copy, Debug, PartialEq, Eq)]
pub enum AtomTest {
    Element(u8),
    Any,
    NotHydrogen,
    NotCarbonHydrogen,
    OneOf(ElementSet),
    NoneOf(ElementSet),
}

/// An atom of a query: its test, and a charge and a mass that must be equal where they are not 0.
#[derive(Clone, Copy, Debug, PartialEq, Eq)]
pub struct QueryAtom {
    pub test: AtomTest,
    pub charge: i8,
    pub mass: u16,
}

/// A bond of a query: the type is 1 to 8, the topology 0 (either), 1 (ring) or 2 (chain). The flag says whether it is a
/// ring bond of the query.
#[derive(Clone, Copy, Debug, PartialEq, Eq)]
pub struct QueryBond {
    pub first: u16,
    pub second: u16,
    pub kind: u8,
    pub topology: u8,
    pub ring: bool,
}

impl QueryBond {
    /// The places that the bond joins.
    pub fn ends(self) -> Ends
        ensures { result ≡ query_bond_ends self }
    {
        Ends {
            first: self.first,
            second: self.second,
        }
    }
}

/// A query of 1 to 64 atoms and at most 999 bonds, each with its flag set where it is a ring bond: contracts see its
/// two lists.
#[derive(Debug, Drop)]
pub struct Query {
    atoms: Vec<QueryAtom>,
    bonds: Vec<QueryBond>,
}

impl Model for Query {
    ghost Value = { QueryGraph };

    ghost view = { λ q. record { atoms = q.atoms.items; bonds = q.bonds.items } };

    ghost invariant = { λ q. IsQuery (record { atoms = q.atoms.items; bonds = q.bonds.items })
        × IsMarkedQuery (record { atoms = q.atoms.items; bonds = q.bonds.items }) };
}

impl Query {
    /// The query of these lists, or `None` exactly where they break a rule of queries. It takes no memory.
    pub fn new(atoms: Vec<QueryAtom>, bonds: Vec<QueryBond>) -> Option<Query>
        requires marked { IsMarkedQuery (record { atoms = atoms.items; bonds = bonds.items }) }
        ensures valid { IsSome result ↔ IsQuery (record { atoms = atoms.items; bonds = bonds.items }) }
        ensures value { IfSome result (λ q. q ≡ record { atoms = atoms.items; bonds = bonds.items }) }
    {
        if is_query(&atoms, &bonds) {
            Some(Query { atoms, bonds })
        } else {
            None
        }
    }

    /// The atoms.
    pub fn atoms(&self) -> &[QueryAtom]
        ensures items { result.now ≡ self.now.atoms }
        ensures valid { IsQuery self.now }
    {
        &self.atoms
    }

    /// The bonds.
    pub fn bonds(&self) -> &[QueryBond]
        ensures items { result.now ≡ self.now.bonds }
        ensures valid { IsQuery self.now }
        ensures marked { IsMarkedQuery self.now }
    {
        &self.bonds
    }

    /// Makes the adjacency that of the query, whatever it was.
    pub fn link(&self, adjacency: &mut Adjacency)
        ensures graph { adjacency.new ≡ query_shape self.now }
        ensures valid { IsQuery self.now }
    {
        adjacency.restart(self.atoms.len() as u16);
        for bond in &self.bonds {
            adjacency.add(bond.ends());
        }
    }
}

fn is_query(atoms: &[QueryAtom], bonds: &[QueryBond]) -> bool
    ensures { IsTrue result ↔ IsQuery (record { atoms = atoms.now; bonds = bonds.now }) }
{
    !atoms.is_empty()
        && atoms.len() <= 64
        && bonds.len() <= 999
        && atoms.iter().all(|atom| is_query_atom(*atom))
        && are_query_bonds(bonds, atoms.len())
        && are_apart(bonds, atoms.len() as u16)
}

fn is_query_atom(atom: QueryAtom) -> bool
    ensures { IsTrue result ↔ IsQueryAtom atom }
{
    is_atom_test(atom.test) && -15 <= atom.charge && atom.charge <= 15 && atom.mass <= 999
}

fn is_atom_test(test: AtomTest) -> bool
    ensures { IsTrue result ↔ IsAtomTest test }
{
    match test {
        AtomTest::Element(e) => 1 <= e && e <= 118,
        _ => true,
    }
}

fn are_query_bonds(bonds: &[QueryBond], atoms: usize) -> bool
    ensures { IsTrue result ↔ All (IsQueryBond atoms) bonds.now }
{
    bonds.iter().all(|bond| is_query_bond(*bond, atoms))
}

fn is_query_bond(bond: QueryBond, atoms: usize) -> bool
    ensures { IsTrue result ↔ IsQueryBond atoms bond }
{
    are_ends(bond.ends(), atoms) && 1 <= bond.kind && bond.kind <= 8 && bond.topology <= 2
}

// Whether they join different pairs of places.
fn are_apart(bonds: &[QueryBond], atoms: u16) -> bool
    requires atoms { atoms ≤ 999 }
    requires few { length bonds.now ≤ 999 }
    requires each { All (IsQueryBond atoms) bonds.now }
    ensures { IsTrue result ↔ AllPairs AreQueryBondsApart bonds.now }
{
    let mut adjacency = Adjacency::new();
    adjacency.restart(atoms);
    for bond in bonds {
        if !adjacency.add_new(bond.ends()) {
            return false;
        }
    }
    true
}
