// A query of which each bond says whether it is a ring bond.
ghost use Rattle.std.specs.Prelude.{◌≡◌, ◌↔◌, ◌≤◌, ℕ, List, length, map, All, IsSome, IfSome, IfNone};
ghost use Rattle.htss_defs.specs.Graph.{AreEnds};
ghost use Rattle.htss_defs.specs.QueryGraph.{IsQuery, query_bond_ends};
ghost use Rattle.htss_defs.specs.Marked.{IsMarkedQuery, unmarked_query};
ghost use Rattle.ring_bonds.specs.QueryFlags.{AreSet, HasGraph};

use crate::marking::ring_flags;
use htss_defs::{Adjacency, Query, QueryAtom, QueryBond, are_ends};

/// The query of these lists, each flag set to whether the bond is a ring bond, or `None` exactly where they break a
/// rule of queries. It takes no memory.
pub fn marked_query(atoms: Vec<QueryAtom>, bonds: Vec<QueryBond>) -> Option<Query>
    ensures some { IsSome result ↔ IsQuery (record { atoms = atoms.items; bonds = bonds.items }) }
    ensures value { IfSome result (λ q.
        unmarked_query q ≡ unmarked_query (record { atoms = atoms.items; bonds = bonds.items })) }
    ensures marked { IfSome result IsMarkedQuery }
{
    let mut bonds = bonds;
    let graph = graph_of(atoms.len(), &bonds)?;
    set_flags(&mut bonds, &ring_flags(&graph));
    Query::new(atoms, bonds)
}

// The graph of the bonds among so many atoms, where there are few enough and their ends are places.
fn graph_of(atoms: usize, bonds: &[QueryBond]) -> Option<Adjacency>
    ensures some { IfSome result (λ graph.
        graph ≡ record { atoms = atoms; bonds = map query_bond_ends bonds.now }) }
    ensures none { IfNone result (¬ HasGraph atoms bonds.now) }
{
    if atoms > 64 || bonds.len() > 999 {
        return None;
    }
    let mut graph = Adjacency::new();
    graph.restart(atoms as u16);
    for bond in bonds {
        if !are_ends(bond.ends(), atoms) {
            return None;
        }
        graph.add(bond.ends());
    }
    Some(graph)
}

// Sets the flag of each bond.
fn set_flags(bonds: &mut [QueryBond], flags: &[bool; 999])
    requires { length bonds.old ≤ 999 }
    ensures { AreSet bonds.old bonds.new flags.now (length bonds.old) }
{
    for k in 0..bonds.len() {
        bonds[k].ring = flags[k];
    }
}
