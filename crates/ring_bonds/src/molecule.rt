ghost use Rattle.std.specs.Prelude.{◌≡◌, map};
ghost use Rattle.htss_defs.specs.Molecule.{molecule_graph};
ghost use Rattle.htss_defs.specs.Marked.{IsMarked, unmarked};

use crate::marker::RingMarker;
use htss_defs::{Adjacency, Mol};

/// Sets the flag of each bond to whether it is a ring bond. It takes no memory, and its time is
/// nearly linear in atoms and bonds.
pub fn mark_rings(mol: &mut Mol)
    ensures marked { IsMarked mol.new }
    ensures atoms { mol.new.atoms ≡ mol.old.atoms }
    ensures bonds { map unmarked mol.new.bonds ≡ map unmarked mol.old.bonds }
{
    let mut graph = Adjacency::new();
    mol.link(&mut graph);
    mark_linked(mol, &graph);
}

/// The same, with a graph that is that of the molecule already.
pub fn mark_linked(mol: &mut Mol, graph: &Adjacency)
    requires { graph.now ≡ molecule_graph mol.old }
    ensures marked { IsMarked mol.new }
    ensures atoms { mol.new.atoms ≡ mol.old.atoms }
    ensures bonds { map unmarked mol.new.bonds ≡ map unmarked mol.old.bonds }
{
    let mut marker = RingMarker::new();
    marker.mark(mol, graph);
}
