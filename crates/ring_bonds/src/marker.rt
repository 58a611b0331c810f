ghost use Rattle.std.specs.Prelude.{◌≡◌, map};
ghost use Rattle.htss_defs.specs.Molecule.{molecule_graph};
ghost use Rattle.htss_defs.specs.Marked.{IsMarked, unmarked};

use crate::marking::Marking;
use htss_defs::{Adjacency, Mol};
use std::marker::Model;

/// What ring bonds are marked in. It is made once, serves for one molecule after the other, and
/// takes no memory. Between two molecules it is blank, so contracts see nothing of it.
#[derive(Drop)]
pub struct RingMarker {
    marking: Marking,
}

impl Model for RingMarker {
    ghost use Rattle.ring_bonds.specs.Marking.{IsBlank};

    ghost Value = { Unit {0} };

    ghost view = { λ _. tt };

    ghost invariant = { λ a. IsBlank a.marking };
}

impl RingMarker {
    /// One that has marked nothing yet.
    pub fn new() -> RingMarker {
        RingMarker {
            marking: Marking::new(),
        }
    }

    /// Sets the flag of each bond to whether it is a ring bond, by the graph of the molecule. Its
    /// time is nearly linear in atoms and bonds.
    pub fn mark(&mut self, mol: &mut Mol, graph: &Adjacency)
        requires { graph.now ≡ molecule_graph mol.old }
        ensures marked { IsMarked mol.new }
        ensures atoms { mol.new.atoms ≡ mol.old.atoms }
        ensures bonds { map unmarked mol.new.bonds ≡ map unmarked mol.old.bonds }
    {
        self.marking.mark_all(graph);
        for bond in 0..mol.bonds().len() {
            mol.set_ring(bond, self.marking.flags[bond]);
        }
        self.marking.clear(graph);
    }
}
