ghost use Rattle.std.specs.Prelude.{◌≡◌, ◌≤◌, ◌<◌, [], length, leb};
ghost use Rattle.htss_defs.specs.Marked.{IsMarked};
ghost use Rattle.htss_defs.specs.Codes.{code_at, codes_at, counts_in, is_of_kind};
ghost use Rattle.env_code.specs.BondCounts.{AreBondCounts};
ghost use Rattle.env_code.specs.Coders.{IsCoder};
ghost use Rattle.env_code.specs.Near.{HasLanes, lane_row};

use crate::bond_counts::BondCounts;
use crate::kinds::is_of_kind;
use crate::walk::{LaneTable, Walk, near_words};
use htss_defs::{Adjacency, Codes, Mol};

/// What the codes of a molecule are read from: its bonds at each place, their counts, and the lanes
/// in which each atom counts. It is made once, serves for one molecule after the other, and takes no
/// memory.
#[derive(Drop)]
pub struct Coder {
    bonds: Adjacency,
    counts: BondCounts,
    lanes: LaneTable,
    walk: Walk,
}

impl Coder {
    /// One that is of no molecule yet.
    pub fn new() -> Coder
        ensures { result.bonds ≡ record { atoms = 0; bonds = [] } }
    {
        Coder {
            bonds: Adjacency::new(),
            counts: BondCounts::new(),
            lanes: [[false; 8]; 1000],
            walk: Walk::new(),
        }
    }

    /// Makes it that of a marked molecule, whatever it was, at the cost of the atoms and bonds and
    /// of clearing the counts.
    pub fn load(&mut self, mol: &Mol)
        requires marked { IsMarked mol.now }
        ensures { IsCoder mol.now self.new }
    {
        mol.link(&mut self.bonds);
        count_bonds(&mut self.counts, mol);
        set_lanes(&mut self.lanes, mol, &self.counts);
    }

    /// The word of code 0 of the atom at a place, from 1 to the number of atoms of the molecule that
    /// was loaded last. The cost does not depend on the molecule.
    pub fn own_word(&self, mol: &Mol, atom: u16) -> u64
        requires loaded { IsCoder mol.now self.now }
        requires some { 1 ≤ atom }
        requires within { atom ≤ length mol.now.atoms }
        ensures { result ≡ code_at mol.now 0 atom }
    {
        let element = mol.atoms()[atom as usize - 1].element;
        self.counts.word(atom, element)
    }

    /// The codes of the atom at a place, from 1 to the number of atoms of the molecule that was loaded
    /// last, at the cost of its neighbourhood within distance 4, and of clearing the flags of a walk.
    pub fn codes(&mut self, mol: &Mol, atom: u16) -> Codes
        requires loaded { IsCoder mol.now self.old }
        requires some { 1 ≤ atom }
        requires within { atom ≤ length mol.now.atoms }
        ensures codes { result ≡ codes_at mol.now atom }
        ensures loaded { IsCoder mol.now self.new }
    {
        let own = self.own_word(mol, atom);
        let near = near_words(&self.bonds, &self.lanes, &mut self.walk, atom);
        Codes {
            words: [own, near[0], near[1], near[2], near[3]],
        }
    }
}

/// The codes of the atom at a place, from 1 to the number of atoms, of a marked molecule. It takes
/// no memory, and costs the atoms and bonds of the molecule: a `Coder` serves for more than one atom.
pub fn codes_of(mol: &Mol, atom: u16) -> Codes
    requires marked { IsMarked mol.now }
    requires some { 1 ≤ atom }
    requires within { atom ≤ length mol.now.atoms }
    ensures { result ≡ codes_at mol.now atom }
{
    let mut coder = Coder::new();
    coder.load(mol);
    coder.codes(mol, atom)
}

// Counts the bonds of the molecule, and those alone.
fn count_bonds(counts: &mut BondCounts, mol: &Mol)
    ensures { AreBondCounts mol.now.bonds counts.new }
{
    counts.clear();
    for bond in mol.bonds() {
        counts.add(*bond);
    }
}

// Sets the lanes in which each place of the molecule counts.
fn set_lanes(lanes: &mut LaneTable, mol: &Mol, counts: &BondCounts)
    requires { AreBondCounts mol.now.bonds counts.now }
    ensures { HasLanes (counts_in mol.now) (length mol.now.atoms) lanes.new }
{
    for (index, atom) in mol.atoms().iter().enumerate() {
        lanes[index + 1] = lanes_of_atom(atom.element, counts.degree[index + 1]);
    }
}

fn lanes_of_atom(element: u8, degree: u8) -> [bool; 8]
    ensures { result ≡ lane_row (λ i. is_of_kind i element) (leb 3 degree) }
{
    [
        true,
        is_of_kind(1, element),
        is_of_kind(2, element),
        is_of_kind(3, element),
        is_of_kind(4, element),
        is_of_kind(5, element),
        is_of_kind(6, element),
        degree >= 3,
    ]
}
