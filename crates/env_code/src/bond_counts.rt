// The bonds of each place of a graph, counted by type.
ghost use Rattle.std.specs.Prelude.{◌≡◌, ◌<◌, List, [], ◌∷◌, ◌++◌, Bool};
ghost use Rattle.htss_defs.specs.declared.mol.Bond.{Bond};
ghost use Rattle.htss_defs.specs.Codes.{word_of};
ghost use Rattle.htss_defs.specs.Graph.{AreEnds};
ghost use Rattle.htss_defs.specs.Molecule.{bond_ends};
ghost use Rattle.env_code.specs.BondCounts.{AreBondCounts, HasCounts, IsOneMore, own_count};

use htss_defs::{Bond, Ends};

/// For each place of a graph of at most 999 atoms, how many bonds it has: all, those of type 2, 3
/// and 4, and those that are marked as ring bonds. A count stops at 255.
#[derive(Drop)]
pub struct BondCounts {
    pub degree: [u8; 1000],
    pub double: [u8; 1000],
    pub triple: [u8; 1000],
    pub aromatic: [u8; 1000],
    pub ring: [u8; 1000],
}

impl BondCounts {
    /// No bonds.
    pub fn new() -> BondCounts
        ensures { AreBondCounts [] result }
    {
        BondCounts {
            degree: [0; 1000],
            double: [0; 1000],
            triple: [0; 1000],
            aromatic: [0; 1000],
            ring: [0; 1000],
        }
    }

    /// No bonds, whatever was counted.
    pub fn clear(&mut self)
        ensures { AreBondCounts [] self.new }
    {
        self.degree = [0; 1000];
        self.double = [0; 1000];
        self.triple = [0; 1000];
        self.aromatic = [0; 1000];
        self.ring = [0; 1000];
    }

    /// Counts one more bond, at both of its ends. The cost does not depend on the bonds before.
    pub fn add(&mut self, bond: Bond)
        requires { AreEnds 999 (bond_ends bond) }
        ensures { (bonds : List Bond) → AreBondCounts bonds self.old
            → AreBondCounts (bonds ++ bond ∷ []) self.new }
    {
        count(&mut self.degree, bond, true);
        count(&mut self.double, bond, bond.kind == 2);
        count(&mut self.triple, bond, bond.kind == 3);
        count(&mut self.aromatic, bond, bond.kind == 4);
        count(&mut self.ring, bond, bond.ring);
    }

    /// The word of the counts at a place of at most 999: `lowest` in lane 0, then all bonds, those
    /// of type 2, 3 and 4, and ring bonds.
    pub fn word(&self, place: u16, lowest: u8) -> u64
        requires { place < 1000 }
        ensures { (bonds : List Bond) → AreBondCounts bonds self.now
            → result ≡ word_of (own_count bonds place lowest) }
    {
        let x = place as usize;
        u64::from_le_bytes([
            lowest,
            self.degree[x],
            self.double[x],
            self.triple[x],
            self.aromatic[x],
            self.ring[x],
            0,
            0,
        ])
    }
}

// Counts a bond that passes a test, at both of its ends.
fn count(counts: &mut [u8; 1000], bond: Bond, passes: bool)
    requires { AreEnds 999 (bond_ends bond) }
    ensures { (bonds : List Bond) (test : Bond → Bool) → passes ≡ test bond
        → HasCounts bonds test counts.old → HasCounts (bonds ++ bond ∷ []) test counts.new }
{
    if passes {
        raise(counts, bond.ends());
    }
}

// One more at both ends.
fn raise(counts: &mut [u8; 1000], ends: Ends)
    requires { AreEnds 999 ends }
    ensures { IsOneMore ends counts.old counts.new }
{
    let first = ends.first as usize;
    let second = ends.second as usize;
    counts[first] = counts[first].saturating_add(1);
    counts[second] = counts[second].saturating_add(1);
}
