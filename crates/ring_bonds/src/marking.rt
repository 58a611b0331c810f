// Marks the ring bonds of a graph, given a spanning forest. A bond that is not in the forest closes
// a ring with the ways up from its ends to where they meet, and each ring bond is such a bond or on
// such a way.
ghost use Rattle.std.specs.Prelude.{◌≡◌, ◌≢◌, ◌↔◌, ℕ, ◌<◌, ◌≤◌, false, true, IsTrue, length};
ghost use Rattle.std.specs.Prelude.{slice_index, slice_index_or};
ghost use Rattle.htss_defs.specs.Graph.{IsRingBond};
ghost use Rattle.ring_bonds.specs.Forest.{AreRises, IsTreeBond, above_of, parent_of};
ghost use Rattle.ring_bonds.specs.Marking.{AreTops, Grows, IsAllMarked, IsBlank, IsClosed, IsDone};
ghost use Rattle.ring_bonds.specs.Marking.{IsMarking, IsTop, flag_of, with_mark};

use crate::forest::Visits;
use htss_defs::Adjacency;

/// The search that finds a spanning forest, and the flags of the bonds marked so far. `tops` gives
/// for each place one further up over marked bonds, so that no marked stretch is climbed often.
#[derive(Drop)]
pub struct Marking {
    pub visits: Visits,
    pub tops: [u16; 1000],
    pub flags: [bool; 999],
}

/// For each bond, counted from 0, whether it is a ring bond. It takes no memory, and its time is
/// nearly linear in atoms and bonds.
pub fn ring_flags(graph: &Adjacency) -> [bool; 999]
    ensures { (k : ℕ) → (IsTrue (slice_index_or result k false) ↔ IsRingBond graph.now k) }
{
    let mut marking = Marking::new();
    marking.mark_all(graph);
    marking.flags
}

impl Marking {
    /// One in which nothing is marked.
    pub fn new() -> Marking
        ensures { IsBlank result }
    {
        let mut tops = [0; 1000];
        own_tops(&mut tops, 999);
        Marking {
            visits: Visits::new(),
            tops,
            flags: [false; 999],
        }
    }

    /// Marks the ring bonds of the graph and no other, at the cost of its atoms and bonds.
    pub fn mark_all(&mut self, graph: &Adjacency)
        requires { IsBlank self.old }
        ensures { IsAllMarked graph.now self.new }
    {
        self.visits.search(graph);
        for bond in 0..graph.bonds().len() {
            self.mark(graph, bond);
        }
    }

    /// Makes it blank again, at the cost of the atoms and bonds of the graph that was marked.
    pub fn clear(&mut self, graph: &Adjacency)
        requires { IsAllMarked graph.now self.old }
        ensures { IsBlank self.new }
    {
        self.visits.clear(graph.atoms());
        own_tops(&mut self.tops, graph.atoms());
        lower_flags(&mut self.flags, graph.bonds().len());
    }

    // Marks what the bond closes, unless it is in the forest.
    fn mark(&mut self, graph: &Adjacency, bond: usize)
        requires valid { IsMarking graph.now self.old }
        requires bond { bond < length graph.now.bonds }
        ensures valid { IsMarking graph.now self.new }
        ensures forest { self.new.visits.forest ≡ self.old.visits.forest }
        ensures grows { Grows self.old.flags self.new.flags }
        ensures done { IsDone graph.now self.new.visits.forest self.new.flags bond }
    {
        if !self.visits.forest.has_bond(graph, bond) {
            self.close(graph, bond);
        }
    }

    // Marks the bond and the ways up from its ends to where they meet. The deeper one goes up.
    fn close(&mut self, graph: &Adjacency, bond: usize)
        requires valid { IsMarking graph.now self.old }
        requires bond { bond < length graph.now.bonds }
        requires beside { ¬ IsTreeBond self.old.visits.forest bond }
        ensures valid { IsMarking graph.now self.new }
        ensures forest { self.new.visits.forest ≡ self.old.visits.forest }
        ensures grows { Grows self.old.flags self.new.flags }
        ensures closed { IsClosed graph.now self.new.visits.forest self.new.flags bond }
    {
        let ends = graph.bonds()[bond];
        self.flags[bond] = true;
        let mut first = self.top_of(ends.first);
        let mut second = self.top_of(ends.second);
        while first != second {
            if self.visits.forest.depth[first as usize]
                >= self.visits.forest.depth[second as usize]
            {
                first = self.rise(first);
            } else {
                second = self.rise(second);
            }
        }
    }

    // Marks the bond above the place, and answers the top of its parent.
    fn rise(&mut self, place: u16) -> u16
        requires rises { AreRises self.old.visits.forest }
        requires tops { AreTops self.old.visits.forest self.old.flags self.old.tops }
        requires within { place < 1000 }
        requires above { 0 < above_of self.old.visits.forest place }
        ensures forest { self.new.visits.forest ≡ self.old.visits.forest }
        ensures flags { self.new.flags ≡ with_mark self.old.visits.forest self.old.flags place }
        ensures tops { AreTops self.new.visits.forest self.new.flags self.new.tops }
        ensures top { let m = self.new in IsTop m.visits.forest m.flags (parent_of m.visits.forest place) result }
    {
        let parent = self.visits.forest.parent[place as usize];
        let above = self.visits.forest.above[place as usize] as usize;
        self.flags[above - 1] = true;
        self.tops[place as usize] = parent;
        self.top_of(parent)
    }

    // The place furthest up over marked bonds. It halves the way for the next time.
    fn top_of(&mut self, place: u16) -> u16
        requires tops { AreTops self.old.visits.forest self.old.flags self.old.tops }
        requires within { place < 1000 }
        ensures forest { self.new.visits.forest ≡ self.old.visits.forest }
        ensures flags { self.new.flags ≡ self.old.flags }
        ensures tops { AreTops self.new.visits.forest self.new.flags self.new.tops }
        ensures top { IsTop self.new.visits.forest self.new.flags place result }
    {
        let mut at = place;
        while self.tops[at as usize] != at {
            let next = self.tops[at as usize];
            let top = self.tops[next as usize];
            self.tops[at as usize] = top;
            at = top;
        }
        at
    }
}

// Makes each place up to so many atoms its own top.
fn own_tops(tops: &mut [u16; 1000], atoms: u16)
    requires { atoms ≤ 999 }
    ensures { (x : ℕ) → x < 1000 → (atoms < x → slice_index tops.old x ≡ x)
        → slice_index tops.new x ≡ x }
{
    for x in 0..atoms + 1 {
        tops[x as usize] = x;
    }
}

// Lowers the flags of so many bonds.
fn lower_flags(flags: &mut [bool; 999], bonds: usize)
    requires { bonds ≤ 999 }
    ensures { (k : ℕ) → (bonds ≤ k → flag_of flags.old k ≡ false) → flag_of flags.new k ≡ false }
{
    for bond in 0..bonds {
        flags[bond] = false;
    }
}
