// A spanning forest of a graph, by a search in breadth, in arrays of a fixed size.
ghost use Rattle.std.specs.Prelude.{◌≡◌, ◌≢◌, ◌↔◌, ℕ, ◌+◌, ◌<◌, ◌≤◌, IsTrue, length, slice_index};
ghost use Rattle.htss_defs.specs.Adjacency.{IsGraph};
ghost use Rattle.ring_bonds.specs.Forest.{IsForest, IsTreeBond, tree_of};
ghost use Rattle.ring_bonds.specs.Visits.{AreVisits, AreDoneVisits, HasEndAt, IsSettled, IsLater};
ghost use Rattle.ring_bonds.specs.Visits.{AreBlankVisits, IsUnseen, with_visit};

use htss_defs::{Adjacency, Ends};

/// For each place its parent, the bond to it, its depth, and its root.
#[derive(Drop)]
pub struct Forest {
    pub parent: [u16; 1000],
    // one more than the number of the bond to the parent, 0 at a root
    pub above: [u16; 1000],
    pub depth: [u16; 1000],
    // the root, 0 where the search has not been
    pub tree: [u16; 1000],
}

/// How a place was found.
#[derive(Clone, Copy)]
pub struct Found {
    pub parent: u16,
    pub above: u16,
    pub depth: u16,
    pub tree: u16,
}

/// A search in breadth. The places seen so far stand in a queue. Between searches it is blank: a
/// search clears nothing, and what it has seen is forgotten afterwards.
#[derive(Drop)]
pub struct Visits {
    pub forest: Forest,
    pub queue: [u16; 1000],
    pub seen: usize,
}

impl Forest {
    /// Whether the bond joins some place and its parent.
    pub fn has_bond(&self, graph: &Adjacency, bond: usize) -> bool
        requires forest { IsForest graph.now self.now }
        requires bond { bond < length graph.now.bonds }
        ensures { IsTrue result ↔ IsTreeBond self.now bond }
    {
        let ends = graph.bonds()[bond];
        self.above[ends.first as usize] as usize == bond + 1
            || self.above[ends.second as usize] as usize == bond + 1
    }
}

impl Visits {
    /// One that has seen nothing.
    pub fn new() -> Visits
        ensures { AreBlankVisits result }
    {
        Visits {
            forest: Forest {
                parent: [0; 1000],
                above: [0; 1000],
                depth: [0; 1000],
                tree: [0; 1000],
            },
            queue: [0; 1000],
            seen: 0,
        }
    }

    /// Finds a spanning forest of the graph, at the cost of its atoms and bonds.
    pub fn search(&mut self, graph: &Adjacency)
        requires { AreBlankVisits self.old }
        ensures forest { IsForest graph.now self.new.forest }
        ensures past { (x : ℕ) → graph.now.atoms < x → IsUnseen self.new.forest x }
    {
        for root in 1..graph.atoms() + 1 {
            self.search_from(graph, root);
        }
    }

    /// Forgets what it has seen among so many atoms, at the cost of their number.
    pub fn clear(&mut self, atoms: u16)
        requires atoms { atoms ≤ 999 }
        requires past { (x : ℕ) → atoms < x → IsUnseen self.old.forest x }
        ensures { AreBlankVisits self.new }
    {
        for x in 0..atoms as usize + 1 {
            self.forest.above[x] = 0;
            self.forest.depth[x] = 0;
            self.forest.tree[x] = 0;
        }
        self.seen = 0;
    }

    // Finds the tree of the root, unless the place has been seen.
    fn search_from(&mut self, graph: &Adjacency, root: u16)
        requires valid { IsGraph graph.now }
        requires visits { AreDoneVisits graph.now self.old }
        requires some { 0 < root }
        requires within { root ≤ graph.now.atoms }
        ensures visits { AreDoneVisits graph.now self.new }
        ensures later { IsLater self.old self.new }
        ensures seen { 0 < tree_of self.new.forest root }
    {
        if self.forest.tree[root as usize] != 0 {
            return;
        }
        let mut head = self.seen;
        let found = Found {
            parent: 0,
            above: 0,
            depth: 0,
            tree: root,
        };
        self.visit(root, found);
        while head < self.seen {
            self.explore(graph, head, root);
            head += 1;
        }
    }

    // Visits the places that bonds join to the one at `head` of the queue.
    fn explore(&mut self, graph: &Adjacency, head: usize, root: u16)
        requires visits { AreVisits graph.now self.old head root }
        requires within { head < self.old.seen }
        requires some { 0 < root }
        ensures visits { AreVisits graph.now self.new (head + 1) root }
        ensures later { IsLater self.old self.new }
    {
        let place = self.queue[head];
        let mut link = graph.last_link(place);
        while link != 0 {
            self.reach(graph, head, root, (link - 1) / 2);
            link = graph.link_before(link);
        }
    }

    // Visits the other end of a bond of the place at `head`, unless it has been seen.
    fn reach(&mut self, graph: &Adjacency, head: usize, root: u16, bond: u16)
        requires visits { AreVisits graph.now self.old head root }
        requires within { head < self.old.seen }
        requires some { 0 < root }
        requires end { HasEndAt graph.now bond (slice_index self.old.queue head) }
        ensures visits { AreVisits graph.now self.new head root }
        ensures later { IsLater self.old self.new }
        ensures settled { IsSettled graph.now self.new.forest bond }
    {
        let place = self.queue[head];
        let next = other_end(graph.bonds()[bond as usize], place);
        if self.forest.tree[next as usize] == 0 {
            let found = Found {
                parent: place,
                above: bond + 1,
                depth: self.forest.depth[place as usize] + 1,
                tree: root,
            };
            self.visit(next, found);
        }
    }

    // Puts an unseen place at the end of the queue.
    fn visit(&mut self, place: u16, found: Found)
        requires place { place < 1000 }
        requires room { self.old.seen < 1000 }
        ensures { self.new ≡ with_visit self.old place found }
    {
        self.forest.parent[place as usize] = found.parent;
        self.forest.above[place as usize] = found.above;
        self.forest.depth[place as usize] = found.depth;
        self.forest.tree[place as usize] = found.tree;
        self.queue[self.seen] = place;
        self.seen += 1;
    }
}

// The end of the bond that is not this one.
fn other_end(ends: Ends, place: u16) -> u16
    ensures first { ends.first ≡ place → result ≡ ends.second }
    ensures second { ends.first ≢ place → result ≡ ends.first }
{
    if ends.first == place {
        ends.second
    } else {
        ends.first
    }
}
