// A walk outwards from one place of a graph, level by level, in arrays of a fixed size.
ghost use Rattle.std.specs.Prelude.{◌≡◌, ℕ, ◌+◌, ◌≤◌, ◌<◌, slice_index};
ghost use Rattle.std.specs.Int.{from_le_bytes, w64};
ghost use Rattle.htss_defs.specs.Adjacency.{IsGraph};
ghost use Rattle.env_code.specs.Near.{near_list};
ghost use Rattle.env_code.specs.Walks.{IsEmptyWalk, IsVisit, IsWalk, IsLater, IsReach, IsSpread};
ghost use Rattle.env_code.specs.Walks.{IsExplored, IsLevel, IsTallied};

use htss_defs::{Adjacency, Ends};

/// For each place of a graph of at most 999 atoms, whether it counts in each of the eight lanes.
pub type LaneTable = [[bool; 8]; 1000];

/// The places found so far, in the order in which they were found, and how many of them count in
/// each lane. It serves for one place after the other.
#[derive(Drop)]
pub struct Walk {
    seen: [bool; 1000],
    queue: [u16; 1000],
    found: usize,
    counts: [u8; 8],
}

/// The words for the distances 1 to 4 of a place, from 1 to the number of atoms: lane i of word k
/// counts the places within distance k that `lanes` has in lane i, and stops at 255. It needs a walk
/// to work with, whatever that was. It costs the size of the neighbourhood within distance 4, and to
/// clear the flags of 1000 places.
pub fn near_words(graph: &Adjacency, lanes: &LaneTable, walk: &mut Walk, place: u16) -> [u64; 4]
    requires valid { IsGraph graph.now }
    requires some { 1 ≤ place }
    requires within { place ≤ graph.now.atoms }
    ensures { result ≡ near_list graph.now lanes.now place }
{
    walk.clear();
    walk.visit(lanes, place);
    let mut words = [0; 4];
    let mut head = 0;
    for k in 0..4 {
        let found = walk.found;
        walk.widen(graph, lanes, head);
        head = found;
        words[k] = walk.word();
    }
    words
}

impl Walk {
    /// One that has found no place.
    pub fn new() -> Walk
        ensures { IsEmptyWalk result }
    {
        Walk {
            seen: [false; 1000],
            queue: [0; 1000],
            found: 0,
            counts: [0; 8],
        }
    }

    // Forgets the places found. The queue keeps what stands past its end.
    fn clear(&mut self)
        ensures { IsEmptyWalk self.new }
    {
        self.seen = [false; 1000];
        self.found = 0;
        self.counts = [0; 8];
    }

    // Goes one bond further from the places found last, those from `head` on.
    fn widen(&mut self, graph: &Adjacency, lanes: &LaneTable, head: usize)
        requires walk { IsWalk graph.now lanes.now self.old }
        requires head { head ≤ self.old.found }
        ensures walk { IsWalk graph.now lanes.now self.new }
        ensures later { IsLater self.old self.new }
        ensures level { (x k : ℕ) → IsLevel graph.now self.old x k head
            → IsLevel graph.now self.new x (k + 1) self.old.found }
    {
        for index in head..self.found {
            self.explore(graph, lanes, index);
        }
    }

    // Visits the places that bonds join to the one at `index` of the queue.
    fn explore(&mut self, graph: &Adjacency, lanes: &LaneTable, index: usize)
        requires walk { IsWalk graph.now lanes.now self.old }
        requires within { index < self.old.found }
        ensures walk { IsWalk graph.now lanes.now self.new }
        ensures later { IsLater self.old self.new }
        ensures explored { IsExplored graph.now self.new (slice_index self.old.queue index) }
        ensures spread { IsSpread graph.now (slice_index self.old.queue index) self.old self.new }
    {
        let place = self.queue[index];
        let mut link = graph.last_link(place);
        while link != 0 {
            let next = other_end(graph.bonds()[(link as usize - 1) / 2], place);
            self.reach(lanes, next);
            link = graph.link_before(link);
        }
    }

    // Visits the place unless it has been seen.
    fn reach(&mut self, lanes: &LaneTable, place: u16)
        requires place { place < 1000 }
        requires room { self.old.found < 1000 }
        ensures { IsReach lanes.now place self.old self.new }
    {
        if !self.seen[place as usize] {
            self.visit(lanes, place);
        }
    }

    // Puts an unseen place at the end of the queue and counts it.
    fn visit(&mut self, lanes: &LaneTable, place: u16)
        requires place { place < 1000 }
        requires room { self.old.found < 1000 }
        ensures { IsVisit lanes.now place self.old self.new }
    {
        self.seen[place as usize] = true;
        self.queue[self.found] = place;
        self.found += 1;
        tally(&mut self.counts, lanes[place as usize]);
    }

    // The word of the counts.
    fn word(&self) -> u64
        ensures { result ≡ from_le_bytes w64 self.now.counts }
    {
        u64::from_le_bytes(self.counts)
    }
}

// One more in each of these lanes.
fn tally(counts: &mut [u8; 8], lanes: [bool; 8])
    ensures { IsTallied lanes counts.old counts.new }
{
    for lane in 0..8 {
        counts[lane] = counts[lane].saturating_add(u8::from(lanes[lane]));
    }
}

// The place that these ends join x to.
fn other_end(ends: Ends, x: u16) -> u16
    ensures first { ends.first ≡ x → result ≡ ends.second }
    ensures second { (ends.first ≡ x → ⊥) → result ≡ ends.first }
{
    if ends.first == x {
        ends.second
    } else {
        ends.first
    }
}
