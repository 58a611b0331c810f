// A map of the first atoms of a query, as the search goes on.
ghost use Rattle.std.specs.Prelude.{◌≡◌, ◌<◌, ◌≤◌, ◌-◌, ◌∷◌, ◌++◌, [], ◌==◌, false, length, take};
ghost use Rattle.std.specs.List.{list_any};

use crate::places::PlaceSet;
use arrayvec::ArrayVec;
use std::marker::Model;

/// Different places, and a flag for each that is taken: contracts see the list.
#[derive(Drop)]
pub struct Placed {
    map: ArrayVec<u16, 64>,
    taken: PlaceSet,
}

impl Model for Placed {
    ghost use Rattle.std.specs.Prelude.{List, ℕ};
    ghost use Rattle.embed.specs.Places.{AreTaken};

    ghost Value = { List ℕ };

    ghost view = { λ a. a.map.items };

    ghost invariant = { λ a. AreTaken a.map.items a.taken.words };
}

impl Placed {
    /// No place.
    pub fn new() -> Placed
        ensures { result ≡ [] }
    {
        Placed {
            map: ArrayVec::new(),
            taken: PlaceSet::new(),
        }
    }

    /// The places, in the order of the query's atoms.
    pub fn as_slice(&self) -> &[u16]
        ensures { result.now ≡ self.now }
    {
        self.map.as_slice()
    }

    /// Writes the places into an empty map.
    pub fn write_to(&self, map: &mut ArrayVec<u16, 64>)
        requires { map.old.items ≡ [] }
        ensures { map.new.items ≡ self.now }
    {
        map.try_extend_from_slice(self.map.as_slice()).unwrap();
    }

    /// How many places there are.
    pub fn len(&self) -> usize
        ensures value { result ≡ length self.now }
        ensures fits { result ≤ 64 }
    {
        self.map.len()
    }

    /// Whether the place is taken.
    pub fn has(&self, p: u16) -> bool
        ensures { result ≡ list_any (λ x. x == p) self.now }
    {
        p < 1024 && self.taken.has(p)
    }

    /// Puts the next atom at a free place.
    pub fn push(&mut self, p: u16)
        requires room { length self.old < 64 }
        requires within { p < 1024 }
        requires free { list_any (λ x. x == p) self.old ≡ false }
        ensures { self.new ≡ self.old ++ p ∷ [] }
    {
        self.map.push(p);
        self.taken.insert(p);
    }

    /// Takes the last atom off its place.
    pub fn pop(&mut self)
        ensures { self.new ≡ take (length self.old - 1) self.old }
    {
        if let Some(p) = self.map.pop() {
            self.taken.remove(p);
        }
    }
}
