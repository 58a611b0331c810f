// The bonds at each place of a graph, in arrays of a fixed size.
ghost use Rattle.std.specs.Prelude.{◌≡◌, ℕ, ◌*◌, ◌<◌, ◌≤◌, ◌↔◌, [], true, false, length};
ghost use Rattle.std.specs.Prelude.{All, IsTrue, IfSome, IfNone};
ghost use Rattle.htss_defs.specs.Graph.{AreEnds, AreApart, joins};
ghost use Rattle.htss_defs.specs.Adjacency.{IsGraph, JoinsAt, IsLastLink, IsLinkBefore, with_bond};

use crate::graph::{Ends, joins};
use arrayvec::ArrayVec;
use std::marker::Model;

/// A graph of at most 999 atoms and 999 bonds, with the bonds at each place in a chain: it takes
/// no memory. Contracts see the number of atoms and the list of bonds.
///
/// A chain is walked by links, from the last. A link names an end of a bond, and 0 names none. The
/// bond of a link is `(link - 1) / 2`, counted from 0.
#[derive(Drop)]
pub struct Adjacency {
    atoms: u16,
    ends: ArrayVec<Ends, 999>,
    // the last link at each place
    last: [u16; 1000],
    // the link before each end, at the same place
    before: [u16; 1998],
    // the length of each chain, by which the shorter is chosen
    degree: [u16; 1000],
}

impl Model for Adjacency {
    ghost use Rattle.htss_defs.specs.Graph.{Graph};
    ghost use Rattle.htss_defs.specs.Adjacency.{IsAdjacency};

    ghost Value = { Graph };

    ghost view = { λ a. record { atoms = a.atoms; bonds = a.ends.items } };

    ghost invariant = { λ a. IsAdjacency a.atoms a.ends.items a.last a.before };
}

impl Adjacency {
    /// A graph of no atoms.
    pub fn new() -> Adjacency
        ensures { result ≡ record { atoms = 0; bonds = [] } }
    {
        Adjacency {
            atoms: 0,
            ends: ArrayVec::new(),
            last: [0; 1000],
            before: [0; 1998],
            degree: [0; 1000],
        }
    }

    /// Makes it a graph of so many atoms and no bonds, at the cost of the number of atoms.
    pub fn restart(&mut self, atoms: u16)
        requires { atoms ≤ 999 }
        ensures { self.new ≡ record { atoms = atoms; bonds = [] } }
    {
        self.atoms = atoms;
        self.ends.clear();
        for x in 0..atoms as usize + 1 {
            self.last[x] = 0;
            self.degree[x] = 0;
        }
    }

    /// Adds a bond after the others.
    pub fn add(&mut self, ends: Ends)
        requires ends { AreEnds self.old.atoms ends }
        requires room { length self.old.bonds < 999 }
        ensures { self.new ≡ with_bond self.old ends }
    {
        let end = 2 * self.ends.len();
        let first = ends.first as usize;
        let second = ends.second as usize;
        self.before[end] = self.last[first];
        self.last[first] = end as u16 + 1;
        self.before[end + 1] = self.last[second];
        self.last[second] = end as u16 + 2;
        self.degree[first] = self.degree[first].saturating_add(1);
        self.degree[second] = self.degree[second].saturating_add(1);
        self.ends.push(ends);
    }

    /// Adds a bond unless one joins its places already, and answers whether it did.
    pub fn add_new(&mut self, ends: Ends) -> bool
        requires ends { AreEnds self.old.atoms ends }
        requires room { length self.old.bonds < 999 }
        ensures apart { IsTrue result ↔ All (λ e. AreApart e ends) self.old.bonds }
        ensures added { result ≡ true → self.new ≡ with_bond self.old ends }
        ensures same { result ≡ false → self.new ≡ self.old }
    {
        if self.find(ends.first, ends.second).is_some() {
            return false;
        }
        self.add(ends);
        true
    }

    /// The number of atoms.
    pub fn atoms(&self) -> u16
        ensures atoms { result ≡ self.now.atoms }
        ensures valid { IsGraph self.now }
    {
        self.atoms
    }

    /// The bonds.
    pub fn bonds(&self) -> &[Ends]
        ensures items { result.now ≡ self.now.bonds }
        ensures valid { IsGraph self.now }
    {
        self.ends.as_slice()
    }

    /// A bond that joins the two places, counted from 0, or `None` exactly where there is none. It
    /// walks the shorter of the two chains.
    pub fn find(&self, x: u16, y: u16) -> Option<u16>
        ensures some { IfSome result (λ k. JoinsAt self.now k x y) }
        ensures none { IfNone result (All (λ e. joins e x y ≡ false) self.now.bonds) }
    {
        if x > self.atoms || y > self.atoms {
            return None;
        }
        if self.degree[x as usize] <= self.degree[y as usize] {
            self.find_from(x, y)
        } else {
            self.find_from(y, x)
        }
    }

    // Walks the chain at x.
    fn find_from(&self, x: u16, y: u16) -> Option<u16>
        requires { x ≤ self.now.atoms }
        ensures some { IfSome result (λ k. JoinsAt self.now k x y) }
        ensures none { IfNone result (All (λ e. joins e x y ≡ false) self.now.bonds) }
    {
        let bonds = self.bonds();
        let mut link = self.last_link(x);
        while link != 0 {
            let k = (link - 1) / 2;
            if joins(bonds[k as usize], x, y) {
                return Some(k);
            }
            link = self.link_before(link);
        }
        None
    }

    /// The last link at place x.
    pub fn last_link(&self, x: u16) -> u16
        requires { x ≤ self.now.atoms }
        ensures { IsLastLink self.now.bonds x (2 * length self.now.bonds) result }
    {
        self.last[x as usize]
    }

    /// The link before this one, at the same place.
    pub fn link_before(&self, link: u16) -> u16
        requires some { 0 < link }
        requires within { link ≤ 2 * length self.now.bonds }
        ensures { IsLinkBefore self.now.bonds link result }
    {
        self.before[link as usize - 1]
    }
}
