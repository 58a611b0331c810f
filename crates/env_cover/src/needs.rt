ghost use Rattle.std.specs.Prelude.{◌≡◌, ◌≤◌, ◌<◌, length, leb, map};
ghost use Rattle.htss_defs.specs.Needs.{need_at, surely_in, surely_of_kind};
ghost use Rattle.htss_defs.specs.Screened.{IsPivot, lane_sum, weight};
ghost use Rattle.env_code.specs.BondCounts.{AreBondCounts};
ghost use Rattle.env_code.specs.Near.{HasLanes, lane_row};
ghost use Rattle.env_cover.specs.Sure.{sure_bond};

use crate::sure::{sure_bond, surely_of_kind};
use env_code::{BondCounts, LaneTable, Walk, near_words};
use htss_defs::{Adjacency, AtomTest, Need, Query};
use std::marker::Model;

/// A query whose needs are asked: contracts see the query. It takes no memory.
#[derive(Drop)]
pub struct Needs<'a> {
    query: &'a Query,
    bonds: Adjacency,
    counts: BondCounts,
    lanes: LaneTable,
}

impl<'a> Model for Needs<'a> {
    ghost use Rattle.htss_defs.specs.QueryGraph.{QueryGraph};
    ghost use Rattle.env_cover.specs.Sure.{AreNeeds};

    ghost Value = { QueryGraph };

    ghost view = { λ n. n.query.now };

    ghost invariant = { λ n. AreNeeds n.query.now n.bonds n.counts n.lanes };
}

impl<'a> Needs<'a> {
    /// Makes ready for the query, at the cost of its atoms and bonds.
    pub fn new(query: &'a Query) -> Needs<'a>
        ensures { result ≡ query.now }
    {
        let mut bonds = Adjacency::new();
        query.link(&mut bonds);
        let counts = bond_counts(query);
        let lanes = lanes_of(query, &counts);
        Needs {
            query,
            bonds,
            counts,
            lanes,
        }
    }

    /// The need of the atom at a place, from 1 to the number of atoms, at the cost of its
    /// neighbourhood within distance 4.
    pub fn need(&self, atom: u16) -> Need
        requires some { 1 ≤ atom }
        requires within { atom ≤ length self.now.atoms }
        ensures { result ≡ need_at self.now atom }
    {
        let mut walk = Walk::new();
        self.need_by(&mut walk, atom)
    }

    // The need, by a walk to work with, whatever that was.
    fn need_by(&self, walk: &mut Walk, atom: u16) -> Need
        requires some { 1 ≤ atom }
        requires within { atom ≤ length self.now.atoms }
        ensures { result ≡ need_at self.now atom }
    {
        let test = self.query.atoms()[atom as usize - 1].test;
        let own = self.counts.word(atom, 0);
        let near = near_words(&self.bonds, &self.lanes, walk, atom);
        Need {
            test,
            words: [own, near[0], near[1], near[2], near[3]],
        }
    }

    /// The atom whose need has the greatest sum of lanes of code 4, the first of several: it is
    /// looked for first. It costs the needs of all atoms.
    pub fn pivot(&self) -> u16
        ensures { IsPivot self.now result }
    {
        let atoms = self.query.atoms().len() as u16;
        let mut walk = Walk::new();
        let mut pivot = 1;
        let mut greatest = self.weight(&mut walk, 1);
        for atom in 2..atoms + 1 {
            let weight = self.weight(&mut walk, atom);
            if weight > greatest {
                pivot = atom;
                greatest = weight;
            }
        }
        pivot
    }

    fn weight(&self, walk: &mut Walk, atom: u16) -> u64
        requires some { 1 ≤ atom }
        requires within { atom ≤ length self.now.atoms }
        ensures { result ≡ weight self.now atom }
    {
        lane_sum(self.need_by(walk, atom).words[4])
    }
}

/// The need of the atom at a place, from 1 to the number of atoms. It takes no memory, and costs the
/// atoms and bonds of the query: `Needs` serves for more than one atom.
pub fn need_of(query: &Query, atom: u16) -> Need
    requires some { 1 ≤ atom }
    requires within { atom ≤ length query.now.atoms }
    ensures { result ≡ need_at query.now atom }
{
    Needs::new(query).need(atom)
}

/// The atom whose need has the greatest sum of lanes of code 4, the first of several. It takes no
/// memory, and costs the needs of all atoms.
pub fn pivot(query: &Query) -> u16
    ensures { IsPivot query.now result }
{
    Needs::new(query).pivot()
}

fn bond_counts(query: &Query) -> BondCounts
    ensures { AreBondCounts (map sure_bond query.now.bonds) result }
{
    let mut counts = BondCounts::new();
    for bond in query.bonds() {
        counts.add(sure_bond(*bond));
    }
    counts
}

// The lanes in which each atom surely counts.
fn lanes_of(query: &Query, counts: &BondCounts) -> LaneTable
    requires { AreBondCounts (map sure_bond query.now.bonds) counts.now }
    ensures { HasLanes (surely_in query.now) (length query.now.atoms) result }
{
    let mut lanes = [[false; 8]; 1000];
    for (index, atom) in query.atoms().iter().enumerate() {
        lanes[index + 1] = lanes_of_atom(atom.test, counts.degree[index + 1]);
    }
    lanes
}

fn lanes_of_atom(test: AtomTest, degree: u8) -> [bool; 8]
    ensures { result ≡ lane_row (surely_of_kind test) (leb 3 degree) }
{
    [
        true,
        surely_of_kind(test, 1),
        surely_of_kind(test, 2),
        surely_of_kind(test, 3),
        surely_of_kind(test, 4),
        surely_of_kind(test, 5),
        surely_of_kind(test, 6),
        degree >= 3,
    ]
}

// The sum of the lanes of a word.
fn lane_sum(word: u64) -> u64
    ensures { result ≡ lane_sum word }
{
    let mut sum = 0;
    for lane in word.to_le_bytes() {
        sum += u64::from(lane);
    }
    sum
}
