ghost use Rattle.std.specs.Prelude.{◌≡◌, ◌≢◌, ◌↔◌, ℕ, ◌<◌, ◌≤◌, [], length, true, false, Some, None};
ghost use Rattle.htss_defs.specs.Marked.{IsMarked};
ghost use Rattle.htss_defs.specs.Embedding.{IsLeastEmbedding, NoEmbedding};
ghost use Rattle.htss_defs.specs.Cost.{cost};
ghost use Rattle.embed.specs.Paid.{Paid};

use crate::count::count;
use crate::placed::Placed;
use crate::plan::plan_of;
use crate::search::{Found, search};
use crate::target::Target;
use arrayvec::ArrayVec;
use htss_defs::{Adjacency, Mol, Query};
use std::marker::Model;

/// A query that is asked of many molecules: contracts see the query. It takes no memory.
#[derive(Drop)]
pub struct Matcher<'a> {
    query: &'a Query,
    asked: Adjacency,
    plan: [u16; 64],
    // of the molecule at hand
    bonds: Adjacency,
}

impl<'a> Model for Matcher<'a> {
    ghost use Rattle.std.specs.Prelude.{◌≡◌};
    ghost use Rattle.htss_defs.specs.QueryGraph.{QueryGraph, IsQuery, query_shape};
    ghost use Rattle.embed.specs.Anchors.{IsPlan};

    ghost Value = { QueryGraph };

    ghost view = { λ a. a.query.now };

    ghost invariant = { λ a. IsQuery a.query.now × (a.asked ≡ query_shape a.query.now)
        × IsPlan a.query.now a.asked a.plan };
}

impl<'a> Matcher<'a> {
    /// Makes ready for the query.
    pub fn new(query: &'a Query) -> Matcher<'a>
        ensures { result ≡ query.now }
    {
        let mut asked = Adjacency::new();
        query.link(&mut asked);
        let plan = plan_of(query, &asked);
        Matcher {
            query,
            asked,
            plan,
            bonds: Adjacency::new(),
        }
    }

    /// Answers true with the least embedding of the query, or false with an empty map exactly where
    /// there is none. The bonds of the molecule are marked.
    pub fn first_map(&mut self, mol: &Mol, map: &mut ArrayVec<u16, 64>) -> bool
        requires marked { IsMarked mol.now }
        ensures least { result ≡ true → IsLeastEmbedding self.old mol.now map.new.items }
        ensures none { result ≡ false → NoEmbedding self.old mol.now }
        ensures empty { result ≡ false → map.new.items ≡ [] }
        ensures same { self.new ≡ self.old }
    {
        mol.link(&mut self.bonds);
        let target = Target {
            query: self.query,
            asked: &self.asked,
            plan: &self.plan,
            mol,
            bonds: &self.bonds,
            price: 0,
        };
        map.clear();
        let mut placed = Placed::new();
        // a search that pays nothing is never spent
        match search(&target, &mut 0, &mut placed) {
            Found::Yes => {
                placed.write_to(map);
                true
            }
            Found::No => false,
            Found::Spent => unreachable!(),
        }
    }

    /// The least embedding of the query, unless the budget is spent before it is found or known that
    /// there is none: only where the cost exceeds the budget. The map is empty where the answer is
    /// not `Yes`. The bonds of the molecule are marked.
    pub fn least_map(&mut self, mol: &Mol, budget: &mut u64, map: &mut ArrayVec<u16, 64>) -> Found
        requires marked { IsMarked mol.now }
        ensures yes { result ≡ Found.Yes → IsLeastEmbedding self.old mol.now map.new.items }
        ensures no { result ≡ Found.No → NoEmbedding self.old mol.now }
        ensures spent { result ≡ Found.Spent → budget.old < cost self.old mol.now [] }
        ensures left { result ≡ Found.Spent → budget.new ≡ 0 }
        ensures paid { let cost = cost self.old mol.now [] in
            result ≢ Found.Spent → Paid (length mol.now.atoms) cost budget.old budget.new }
        ensures empty { result ≢ Found.Yes → map.new.items ≡ [] }
        ensures same { self.new ≡ self.old }
    {
        mol.link(&mut self.bonds);
        let target = Target {
            query: self.query,
            asked: &self.asked,
            plan: &self.plan,
            mol,
            bonds: &self.bonds,
            price: mol.atoms().len() as u64,
        };
        map.clear();
        let mut placed = Placed::new();
        let found = search(&target, budget, &mut placed);
        if found == Found::Yes {
            placed.write_to(map);
        }
        found
    }

    /// The cost of the query in the molecule, where it is at most the limit. The bonds of the molecule are marked.
    pub fn cost_of(&mut self, mol: &Mol, limit: u64) -> Option<u64>
        requires marked { IsMarked mol.now }
        ensures some { (c : ℕ) → result ≡ Some c ↔ ((c ≡ cost self.old mol.now []) × (c ≤ limit)) }
        ensures none { result ≡ None ↔ (limit < cost self.old mol.now []) }
        ensures same { self.new ≡ self.old }
    {
        mol.link(&mut self.bonds);
        let target = Target {
            query: self.query,
            asked: &self.asked,
            plan: &self.plan,
            mol,
            bonds: &self.bonds,
            price: mol.atoms().len() as u64,
        };
        let mut left = limit;
        let mut map = Placed::new();
        if count(&target, &mut left, &mut map) {
            Some(limit - left)
        } else {
            None
        }
    }
}

/// The cost of the query in the molecule, where it is at most the limit. The bonds of the molecule are marked.
pub fn cost_of(query: &Query, mol: &Mol, limit: u64) -> Option<u64>
    requires marked { IsMarked mol.now }
    ensures some { (c : ℕ) → result ≡ Some c ↔ ((c ≡ cost query.now mol.now []) × (c ≤ limit)) }
    ensures none { result ≡ None ↔ (limit < cost query.now mol.now []) }
{
    Matcher::new(query).cost_of(mol, limit)
}

/// Answers true with the least embedding of the query in the molecule, or false with an empty map
/// exactly where there is none. The bonds of the molecule are marked.
pub fn first_map(query: &Query, mol: &Mol, map: &mut ArrayVec<u16, 64>) -> bool
    requires marked { IsMarked mol.now }
    ensures least { result ≡ true → IsLeastEmbedding query.now mol.now map.new.items }
    ensures none { result ≡ false → NoEmbedding query.now mol.now }
    ensures empty { result ≡ false → map.new.items ≡ [] }
{
    Matcher::new(query).first_map(mol, map)
}

/// The least embedding of the query in the molecule, unless the budget is spent before it is found
/// or known that there is none: only where the cost exceeds the budget. The map is empty where the
/// answer is not `Yes`. The bonds of the molecule are marked.
pub fn least_map(query: &Query, mol: &Mol, budget: &mut u64, map: &mut ArrayVec<u16, 64>) -> Found
    requires marked { IsMarked mol.now }
    ensures yes { result ≡ Found.Yes → IsLeastEmbedding query.now mol.now map.new.items }
    ensures no { result ≡ Found.No → NoEmbedding query.now mol.now }
    ensures spent { result ≡ Found.Spent → budget.old < cost query.now mol.now [] }
    ensures left { result ≡ Found.Spent → budget.new ≡ 0 }
    ensures paid { let cost = cost query.now mol.now [] in
        result ≢ Found.Spent → Paid (length mol.now.atoms) cost budget.old budget.new }
    ensures empty { result ≢ Found.Yes → map.new.items ≡ [] }
{
    Matcher::new(query).least_map(mol, budget, map)
}
