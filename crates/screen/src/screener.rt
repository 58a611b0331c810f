ghost use Rattle.std.specs.Prelude.{◌≡◌, ◌≢◌, ◌↔◌, ℕ, ◌<◌, ◌≤◌, [], length, true, false, Some, None};
ghost use Rattle.htss_defs.specs.Marked.{IsMarked, unmarked_molecule};
ghost use Rattle.htss_defs.specs.Molecule.{Molecule, IsMolecule};
ghost use Rattle.htss_defs.specs.Embedding.{IsLeastEmbedding, NoEmbedding};
ghost use Rattle.htss_defs.specs.Screened.{IsScreened};
ghost use Rattle.htss_defs.specs.Cost.{cost};
ghost use Rattle.embed.specs.Paid.{Paid};
ghost use Rattle.screen.specs.Losing.{LosesNone};

use arrayvec::ArrayVec;
use embed::{Found, Matcher};
use env_code::Coder;
use env_cover::{Needs, allows_some, has_cover, law_of_cover};
use htss_defs::{Mol, Need, Query};
use std::marker::Model;

/// A query that is asked of many molecules: contracts see the query. A molecule is screened where the codes of one of
/// its atoms cover the need of the query's pivot; no other one has an embedding. It takes no memory.
#[derive(Drop)]
pub struct Screener<'a> {
    matcher: Matcher<'a>,
    // of the molecule at hand
    coder: Coder,
    // the atom of the query that is looked for first
    pivot: u16,
    // of the pivot
    need: Need,
}

impl<'a> Model for Screener<'a> {
    ghost use Rattle.htss_defs.specs.QueryGraph.{QueryGraph};
    ghost use Rattle.env_cover.specs.Screening.{Screens};

    ghost Value = { QueryGraph };

    ghost view = { λ s. s.matcher };

    ghost invariant = { λ s. Screens s.matcher s.pivot s.need };
}

impl<'a> Screener<'a> {
    /// Makes ready for the query.
    pub fn new(query: &'a Query) -> Screener<'a>
        ensures { result ≡ query.now }
    {
        // that the query keeps its rules and is marked, for the law
        let _bonds = query.bonds();
        law_of_cover();
        let needs = Needs::new(query);
        let pivot = needs.pivot();
        Screener {
            matcher: Matcher::new(query),
            coder: Coder::new(),
            pivot,
            need: needs.need(pivot),
        }
    }

    /// That no other molecule than those that are screened has an embedding.
    pub fn law_of_screening(&self)
        ensures { LosesNone self.now }
    {
        // that it screens, for the law
        let _need = &self.need;
    }

    /// Whether the molecule has an atom of an element that the pivot allows, whatever its ring bonds are marked as. Where
    /// it has none it need not be marked: it is not screened.
    pub fn allows(&self, mol: &Mol) -> bool
        ensures none { result ≡ false → (marked : Molecule) → IsMolecule marked → IsMarked marked
            → unmarked_molecule marked ≡ unmarked_molecule mol.now
            → (IsScreened self.now marked → ⊥) × NoEmbedding self.now marked }
    {
        allows_some(&self.need, mol)
    }

    /// Whether the molecule is screened: exactly where the codes of some atom cover the need of the pivot. Where none has
    /// an element for it, none is coded; else it ends at the first atom that covers. The bonds of the molecule are marked.
    pub fn screens(&mut self, mol: &Mol) -> bool
        requires marked { IsMarked mol.now }
        ensures screened { result ≡ true → IsScreened self.old mol.now }
        ensures unscreened { result ≡ false → IsScreened self.old mol.now → ⊥ }
        ensures none { result ≡ false → NoEmbedding self.old mol.now }
        ensures same { self.new ≡ self.old }
    {
        has_cover(&mut self.coder, &self.need, mol)
    }

    /// The least embedding of the query, as `Matcher::first_map`.
    pub fn first_map(&mut self, mol: &Mol, map: &mut ArrayVec<u16, 64>) -> bool
        requires marked { IsMarked mol.now }
        ensures least { result ≡ true → IsLeastEmbedding self.old mol.now map.new.items }
        ensures none { result ≡ false → NoEmbedding self.old mol.now }
        ensures empty { result ≡ false → map.new.items ≡ [] }
        ensures same { self.new ≡ self.old }
    {
        self.matcher.first_map(mol, map)
    }

    /// The least embedding of the query, unless the budget is spent before it is found or known that there is none, as
    /// `Matcher::least_map`.
    pub fn least_map(&mut self, mol: &Mol, budget: &mut u64, map: &mut ArrayVec<u16, 64>) -> Found
        requires marked { IsMarked mol.now }
        ensures yes { result ≡ Found.Yes → IsLeastEmbedding self.old mol.now map.new.items }
        ensures no { result ≡ Found.No → NoEmbedding self.old mol.now }
        ensures spent { result ≡ Found.Spent → budget.old < cost self.old mol.now [] }
        ensures left { result ≡ Found.Spent → budget.new ≡ 0 }
        ensures paid { let cost = cost self.old mol.now [] in
            result ≢ Found.Spent → Paid (length mol.now.atoms) cost budget.old budget.new }
        ensures empty { result ≢ Found.Yes → map.new.items ≡ [] }
        ensures same { self.new ≡ self.old }
    {
        self.matcher.least_map(mol, budget, map)
    }

    /// The cost of the query in the molecule, where it is at most the limit, as `Matcher::cost_of`.
    pub fn cost_of(&mut self, mol: &Mol, limit: u64) -> Option<u64>
        requires marked { IsMarked mol.now }
        ensures some { (c : ℕ) → result ≡ Some c ↔ ((c ≡ cost self.old mol.now []) × (c ≤ limit)) }
        ensures none { result ≡ None ↔ (limit < cost self.old mol.now []) }
        ensures same { self.new ≡ self.old }
    {
        self.matcher.cost_of(mol, limit)
    }
}
