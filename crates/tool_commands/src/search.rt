// A search of records that come one after the other, under one budget for all of them.
ghost use Rattle.std.specs.Prelude.{◌≡◌, ℕ, ◌+◌, ◌-◌, ◌^◌, ◌<◌, ◌≤◌, ◌++◌, ◌∷◌, List, [], Some, length, OnOk};
ghost use Rattle.htss_defs.specs.declared.record.NamedMol.{NamedMol};
ghost use Rattle.htss_defs.specs.Marked.{IsMarked, unmarked_molecule};
ghost use Rattle.htss_defs.specs.Molecule.{Molecule, molecule_graph};
ghost use Rattle.htss_defs.specs.History.{publications};
ghost use Rattle.htss_defs.specs.Reply.{Reply, IsReply};
ghost use Rattle.htss_defs.specs.Screened.{IsScreened};
ghost use Rattle.command_ends.specs.FindText.{reply_text};
ghost use Rattle.tool_commands.specs.Searches.{HitsHold, SearchHolds};

use arrayvec::ArrayVec;
use hit_report::{push_count, push_hit, push_overbudget};
use htss_defs::{Adjacency, Mol, Name, OutOfMemory, Query};
use ring_bonds::RingMarker;
use screen::{Found, Screener};
use std::alloc::Global;

/// A search for a query. Records are screened by the codes of their atoms first. Once the budget is spent none is
/// searched any more, and the answer is that the budget does not allow one.
#[derive(Drop)]
pub struct Search<'a> {
    matcher: Screener<'a>,
    // what the ring bonds are marked in of each record that has an element for the pivot
    marker: RingMarker,
    map: ArrayVec<u16, 64>,
    budget: u64,
    // of the budget, `None` once it is spent
    left: Option<u64>,
    // the lines of the hits
    lines: Vec<u8>,
    // the hits
    count: u32,
    // the records
    number: u32,
    ghost counted: { count ≤ number },
}

impl<'a> Search<'a> {
    /// No record was taken.
    pub fn new(alloc: Global, query: &'a Query, budget: u64) -> Search<'a>
        ensures holds { SearchHolds query.now budget result.left result.lines.items result.count [] }
        ensures asked { result.matcher ≡ query.now }
        ensures budget { result.budget ≡ budget }
        ensures number { result.number ≡ 0 }
    {
        Search {
            matcher: Screener::new(query),
            marker: RingMarker::new(),
            map: ArrayVec::new(),
            budget,
            left: Some(budget),
            lines: Vec::new(alloc),
            count: 0,
            number: 0,
        }
    }

    /// Takes the next record, its bonds unmarked, with its graph. They are marked where it has an element for the
    /// pivot: no other record is searched.
    pub fn take(&mut self, name: &Name, mol: Mol, graph: &Adjacency) -> Result<(), OutOfMemory>
        requires room { self.old.number < 2 ^ 32 - 1 }
        requires graph { graph.now ≡ molecule_graph mol }
        ensures number { self.new.number ≡ self.old.number + 1 }
        ensures asked { self.new.matcher ≡ self.old.matcher }
        ensures budget { self.new.budget ≡ self.old.budget }
        ensures holds { OnOk result ((records : List NamedMol) → length records ≡ self.old.number
            → (marked : Molecule) → IsMarked marked → unmarked_molecule marked ≡ unmarked_molecule mol
            → SearchHolds self.old.matcher self.old.budget self.old.left self.old.lines.items self.old.count records
            → SearchHolds self.old.matcher self.old.budget self.new.left self.new.lines.items self.new.count
            (records ++ record { name = name.now; mol = marked } ∷ [])) }
    {
        self.number += 1;
        let Some(left) = self.left else {
            return Ok(());
        };
        // that the molecule keeps its rules, for the law
        let _atoms = mol.atoms();
        if !self.matcher.allows(&mol) {
            return Ok(());
        }
        let mut mol = mol;
        self.marker.mark(&mut mol, graph);
        if !self.matcher.screens(&mol) {
            return Ok(());
        }
        self.search(left, name, &mol)
    }

    // Searches a record that is screened, with what is left of the budget.
    fn search(&mut self, left: u64, name: &Name, mol: &Mol) -> Result<(), OutOfMemory>
        requires room { self.old.count < self.old.number }
        requires marked { IsMarked mol.now }
        requires screened { IsScreened self.old.matcher mol.now }
        ensures number { self.new.number ≡ self.old.number }
        ensures asked { self.new.matcher ≡ self.old.matcher }
        ensures budget { self.new.budget ≡ self.old.budget }
        ensures holds { OnOk result ((records : List NamedMol) → self.old.number ≡ length records + 1
            → HitsHold self.old.matcher self.old.budget left self.old.lines.items self.old.count records
            → SearchHolds self.old.matcher self.old.budget self.new.left self.new.lines.items self.new.count
            (records ++ record { name = name.now; mol = mol.now } ∷ [])) }
    {
        let mut left = left;
        match self.matcher.least_map(mol, &mut left, &mut self.map) {
            Found::Yes => {
                let map = self.map.as_slice();
                push_hit(&mut self.lines, self.number, map, name.bytes())?;
                self.count += 1;
                self.left = Some(left);
                Ok(())
            }
            Found::No => {
                self.left = Some(left);
                Ok(())
            }
            Found::Spent => {
                self.left = None;
                self.lines.clear();
                Ok(())
            }
        }
    }

    /// Appends the text of the hits, or the line that stands in their place.
    pub fn push_text(self, text: &mut Vec<u8>) -> Result<(), OutOfMemory>
        ensures { OnOk result ((records : List NamedMol)
            → SearchHolds self.entry.matcher self.entry.budget self.entry.left self.entry.lines.items self.entry.count records
            → (reply : Reply) × IsReply self.entry.matcher self.entry.budget (publications records) reply
            × (text.new.items ≡ text.old.items ++ reply_text self.entry.budget reply)) }
    {
        let Search {
            budget,
            left,
            mut lines,
            count,
            ..
        } = self;
        match left {
            Some(_) => {
                push_count(&mut lines, count)?;
                text.extend_from_slice(&lines)?;
                Ok(())
            }
            None => push_overbudget(text, budget),
        }
    }
}
