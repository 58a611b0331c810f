// The draft of a query.
ghost use Rattle.std.specs.Prelude.{◌≡◌, ◌≤◌, ◌<◌, ℕ, List, Option, Some, None, length, refl, is_some, nat_lt};
ghost use Rattle.std.specs.Prelude.{OnOk, IfErr, if◌then◌else◌};
ghost use Rattle.std.specs.List.{list_all};
ghost use Rattle.std.proofs.Common.{ap};
ghost use Rattle.htss_defs.specs.Graph.{Graph};
ghost use Rattle.mol_section.specs.SectionLines.{atom_count};
ghost use Rattle.mol_section.specs.Walk.{Takes, Stops};
ghost use Rattle.mol_section.specs.declared.draft.Part.TheVariants.{Atom as AtomLine, Bond as BondLine};
ghost use Rattle.mol_section.specs.declared.draft.Part.TheVariants.{List as ListLine, Property as PropertyLine};
ghost use Rattle.query_mol.specs.QueryRecord.{query_kind_refusal};
ghost use Rattle.query_mol.specs.QueryKept.{KeepsQuery};

use crate::atoms::atom_of;
use crate::bonds::bond_of;
use crate::properties::{take_new_list, take_old_list};
use htss_defs::{Adjacency, Atom, AtomTest, QueryBond};
use mol_section::{Counts, Draft, Part, Stop, take_property};
use std::alloc::Global;

/// The atoms of a query, their tests, none where an atom waits for its list, and its bonds; `aside`: the charges of the
/// atom block are set aside.
#[derive(Drop)]
pub struct QueryDraft {
    pub atoms: Vec<Atom>,
    pub tests: Vec<Option<AtomTest>>,
    pub bonds: Vec<QueryBond>,
    pub aside: bool,
}

impl Draft for QueryDraft {
    ghost refusals = { query_kind_refusal };

    ghost holds = { λ q. KeepsQuery q.atoms.items q.tests.items q.bonds.items q.aside };

    fn start(alloc: Global, sizes: Counts, at: u64) -> Result<Self, Stop> {
        if sizes.atoms > 64 {
            return Err(Stop::Refused { line: at, code: 20 });
        }
        Ok(QueryDraft {
            atoms: Vec::with_capacity(alloc, sizes.atoms as usize)?,
            tests: Vec::with_capacity(alloc, sizes.atoms as usize)?,
            bonds: Vec::with_capacity(alloc, sizes.bonds as usize)?,
            aside: false,
        })
    }

    fn take(
        &mut self,
        part: Part,
        line: &[u8],
        at: u64,
        graph: &mut Adjacency,
    ) -> Result<(), Stop> {
        match part {
            Part::Atom => self.take_atom(line, at),
            Part::Bond => self.take_bond(line, at, graph),
            Part::List => self.take_list(line, at),
            Part::Property => self.take_property(line, at),
            Part::End => {
                if are_told(&self.tests) {
                    Ok(())
                } else {
                    Err(Stop::Refused { line: at, code: 21 })
                }
            }
        }
    }

    ghost plain = { λ _ _. (refl, refl) };

    ghost counted = { λ lines n code is.
        ap (λ (o : Option ℕ). if is_some o then o else (if nat_lt 64 (atom_count lines) then Some 20 else None)) is };
}

impl QueryDraft {
    fn take_atom(&mut self, line: &[u8], at: u64) -> Result<(), Stop>
        ensures taken { OnOk result ((graph : Graph) → Takes query_kind_refusal
            (KeepsQuery self.old.atoms.items self.old.tests.items self.old.bonds.items self.old.aside)
            (KeepsQuery self.new.atoms.items self.new.tests.items self.new.bonds.items self.new.aside)
            AtomLine line.now graph graph) }
        ensures stop { IfErr result (λ stop. (graph : Graph) → Stops query_kind_refusal
            (KeepsQuery self.old.atoms.items self.old.tests.items self.old.bonds.items self.old.aside)
            AtomLine line.now graph at stop) }
    {
        match atom_of(line) {
            Err(code) => Err(Stop::Refused { line: at, code }),
            Ok(says) => {
                self.atoms.push(says.atom)?;
                Ok(self.tests.push(says.test)?)
            }
        }
    }

    fn take_bond(&mut self, line: &[u8], at: u64, graph: &mut Adjacency) -> Result<(), Stop>
        requires room { length graph.old.bonds < 999 }
        ensures taken { OnOk result (Takes query_kind_refusal
            (KeepsQuery self.old.atoms.items self.old.tests.items self.old.bonds.items self.old.aside)
            (KeepsQuery self.new.atoms.items self.new.tests.items self.new.bonds.items self.new.aside)
            BondLine line.now graph.old graph.new) }
        ensures stop { IfErr result (Stops query_kind_refusal
            (KeepsQuery self.old.atoms.items self.old.tests.items self.old.bonds.items self.old.aside)
            BondLine line.now graph.old at) }
    {
        match bond_of(line, graph) {
            Err(code) => Err(Stop::Refused { line: at, code }),
            Ok(bond) => Ok(self.bonds.push(bond)?),
        }
    }

    fn take_list(&mut self, line: &[u8], at: u64) -> Result<(), Stop>
        requires few { length self.old.tests.items ≤ 999 }
        ensures taken { OnOk result ((graph : Graph) → Takes query_kind_refusal
            (KeepsQuery self.old.atoms.items self.old.tests.items self.old.bonds.items self.old.aside)
            (KeepsQuery self.new.atoms.items self.new.tests.items self.new.bonds.items self.new.aside)
            ListLine line.now graph graph) }
        ensures stop { IfErr result (λ stop. (graph : Graph) → Stops query_kind_refusal
            (KeepsQuery self.old.atoms.items self.old.tests.items self.old.bonds.items self.old.aside)
            ListLine line.now graph at stop) }
    {
        if take_old_list(line, &mut self.tests) {
            Ok(())
        } else {
            Err(Stop::Refused { line: at, code: 21 })
        }
    }

    fn take_property(&mut self, line: &[u8], at: u64) -> Result<(), Stop>
        requires few { length self.old.atoms.items ≤ 999 }
        requires few_tests { length self.old.tests.items ≤ 999 }
        ensures taken { OnOk result ((graph : Graph) → Takes query_kind_refusal
            (KeepsQuery self.old.atoms.items self.old.tests.items self.old.bonds.items self.old.aside)
            (KeepsQuery self.new.atoms.items self.new.tests.items self.new.bonds.items self.new.aside)
            PropertyLine line.now graph graph) }
        ensures stop { IfErr result (λ stop. (graph : Graph) → Stops query_kind_refusal
            (KeepsQuery self.old.atoms.items self.old.tests.items self.old.bonds.items self.old.aside)
            PropertyLine line.now graph at stop) }
    {
        match take_property(line, &mut self.atoms, self.aside) {
            None => Err(Stop::Refused { line: at, code: 11 }),
            Some(aside) => {
                self.aside = aside;
                if take_new_list(line, &mut self.tests) {
                    Ok(())
                } else {
                    Err(Stop::Refused { line: at, code: 21 })
                }
            }
        }
    }
}

// Whether no atom waits for its list.
fn are_told(tests: &[Option<AtomTest>]) -> bool
    ensures { result ≡ list_all (λ t. is_some t) tests.now }
{
    tests.iter().all(|test| test.is_some())
}
