// The draft of a record.
ghost use Rattle.std.specs.Prelude.{◌≡◌, ◌≤◌, ◌<◌, ℕ, List, length, refl, OnOk, IfErr};
ghost use Rattle.htss_defs.specs.Graph.{Graph};
ghost use Rattle.mol_section.specs.SectionLines.{kind_refusal};
ghost use Rattle.mol_section.specs.Walk.{Parts, Takes, Stops, IsHere};
ghost use Rattle.mol_section.specs.Records.{Keeps};
ghost use Rattle.mol_section.specs.declared.draft.Part.TheVariants.{Atom as AtomLine, Bond as BondLine};
ghost use Rattle.mol_section.specs.declared.draft.Part.TheVariants.{Property as PropertyLine};

use crate::atoms::atom_of;
use crate::bonds::bond_line;
use crate::counts::Counts;
use crate::draft::{Draft, Part, Stop};
use crate::properties::take_property;
use htss_defs::{Adjacency, Atom, Bond};
use std::alloc::Global;

/// The atoms and bonds of a record; `aside`: the charges of the atom block are set aside.
#[derive(Drop)]
pub struct Record {
    pub atoms: Vec<Atom>,
    pub bonds: Vec<Bond>,
    pub aside: bool,
}

impl Draft for Record {
    ghost refusals = { kind_refusal };

    ghost holds = { λ r. Keeps r.atoms.items r.bonds.items r.aside };

    fn start(alloc: Global, sizes: Counts, _at: u64) -> Result<Self, Stop> {
        Ok(Record {
            atoms: Vec::with_capacity(alloc, sizes.atoms as usize)?,
            bonds: Vec::with_capacity(alloc, sizes.bonds as usize)?,
            aside: false,
        })
    }

    fn take(
        &mut self,
        part: Part,
        line: &[u8],
        at: u64,
        graph: &mut Adjacency,
    ) -> Result<(), Stop> {
        match part {
            Part::Atom => self.take_atom(line, at),
            Part::Bond => self.take_bond(line, at, graph),
            Part::Property => self.take_property(line, at),
            Part::List | Part::End => Ok(()),
        }
    }

    ghost plain = { λ _ _. (refl, refl) };

    ghost counted = { λ _ _ _ is. is };
}

impl Record {
    fn take_atom(&mut self, line: &[u8], at: u64) -> Result<(), Stop>
        ensures taken { OnOk result ((graph : Graph) → Takes kind_refusal
            (Keeps self.old.atoms.items self.old.bonds.items self.old.aside)
            (Keeps self.new.atoms.items self.new.bonds.items self.new.aside) AtomLine line.now graph graph) }
        ensures stop { IfErr result (λ stop. (graph : Graph) → Stops kind_refusal
            (Keeps self.old.atoms.items self.old.bonds.items self.old.aside) AtomLine line.now graph at stop) }
    {
        match atom_of(line) {
            Ok(atom) => Ok(self.atoms.push(atom)?),
            Err(code) => Err(Stop::Refused { line: at, code }),
        }
    }

    fn take_bond(&mut self, line: &[u8], at: u64, graph: &mut Adjacency) -> Result<(), Stop>
        requires room { length graph.old.bonds < 999 }
        ensures taken { OnOk result (Takes kind_refusal
            (Keeps self.old.atoms.items self.old.bonds.items self.old.aside)
            (Keeps self.new.atoms.items self.new.bonds.items self.new.aside)
            BondLine line.now graph.old graph.new) }
        ensures stop { IfErr result (Stops kind_refusal
            (Keeps self.old.atoms.items self.old.bonds.items self.old.aside) BondLine line.now graph.old at) }
    {
        match bond_line(line, 4, graph) {
            Ok(says) => Ok(
                self.bonds.push(Bond {
                    first: says.ends.first,
                    second: says.ends.second,
                    kind: says.kind,
                    ring: false,
                })?,
            ),
            Err(code) => Err(Stop::Refused { line: at, code }),
        }
    }

    fn take_property(&mut self, line: &[u8], at: u64) -> Result<(), Stop>
        requires few { length self.old.atoms.items ≤ 999 }
        ensures taken { OnOk result ((graph : Graph) → Takes kind_refusal
            (Keeps self.old.atoms.items self.old.bonds.items self.old.aside)
            (Keeps self.new.atoms.items self.new.bonds.items self.new.aside) PropertyLine line.now graph graph) }
        ensures stop { IfErr result (λ stop. (graph : Graph) → Stops kind_refusal
            (Keeps self.old.atoms.items self.old.bonds.items self.old.aside) PropertyLine line.now graph at stop) }
    {
        match take_property(line, &mut self.atoms, self.aside) {
            None => Err(Stop::Refused { line: at, code: 11 }),
            Some(aside) => {
                self.aside = aside;
                Ok(())
            }
        }
    }
}
