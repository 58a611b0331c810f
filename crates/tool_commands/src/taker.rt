// What takes the records of a file, one after the other.
ghost use Rattle.std.specs.Prelude.{◌≡◌, ℕ, ◌+◌, ◌++◌, ◌∷◌, [], List, Option, length, OnOk};
ghost use Rattle.htss_defs.specs.Marked.{IsMarked, unmarked_molecule};
ghost use Rattle.htss_defs.specs.Molecule.{Molecule, molecule_graph};
ghost use Rattle.mol_section.specs.SectionRecord.{Outcome, accepted, refused};
ghost use Rattle.tool_commands.specs.Searches.{Asked};

use htss_defs::{Adjacency, Mol, Name, OutOfMemory};

/// Takes the records of a file in their order.
pub trait Taker {
    /// What is kept is right for these outcomes, taken so far.
    ghost holds: { Self → List Outcome → Type 0 };

    /// The query and the budget that it was made for, if any. No call changes them.
    ghost asked: { Self → Option Asked };

    /// How many records were taken.
    ghost taken: { Self → ℕ };

    /// Takes a record that is accepted, its bonds unmarked, with the graph of its molecule. What is kept is right for
    /// the marked one.
    fn accept(
        &mut self,
        place: u32,
        name: &Name,
        mol: Mol,
        graph: &Adjacency,
    ) -> Result<(), OutOfMemory>
        requires next { place ≡ taken self.old + 1 }
        requires graph { graph.now ≡ molecule_graph mol }
        ensures holds { OnOk result ((outcomes : List Outcome) → length outcomes ≡ taken self.old
            → (marked : Molecule) → IsMarked marked → unmarked_molecule marked ≡ unmarked_molecule mol
            → holds self.old outcomes → holds self.new (outcomes ++ accepted name.now marked ∷ [])) }
        ensures asked { OnOk result (asked self.new ≡ asked self.old) }
        ensures taken { OnOk result (taken self.new ≡ place) };

    /// Takes a record that is refused.
    fn refuse(&mut self, place: u32, line: u64, code: u8) -> Result<(), OutOfMemory>
        requires { place ≡ taken self.old + 1 }
        ensures holds { OnOk result ((outcomes : List Outcome) → length outcomes ≡ taken self.old
            → holds self.old outcomes
            → holds self.new (outcomes ++ refused line code ∷ [])) }
        ensures asked { OnOk result (asked self.new ≡ asked self.old) }
        ensures taken { OnOk result (taken self.new ≡ place) };
}
