// `check`: a line for each record.
ghost use Rattle.std.specs.Prelude.{◌≡◌, ◌+◌, ℕ, List, [], None, IfOk};
ghost use Rattle.mol_section.specs.SectionRecord.{Outcome};
ghost use Rattle.command_ends.specs.RecordTexts.{check_text};

use crate::taker::Taker;
use hit_report::{push_ok, push_records, push_refused};
use htss_defs::{Adjacency, Mol, Name, OutOfMemory};
use std::alloc::Global;

#[derive(Drop)]
pub struct CheckTaker {
    text: Vec<u8>,
    accepted: u32,
    refused: u32,
    place: u32,
    ghost counted: { accepted + refused ≡ place },
}

impl CheckTaker {
    ghost use Rattle.tool_commands.specs.Takers.{CheckHolds};

    /// No record was taken.
    pub fn new(alloc: Global) -> CheckTaker
        ensures holds { CheckHolds result.text.items result.accepted result.refused [] }
        ensures place { result.place ≡ 0 }
    {
        CheckTaker {
            text: Vec::new(alloc),
            accepted: 0,
            refused: 0,
            place: 0,
        }
    }

    /// The text of the records taken, and how many they are.
    pub fn text(self) -> Result<Vec<u8>, OutOfMemory>
        ensures { IfOk result (λ text. (outcomes : List Outcome)
            → CheckHolds self.text.items self.accepted self.refused outcomes
            → text.items ≡ check_text outcomes) }
    {
        let CheckTaker {
            mut text,
            accepted,
            refused,
            place,
        } = self;
        push_records(&mut text, place, accepted, refused)?;
        Ok(text)
    }
}

impl Taker for CheckTaker {
    ghost use Rattle.tool_commands.specs.Takers.{CheckHolds};

    ghost holds = { λ t. CheckHolds t.text.items t.accepted t.refused };

    ghost asked = { λ _. None };

    ghost taken = { λ t. t.place };

    fn accept(
        &mut self,
        place: u32,
        name: &Name,
        mol: Mol,
        _graph: &Adjacency,
    ) -> Result<(), OutOfMemory> {
        let atoms = mol.atoms().len();
        let bonds = mol.bonds().len();
        push_ok(&mut self.text, place, atoms, bonds, name.bytes())?;
        self.accepted += 1;
        self.place = place;
        Ok(())
    }

    fn refuse(&mut self, place: u32, line: u64, code: u8) -> Result<(), OutOfMemory> {
        push_refused(&mut self.text, place, line, code)?;
        self.refused += 1;
        self.place = place;
        Ok(())
    }
}
