// `make` with a summary: what its line counts.
ghost use Rattle.std.specs.Prelude.{◌≡◌, ◌≤◌, ◌*◌, ◌++◌, List, [], Some, length, IfOk, OnOk};
ghost use Rattle.htss_defs.specs.declared.history.Hit.{Hit};
ghost use Rattle.htss_defs.specs.History.{publications};
ghost use Rattle.htss_defs.specs.Hits.{AreHits};
ghost use Rattle.hit_report.specs.RecordLines.{spaced};
ghost use Rattle.mol_section.specs.SectionRecord.{Outcome};
ghost use Rattle.command_ends.specs.MakeText.{summary_line};
ghost use Rattle.command_ends.specs.RecordTexts.{accepted_records};

use crate::taker::Taker;
use arrayvec::ArrayVec;
use embed::Matcher;
use hit_report::{append_bytes, append_spaced};
use htss_defs::{Adjacency, Mol, Name, OutOfMemory, Query};
use ring_bonds::RingMarker;
use std::alloc::Global;

/// Counts the accepted records, their atoms and bonds, and those into which the query embeds.
#[derive(Drop)]
pub struct SummaryTaker<'a> {
    matcher: Matcher<'a>,
    map: ArrayVec<u16, 64>,
    // what the ring bonds of each record are marked in
    marker: RingMarker,
    records: u32,
    atoms: u64,
    bonds: u64,
    hits: u32,
    place: u32,
    ghost fewer_hits: { hits ≤ records },
    ghost fewer_records: { records ≤ place },
    ghost atoms_fit: { atoms ≤ 999 * place },
    ghost bonds_fit: { bonds ≤ 999 * place },
}

impl<'a> SummaryTaker<'a> {
    ghost use Rattle.tool_commands.specs.Takers.{SummaryHolds};

    /// No record was taken.
    pub fn new(query: &'a Query) -> SummaryTaker<'a>
        ensures holds { SummaryHolds query.now result.records result.atoms result.bonds result.hits [] }
        ensures asked { result.matcher ≡ query.now }
        ensures place { result.place ≡ 0 }
    {
        SummaryTaker {
            matcher: Matcher::new(query),
            map: ArrayVec::new(),
            marker: RingMarker::new(),
            records: 0,
            atoms: 0,
            bonds: 0,
            hits: 0,
            place: 0,
        }
    }

    /// The line of the counts, for a file that was made of so many records.
    pub fn text(self, alloc: Global, made: u32) -> Result<Vec<u8>, OutOfMemory>
        ensures { IfOk result (λ text. (outcomes : List Outcome)
            → SummaryHolds self.entry.matcher self.entry.records self.entry.atoms self.entry.bonds self.entry.hits outcomes
            → (hits : List Hit) × AreHits self.entry.matcher (publications (accepted_records outcomes)) hits
            × (text.items ≡ summary_line made (accepted_records outcomes) (length hits))) }
    {
        let mut text = Vec::new(alloc);
        append_counted(&mut text, b"made", u64::from(made))?;
        append_counted(&mut text, b" records", u64::from(self.records))?;
        append_counted(&mut text, b" atoms", self.atoms)?;
        append_counted(&mut text, b" bonds", self.bonds)?;
        append_counted(&mut text, b" hits", u64::from(self.hits))?;
        append_bytes(&mut text, b"\n")?;
        Ok(text)
    }
}

impl<'a> Taker for SummaryTaker<'a> {
    ghost use Rattle.tool_commands.specs.Takers.{SummaryHolds};

    ghost holds = { λ t. SummaryHolds t.matcher t.records t.atoms t.bonds t.hits };

    ghost asked = { λ t. Some (record { query = t.matcher; budget = 0 }) };

    ghost taken = { λ t. t.place };

    fn accept(
        &mut self,
        place: u32,
        _name: &Name,
        mol: Mol,
        graph: &Adjacency,
    ) -> Result<(), OutOfMemory> {
        let mut mol = mol;
        self.marker.mark(&mut mol, graph);
        let found = self.matcher.first_map(&mol, &mut self.map);
        self.records += 1;
        self.atoms += mol.atoms().len() as u64;
        self.bonds += mol.bonds().len() as u64;
        self.hits += u32::from(found);
        self.place = place;
        Ok(())
    }

    fn refuse(&mut self, place: u32, _line: u64, _code: u8) -> Result<(), OutOfMemory> {
        self.place = place;
        Ok(())
    }
}

// Appends the word and the number.
fn append_counted(text: &mut Vec<u8>, word: &[u8], number: u64) -> Result<(), OutOfMemory>
    ensures { OnOk result (text.new.items ≡ text.old.items ++ (word.now ++ spaced number)) }
{
    append_bytes(text, word)?;
    append_spaced(text, number)
}
