// `find`: the lines of the refused records, and what a search of the others answers.
ghost use Rattle.std.specs.Prelude.{◌≡◌, ◌≤◌, List, [], Some, ◌++◌, IfOk};
ghost use Rattle.htss_defs.specs.History.{publications};
ghost use Rattle.htss_defs.specs.Reply.{Reply, IsReply};
ghost use Rattle.mol_section.specs.SectionRecord.{Outcome};
ghost use Rattle.command_ends.specs.RecordTexts.{accepted_records, refused_lines};
ghost use Rattle.command_ends.specs.FindText.{reply_text};

use crate::search::Search;
use crate::taker::Taker;
use hit_report::push_refused;
use htss_defs::{Adjacency, Mol, Name, OutOfMemory, Query};
use std::alloc::Global;

#[derive(Drop)]
pub struct FindTaker<'a> {
    refused: Vec<u8>,
    // of the accepted records
    search: Search<'a>,
    place: u32,
    ghost numbered: { search.number ≤ place },
}

impl<'a> FindTaker<'a> {
    ghost use Rattle.tool_commands.specs.Takers.{FindHolds};

    /// No record was taken.
    pub fn new(alloc: Global, query: &'a Query, budget: u64) -> FindTaker<'a>
        ensures holds { FindHolds query.now budget result.refused.items
            result.search.left result.search.lines.items result.search.count result.search.number [] }
        ensures asked { result.search.matcher ≡ query.now }
        ensures budget { result.search.budget ≡ budget }
        ensures place { result.place ≡ 0 }
    {
        FindTaker {
            refused: Vec::new(alloc),
            search: Search::new(alloc, query, budget),
            place: 0,
        }
    }

    /// The lines of the refused records, and the text of the answer.
    pub fn text(self) -> Result<Vec<u8>, OutOfMemory>
        ensures { IfOk result (λ text. (outcomes : List Outcome)
            → FindHolds self.entry.search.matcher self.entry.search.budget self.entry.refused.items
            self.entry.search.left self.entry.search.lines.items self.entry.search.count self.entry.search.number outcomes
            → (reply : Reply) × IsReply self.entry.search.matcher self.entry.search.budget
            (publications (accepted_records outcomes)) reply
            × (text.items ≡ refused_lines 1 outcomes ++ reply_text self.entry.search.budget reply)) }
    {
        let FindTaker {
            refused: mut text,
            search,
            ..
        } = self;
        search.push_text(&mut text)?;
        Ok(text)
    }
}

impl<'a> Taker for FindTaker<'a> {
    ghost use Rattle.tool_commands.specs.Takers.{FindHolds};

    ghost holds = { λ t. FindHolds t.search.matcher t.search.budget t.refused.items
        t.search.left t.search.lines.items t.search.count t.search.number };

    ghost asked = { λ t. Some (record { query = t.search.matcher; budget = t.search.budget }) };

    ghost taken = { λ t. t.place };

    fn accept(
        &mut self,
        place: u32,
        name: &Name,
        mol: Mol,
        graph: &Adjacency,
    ) -> Result<(), OutOfMemory> {
        self.place = place;
        self.search.take(name, mol, graph)
    }

    fn refuse(&mut self, place: u32, line: u64, code: u8) -> Result<(), OutOfMemory> {
        push_refused(&mut self.refused, place, line, code)?;
        self.place = place;
        Ok(())
    }
}
