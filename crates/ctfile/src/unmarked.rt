// A reader of the records of a stream that comes in pieces, which leaves their bonds unmarked.
ghost use Rattle.std.specs.Prelude.{◌≡◌, ◌↔◌, ℕ, ◌+◌, ◌^◌, ◌<◌, ◌≤◌, ◌++◌, ◌∷◌, List, [], length, true, false};
ghost use Rattle.std.specs.Prelude.{IfOk, OnOk, OnErr};
ghost use Rattle.htss_defs.specs.Molecule.{molecule_graph};
ghost use Rattle.mol_section.specs.SectionRecord.{Outcome};
ghost use Rattle.ctfile.specs.RecordList.{IsRecordList};
ghost use Rattle.ctfile.specs.Stream.{HasRead, TakesRecord, NeedsMore, HasEnded, IfUnmarked, IfNoRecord, IfMolecule};
ghost use Rattle.ctfile.specs.Stream.{HasMarks, answer_of, empty_state, with_piece};

use crate::cut::Pending;
use crate::reader::Next;
use htss_defs::{Adjacency, OutOfMemory};
use mol_section::{SectionOutcome, read_unmarked};
use std::alloc::Global;
use std::marker::Model;

/// A reader of an SDfile that comes in pieces, for those who mark a molecule only where they ask for its ring bonds.
/// Contracts see what is pending, and how much was answered.
#[derive(Drop)]
pub struct UnmarkedReader {
    alloc: Global,
    pending: Pending,
    place: u32,
    line: u64,
    fed: u32,
    finished: bool,
}

impl Model for UnmarkedReader {
    ghost use Rattle.ctfile.specs.Stream.{ReaderState, IsWithin};

    ghost Value = { ReaderState };

    ghost view = { λ r. record {
      pending = r.pending;
      place = r.place;
      line = r.line;
      fed = r.fed;
      finished = r.finished;
    } };

    ghost invariant = { λ r. IsWithin r.pending r.place r.line r.fed };
}

impl UnmarkedReader {
    /// A reader that was fed nothing.
    pub fn new(alloc: Global) -> Result<UnmarkedReader, OutOfMemory>
        ensures empty { IfOk result (λ reader. reader ≡ empty_state) }
        ensures read { IfOk result (λ reader. HasRead [] [] reader) }
    {
        Ok(UnmarkedReader {
            alloc,
            pending: Pending::new(alloc),
            place: 0,
            line: 0,
            fed: 0,
            finished: false,
        })
    }

    /// Takes the next piece of the stream. On `Err` the reader is as it was.
    pub fn feed(&mut self, piece: &[u8]) -> Result<(), OutOfMemory>
        requires goes_on { self.old.finished ≡ false }
        requires room { self.old.fed + length piece.now < 2 ^ 32 }
        ensures ok { OnOk result (self.new ≡ with_piece self.old piece.now) }
        ensures read { OnOk result ((stream : List ℕ) (outcomes : List Outcome)
            → HasRead stream outcomes self.old → HasRead (stream ++ piece.now) outcomes self.new) }
        ensures err { OnErr result (self.new ≡ self.old) }
    {
        self.pending.feed(piece)?;
        self.fed += piece.len() as u32;
        Ok(())
    }

    /// The stream is over.
    pub fn finish(&mut self)
        requires { self.old.finished ≡ false }
        ensures finished { self.new ≡ record self.old { finished = true } }
        ensures read { (stream : List ℕ) (outcomes : List Outcome)
            → HasRead stream outcomes self.old → HasRead stream outcomes self.new }
    {
        self.finished = true;
    }

    /// The next record, its bonds left unmarked; the graph becomes that of its molecule. On `Err` the reader is as it
    /// was, and the call may be made again.
    pub fn next_unmarked(&mut self, graph: &mut Adjacency) -> Result<Next, OutOfMemory>
        ensures graph { IfOk result (λ next. IfMolecule next (λ mol. graph.new ≡ molecule_graph mol)) }
        ensures marks { IfOk result (λ next. IfMolecule next HasMarks) }
        ensures taken { IfOk result (λ next. IfUnmarked next (λ place outcome.
            (place ≡ self.new.place) × TakesRecord self.old self.new outcome)) }
        ensures read { IfOk result (λ next. IfUnmarked next (λ place outcome.
            (stream : List ℕ) (outcomes : List Outcome) → HasRead stream outcomes self.old
            → HasRead stream (outcomes ++ outcome ∷ []) self.new)) }
        ensures needs_more { IfOk result (λ next. (next ≡ Next.NeedMore) ↔ NeedsMore self.old) }
        ensures ended { IfOk result (λ next. (next ≡ Next.End) ↔ HasEnded self.old) }
        ensures same { IfOk result (λ next. IfNoRecord next (self.new ≡ self.old)) }
        ensures kept { (self.new.fed ≡ self.old.fed) × (self.new.finished ≡ self.old.finished) }
        ensures shorter { IfOk result (λ next. IfUnmarked next (λ _ _.
            length self.new.pending < length self.old.pending)) }
        ensures all { IfOk result (λ next. next ≡ Next.End
            → (stream : List ℕ) (outcomes : List Outcome)
            → HasRead stream outcomes self.old → IsRecordList stream outcomes) }
        ensures err { OnErr result (self.new ≡ self.old) }
    {
        let Some(taken) = self.pending.next_taken(self.finished) else {
            return Ok(if self.finished {
                Next::End
            } else {
                Next::NeedMore
            });
        };
        let section = &self.pending.bytes()[..taken.section];
        let outcome = read_unmarked(self.alloc, section, self.line + 1, graph)?;
        self.pending.pass(taken.bytes);
        self.place += 1;
        self.line += taken.lines;
        Ok(next_of(self.place, outcome))
    }
}

// The answer that tells this outcome.
fn next_of(place: u32, outcome: SectionOutcome) -> Next
    ensures { result ≡ answer_of place outcome }
{
    match outcome {
        SectionOutcome::Accepted { name, mol } => Next::Accepted { place, name, mol },
        SectionOutcome::Refused { line, code } => Next::Refused { place, line, code },
    }
}
