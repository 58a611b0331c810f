// A reader of the records of a stream that comes in pieces.
ghost use Rattle.std.specs.Prelude.{◌≡◌, ◌↔◌, ℕ, ◌+◌, ◌^◌, ◌<◌, ◌++◌, ◌∷◌, List, [], length, true, false};
ghost use Rattle.std.specs.Prelude.{IfOk, OnOk, OnErr};
ghost use Rattle.mol_section.specs.SectionRecord.{Outcome};
ghost use Rattle.ctfile.specs.RecordList.{IsRecordList};
ghost use Rattle.ctfile.specs.Stream.{HasRead, TakesRecord, NeedsMore, HasEnded, IfRecord, IfNoRecord, empty_state};
ghost use Rattle.ctfile.specs.Stream.{with_piece};

use crate::unmarked::UnmarkedReader;
use htss_defs::{Adjacency, Mol, Name, OutOfMemory};
use ring_bonds::RingMarker;
use std::alloc::Global;
use std::marker::Model;

/// What a reader answers: the next record of the stream, accepted, its ring bonds marked, or refused, with its place,
/// counted from 1; that the next record depends on bytes that have not come; or that the stream has no record any more.
#[derive(Debug, Drop)]
pub enum Next {
    Accepted { place: u32, name: Name, mol: Mol },
    Refused { place: u32, line: u64, code: u8 },
    NeedMore,
    End,
}

/// A reader of an SDfile that comes in pieces. Contracts see what is pending, and how much was answered.
#[derive(Drop)]
pub struct RecordReader {
    unmarked: UnmarkedReader,
    // of the molecule that was read last
    graph: Adjacency,
    // what ring bonds are marked in, of one molecule after the other
    marker: RingMarker,
}

impl Model for RecordReader {
    ghost use Rattle.ctfile.specs.Stream.{ReaderState};

    ghost Value = { ReaderState };

    ghost view = { λ r. r.unmarked };
}

impl RecordReader {
    /// A reader that was fed nothing.
    pub fn new(alloc: Global) -> Result<RecordReader, OutOfMemory>
        ensures empty { IfOk result (λ reader. reader ≡ empty_state) }
        ensures read { IfOk result (λ reader. HasRead [] [] reader) }
    {
        Ok(RecordReader {
            unmarked: UnmarkedReader::new(alloc)?,
            graph: Adjacency::new(),
            marker: RingMarker::new(),
        })
    }

    /// Takes the next piece of the stream. On `Err` the reader is as it was.
    pub fn feed(&mut self, piece: &[u8]) -> Result<(), OutOfMemory>
        requires goes_on { self.old.finished ≡ false }
        requires room { self.old.fed + length piece.now < 2 ^ 32 }
        ensures ok { OnOk result (self.new ≡ with_piece self.old piece.now) }
        ensures read { OnOk result ((stream : List ℕ) (outcomes : List Outcome)
            → HasRead stream outcomes self.old → HasRead (stream ++ piece.now) outcomes self.new) }
        ensures err { OnErr result (self.new ≡ self.old) }
    {
        self.unmarked.feed(piece)
    }

    /// The stream is over.
    pub fn finish(&mut self)
        requires { self.old.finished ≡ false }
        ensures finished { self.new ≡ record self.old { finished = true } }
        ensures read { (stream : List ℕ) (outcomes : List Outcome)
            → HasRead stream outcomes self.old → HasRead stream outcomes self.new }
    {
        self.unmarked.finish();
    }

    /// The next record. On `Err` the reader is as it was, and the call may be made again.
    pub fn next_record(&mut self) -> Result<Next, OutOfMemory>
        ensures taken { IfOk result (λ next. IfRecord next (λ place outcome.
            (place ≡ self.new.place) × TakesRecord self.old self.new outcome)) }
        ensures read { IfOk result (λ next. IfRecord next (λ place outcome.
            (stream : List ℕ) (outcomes : List Outcome) → HasRead stream outcomes self.old
            → HasRead stream (outcomes ++ outcome ∷ []) self.new)) }
        ensures needs_more { IfOk result (λ next. (next ≡ Next.NeedMore) ↔ NeedsMore self.old) }
        ensures ended { IfOk result (λ next. (next ≡ Next.End) ↔ HasEnded self.old) }
        ensures same { IfOk result (λ next. IfNoRecord next (self.new ≡ self.old)) }
        ensures kept { (self.new.fed ≡ self.old.fed) × (self.new.finished ≡ self.old.finished) }
        ensures shorter { IfOk result (λ next. IfRecord next (λ _ _.
            length self.new.pending < length self.old.pending)) }
        ensures all { IfOk result (λ next. next ≡ Next.End
            → (stream : List ℕ) (outcomes : List Outcome)
            → HasRead stream outcomes self.old → IsRecordList stream outcomes) }
        ensures err { OnErr result (self.new ≡ self.old) }
    {
        match self.unmarked.next_unmarked(&mut self.graph)? {
            Next::Accepted {
                place,
                name,
                mut mol,
            } => {
                self.marker.mark(&mut mol, &self.graph);
                Ok(Next::Accepted { place, name, mol })
            }
            next => Ok(next),
        }
    }
}

/// Bytes have one record list: so what a reader answers depends on the stream alone, and not on its pieces.
pub fn one_record_list()
    ensures { (bytes : List ℕ) (outcomes others : List Outcome)
        → IsRecordList bytes outcomes → IsRecordList bytes others → outcomes ≡ others }
{}
