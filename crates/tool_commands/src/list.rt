// The records of a file, read in pieces and handed on one after the other.
ghost use Rattle.std.specs.Prelude.{◌≡◌, ◌+◌, ◌^◌, ◌<◌, ◌≤◌, ◌++◌, ℕ, List, [], Some, length, true, false, IfErr, OnOk};
ghost use Rattle.mol_section.specs.SectionRecord.{Outcome};
ghost use Rattle.ctfile.specs.RecordList.{IsRecordList};
ghost use Rattle.ctfile.specs.Stream.{HasRead};
ghost use Rattle.command_ends.specs.Outcomes.{stop_why};
ghost use Rattle.command_ends.specs.FindText.{RecordsWereRead};
ghost use Rattle.command_ends.specs.Ends.{ShelfGoesOn, seen};
ghost use Rattle.command_ends.specs.Stops.{IsStopOfFile};

use crate::taker::Taker;
use command_ends::{Stop, read_stop};
use ctfile::{Next, UnmarkedReader};
use htss_defs::{Adjacency, OutOfMemory};
use outside::{PIECE_SIZE, Shelf, read_piece};
use std::alloc::Global;

/// Hands on the records of the file in their order, each as soon as it is read.
pub fn read_list<'a, F: Shelf, T: Taker>(
    alloc: Global,
    name: &'a str,
    shelf: &mut F,
    taker: &mut T,
) -> Result<(), Stop<'a>>
    requires fresh { T.taken taker.old ≡ 0 }
    requires holds { T.holds taker.old [] }
    ensures read { OnOk result ((outcomes : List Outcome)
        × RecordsWereRead (F.told shelf.old) name.now outcomes × T.holds taker.new outcomes) }
    ensures asked { OnOk result (T.asked taker.new ≡ T.asked taker.old) }
    ensures stop { IfErr result (λ stop. IsStopOfFile
        (seen F.told F.absent F.faults shelf.old) (seen F.told F.absent F.faults shelf.new)
        name.now (stop_why stop)) }
    ensures goes_on { ShelfGoesOn
        (seen F.told F.absent F.faults shelf.old) (seen F.told F.absent F.faults shelf.new) }
{
    let Ok(mut reader) = UnmarkedReader::new(alloc) else {
        return Err(Stop::Memory);
    };
    let mut graph = Adjacency::new();
    let mut piece = [0; PIECE_SIZE];
    let mut offset = 0;
    loop {
        let count = match read_piece(shelf, name, offset, &mut piece) {
            Ok(0) => break,
            Ok(count) => count,
            Err(stop) => return Err(read_stop(stop, name)),
        };
        match take_piece(&mut reader, &mut graph, &piece[..count], taker) {
            Ok(()) => {}
            Err(OutOfMemory) => return Err(Stop::Memory),
        }
        offset += count;
    }
    reader.finish();
    match drain(&mut reader, &mut graph, taker) {
        Ok(()) => Ok(()),
        Err(OutOfMemory) => Err(Stop::Memory),
    }
}

/// Feeds a piece, and hands on the records that are whole then, each with its graph.
pub fn take_piece<T: Taker>(
    reader: &mut UnmarkedReader,
    graph: &mut Adjacency,
    piece: &[u8],
    taker: &mut T,
) -> Result<(), OutOfMemory>
    requires goes_on { reader.old.finished ≡ false }
    requires room { reader.old.fed + length piece.now < 2 ^ 32 }
    requires taken { T.taken taker.old ≡ reader.old.place }
    ensures asked { OnOk result (T.asked taker.new ≡ T.asked taker.old) }
    ensures taken { OnOk result (T.taken taker.new ≡ reader.new.place) }
    ensures open { OnOk result (reader.new.finished ≡ false) }
    ensures fed { OnOk result (reader.new.fed ≡ reader.old.fed + length piece.now) }
    ensures more { OnOk result ((stream : List ℕ) (outcomes : List Outcome)
        → HasRead stream outcomes reader.old → T.holds taker.old outcomes
        → (all : List Outcome) × HasRead (stream ++ piece.now) all reader.new × T.holds taker.new all) }
{
    reader.feed(piece)?;
    drain(reader, graph, taker)
}

/// Hands on the records that the reader has, each with its graph.
pub fn drain<T: Taker>(
    reader: &mut UnmarkedReader,
    graph: &mut Adjacency,
    taker: &mut T,
) -> Result<(), OutOfMemory>
    requires { T.taken taker.old ≡ reader.old.place }
    ensures asked { OnOk result (T.asked taker.new ≡ T.asked taker.old) }
    ensures taken { OnOk result (T.taken taker.new ≡ reader.new.place) }
    ensures finished { OnOk result (reader.new.finished ≡ reader.old.finished) }
    ensures fed { OnOk result (reader.new.fed ≡ reader.old.fed) }
    ensures all { OnOk result (reader.new.finished ≡ true → (stream : List ℕ) (outcomes : List Outcome)
        → HasRead stream outcomes reader.new → IsRecordList stream outcomes) }
    ensures more { OnOk result ((stream : List ℕ) (outcomes : List Outcome)
        → HasRead stream outcomes reader.old → T.holds taker.old outcomes
        → (all : List Outcome) × HasRead stream all reader.new × T.holds taker.new all) }
{
    loop {
        match reader.next_unmarked(graph)? {
            Next::Accepted { place, name, mol } => taker.accept(place, &name, mol, graph)?,
            Next::Refused { place, line, code } => taker.refuse(place, line, code)?,
            Next::NeedMore | Next::End => return Ok(()),
        }
    }
}
