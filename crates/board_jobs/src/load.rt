// The records of a file, published as they are read.
ghost use Rattle.std.specs.Prelude.{◌≡◌, ℕ, ◌+◌, ◌<◌, ◌^◌, ◌++◌, List, length, true, IfOk, IfErr, OnOk, OnErr};
ghost use Rattle.htss_defs.specs.Marked.{IsMarked};
ghost use Rattle.mol_section.specs.SectionRecord.{Outcome};
ghost use Rattle.ctfile.specs.RecordList.{IsRecordList};
ghost use Rattle.ctfile.specs.Stream.{HasRead};
ghost use Rattle.board_core.specs.declared.account.Account.{Account};
ghost use Rattle.board.specs.Seated.{IsLoader};
ghost use Rattle.board_jobs.specs.Calls.{AreLoaded, GoesOn, HaveBegun, IsAtWork, IsBegun, IsLoaded, IsTaken};
ghost use Rattle.board_jobs.specs.Calls.{refused_line};

use board::{Board, Caller};
use ctfile::{Next, RecordReader};
use env_code::Coder;
use htss_defs::{Mol, Name, OutOfMemory};
use loader::{StageError, stage_with};
use pub_log::{LogFull, lock};
use report_text::LoadLine;
use std::alloc::Global;
use std::sync::Wait;

// How many bytes of a file are read at once.
const PIECE_SIZE: usize = 65536;

/// Publishes the records of the file, and answers a line for each. An `Err` is want of memory; what was published
/// before stays.
pub fn load_file<R: Wait>(
    rt: &R,
    alloc: Global,
    board: &Board,
    caller: &mut Caller,
    bytes: &[u8],
) -> Result<Vec<LoadLine>, OutOfMemory>
    requires work { IsAtWork board.now caller.old }
    requires loader { IsLoader caller.old }
    requires size { length bytes.now < 2 ^ 32 }
    ensures loaded { IfOk result
        (λ lines. IsLoaded board.now.shape caller.old.account caller.new.account bytes.now lines.items) }
    ensures broken { IfErr result (λ _. IsBegun board.now.shape caller.old.account caller.new.account bytes.now) }
    ensures goes_on { GoesOn board.now caller.old caller.new }
{
    let mut reader = RecordReader::new(alloc)?;
    let mut coder = Coder::new();
    let mut lines = Vec::new(alloc);
    let mut rest = bytes;
    while !rest.is_empty() {
        let (piece, after) = rest.split_at(rest.len().min(PIECE_SIZE));
        reader.feed(piece)?;
        publish_read(rt, board, caller, &mut coder, &mut reader, &mut lines)?;
        rest = after;
    }
    reader.finish();
    publish_read(rt, board, caller, &mut coder, &mut reader, &mut lines)?;
    Ok(lines)
}

// Publishes the records that the reader has, and appends a line for each.
fn publish_read<R: Wait>(
    rt: &R,
    board: &Board,
    caller: &mut Caller,
    coder: &mut Coder,
    reader: &mut RecordReader,
    lines: &mut Vec<LoadLine>,
) -> Result<(), OutOfMemory>
    requires work { IsAtWork board.now caller.old }
    requires loader { IsLoader caller.old }
    ensures loaded { OnOk result ((start : Account) (stream : List ℕ)
        → AreLoaded board.now.shape start caller.old.account stream reader.old lines.old.items
        → AreLoaded board.now.shape start caller.new.account stream reader.new lines.new.items) }
    ensures broken { OnErr result ((start : Account) (stream : List ℕ)
        → AreLoaded board.now.shape start caller.old.account stream reader.old lines.old.items
        → HaveBegun board.now.shape start caller.new.account stream reader.old.finished) }
    ensures goes_on { GoesOn board.now caller.old caller.new }
    ensures finished { OnOk result (reader.new.finished ≡ reader.old.finished) }
    ensures fed { OnOk result (reader.new.fed ≡ reader.old.fed) }
    ensures all { OnOk result (reader.new.finished ≡ true → (stream : List ℕ) (outcomes : List Outcome)
        → HasRead stream outcomes reader.new → IsRecordList stream outcomes) }
{
    loop {
        let line = match reader.next_record()? {
            Next::Accepted { place, name, mol } => {
                publish_one(rt, board, caller, coder, place, name, mol)
            }
            Next::Refused { place, line, code } => LoadLine::Refused { place, line, code },
            Next::NeedMore | Next::End => return Ok(()),
        };
        lines.push(line)?;
    }
}

// Publishes a record, and answers its line. The lock is taken once the record is staged. A record that the log has no
// entry for stays staged.
fn publish_one<R: Wait>(
    rt: &R,
    board: &Board,
    caller: &mut Caller,
    coder: &mut Coder,
    place: u32,
    name: Name,
    mol: Mol,
) -> LoadLine
    requires work { IsAtWork board.now caller.old }
    requires loader { IsLoader caller.old }
    requires marked { IsMarked mol }
    ensures taken { IsTaken board.now.shape caller.old.account caller.new.account place
        (record { name = name; mol = mol }) result }
    ensures goes_on { GoesOn board.now caller.old caller.new }
{
    match stage_with(board, caller, coder, &mol, &name) {
        Ok(staged) => {
            let locked = lock(rt, board, caller);
            match locked.publish(board, caller, staged) {
                Ok(number) => LoadLine::Published { number, name },
                Err((LogFull { front }, _)) => LoadLine::LogFull { place, front },
            }
        }
        Err(refusal) => refused_line(place, refusal),
    }
}

// The line of a record that was not staged.
fn refused_line(place: u32, refusal: StageError) -> LoadLine
    ensures { result ≡ refused_line place refusal }
{
    match refusal {
        StageError::DataFull { left, need } => LoadLine::DataFull { place, left, need },
        StageError::NoPage => LoadLine::NoPage { place },
        StageError::ChainFull { pages } => LoadLine::ChainFull { place, pages },
    }
}
