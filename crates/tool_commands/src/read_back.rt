// The records of bytes in memory, fed in pieces and handed on one after the other.
ghost use Rattle.std.specs.Prelude.{◌≡◌, ◌^◌, ◌<◌, List, [], length, OnOk};
ghost use Rattle.mol_section.specs.SectionRecord.{Outcome};
ghost use Rattle.ctfile.specs.RecordList.{IsRecordList};

use crate::list::{drain, take_piece};
use crate::taker::Taker;
use ctfile::UnmarkedReader;
use htss_defs::{Adjacency, OutOfMemory};
use outside::PIECE_SIZE;
use std::alloc::Global;

/// Hands on the records of the bytes in their order, and keeps no second copy of the bytes.
pub fn read_back<T: Taker>(alloc: Global, bytes: &[u8], taker: &mut T) -> Result<(), OutOfMemory>
    requires room { length bytes.now < 2 ^ 32 }
    requires fresh { T.taken taker.old ≡ 0 }
    requires holds { T.holds taker.old [] }
    ensures read { OnOk result ((outcomes : List Outcome)
        × IsRecordList bytes.now outcomes × T.holds taker.new outcomes) }
    ensures asked { OnOk result (T.asked taker.new ≡ T.asked taker.old) }
{
    let mut reader = UnmarkedReader::new(alloc)?;
    let mut graph = Adjacency::new();
    let mut rest = bytes;
    while !rest.is_empty() {
        let (piece, more) = rest.split_at(rest.len().min(PIECE_SIZE));
        take_piece(&mut reader, &mut graph, piece, taker)?;
        rest = more;
    }
    reader.finish();
    drain(&mut reader, &mut graph, taker)?;
    Ok(())
}
