// The records of a file, read whole.
ghost use Rattle.std.specs.Prelude.{◌≡◌, ℕ, ◌<◌, ◌^◌, ◌++◌, ◌∷◌, [], List, length, map, true, IfOk, IfSome, IfNone};
ghost use Rattle.mol_section.specs.SectionRecord.{Outcome};
ghost use Rattle.ctfile.specs.RecordList.{IsRecordList};
ghost use Rattle.ctfile.specs.Stream.{HasRead};
ghost use Rattle.told_history.specs.Reads.{outcome_of};

use ctfile::{Next, RecordReader};
use htss_defs::{Mol, Name, OutOfMemory};
use std::alloc::Global;

/// A record of a file, accepted, its ring bonds marked, or refused.
#[derive(Debug, Drop)]
pub enum RecordRead {
    Accepted { name: Name, mol: Mol },
    Refused { line: u64, code: u8 },
}

/// The records of a file, in their order.
pub fn read_records(alloc: Global, bytes: &[u8]) -> Result<Vec<RecordRead>, OutOfMemory>
    requires { length bytes.now < 2 ^ 32 }
    ensures { IfOk result (λ records. IsRecordList bytes.now (map outcome_of records.items)) }
{
    let mut reader = RecordReader::new(alloc)?;
    let mut records = Vec::new(alloc);
    reader.feed(bytes)?;
    reader.finish();
    while let Some(one) = next_read(&mut reader)? {
        records.push(one)?;
    }
    Ok(records)
}

// The next record of a stream that is over.
fn next_read(reader: &mut RecordReader) -> Result<Option<RecordRead>, OutOfMemory>
    requires { reader.old.finished ≡ true }
    ensures read { IfOk result (λ next. IfSome next (λ one. (stream : List ℕ) (outcomes : List Outcome)
        → HasRead stream outcomes reader.old → HasRead stream (outcomes ++ outcome_of one ∷ []) reader.new)) }
    ensures all { IfOk result (λ next. IfNone next ((stream : List ℕ) (outcomes : List Outcome)
        → HasRead stream outcomes reader.old → IsRecordList stream outcomes)) }
    ensures shorter { IfOk result (λ next. IfSome next (λ _. length reader.new.pending < length reader.old.pending)) }
    ensures finished { reader.new.finished ≡ true }
{
    match reader.next_record()? {
        Next::Accepted { name, mol, .. } => Ok(Some(RecordRead::Accepted { name, mol })),
        Next::Refused { line, code, .. } => Ok(Some(RecordRead::Refused { line, code })),
        Next::NeedMore | Next::End => Ok(None),
    }
}
