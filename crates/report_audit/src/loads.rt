// The lines of a load.
ghost use Rattle.std.specs.Prelude.{◌≡◌, ◌⊎◌, ℕ, ◌+◌, ◌<◌, List, Some, true, false, length, map, max, IfSome, IfNone};
ghost use Rattle.ctfile.specs.RecordList.{IsRecordList};
ghost use Rattle.script_text.specs.FilesByLine.{bytes_at};
ghost use Rattle.report_rules.specs.Dealing.{Dealt};
ghost use Rattle.report_rules.specs.Faults.{IsLoadFault, Setting};
ghost use Rattle.report_rules.specs.Rules.{Line};
ghost use Rattle.report_audit.specs.BlockChecks.{AreKeptLines, HasLoaded, IsFaultyLine};
ghost use Rattle.report_audit.specs.Callers.{caller_of};
ghost use Rattle.told_history.specs.Reads.{outcome_of};
ghost use Rattle.report_audit.specs.Tallied.{IsCaller};
ghost use Rattle.told_history.specs.Telling.{IsWhole};

use crate::carried::carried_by_record;
use crate::records_kept::keeps_record;
use crate::so_far::SoFar;
use crate::tally::Caller;
use htss_defs::Shape;
use report_text::LoadLine;
use told_history::{RecordRead, Told};

/// Notes the lines of a load; or gives the first at fault, by its place after the first line of the block.
pub fn take_lines(
    told: &Told<'_>,
    so_far: &mut SoFar,
    shape: Shape,
    caller: Caller,
    records: &[RecordRead],
    lines: &[LoadLine],
) -> Option<usize>
    requires whole { IsWhole told.now }
    requires caller { IsCaller (caller_of caller) }
    ensures kept { IfNone result (AreKeptLines told.now so_far.old so_far.new shape caller
        (map outcome_of records.now) lines.now) }
    ensures fault { IfSome result (λ offset. IsFaultyLine told.now so_far.old shape caller
        (map outcome_of records.now) lines.now offset) }
{
    let count = larger(records.len(), lines.len());
    for index in 0..count {
        if !take_line(told, so_far, shape, caller, records, lines, index) {
            return Some(index + 1);
        }
    }
    None
}

/// The larger of two.
pub fn larger(one: usize, other: usize) -> usize
    ensures { result ≡ max one other }
{
    one.max(other)
}

// Notes the line of the record at this index, if it is one that keeps its rule.
fn take_line(
    told: &Told<'_>,
    so_far: &mut SoFar,
    shape: Shape,
    caller: Caller,
    records: &[RecordRead],
    lines: &[LoadLine],
    index: usize,
) -> bool
    requires whole { IsWhole told.now }
    requires caller { IsCaller (caller_of caller) }
    requires due { (index < length lines.now) ⊎ (index < length records.now) }
    ensures kept { result ≡ true → (s : Setting) (earlier : List Line) (one : Dealt) → s.shape ≡ shape
        → HasLoaded told.now so_far.old caller s earlier one (map outcome_of records.now) lines.now index
        → (index < length lines.now) × (index < length records.now)
        × HasLoaded told.now so_far.new caller s earlier one (map outcome_of records.now) lines.now (index + 1) }
    ensures fault { result ≡ false → (s : Setting) (earlier : List Line) (one : Dealt) → s.shape ≡ shape
        → HasLoaded told.now so_far.old caller s earlier one (map outcome_of records.now) lines.now index
        → (at : ℕ) (bytes : List ℕ) → bytes_at s.files at ≡ Some bytes → IsRecordList bytes (map outcome_of records.now)
        → IsLoadFault s earlier one at lines.now (index + 1) }
{
    if index >= records.len() {
        return false;
    }
    if index >= lines.len() {
        return false;
    }
    let read = &records[index];
    let line = &lines[index];
    if !keeps_record(told, so_far, shape, caller, read, line, index + 1) {
        return false;
    }
    so_far.note(caller, carried_by_record(read, line));
    true
}
