// `audit`: a report, held against its script and files.
ghost use Rattle.std.specs.Prelude.{◌≡◌, ℕ, ◌^◌, ◌<◌, ◌++◌, List, [], Some, length, IfOk, IfErr, OnOk};
ghost use Rattle.hit_report.specs.RecordLines.{spaced};
ghost use Rattle.command_words.specs.Tasks.{audit_of};
ghost use Rattle.command_ends.specs.AuditText.{DiffersAt, IsAuditText, audit_line};
ghost use Rattle.command_ends.specs.Outcomes.{stop_why};
ghost use Rattle.command_ends.specs.RunText.{ScriptWasRead, jobs_of};
ghost use Rattle.command_ends.specs.Ends.{EndsAs, MayStop, ShelfGoesOn, seen, seen_out};
ghost use Rattle.script_files.specs.JobFiles.{AreRising};
ghost use Rattle.audit_command.specs.Findings.{IsFinding};

use crate::verdicts::judge;
use command_ends::{Stop, read_file, refuse, write_answer, write_difference};
use hit_report::{append_bytes, append_spaced};
use htss_defs::OutOfMemory;
use outside::{Shelf, Sink};
use report_audit::Verdict;
use script_files::{read_all_files, script_of};
use script_text::Script;
use std::alloc::Global;

/// Holds the report of this name against the script and the script's files, and answers the status: 0 where it is a
/// report of its own log, 1 where it differs, 3 where the script is at fault, 4 where a read failed, 5 where a write
/// failed, 6 where memory ran out, 7 where a file is absent, 8 where it is too large. All files are read before the
/// report is looked at.
pub fn audit<F: Shelf, K: Sink>(
    alloc: Global,
    script: &str,
    report: &str,
    shelf: &mut F,
    out: &mut K,
) -> u8
    ensures ends { EndsAs (Some (audit_of script.now report.now))
        (seen F.told F.absent F.faults shelf.old) (seen F.told F.absent F.faults shelf.new)
        (seen_out K.written K.faults out.old) (seen_out K.written K.faults out.new) result }
{
    let groups = match script_of(alloc, script, shelf) {
        Ok(groups) => groups,
        Err(stop) => return refuse(out, stop),
    };
    match find(alloc, &groups, report, shelf) {
        Ok(Verdict::Holds { events, searches }) => {
            write_answer(out, held_text(alloc, events, searches))
        }
        Ok(Verdict::Differs { line }) => write_difference(out, line),
        Err(stop) => refuse(out, stop),
    }
}

// The verdict on the report of this name, once its bytes and the files of the script are read.
#[inline(never)]
fn find<'a, F: Shelf>(
    alloc: Global,
    script: &'a Script,
    report: &'a str,
    shelf: &mut F,
) -> Result<Verdict, Stop<'a>>
    requires rising { AreRising (jobs_of script.now.groups) }
    requires few { length (jobs_of script.now.groups) < 2 ^ 32 }
    ensures finding { IfOk result (λ verdict. (name : List ℕ) → ScriptWasRead (F.told shelf.old) name script.now.groups
        → IsFinding (F.told shelf.old) name report.now verdict) }
    ensures stop { IfErr result (λ stop. (name : List ℕ) → ScriptWasRead (F.told shelf.old) name script.now.groups
        → MayStop (audit_of name report.now)
        (seen F.told F.absent F.faults shelf.old) (seen F.told F.absent F.faults shelf.new)
        [] (stop_why stop)) }
    ensures goes_on { ShelfGoesOn
        (seen F.told F.absent F.faults shelf.old) (seen F.told F.absent F.faults shelf.new) }
{
    let bytes = read_file(alloc, report, shelf)?;
    let files = read_all_files(alloc, script.groups.as_slice(), shelf)?;
    match judge(alloc, script, &files, &bytes) {
        Ok(verdict) => Ok(verdict),
        Err(OutOfMemory) => Err(Stop::Memory),
    }
}

// The text of an audit whose report is one of its own log.
fn held_text<'a>(alloc: Global, events: u32, searches: u32) -> Result<Vec<u8>, Stop<'a>>
    ensures text { IfOk result (λ text. text.items ≡ audit_line events searches) }
    ensures memory { IfErr result (λ stop. stop ≡ Stop.Memory) }
{
    let mut text = Vec::new(alloc);
    push_held(&mut text, events, searches)?;
    Ok(text)
}

fn push_held(text: &mut Vec<u8>, events: u32, searches: u32) -> Result<(), OutOfMemory>
    ensures { OnOk result (text.new.items ≡ text.old.items ++ audit_line events searches) }
{
    append_bytes(text, b"audit")?;
    append_spaced(text, u64::from(events))?;
    append_bytes(text, b" events")?;
    append_spaced(text, u64::from(searches))?;
    append_bytes(text, b" searches\n")
}
