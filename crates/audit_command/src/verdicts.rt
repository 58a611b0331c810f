// The verdict on the bytes of a report.
ghost use Rattle.std.specs.Prelude.{ℕ, ◌^◌, ◌<◌, ◌≤◌, length, All, IfOk};
ghost use Rattle.outside.specs.Files.{file_limit};
ghost use Rattle.command_ends.specs.RunText.{jobs_of};
ghost use Rattle.told_history.specs.Reads.{HasItsFile};
ghost use Rattle.audit_command.specs.Findings.{IsJudged};

use htss_defs::OutOfMemory;
use report_audit::{Verdict, audit_report};
use report_read::read_report;
use script_text::{Files, Script};
use std::alloc::Global;

/// Whether the bytes are a report of its own log for the script and its files, or which line is the first at fault.
#[inline(never)]
pub fn judge(
    alloc: Global,
    script: &Script,
    files: &Files,
    bytes: &[u8],
) -> Result<Verdict, OutOfMemory>
    requires files { All (λ job. HasItsFile files.now job.line job.order) (jobs_of script.now.groups) }
    requires jobs { length (jobs_of script.now.groups) < 2 ^ 32 }
    requires bytes { length bytes.now ≤ file_limit }
    ensures { IfOk result (λ verdict. IsJudged script.now.groups files.now bytes.now verdict) }
{
    let read = read_report(alloc, bytes)?;
    match read {
        Ok(report) => audit_report(alloc, script, files, &report),
        Err(refusal) => Ok(Verdict::Differs { line: refusal.line }),
    }
}
