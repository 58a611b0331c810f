// A report, as it is read.
ghost use Rattle.std.specs.Prelude.{◌≡◌, ◌≢◌, ◌<◌, ◌^◌, [], length, Ok, IfOk, IfErr};
ghost use Rattle.report_text.specs.ReportText.{report_text};
ghost use Rattle.report_text.specs.declared.report.Report.{Report};
ghost use Rattle.report_text.specs.Values.{IsInGrammar};
ghost use Rattle.report_read.specs.Faults.{IsFirstFault, cut_lines};
ghost use Rattle.report_read.specs.StageOf.{maybe_stage, stage_of};
ghost use Rattle.report_read.specs.Stages.{Ended};
ghost use Rattle.report_read.specs.Taken.{Took};

use crate::state::State;
use htss_defs::OutOfMemory;
use memchr::memchr;
use report_lines::read_line;
use report_text::Report;
use std::alloc::Global;

/// Bytes that are no report.
#[derive(Clone, Copy, Debug, PartialEq, Eq)]
pub struct ReportRefusal {
    /// The number of the first line, from 1 on, that no report with the same lines before it has there.
    pub line: u64,
}

/// The report of these bytes, which have fewer than 2^32 lines, or where they leave off to be one. Writing what was
/// read gives the same bytes, and reading what was written the same report.
pub fn read_report(
    alloc: Global,
    bytes: &[u8],
) -> Result<Result<Report, ReportRefusal>, OutOfMemory>
    requires { length (cut_lines bytes.now) < 2 ^ 32 }
    ensures report { IfOk result (λ read. IfOk read (λ report. IsInGrammar report × (report_text report ≡ bytes.now))) }
    ensures refused { IfOk result (λ read. IfErr read (λ refusal. IsFirstFault (cut_lines bytes.now) refusal.line)) }
    ensures back { IfOk result (λ read. (report : Report) → IsInGrammar report → report_text report ≡ bytes.now
        → read ≡ Ok report) }
{
    let mut state = State::Fresh;
    let mut rest = bytes;
    let mut number = 1;
    while let Some(end) = memchr(b'\n', rest) {
        let Some(next) = take_line(alloc, state, &rest[..end])? else {
            return Ok(Err(ReportRefusal { line: number }));
        };
        state = next;
        number += 1;
        rest = &rest[end + 1..];
    }
    Ok(finish(state, rest, number))
}

// The report, where it is whole and no byte is left.
fn finish(state: State, left: &[u8], number: u64) -> Result<Report, ReportRefusal>
    ensures whole { IfOk result (λ report. (stage_of state ≡ Ended report) × (left.now ≡ [])) }
    ensures cut { IfErr result (λ refusal. refusal.line ≡ number) }
    ensures short { IfErr result (λ _. left.now ≡ [] → (report : Report) → stage_of state ≢ Ended report) }
{
    if !left.is_empty() {
        return Err(ReportRefusal { line: number });
    }
    match state {
        State::Ended { report } => Ok(report),
        _ => Err(ReportRefusal { line: number }),
    }
}

// The state after the line of these bytes, which stand before its LF, or `None` exactly where no report has it there.
fn take_line(alloc: Global, state: State, text: &[u8]) -> Result<Option<State>, OutOfMemory>
    ensures { IfOk result (λ next. Took (stage_of state) text.now (maybe_stage next)) }
{
    match read_line(alloc, text)? {
        Some(line) => state.step(alloc, line),
        None => Ok(None),
    }
}
