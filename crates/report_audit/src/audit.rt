// The check of a given report.
ghost use Rattle.std.specs.Prelude.{◌≡◌, ◌⊎◌, ℕ, ◌+◌, ◌<◌, ◌^◌, List, length, map, All, IfOk, IfSome, IfNone};
ghost use Rattle.htss_defs.specs.Shapes.{IsShape};
ghost use Rattle.script_text.specs.declared.script.Group.{Group};
ghost use Rattle.report_text.specs.Values.{IsInGrammar};
ghost use Rattle.report_rules.specs.Dealing.{dealt, searches_in};
ghost use Rattle.report_rules.specs.Faults.{IsFirstFault, IsRuleFault, IsUnnamed, Setting, line_after, line_of_event};
ghost use Rattle.report_rules.specs.Reports.{IsReport};
ghost use Rattle.report_audit.specs.Audits.{IsCase, IsVerdict, MayBeAudited};
ghost use Rattle.report_audit.specs.BlockChecks.{AreTurnsOf, IsAllKept};
ghost use Rattle.told_history.specs.LaidJobs.{job_of, searches_of};
ghost use Rattle.report_audit.specs.SoFars.{IsFree};
ghost use Rattle.told_history.specs.Telling.{IsMarkedNamer, IsWhole};

use crate::so_far::SoFar;
use crate::turns::{Turns, line_after, take_blocks};
use crate::verdict::Verdict;
use htss_defs::OutOfMemory;
use report_rules::law_of_reports;
use report_text::Report;
use script_text::{Files, Job, Order, Script};
use std::alloc::Global;
use told_history::{
    BrokenEvent, JobRead, LaidJob, Namer, Told, first_broken, lay_out, name_events, read_jobs,
};

/// Whether a report is one of its own log for the script and the files of its jobs, or the first line at fault.
pub fn audit_report(
    alloc: Global,
    script: &Script,
    files: &Files,
    report: &Report,
) -> Result<Verdict, OutOfMemory>
    requires { MayBeAudited script.now.groups files.now report.now }
    ensures { IfOk result (λ verdict. IsVerdict script.now.groups files.now report.now verdict) }
{
    let jobs = lay_out(alloc, script.groups.as_slice())?;
    let reads = read_jobs(alloc, &jobs, files)?;
    let blocks = report.blocks.as_slice();
    let count = report.events.as_slice().len();
    let table = name_events(alloc, &jobs, &reads, blocks, count)?;
    if let Some(line) = first_fault(alloc, report, &jobs, &reads, &table)? {
        return Ok(Verdict::Differs { line });
    }
    Ok(Verdict::Holds {
        events: count as u32,
        searches: searches_among(&jobs),
    })
}

// The first line of the report at fault.
fn first_fault(
    alloc: Global,
    report: &Report,
    jobs: &[LaidJob<'_>],
    reads: &[JobRead],
    table: &[Namer<'_>],
) -> Result<Option<u64>, OutOfMemory>
    requires lines { line_of_event report.now (length report.now.events) < 2 ^ 64 }
    requires few { length report.now.events < 2 ^ 32 }
    requires reads { length reads.now ≡ length jobs.now }
    requires table { length table.now ≡ length report.now.events }
    requires marked { All IsMarkedNamer table.now }
    ensures fault { IfOk result (λ found. IfSome found (λ line. (script : List Group) (files : List (ℕ × List ℕ))
        → IsCase script files report.now jobs.now reads.now table.now
        → IsFirstFault script files report.now line)) }
    ensures none { IfOk result (λ found. IfNone found ((script : List Group) (files : List (ℕ × List ℕ))
        → IsCase script files report.now jobs.now reads.now table.now
        → IsInGrammar report.now → IsReport script files report.now.shape report.now.budget report.now)) }
{
    law_of_reports();
    if report.shape.first_outside().is_some() {
        return Ok(Some(1));
    }
    let lines = report.events.as_slice();
    let blocks = report.blocks.as_slice();
    let log = line_after(blocks);
    if lines.len() > report.shape.log as usize {
        return Ok(Some(log));
    }
    match first_broken(alloc, report.shape, lines)? {
        Err(BrokenEvent { number }) => Ok(Some(log + u64::from(number))),
        Ok(withdrawals) => {
            let told = Told {
                lines,
                withdrawals: &withdrawals,
                table,
            };
            let turns = Turns {
                alloc,
                shape: report.shape,
                budget: report.budget,
                jobs,
                reads,
                blocks,
            };
            first_later_fault(&told, &turns)
        }
    }
}

// The first line of a block at fault or, where there is none, that of the first event that no line names.
fn first_later_fault(told: &Told<'_>, turns: &Turns<'_>) -> Result<Option<u64>, OutOfMemory>
    requires whole { IsWhole told.now }
    requires shape { IsShape turns.now.shape }
    requires reads { length turns.now.reads.now ≡ length turns.now.jobs.now }
    requires lines { line_after turns.now.blocks.now + length told.now.lines.now < 2 ^ 64 }
    ensures fault { IfOk result (λ found. IfSome found
        (λ line. (script : List Group) (s : Setting) → AreTurnsOf told.now turns.now script s
        → IsRuleFault s (dealt s.shape 1 script) turns.now.blocks.now line
        ⊎ ((number : ℕ) × (line ≡ line_after turns.now.blocks.now + number)
        × IsUnnamed s (dealt s.shape 1 script) turns.now.blocks.now number))) }
    ensures none { IfOk result (λ found. IfNone found
        ((script : List Group) (s : Setting) → AreTurnsOf told.now turns.now script s
        → IsAllKept s (dealt s.shape 1 script) turns.now.blocks.now)) }
{
    let mut so_far = SoFar::new(turns.alloc, told.lines.len())?;
    if let Some(line) = take_blocks(told, &mut so_far, turns)? {
        return Ok(Some(line));
    }
    match first_free(&so_far.taken) {
        Some(number) => Ok(Some(line_after(turns.blocks).saturating_add(number))),
        None => Ok(None),
    }
}

// The number of the first event that no line names.
fn first_free(taken: &[bool]) -> Option<u64>
    ensures free { IfSome result (λ number. IsFree taken.now number
        × ((other : ℕ) → other < number → IsFree taken.now other → ⊥)) }
    ensures none { IfNone result ((other : ℕ) → IsFree taken.now other → ⊥) }
{
    for (index, held) in taken.iter().enumerate() {
        if !*held {
            return Some(index as u64 + 1);
        }
    }
    None
}

// How many of the jobs are searches.
fn searches_among(jobs: &[LaidJob<'_>]) -> u32
    requires { length jobs.now < 2 ^ 32 }
    ensures { result ≡ searches_of (map job_of jobs.now) }
{
    let mut count = 0;
    for laid in jobs {
        count += is_search(laid.job);
    }
    count
}

fn is_search(job: &Job) -> u32
    ensures { result ≡ searches_in job.now.order }
{
    match &job.order {
        Order::Search { .. } => 1,
        Order::Load { .. } | Order::Withdraw { .. } => 0,
    }
}
