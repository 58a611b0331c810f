// Audits of the reports of drawn scripts, whose callers are threads: each holds; cut before a line, or changed in a
// word, it differs where it must.
ghost use Rattle.std.specs.Prelude.{IfOk};
ghost use Rattle.outside.specs.Memory.{HaveOwnNames};

use crate::changed_reports::{Bounds, Changed, changes_of, cuts_of, events_of, rows_of};
use crate::differences::file;
use crate::drawn_scripts::{answered, report_of, script_of};
use crate::made::add;
use outside::{MemShelf, NamedBytes};
use std::alloc::Global;
use std::process::Abort;
use std::sync::Wait;
use std::test::Fail;
use std::thread::Threads;

// How many jobs a script has.
const JOBS: u32 = 24;

fn holds<R: Threads + Wait + Sync + Abort>(rt: &R, alloc: Global, seed: u64) -> Result<(), Fail> {
    let report = report_of(rt, alloc, seed, JOBS)?;
    let rows = rows_of(alloc, &report)?;
    let events = events_of(&rows)?;
    let mut told = script_of(rt, alloc, seed, JOBS)?;
    let searches = told.searches;
    add(rt, &mut told.files, file(alloc, "report.txt", &report)?)?;
    let mut shelf = MemShelf::new(told.files, vec![in alloc]?);
    let answer = answered(rt, alloc, &["audit", "s.txt", "report.txt"], &mut shelf)?;
    let wanted = format!(in alloc; "audit {events} events {searches} searches\n")?;
    assert_eq!(rt; (answer.0, &*answer.1), (0, &*wanted), "seed {seed}");
    Ok(())
}

#[test]
fn reports_of_several_callers_hold(rt: HostRuntime) -> Result<(), Fail> {
    for seed in 0..100 {
        holds(&rt, rt.alloc(), seed)?;
    }
    Ok(())
}

// The line that the text of an audit tells of.
fn line_told(text: &str) -> Option<u64> {
    let (word, rest) = text.split_once(' ')?;
    let (line, after) = rest.split_once('\n')?;
    if word != "differs" || !after.is_empty() {
        return None;
    }
    line.parse::<u64>().ok()
}

// The answer is that the report holds, or a line within the bounds.
fn is_within(answer: &(u8, String), bounds: Bounds) -> bool {
    if bounds.most == 0 {
        return answer.0 == 0;
    }
    match line_told(&answer.1) {
        Some(line) => answer.0 == 1 && bounds.least <= line && line <= bounds.most,
        None => false,
    }
}

// The files of a script with the changed reports, each under its place.
fn files_with(
    rt: &impl Abort,
    alloc: Global,
    seed: u64,
    changes: &[Changed],
) -> Result<Vec<NamedBytes>, Fail>
    ensures { IfOk result (λ files. HaveOwnNames files.items) }
{
    let mut files = script_of(rt, alloc, seed, JOBS)?.files;
    for (place, changed) in changes.iter().enumerate() {
        let name = format!(in alloc; "changed {place}")?;
        add(rt, &mut files, file(alloc, &name, &changed.text)?)?;
    }
    Ok(files)
}

fn are_within<R: Threads + Wait + Sync + Abort>(
    rt: &R,
    alloc: Global,
    seed: u64,
    changes: &[Changed],
) -> Result<(), Fail> {
    let files = files_with(rt, alloc, seed, changes)?;
    let mut shelf = MemShelf::new(files, vec![in alloc]?);
    for (place, changed) in changes.iter().enumerate() {
        let name = format!(in alloc; "changed {place}")?;
        let answer = answered(rt, alloc, &["audit", "s.txt", &name], &mut shelf)?;
        assert!(rt;
            is_within(&answer, changed.bounds),
            "seed {seed}: {} {}, not from {} to {} in:\n{}",
            answer.0,
            answer.1,
            changed.bounds.least,
            changed.bounds.most,
            changed.text
        );
    }
    Ok(())
}

#[test]
fn changed_reports_differ_where_they_must(rt: HostRuntime) -> Result<(), Fail> {
    let alloc = rt.alloc();
    for seed in 0..2 {
        let report = report_of(&rt, alloc, seed, JOBS)?;
        let changes = changes_of(alloc, &report)?;
        are_within(&rt, alloc, seed, &changes)?;
    }
    Ok(())
}

#[test]
fn cut_reports_differ_at_their_end(rt: HostRuntime) -> Result<(), Fail> {
    let alloc = rt.alloc();
    for seed in 0..2 {
        let report = report_of(&rt, alloc, seed, JOBS)?;
        let cuts = cuts_of(alloc, &report)?;
        are_within(&rt, alloc, seed, &cuts)?;
    }
    Ok(())
}
