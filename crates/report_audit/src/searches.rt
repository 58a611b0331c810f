// The block of a search.
ghost use Rattle.std.specs.Prelude.{◌≡◌, ◌↔◌, ℕ, ◌≤◌, List, Some, None, IsTrue, true, false, length, IfOk, IfSome};
ghost use Rattle.std.specs.Prelude.{IfNone};
ghost use Rattle.report_text.specs.declared.report.SearchLine.TheVariants as search;
ghost use Rattle.report_rules.specs.Answers.{Answer};
ghost use Rattle.report_rules.specs.Dealing.{Dealt};
ghost use Rattle.report_rules.specs.Faults.{KeepsFront, Setting, line_by};
ghost use Rattle.report_rules.specs.Rules.{Line};
ghost use Rattle.report_audit.specs.BlockChecks.{IsFaultySearch, IsKeptSearch, IsRefusedSo, query_in};
ghost use Rattle.report_audit.specs.Callers.{caller_of};
ghost use Rattle.report_audit.specs.LineChecks.{IsNextOf};
ghost use Rattle.report_audit.specs.Tallied.{IsCaller};
ghost use Rattle.told_history.specs.Telling.{IsWhole};
ghost use Rattle.told_history.specs.declared.told.Told.{Told};

use crate::carried::{carried_by_front, nothing_carried};
use crate::so_far::SoFar;
use crate::tally::Caller;
use htss_defs::{Hit, OutOfMemory, Query};
use report_text::SearchLine;
use std::alloc::Global;
use told_history::{JobRead, Told, check_hits, check_over};

/// Notes the line of a search whose lines keep their rules; or gives the first at fault, by its place after the block's
/// first line.
pub fn take_search(
    alloc: Global,
    told: &Told<'_>,
    so_far: &mut SoFar,
    caller: Caller,
    budget: u64,
    read: &JobRead,
    answer: &SearchLine,
) -> Result<Option<usize>, OutOfMemory>
    requires whole { IsWhole told.now }
    requires caller { IsCaller (caller_of caller) }
    ensures kept { IfOk result (λ found. IfNone found
        (IsKeptSearch told.now so_far.old so_far.new caller budget read.now answer.now)) }
    ensures fault { IfOk result (λ found. IfSome found
        (λ offset. IsFaultySearch told.now so_far.old caller budget read.now answer.now offset)) }
{
    match answer {
        SearchLine::Refused { line, code } => Ok(take_refusal(so_far, caller, read, *line, *code)),
        SearchLine::Hits {
            front,
            hits,
            records,
            ..
        } => {
            let printed = PrintedHits {
                front: *front,
                hits: hits.as_slice(),
                records: *records,
            };
            take_hits(alloc, told, so_far, caller, budget, read, printed)
        }
        SearchLine::OverBudget {
            front,
            budget: printed,
        } => { take_over(told, so_far, caller, budget, read, *front, *printed) }
    }
}

// Notes that a query is refused, where it is refused so.
fn take_refusal(
    so_far: &mut SoFar,
    caller: Caller,
    read: &JobRead,
    line: u64,
    code: u8,
) -> Option<usize>
    requires { IsCaller (caller_of caller) }
    ensures kept { (told : Told) (budget : ℕ)
        → IfNone result (IsKeptSearch told so_far.old so_far.new caller budget read.now (search.Refused line code)) }
    ensures fault { (told : Told) (budget : ℕ)
        → IfSome result (λ offset. IsFaultySearch told so_far.old caller budget read.now
        (search.Refused line code) offset) }
{
    if !is_refused_so(read, line, code) {
        return Some(0);
    }
    so_far.note(caller, nothing_carried());
    None
}

fn is_refused_so(read: &JobRead, line: u64, code: u8) -> bool
    ensures { IsTrue result ↔ IsRefusedSo read.now line code }
{
    match read {
        JobRead::Asked(Err(refusal)) => refusal.line == line && refusal.code == code,
        JobRead::Asked(Ok(_)) | JobRead::Records(_) | JobRead::Nothing => false,
    }
}

// The query that a file was read as.
fn query_of(read: &JobRead) -> Option<&Query>
    ensures asked { IfSome result (λ query. query_in read.now ≡ Some query.now) }
    ensures none { result ≡ None → query_in read.now ≡ None }
{
    match read {
        JobRead::Asked(Ok(query)) => Some(query),
        JobRead::Asked(Err(_)) | JobRead::Records(_) | JobRead::Nothing => None,
    }
}

// Whether the front is within the log and may be a search's on the caller's next line.
fn keeps_front(told: &Told<'_>, so_far: &SoFar, caller: Caller, front: u32) -> bool
    requires { IsCaller (caller_of caller) }
    ensures within { result ≡ true → front ≤ length told.now.lines.now }
    ensures kept { result ≡ true → (s : Setting) (earlier : List Line) (one : Dealt) (answer : Answer)
        → IsNextOf told.now so_far.now caller s earlier one
        → KeepsFront s earlier (line_by one answer) front }
    ensures fault { result ≡ false → (s : Setting) (earlier : List Line) (one : Dealt) (answer : Answer)
        → IsNextOf told.now so_far.now caller s earlier one
        → KeepsFront s earlier (line_by one answer) front → ⊥ }
{
    if front as usize > told.lines.len() {
        return false;
    }
    so_far.tally.is_search_front(caller, front)
}

// What the lines of a search with hits say that an audit tests.
#[derive(Clone, Copy)]
struct PrintedHits<'a> {
    front: u32,
    hits: &'a [Hit],
    records: u32,
}

// Notes the front of a search that has these hits and screened so many records.
fn take_hits(
    alloc: Global,
    told: &Told<'_>,
    so_far: &mut SoFar,
    caller: Caller,
    budget: u64,
    read: &JobRead,
    printed: PrintedHits<'_>,
) -> Result<Option<usize>, OutOfMemory>
    requires whole { IsWhole told.now }
    requires caller { IsCaller (caller_of caller) }
    ensures kept { (rows : ℕ)
        → IfOk result (λ found. IfNone found (IsKeptSearch told.now so_far.old so_far.new caller budget read.now
        (search.Hits printed.entry.front printed.entry.hits.now rows printed.entry.records))) }
    ensures fault { (rows : ℕ)
        → IfOk result (λ found. IfSome found (λ offset. IsFaultySearch told.now so_far.old caller budget read.now
        (search.Hits printed.entry.front printed.entry.hits.now rows printed.entry.records) offset)) }
{
    let Some(query) = query_of(read) else {
        return Ok(Some(0));
    };
    if !keeps_front(told, so_far, caller, printed.front) {
        return Ok(Some(0));
    }
    if let Some(offset) = check_hits(
        alloc,
        told,
        query,
        budget,
        printed.front,
        printed.hits,
        printed.records,
    )? {
        return Ok(Some(offset));
    }
    so_far.note(caller, carried_by_front(printed.front));
    Ok(None)
}

// Notes the front of a search whose work exceeds its budget.
fn take_over(
    told: &Told<'_>,
    so_far: &mut SoFar,
    caller: Caller,
    budget: u64,
    read: &JobRead,
    front: u32,
    printed: u64,
) -> Result<Option<usize>, OutOfMemory>
    requires whole { IsWhole told.now }
    requires caller { IsCaller (caller_of caller) }
    ensures kept { IfOk result (λ found. IfNone found
        (IsKeptSearch told.now so_far.old so_far.new caller budget read.now (search.OverBudget front printed))) }
    ensures fault { IfOk result (λ found. IfSome found (λ offset.
        IsFaultySearch told.now so_far.old caller budget read.now (search.OverBudget front printed) offset)) }
{
    let Some(query) = query_of(read) else {
        return Ok(Some(0));
    };
    if !keeps_front(told, so_far, caller, front) {
        return Ok(Some(0));
    }
    if printed != budget {
        return Ok(Some(1));
    }
    if !check_over(told, query, budget, front) {
        return Ok(Some(1));
    }
    so_far.note(caller, carried_by_front(front));
    Ok(None)
}
