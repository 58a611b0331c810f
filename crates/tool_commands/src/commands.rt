// The commands, done one by one.
ghost use Rattle.std.specs.Prelude.{◌≡◌, ◌≤◌, [], Some, IfOk, IfErr};
ghost use Rattle.hit_report.specs.RecordLines.{query_refused_line};
ghost use Rattle.command_words.specs.Tasks.{IsInLimits, check_of, codes_of, command_task, find_in};
ghost use Rattle.command_ends.specs.Outcomes.{stop_why};
ghost use Rattle.command_ends.specs.FindText.{IsCheckText, IsCodesText, IsFindText, IsFoundIn, QueryWasRead};
ghost use Rattle.command_ends.specs.Ends.{EndsAs, MayStop, ShelfGoesOn, seen, seen_out, without_waiting};
ghost use Rattle.command_ends.specs.Stops.{IsStopOfFile};

use crate::check_taker::CheckTaker;
use crate::codes::codes_text;
use crate::find_taker::FindTaker;
use crate::generate::{make, summary_of};
use crate::list::read_list;
use audit_command::audit;
use command_ends::{Stop, read_file, refuse, write_answer};
use command_words::Command;
use hit_report::push_query_refused;
use htss_defs::{OutOfMemory, Query};
use outside::{Shelf, Sink};
use query_mol::{QueryRefusal, read_query};
use std::alloc::Global;

/// Does the command, unless it may wait as `run` does, and answers its status.
pub fn do_command<F: Shelf, K: Sink>(
    alloc: Global,
    command: Command<'_>,
    shelf: &mut F,
    out: &mut K,
) -> u8
    requires { IsInLimits command }
    ensures ends { EndsAs (without_waiting (Some (command_task command.entry)))
        (seen F.told F.absent F.faults shelf.old) (seen F.told F.absent F.faults shelf.new)
        (seen_out K.written K.faults out.old) (seen_out K.written K.faults out.new) result }
{
    match command {
        Command::Find { sdf, query, budget } => {
            write_answer(out, find(alloc, sdf, query, budget, shelf))
        }
        Command::Check { sdf } => write_answer(out, check(alloc, sdf, shelf)),
        Command::Codes { mol } => write_answer(out, codes(alloc, mol, shelf)),
        Command::Make {
            count,
            seed,
            summary,
        } => {
            if summary {
                write_answer(out, summary_of(alloc, count, seed))
            } else {
                make(alloc, count, seed, out)
            }
        }
        Command::Audit { script, report } => audit(alloc, script, report, shelf, out),
        Command::Run { .. } => refuse(out, Stop::Usage),
    }
}

// The text of `find`.
#[inline(never)]
fn find<'a, F: Shelf>(
    alloc: Global,
    sdf: &'a str,
    query: &'a str,
    budget: u64,
    shelf: &mut F,
) -> Result<Vec<u8>, Stop<'a>>
    ensures text { IfOk result (λ text.
        IsFindText (F.told shelf.old) sdf.now query.now budget text.items) }
    ensures stop { IfErr result (λ stop. MayStop (find_in sdf.now query.now budget)
        (seen F.told F.absent F.faults shelf.old) (seen F.told F.absent F.faults shelf.new)
        [] (stop_why stop)) }
    ensures goes_on { ShelfGoesOn
        (seen F.told F.absent F.faults shelf.old) (seen F.told F.absent F.faults shelf.new) }
{
    match read_asked(alloc, query, shelf)? {
        Ok(asked) => find_hits(alloc, sdf, &asked, budget, shelf),
        Err(refusal) => refused_text(alloc, refusal),
    }
}

// The lines of the refused records, and what a search of the others answers.
#[inline(never)]
fn find_hits<'a, F: Shelf>(
    alloc: Global,
    sdf: &'a str,
    asked: &Query,
    budget: u64,
    shelf: &mut F,
) -> Result<Vec<u8>, Stop<'a>>
    ensures text { IfOk result (λ text. IsFoundIn (F.told shelf.old) sdf.now asked.now budget text.items) }
    ensures stop { IfErr result (λ stop. IsStopOfFile
        (seen F.told F.absent F.faults shelf.old) (seen F.told F.absent F.faults shelf.new)
        sdf.now (stop_why stop)) }
    ensures goes_on { ShelfGoesOn
        (seen F.told F.absent F.faults shelf.old) (seen F.told F.absent F.faults shelf.new) }
{
    let mut taker = FindTaker::new(alloc, asked, budget);
    read_list(alloc, sdf, shelf, &mut taker)?;
    match taker.text() {
        Ok(text) => Ok(text),
        Err(OutOfMemory) => Err(Stop::Memory),
    }
}

// The text of `check`.
#[inline(never)]
fn check<'a, F: Shelf>(alloc: Global, sdf: &'a str, shelf: &mut F) -> Result<Vec<u8>, Stop<'a>>
    ensures text { IfOk result (λ text. IsCheckText (F.told shelf.old) sdf.now text.items) }
    ensures stop { IfErr result (λ stop. MayStop (check_of sdf.now)
        (seen F.told F.absent F.faults shelf.old) (seen F.told F.absent F.faults shelf.new)
        [] (stop_why stop)) }
    ensures goes_on { ShelfGoesOn
        (seen F.told F.absent F.faults shelf.old) (seen F.told F.absent F.faults shelf.new) }
{
    let mut taker = CheckTaker::new(alloc);
    read_list(alloc, sdf, shelf, &mut taker)?;
    match taker.text() {
        Ok(text) => Ok(text),
        Err(OutOfMemory) => Err(Stop::Memory),
    }
}

// The text of `codes`.
#[inline(never)]
fn codes<'a, F: Shelf>(alloc: Global, mol: &'a str, shelf: &mut F) -> Result<Vec<u8>, Stop<'a>>
    ensures text { IfOk result (λ text. IsCodesText (F.told shelf.old) mol.now text.items) }
    ensures stop { IfErr result (λ stop. MayStop (codes_of mol.now)
        (seen F.told F.absent F.faults shelf.old) (seen F.told F.absent F.faults shelf.new)
        [] (stop_why stop)) }
    ensures goes_on { ShelfGoesOn
        (seen F.told F.absent F.faults shelf.old) (seen F.told F.absent F.faults shelf.new) }
{
    let molfile = read_file(alloc, mol, shelf)?;
    Ok(codes_text(alloc, &molfile)?)
}

// The line of a query that is refused.
fn refused_text<'a>(alloc: Global, refusal: QueryRefusal) -> Result<Vec<u8>, Stop<'a>>
    ensures text { IfOk result (λ text. text.items ≡ query_refused_line refusal.line refusal.code) }
    ensures memory { IfErr result (λ stop. stop ≡ Stop.Memory) }
{
    let mut text = Vec::new(alloc);
    push_query_refused(&mut text, refusal.line, refusal.code)?;
    Ok(text)
}

// The query of the file with this name, or where it is refused.
#[inline(never)]
fn read_asked<'a, F: Shelf>(
    alloc: Global,
    name: &'a str,
    shelf: &mut F,
) -> Result<Result<Query, QueryRefusal>, Stop<'a>>
    ensures read { IfOk result (λ outcome. QueryWasRead (F.told shelf.old) name.now outcome) }
    ensures stop { IfErr result (λ stop. IsStopOfFile
        (seen F.told F.absent F.faults shelf.old) (seen F.told F.absent F.faults shelf.new)
        name.now (stop_why stop)) }
    ensures goes_on { ShelfGoesOn
        (seen F.told F.absent F.faults shelf.old) (seen F.told F.absent F.faults shelf.new) }
{
    let bytes = read_file(alloc, name, shelf)?;
    Ok(read_query(alloc, &bytes)?)
}
