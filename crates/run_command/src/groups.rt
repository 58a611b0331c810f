// The groups of a script, one after the other.
ghost use Rattle.std.specs.Prelude.{◌≡◌, ◌⊎◌, ℕ, List, [], ◌∷◌, ◌++◌, All, IfErr, OnOk, OnErr};
ghost use Rattle.std.specs.List.{flat_map};
ghost use Rattle.htss_defs.specs.Shapes.{IsShape};
ghost use Rattle.script_text.specs.declared.script.Group.{Group};
ghost use Rattle.report_text.specs.ReportText.{block_text};
ghost use Rattle.report_text.specs.Typed.{IsTypedBlock};
ghost use Rattle.board_jobs.specs.Groups.{AreNew};
ghost use Rattle.board_jobs.specs.Jobs.{IsThere};
ghost use Rattle.script_run.specs.Working.{AreCallers};
ghost use Rattle.script_run.specs.Workers.{callers_of, accounts_of};
ghost use Rattle.report_text.specs.declared.report.Block.{Block};
ghost use Rattle.command_ends.specs.Outcomes.{stop_why};
ghost use Rattle.command_ends.specs.RunText.{ScriptWasRead};
ghost use Rattle.command_ends.specs.Ends.{ShelfGoesOn, seen};
ghost use Rattle.run_command.specs.Hearing.{HaveGoneAndHeard};
ghost use Rattle.run_command.specs.Runs.{AreRising, HasDone, IsGroupDone, RunMayStop, StopsAtEnd, with_header};

use crate::apart::Apart;
use crate::texts::{append_blocks, append_header};
use board::Board;
use command_ends::Stop;
use htss_defs::OutOfMemory;
use outside::Shelf;
use report_text::are_typed;
use script_files::read_files;
use script_run::{Worker, run_group};
use script_text::{Files, Group};
use std::alloc::Global;
use std::sync::Wait;
use std::thread::Threads;

/// Runs the groups, one after the other, and appends their blocks.
pub fn run_groups<'a, R: Threads + Wait + Sync, F: Shelf>(
    rt: &R,
    alloc: Global,
    board: &Board,
    workers: &mut [Worker<Apart>],
    groups: &'a [Group],
    budget: u64,
    shelf: &mut F,
    text: &mut Vec<u8>,
) -> Result<(), Stop<'a>>
    requires shape { IsShape board.now.shape }
    requires rising { All (λ group. AreRising group.jobs) groups.now }
    requires callers { AreCallers board.now (callers_of workers.old) }
    requires new { AreNew board.now.shape (accounts_of workers.old) }
    requires empty { text.old.items ≡ [] }
    ensures callers { AreCallers board.now (callers_of workers.new) }
    ensures done { OnOk result ((script : List ℕ) → ScriptWasRead (F.told shelf.old) script groups.now
        → HasDone (F.told shelf.old) groups.now board.now.shape budget (accounts_of workers.new) text.new.items) }
    ensures stop { IfErr result (λ stop. StopsAtEnd board.now.shape (accounts_of workers.new)
        (RunMayStop (F.told shelf.old) groups.now board.now.shape budget
        (seen F.told F.absent F.faults shelf.old) (seen F.told F.absent F.faults shelf.new)
        text.new.items (stop_why stop))) }
    ensures goes_on { ShelfGoesOn
        (seen F.told F.absent F.faults shelf.old) (seen F.told F.absent F.faults shelf.new) }
{
    for group in groups {
        do_group(rt, alloc, board, workers, group, budget, shelf, text)?;
    }
    Ok(())
}

// Reads the files of a group, does its jobs and appends their blocks, after the first line where the group is the
// first.
fn do_group<'a, R: Threads + Wait + Sync, F: Shelf>(
    rt: &R,
    alloc: Global,
    board: &Board,
    workers: &mut [Worker<Apart>],
    group: &'a Group,
    budget: u64,
    shelf: &mut F,
    text: &mut Vec<u8>,
) -> Result<(), Stop<'a>>
    requires shape { IsShape board.now.shape }
    requires rising { AreRising group.now.jobs }
    requires callers { AreCallers board.now (callers_of workers.old) }
    ensures callers { AreCallers board.now (callers_of workers.new) }
    ensures done { OnOk result ((before after : List Group) (script : List ℕ)
        → ScriptWasRead (F.told shelf.old) script (before ++ group.now ∷ after)
        → HasDone (F.told shelf.old) before board.now.shape budget (accounts_of workers.old) text.old.items
        → HasDone (F.told shelf.old) (before ++ group.now ∷ []) board.now.shape budget
        (accounts_of workers.new) text.new.items) }
    ensures stop { IfErr result (λ stop. (before after : List Group)
        → HasDone (F.told shelf.old) before board.now.shape budget (accounts_of workers.old) text.old.items
        → StopsAtEnd board.now.shape (accounts_of workers.new)
        (RunMayStop (F.told shelf.old) (before ++ group.now ∷ after) board.now.shape budget
        (seen F.told F.absent F.faults shelf.old) (seen F.told F.absent F.faults shelf.new)
        text.new.items (stop_why stop))) }
    ensures goes_on { ShelfGoesOn
        (seen F.told F.absent F.faults shelf.old) (seen F.told F.absent F.faults shelf.new) }
{
    let files = read_files(alloc, group.jobs.as_slice(), shelf)?;
    match append_group(rt, alloc, board, workers, group, &files, budget, text) {
        Ok(()) => Ok(()),
        Err(OutOfMemory) => Err(Stop::Memory),
    }
}

// Does the jobs of a group and appends their blocks, after the first line where there is no text yet.
#[inline(never)]
fn append_group<R: Threads + Wait + Sync>(
    rt: &R,
    alloc: Global,
    board: &Board,
    workers: &mut [Worker<Apart>],
    group: &Group,
    files: &Files,
    budget: u64,
    text: &mut Vec<u8>,
) -> Result<(), OutOfMemory>
    requires shape { IsShape board.now.shape }
    requires files { All (λ job. IsThere files.now job.line job.order) group.now.jobs }
    requires callers { AreCallers board.now (callers_of workers.old) }
    ensures callers { AreCallers board.now (callers_of workers.new) }
    ensures done { OnOk result ((blocks : List Block)
        × IsGroupDone board.now.shape files.now budget group.now (accounts_of workers.old)
        (accounts_of workers.new) blocks
        × (text.new.items ≡ with_header text.old.items board.now.shape budget ++ flat_map block_text blocks)
        × All IsTypedBlock blocks) }
    ensures broken { OnErr result
        (HaveGoneAndHeard board.now.shape (accounts_of workers.old) (accounts_of workers.new)) }
    ensures front { OnErr result ((text.new.items ≡ text.old.items)
        ⊎ (text.new.items ≡ with_header text.old.items board.now.shape budget)) }
{
    append_header(text, &board.shape(), budget)?;
    let blocks = run_group(rt, alloc, board, workers, group, files, budget)?;
    are_typed(&blocks);
    append_blocks(text, &blocks)
}
