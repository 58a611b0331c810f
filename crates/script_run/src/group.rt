// The jobs of a group.
ghost use Rattle.std.specs.Prelude.{◌≡◌, ℕ, List, length, map, All, true, IfOk, IfErr};
ghost use Rattle.htss_defs.specs.Shapes.{IsShape};
ghost use Rattle.report_rules.specs.Reports.{Done, done_block};
ghost use Rattle.board_jobs.specs.Ends.{HaveGoneOn};
ghost use Rattle.board_jobs.specs.Groups.{GroupIsDone};
ghost use Rattle.board_jobs.specs.Jobs.{IsThere};
ghost use Rattle.board_jobs.specs.Pruning.{SearchersStayPruned};
ghost use Rattle.board_jobs.specs.Reading.{SearchersRead};
ghost use Rattle.script_run.specs.Working.{AreCallers};
ghost use Rattle.script_run.specs.Walking.{GroupIsBroken};
ghost use Rattle.script_run.specs.Workers.{accounts_of, callers_of};
ghost use Rattle.script_run.specs.Passing.{GatesPassed, GatesPassedFront};

use crate::gate::{Gate, Worker};
use crate::meet::meet;
use crate::merge::merge;
use crate::walk::{Outcome, work_all};
use board::Board;
use htss_defs::OutOfMemory;
use report_text::Block;
use script_text::{Files, Group};
use std::alloc::Global;
use std::collections::VecDeque;
use std::sync::Wait;
use std::thread::Threads;

// An outcome for each worker.
fn no_outcomes(alloc: Global, count: usize) -> Result<Vec<Outcome>, OutOfMemory>
    ensures { IfOk result (λ outcomes. length outcomes.items ≡ count) }
{
    let mut outcomes = Vec::with_capacity(alloc, count)?;
    for _ in 0..count {
        let blocks = VecDeque::new(alloc);
        outcomes.push(Outcome {
            blocks,
            whole: false,
        })?;
    }
    Ok(outcomes)
}

// Whether each worker did all of its jobs.
fn are_whole(outcomes: &[Outcome]) -> bool
    ensures { result ≡ true → All (λ o. o.whole ≡ true) outcomes.now }
{
    for outcome in outcomes {
        if !outcome.whole {
            return false;
        }
    }
    true
}

/// Does the jobs of the group, each worker its own beside the others, and answers their blocks in the order of the
/// jobs. The files have the bytes of each job's file by its line; a search without a budget of its own has the given
/// one. When all jobs are done the workers have met. An `Err` is want of memory: what was done before stays, each
/// worker's first jobs and what it had begun of the next.
pub fn run_group<R: Threads + Wait + Sync, G: Gate + Send>(
    rt: &R,
    alloc: Global,
    board: &Board,
    workers: &mut [Worker<G>],
    group: &Group,
    files: &Files,
    budget: u64,
) -> Result<Vec<Block>, OutOfMemory>
    requires callers { AreCallers board.now (callers_of workers.old) }
    requires files { All (λ job. IsThere files.now job.line job.order) group.now.jobs }
    ensures callers { AreCallers board.now (callers_of workers.new) }
    ensures done { IfOk result (λ blocks. (number : ℕ) → (front : ℕ) × (done : List Done)
        × GroupIsDone board.now.shape files.now budget number group.now (accounts_of workers.old)
        (accounts_of workers.new) front done
        × (blocks.items ≡ map done_block done)) }
    ensures broken { IfErr result
        (λ _. HaveGoneOn board.now.shape (accounts_of workers.old) (accounts_of workers.new)) }
    ensures begun { IfErr result (λ _. GroupIsBroken board.now.shape files.now budget group.now
        (accounts_of workers.old) (accounts_of workers.new)) }

    // A searcher that had loaded nothing since its last answer has loaded nothing since its last one now, and what it
    // has loaded for each search is pruned.
    ensures pruned { IfOk result
        (λ _. SearchersStayPruned board.now.shape (accounts_of workers.old) (accounts_of workers.new)) }

    // For each of these searches it has loaded names, atoms and bonds of screened records alone, and where it has hits,
    // all of each of these.
    ensures read { IfOk result (λ _.
        SearchersRead board.now.shape (accounts_of workers.old) (accounts_of workers.new)) }

    // Each worker's gate was told where it stood before and after each of its jobs, and nothing else.
    ensures gates { IfOk result (λ _. GatesPassed G.passed board.now.shape group.now.jobs workers.old workers.new) }
    ensures gates_broken { IfErr result
        (λ _. GatesPassedFront G.passed board.now.shape group.now.jobs workers.old workers.new) }
{
    let mut outcomes = no_outcomes(alloc, workers.len())?;
    work_all(
        rt,
        alloc,
        board,
        workers,
        group,
        files,
        budget,
        &mut outcomes,
    );
    if !are_whole(&outcomes) {
        return Err(OutOfMemory);
    }
    let blocks = merge(alloc, board.shape(), group, &mut outcomes)?;
    meet(board, workers);
    Ok(blocks)
}
