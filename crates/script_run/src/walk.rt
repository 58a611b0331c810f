// A worker does the jobs that are dealt to it, beside the others.
ghost use Rattle.std.specs.Prelude.{◌≡◌, [], ◌∷◌, length, map, All, OnOk, OnErr, IfOk, IfErr};
ghost use Rattle.std.specs.Thread.{IsSend, IsSync};
ghost use Rattle.report_rules.specs.Dealing.{Caller as ScriptCaller};
ghost use Rattle.board_jobs.specs.Answering.{who_of};
ghost use Rattle.board_jobs.specs.Jobs.{IsThere, IsJobDone};
ghost use Rattle.board_jobs.specs.Calls.{IsOrderOf};
ghost use Rattle.script_run.specs.Walking.{CanWork, IsWorker, DidJobs, JobBroke, Broke, DidOwn, DidAll};
ghost use Rattle.script_run.specs.Passing.{before_job, around_job, HasPassed, PassedOwn, PassedFront, Passed};
ghost use Rattle.script_run.specs.Passing.{AllPassed};

use crate::dealing::{Count, counted, has_job, is_own, jobs_in};
use crate::gate::{Gate, Place, Worker};
use board::Board;
use board_jobs::do_job;
use htss_defs::{HitList, OutOfMemory};
use report_text::Block;
use script_text::{Files, Group, Job};
use std::alloc::Global;
use std::collections::VecDeque;
use std::sync::Wait;
use std::thread::{Threads, join_mut};

/// The blocks of a worker's jobs in their order, and whether it did all of them. Otherwise memory ran out.
#[derive(Drop)]
pub struct Outcome {
    pub blocks: VecDeque<Block>,
    pub whole: bool,
}

// Does a job, and passes the gate before and after it.
fn do_own<R: Wait, G: Gate>(
    rt: &R,
    alloc: Global,
    board: &Board,
    worker: &mut Worker<G>,
    job: &Job,
    files: &Files,
    budget: u64,
    hits: &mut HitList,
) -> Result<Block, OutOfMemory>
    requires can { CanWork board.now worker.old.caller }
    requires file { IsThere files.now job.now.line job.now.order }
    requires order { IsOrderOf worker.old.caller job.now.order }
    ensures can { CanWork board.now worker.new.caller }
    ensures who { worker.new.caller.account.who ≡ worker.old.caller.account.who }
    ensures done { IfOk result (λ block. (c : ScriptCaller) → who_of c ≡ worker.old.caller.account.who
        → IsJobDone board.now.shape files.now budget c worker.old.caller.account worker.new.caller.account job.now block) }
    ensures broken { IfErr result
        (λ _. JobBroke board.now.shape files.now budget worker.old.caller.account worker.new.caller.account job.now) }
    ensures passed { IfOk result (λ _. (c : ScriptCaller) → who_of c ≡ worker.old.caller.account.who
        → HasPassed (G.passed worker.old.gate) (around_job c job.now.line) (G.passed worker.new.gate)) }
    ensures stopped { IfErr result (λ _. (c : ScriptCaller) → who_of c ≡ worker.old.caller.account.who
        → HasPassed (G.passed worker.old.gate) (before_job c job.now.line ∷ []) (G.passed worker.new.gate)) }
{
    let loader = worker.caller.is_loader();
    let number = worker.caller.number();
    let line = job.line;
    worker.gate.at(Place::Before {
        loader,
        worker: number,
        line,
    });
    let block = do_job(
        rt,
        alloc,
        board,
        &mut worker.caller,
        job,
        files,
        budget,
        hits,
    )?;
    worker.gate.at(Place::After {
        loader,
        worker: number,
        line,
    });
    Ok(block)
}

// Does the jobs of the group that are dealt to this worker, in their order, and appends their blocks.
fn do_all<R: Wait, G: Gate>(
    rt: &R,
    alloc: Global,
    board: &Board,
    worker: &mut Worker<G>,
    group: &Group,
    files: &Files,
    budget: u64,
    blocks: &mut VecDeque<Block>,
) -> Result<(), OutOfMemory>
    requires worker { IsWorker board.now worker.old.caller }
    requires files { All (λ job. IsThere files.now job.line job.order) group.now.jobs }
    requires none { blocks.old.items ≡ [] }
    ensures can { CanWork board.now worker.new.caller }
    ensures who { worker.new.caller.account.who ≡ worker.old.caller.account.who }
    ensures done { OnOk result (DidJobs board.now.shape files.now budget group.now.jobs worker.old.caller.account worker.new.caller.account blocks.new.items) }
    ensures broken { OnErr result
        (Broke board.now.shape files.now budget group.now.jobs worker.old.caller.account worker.new.caller.account) }
    ensures passed { OnOk result (PassedOwn board.now.shape group.now.jobs worker.old.caller.account.who
        (G.passed worker.old.gate) (G.passed worker.new.gate)) }
    ensures stopped { OnErr result (PassedFront board.now.shape group.now.jobs worker.old.caller.account.who
        (G.passed worker.old.gate) (G.passed worker.new.gate)) }
{
    let shape = board.shape();
    let jobs = group.jobs.as_slice();
    let mut hits = HitList::new(alloc);
    let mut count = Count {
        loads: 0,
        searches: 0,
    };
    for job in jobs {
        if is_own(shape, &worker.caller, count, &job.order) {
            let block = do_own(rt, alloc, board, worker, job, files, budget, &mut hits)?;
            blocks.push_back(block)?;
        }
        count = counted(count, &job.order);
    }
    Ok(())
}

// Does the jobs of the group that are dealt to this worker. It stands apart from the halving, so that each level of
// that takes little of a stack.
#[inline(never)]
fn work<R: Wait, G: Gate>(
    rt: &R,
    alloc: Global,
    board: &Board,
    worker: &mut Worker<G>,
    group: &Group,
    files: &Files,
    budget: u64,
    outcome: &mut Outcome,
)
    requires worker { IsWorker board.now worker.old.caller }
    requires files { All (λ job. IsThere files.now job.line job.order) group.now.jobs }
    ensures did { DidOwn board.now files.now budget group.now.jobs worker.old.caller worker.new.caller outcome.new }
    ensures gate { Passed board.now.shape group.now.jobs worker.old.caller.account.who (G.passed worker.old.gate)
        (G.passed worker.new.gate) outcome.new.whole }
{
    let mut blocks = VecDeque::new(alloc);
    let done = do_all(rt, alloc, board, worker, group, files, budget, &mut blocks);
    *outcome = Outcome {
        blocks,
        whole: done.is_ok(),
    };
}

/// Each worker does its jobs of the group, beside the others that have some.
pub fn work_all<R: Threads + Wait + Sync, G: Gate + Send>(
    rt: &R,
    alloc: Global,
    board: &Board,
    workers: &mut [Worker<G>],
    group: &Group,
    files: &Files,
    budget: u64,
    outcomes: &mut [Outcome],
)
    requires workers { All (IsWorker board.now) (map (λ w. w.caller) workers.old) }
    requires files { All (λ job. IsThere files.now job.line job.order) group.now.jobs }
    requires count { length outcomes.old ≡ length workers.old }
    ensures did { DidAll board.now files.now budget group.now.jobs (map (λ w. w.caller) workers.old)
        (map (λ w. w.caller) workers.new) outcomes.new }
    ensures gates { AllPassed G.passed board.now.shape group.now.jobs workers.old workers.new outcomes.new }
{
    let jobs = jobs_in(group);
    work_halves(
        rt, &alloc, board, workers, group, files, &budget, &jobs, outcomes,
    );
}

// Whether none of these workers has a job in a group that has so many.
fn are_idle<G>(workers: &[Worker<G>], jobs: Count) -> bool {
    for worker in workers {
        if has_job(&worker.caller, jobs) {
            return false;
        }
    }
    true
}

// One half of the workers beside the other, or before it where one of them has nothing to do. What is lent to both
// threads comes by reference: what they write is known only then.
fn work_halves<R: Threads + Wait + Sync, G: Gate + Send>(
    rt: &R,
    alloc: &Global,
    board: &Board,
    workers: &mut [Worker<G>],
    group: &Group,
    files: &Files,
    budget: &u64,
    jobs: &Count,
    outcomes: &mut [Outcome],
)
    requires workers { All (IsWorker board.now) (map (λ w. w.caller) workers.old) }
    requires files { All (λ job. IsThere files.now job.line job.order) group.now.jobs }
    requires count { length outcomes.old ≡ length workers.old }
    ensures did { DidAll board.now files.now budget.now group.now.jobs (map (λ w. w.caller) workers.old)
        (map (λ w. w.caller) workers.new) outcomes.new }
    ensures gates { AllPassed G.passed board.now.shape group.now.jobs workers.old workers.new outcomes.new }
{
    if workers.len() < 2 {
        if let (Some(worker), Some(outcome)) = (workers.first_mut(), outcomes.first_mut()) {
            work(rt, *alloc, board, worker, group, files, *budget, outcome);
        }
        return;
    }
    let half = workers.len() / 2;
    let (front, back) = workers.split_at_mut(half);
    let (first, last) = outcomes.split_at_mut(half);
    if are_idle(front, *jobs) || are_idle(back, *jobs) {
        work_halves(rt, alloc, board, front, group, files, budget, jobs, first);
        work_halves(rt, alloc, board, back, group, files, budget, jobs, last);
        return;
    }
    join_mut(
        rt,
        &mut ||
            requires { IsSync R.row × IsSend G.row × All (IsWorker board.now) (map (λ w. w.caller) front.now)
                × All (λ job. IsThere files.now job.line job.order) group.now.jobs
                × (length first.now ≡ length front.now) }
            ensures { DidAll board.entry.now files.entry.now budget.entry.now group.entry.now.jobs
                (map (λ w. w.caller) front.entry.now) (map (λ w. w.caller) front.exit.now) first.exit.now
                × AllPassed G.passed board.entry.now.shape group.entry.now.jobs front.entry.now front.exit.now first.exit.now }
        { work_halves(rt, alloc, board, front, group, files, budget, jobs, first) },
        &mut ||
            requires { IsSync R.row × IsSend G.row × All (IsWorker board.now) (map (λ w. w.caller) back.now)
                × All (λ job. IsThere files.now job.line job.order) group.now.jobs
                × (length last.now ≡ length back.now) }
            ensures { DidAll board.entry.now files.entry.now budget.entry.now group.entry.now.jobs
                (map (λ w. w.caller) back.entry.now) (map (λ w. w.caller) back.exit.now) last.exit.now
                × AllPassed G.passed board.entry.now.shape group.entry.now.jobs back.entry.now back.exit.now last.exit.now }
        { work_halves(rt, alloc, board, back, group, files, budget, jobs, last) },
    );
}
