// A board is opened with a worker for each of its callers, and closed with them.
ghost use Rattle.std.specs.Prelude.{◌≡◌, ◌≤◌, [], length, IfOk, vec_capacity};
ghost use Rattle.htss_defs.specs.Shapes.{IsShape};
ghost use Rattle.board.specs.Closed.{IsSettled, IsShown};
ghost use Rattle.board_jobs.specs.Groups.{AreNew};
ghost use Rattle.script_run.specs.Working.{AreCallers};
ghost use Rattle.script_run.specs.Workers.{callers_of, accounts_of};
ghost use Rattle.run_command.specs.Runs.{HasEnd};

use crate::apart::Apart;
use board::{Board, Caller, Final, gather, open_board};
use htss_defs::{OutOfMemory, Shape};
use script_run::Worker;
use std::alloc::Global;

/// A new board of this shape, the workers of its callers, and room for the callers at the end.
pub fn open(
    alloc: Global,
    shape: Shape,
) -> Result<(Board, Vec<Worker<Apart>>, Vec<Caller>), OutOfMemory>
    requires { IsShape shape }
    ensures shape { IfOk result (λ o. o.0.shape ≡ shape) }
    ensures callers { IfOk result (λ o. AreCallers o.0 (callers_of o.1.items)) }
    ensures new { IfOk result (λ o. AreNew shape (accounts_of o.1.items)) }
    ensures empty { IfOk result (λ o. o.2.items ≡ []) }
    ensures room { IfOk result (λ o. length o.1.items ≤ vec_capacity o.2) }
{
    let (board, callers) = match open_board(alloc, shape) {
        Ok(opened) => opened,
        Err(_) => return Err(OutOfMemory),
    };
    let seats = Vec::with_capacity(alloc, callers.len())?;
    let workers = workers_of(alloc, callers)?;
    Ok((board, workers, seats))
}

// The workers of these callers, in their order.
fn workers_of(alloc: Global, callers: Vec<Caller>) -> Result<Vec<Worker<Apart>>, OutOfMemory>
    ensures { IfOk result (λ workers. callers_of workers.items ≡ callers.items) }
{
    let mut workers = Vec::new(alloc);
    for caller in callers {
        workers.push(Worker {
            caller,
            gate: Apart { between: [0; 16] },
        })?;
    }
    Ok(workers)
}

// The callers of these workers, in their order, in a list with room for them.
fn callers_back(workers: Vec<Worker<Apart>>, mut seats: Vec<Caller>) -> Vec<Caller>
    requires empty { seats.items ≡ [] }
    requires room { length workers.items ≤ vec_capacity seats }
    ensures { result.items ≡ callers_of workers.items }
{
    for worker in workers {
        let Worker { caller, gate: _ } = worker;
        seats.push(caller).unwrap();
    }
    seats
}

/// Closes the board, with what the workers' callers know.
pub fn close(board: Board, workers: Vec<Worker<Apart>>, seats: Vec<Caller>) -> Final
    requires shape { IsShape board.shape }
    requires callers { AreCallers board (callers_of workers.items) }
    requires empty { seats.items ≡ [] }
    requires room { length workers.items ≤ vec_capacity seats }
    ensures shape { result.shape ≡ board.shape }
    ensures accounts { result.accounts ≡ accounts_of workers.items }
    ensures end { HasEnd board.shape (accounts_of workers.items) result.history }
    ensures settled { IsSettled result }
    ensures shown { IsShown result }
{
    let last = gather(board, callers_back(workers, seats));
    last.is_settled();
    last
}
