// Loaders stage and publish records beside each other, each in a thread of its own. The board is closed afterwards.
ghost use Rattle.std.specs.Prelude.{◌≡◌, IfOk};
ghost use Rattle.std.specs.List.{All};
ghost use Rattle.htss_defs.specs.Marked.{IsMarked};
ghost use Rattle.board.specs.Seated.{IsOf, IsAtRest};
ghost use Rattle.board.specs.Staging.{IsStaged};
ghost use Rattle.pub_log.specs.Locking.{IsHeld};
ghost use Rattle.tree_tests.specs.Ready.{CanLoad, IsLoading};

use crate::sketches::{Sketch, molecule_of, name_of};
use board::{Board, Caller, Staged};
use htss_defs::{Mol, Name};
use loader::{StageError, stage};
use pub_log::{Locked, lock};
use std::alloc::Global;
use std::sync::Wait;
use std::thread::{Threads, for_each_mut};

// What became of a record.
#[derive(Clone, Copy, Debug, PartialEq, Eq, Drop)]
pub(crate) enum Outcome {
    // with this number
    Published(u32),
    LogFull,
    Refused(StageError),
}

// A record that a loader tried: which of the sketches it is, how many words of its region the loader had used before,
// and what became of it.
#[derive(Clone, Copy, Drop)]
pub(crate) struct Try {
    pub(crate) sketch: usize,
    pub(crate) used: u32,
    pub(crate) outcome: Outcome,
}

// A loader, what it has tried, the pages that it took in the end, and whether memory ran out.
#[derive(Drop)]
pub(crate) struct Loading {
    pub(crate) caller: Caller,
    pub(crate) tries: Vec<Try>,
    pub(crate) taken: Vec<u32>,
    pub(crate) failed: bool,
}

// The lock is taken. A record that was staged before is staged still.
fn lock_with<R: Wait>(rt: &R, board: &Board, caller: &mut Caller, staged: &Staged) -> Locked
    requires rest { IsAtRest board.now caller.old }
    requires loader { CanLoad caller.old }
    requires staged { IsStaged board.now.shape caller.old.account staged.now }
    ensures of { IsOf board.now caller.new }
    ensures unpinned { caller.new.account.pool.announced ≡ 0 }
    ensures loader { CanLoad caller.new }
    ensures held { IsHeld board.now.shape caller.new.account result }
    ensures staged { IsStaged board.now.shape caller.new.account staged.now }
{
    lock(rt, board, caller)
}

// A record that is staged is published.
fn publish<R: Wait>(rt: &R, board: &Board, caller: &mut Caller, staged: Staged) -> Outcome
    requires rest { IsAtRest board.now caller.old }
    requires loader { CanLoad caller.old }
    requires staged { IsStaged board.now.shape caller.old.account staged }
    ensures rest { IsAtRest board.now caller.new }
    ensures loader { CanLoad caller.new }
{
    let locked = lock_with(rt, board, caller, &staged);
    match locked.publish(board, caller, staged) {
        Ok(number) => Outcome::Published(number),
        Err(_) => Outcome::LogFull,
    }
}

// Stages a record, by a loader that holds no lock.
fn stage_at_rest(
    board: &Board,
    caller: &mut Caller,
    mol: &Mol,
    name: &Name,
) -> Result<Staged, StageError>
    requires rest { IsAtRest board.now caller.old }
    requires loader { CanLoad caller.old }
    requires marked { IsMarked mol.now }
    ensures rest { IsAtRest board.now caller.new }
    ensures loader { CanLoad caller.new }
    ensures staged { IfOk result (λ s. IsStaged board.now.shape caller.new.account s) }
{
    stage(board, caller, mol, name)
}

// A record is staged and published, or it is refused.
fn put<R: Wait>(rt: &R, board: &Board, caller: &mut Caller, mol: &Mol, name: &Name) -> Outcome
    requires loading { IsLoading board.now caller.old }
    requires marked { IsMarked mol.now }
    ensures { IsLoading board.now caller.new }
{
    match stage_at_rest(board, caller, mol, name) {
        Ok(staged) => publish(rt, board, caller, staged),
        Err(cause) => Outcome::Refused(cause),
    }
}

// The loader tries this one of the sketches.
fn try_one<R: Wait>(
    rt: &R,
    alloc: Global,
    board: &Board,
    caller: &mut Caller,
    tries: &mut Vec<Try>,
    sketches: &[Sketch],
    sketch: usize,
) -> Option<()>
    requires { IsLoading board.now caller.old }
    ensures { IsLoading board.now caller.new }
{
    let one = sketches.get(sketch)?;
    let mol = molecule_of(alloc, one)?;
    let name = name_of(alloc, one)?;
    let used = caller.used();
    let outcome = put(rt, board, caller, &mol, &name);
    tries
        .push(Try {
            sketch,
            used,
            outcome,
        })
        .ok()
}

// The loader tries its own of the sketches: those whose numbers leave its place when divided by the number of loaders.
fn try_own<R: Wait>(
    rt: &R,
    alloc: Global,
    board: &Board,
    place: usize,
    loaders: usize,
    loading: &mut Loading,
    sketches: &[Sketch],
)
    requires { IsLoading board.now loading.old.caller }
    ensures { IsLoading board.now loading.new.caller }
{
    for sketch in 0..sketches.len() {
        if loaders > 0 && sketch % loaders == place {
            let tried = try_one(
                rt,
                alloc,
                board,
                &mut loading.caller,
                &mut loading.tries,
                sketches,
                sketch,
            );
            if tried.is_none() {
                loading.failed = true;
            }
        }
    }
}

// All loaders have their turns, each in a thread of its own.
pub(crate) fn load<R: Threads + Wait + Sync>(
    rt: &R,
    alloc: Global,
    board: &Board,
    loadings: &mut [Loading],
    sketches: &[Sketch],
)
    requires { All (λ l. IsLoading board.now l.caller) loadings.old }
    ensures { All (λ l. IsLoading board.now l.caller) loadings.new }
{
    let loaders = loadings.len();
    for_each_mut(
        rt,
        loadings,
        16,
        &|place: usize, loading: &mut Loading|
            requires { IsLoading board.now loading.old.caller }
            ensures { IsLoading board.entry.now loading.new.caller }
        { try_own(rt, alloc, board, place, loaders, loading, sketches) },
    );
}
