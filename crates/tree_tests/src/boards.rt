// Boards that are opened with a list for each loader, and closed.
ghost use Rattle.std.specs.Prelude.{◌≡◌, ◌+◌, ◌<◌, length, IfOk, IsTrue};
ghost use Rattle.std.specs.List.{All};
ghost use Rattle.board.specs.Seated.{IsAtRest, IsLoader};
ghost use Rattle.tree_tests.specs.Ready.{IsLoading, IsResting, WasGiven};

use crate::loads::{Loading, Try};
use board::{Board, Caller, Final, gather, open_board};
use htss_defs::Shape;
use page_pool::{NoPage, take};
use std::alloc::Global;
use std::test::Fail;

// The callers of a board, loaders and searchers apart.
#[derive(Drop)]
pub(crate) struct Crowd {
    pub(crate) loadings: Vec<Loading>,
    pub(crate) searchers: Vec<Caller>,
}

// The callers of a board that was just opened.
fn callers_of(alloc: Global, shape: Shape) -> Result<(Board, Vec<Caller>), Fail>
    ensures callers { IfOk result (λ r. All (IsResting r.0) r.1.items) }
    ensures count { IfOk result (λ r. length r.1.items ≡ r.0.shape.loaders + r.0.shape.searchers) }
{
    Ok(open_board(alloc, shape)?)
}

// Adds the caller to those of its kind.
fn sort_in(alloc: Global, board: &Board, crowd: &mut Crowd, caller: Caller) -> Result<(), Fail>
    requires caller { IsResting board.now caller }
    requires loadings { All (λ l. IsLoading board.now l.caller) crowd.old.loadings.items }
    requires searchers { All (IsAtRest board.now) crowd.old.searchers.items }
    ensures loadings { IfOk result (λ _. All (λ l. IsLoading board.now l.caller) crowd.new.loadings.items) }
    ensures searchers { IfOk result (λ _. All (IsAtRest board.now) crowd.new.searchers.items) }
    ensures count { IfOk result (λ _. length crowd.new.loadings.items + length crowd.new.searchers.items
        ≡ length crowd.old.loadings.items + length crowd.old.searchers.items + 1) }
{
    if caller.is_loader() {
        let tries = Vec::new(alloc);
        let taken = Vec::new(alloc);
        crowd.loadings.push(Loading {
            caller,
            tries,
            taken,
            failed: false,
        })?;
    } else {
        crowd.searchers.push(caller)?;
    }
    Ok(())
}

// The callers, by their kind.
fn sorted(alloc: Global, board: &Board, callers: Vec<Caller>) -> Result<Crowd, Fail>
    requires { All (IsResting board.now) callers.items }
    ensures loadings { IfOk result (λ crowd. All (λ l. IsLoading board.now l.caller) crowd.loadings.items) }
    ensures searchers { IfOk result (λ crowd. All (IsAtRest board.now) crowd.searchers.items) }
    ensures count { IfOk result
        (λ crowd. length crowd.loadings.items + length crowd.searchers.items ≡ length callers.items) }
{
    let mut crowd = Crowd {
        loadings: Vec::new(alloc),
        searchers: Vec::new(alloc),
    };
    for caller in callers {
        sort_in(alloc, board, &mut crowd, caller)?;
    }
    Ok(crowd)
}

// A new board of this shape, and its callers.
pub(crate) fn open(alloc: Global, shape: Shape) -> Result<(Board, Crowd), Fail>
    ensures loadings { IfOk result (λ r. All (λ l. IsLoading r.0 l.caller) r.1.loadings.items) }
    ensures searchers { IfOk result (λ r. All (IsAtRest r.0) r.1.searchers.items) }
    ensures count { IfOk result (λ r. length r.1.loadings.items + length r.1.searchers.items ≡ r.0.shape.loaders
        + r.0.shape.searchers) }
{
    let (board, callers) = callers_of(alloc, shape)?;
    let crowd = sorted(alloc, &board, callers)?;
    Ok((board, crowd))
}

// A page, for a loader at rest that was given so many.
fn take_at_rest(board: &Board, caller: &mut Caller, _count: u32) -> Result<u32, NoPage>
    requires rest { IsAtRest board.now caller.old }
    requires loader { IsLoader caller.old }
    requires given { WasGiven caller.old _count }
    requires few { _count < 32 }
    ensures rest { IsAtRest board.now caller.new }
    ensures loader { IsLoader caller.new }
    ensures given { IfOk result (λ _. WasGiven caller.new (_count + 1)) }
{
    take(board, caller)
}

// Takes one page more, where the pool has one.
fn take_one(board: &Board, loading: &mut Loading, count: u32) -> Result<bool, Fail>
    requires rest { IsAtRest board.now loading.old.caller }
    requires loader { IsLoader loading.old.caller }
    requires given { WasGiven loading.old.caller count }
    requires few { count < 32 }
    ensures rest { IsAtRest board.now loading.new.caller }
    ensures loader { IsLoader loading.new.caller }
    ensures given { IfOk result (λ more. IsTrue more → WasGiven loading.new.caller (count + 1)) }
{
    match take_at_rest(board, &mut loading.caller, count) {
        Ok(page) => {
            loading.taken.push(page)?;
            Ok(true)
        }
        Err(NoPage) => Ok(false),
    }
}

// Takes 32 pages, or as many as there are: those that the loader keeps, and those that the pool has.
pub(crate) fn take_all(board: &Board, loading: &mut Loading) -> Result<(), Fail>
    requires rest { IsAtRest board.now loading.old.caller }
    requires loader { IsLoader loading.old.caller }
    requires given { WasGiven loading.old.caller 0 }
    ensures rest { IsAtRest board.now loading.new.caller }
    ensures loader { IsLoader loading.new.caller }
{
    for count in 0..32 {
        if !take_one(board, loading, count)? {
            return Ok(());
        }
    }
    Ok(())
}

// What a loader has done.
#[derive(Drop)]
pub(crate) struct Done {
    pub(crate) tries: Vec<Try>,
    pub(crate) taken: Vec<u32>,
    pub(crate) failed: bool,
}

// The caller of one loader goes to the others, and what it has done is told. Before that it takes what pages it is
// given, if it should.
fn end_one(
    board: &Board,
    takes: bool,
    mut loading: Loading,
    callers: &mut Vec<Caller>,
    done: &mut Vec<Done>,
) -> Result<(), Fail>
    requires loading { IsLoading board.now loading.caller }
    requires callers { All (IsAtRest board.now) callers.old.items }
    ensures callers { IfOk result (λ _. All (IsAtRest board.now) callers.new.items) }
    ensures count { IfOk result (λ _. length callers.new.items ≡ length callers.old.items + 1) }
{
    if takes {
        take_all(board, &mut loading)?;
    }
    let Loading {
        caller,
        tries,
        taken,
        failed,
    } = loading;
    done.push(Done {
        tries,
        taken,
        failed,
    })?;
    callers.push(caller)?;
    Ok(())
}

// The callers of the loaders go to the others, one after the other.
fn end_all(
    board: &Board,
    takes: bool,
    loadings: Vec<Loading>,
    callers: &mut Vec<Caller>,
    done: &mut Vec<Done>,
) -> Result<(), Fail>
    requires loadings { All (λ l. IsLoading board.now l.caller) loadings.items }
    requires callers { All (IsAtRest board.now) callers.old.items }
    ensures callers { IfOk result (λ _. All (IsAtRest board.now) callers.new.items) }
    ensures count { IfOk result (λ _. length callers.new.items ≡ length loadings.items + length callers.old.items) }
{
    for loading in loadings {
        end_one(board, takes, loading, callers, done)?;
    }
    Ok(())
}

// Each loader takes what pages it is given, if they should, and the board is closed. Answers what each loader has done.
pub(crate) fn close(
    alloc: Global,
    board: Board,
    takes: bool,
    crowd: Crowd,
) -> Result<(Final, Vec<Done>), Fail>
    requires loadings { All (λ l. IsLoading board l.caller) crowd.loadings.items }
    requires searchers { All (IsAtRest board) crowd.searchers.items }
    requires count { length crowd.loadings.items + length crowd.searchers.items ≡ board.shape.loaders
        + board.shape.searchers }
{
    let Crowd {
        loadings,
        searchers: mut callers,
    } = crowd;
    let mut done = Vec::new(alloc);
    end_all(&board, takes, loadings, &mut callers, &mut done)?;
    if callers.is_empty() {
        return Err("no caller".into());
    }
    let last = gather(board, callers);
    last.is_settled();
    Ok((last, done))
}
