// Searches of a board beside what loaders do.
ghost use Rattle.std.specs.Prelude.{◌≡◌, ◌+◌, OnOk};
ghost use Rattle.htss_defs.specs.Marked.{IsMarked};
ghost use Rattle.board.specs.Seated.{IsOf, IsAtRest};
ghost use Rattle.board_tests.specs.Loading.{CanLoad};
ghost use Rattle.board.specs.Staging.{IsStaged};
ghost use Rattle.pub_log.specs.Locking.{IsHeld};

use crate::locks::withdraw;
use crate::made::{CARBON, molecule, named, open_three, open_two};
use crate::staging::stage_at_rest;
use board::{Board, Caller, Final, Staged, gather};
use htss_defs::{AtomTest, Event, HitList, Mol, Name, Query, QueryAtom, SearchError};
use pub_log::{Locked, LogFull, WithdrawError, lock};
use ring_bonds::marked_query;
use searcher::search;
use std::alloc::Global;
use std::process::Abort;
use std::sync::Wait;
use std::test::Fail;

// Any carbon.
fn any_carbon(alloc: Global) -> Result<Query, Fail> {
    let atom = QueryAtom {
        test: AtomTest::Element(6),
        charge: 0,
        mass: 0,
    };
    let atoms = Vec::from_slice(alloc, &[atom])?;
    Ok(marked_query(atoms, Vec::new(alloc)).ok_or("no query")?)
}

// The lock is taken. A record that was staged before is staged still.
fn lock_with<R: Wait>(rt: &R, board: &Board, caller: &mut Caller, staged: &Staged) -> Locked
    requires rest { IsAtRest board.now caller.old }
    requires loader { CanLoad caller.old }
    requires staged { IsStaged board.now.shape caller.old.account staged.now }
    ensures of { IsOf board.now caller.new }
    ensures unpinned { caller.new.account.pool.announced ≡ 0 }
    ensures loader { CanLoad caller.new }
    ensures held { IsHeld board.now.shape caller.new.account result }
    ensures staged { IsStaged board.now.shape caller.new.account staged.now }
{
    lock(rt, board, caller)
}

// A record is staged and published. Answers its number.
fn publish<R: Wait>(
    rt: &R,
    board: &Board,
    caller: &mut Caller,
    mol: &Mol,
    name: &[u8],
) -> Result<Result<u32, LogFull>, Fail>
    requires rest { IsAtRest board.now caller.old }
    requires loader { CanLoad caller.old }
    requires marked { IsMarked mol.now }
    ensures rest { OnOk result (IsAtRest board.now caller.new) }
    ensures loader { OnOk result (CanLoad caller.new) }
{
    let staged = stage_at_rest(board, caller, mol, &named(name)?)?;
    let locked = lock_with(rt, board, caller, &staged);
    match locked.publish(board, caller, staged) {
        Ok(number) => Ok(Ok(number)),
        Err((full, _)) => Ok(Err(full)),
    }
}

// A budget, and what a search under it answers.
struct Reply {
    budget: u64,
    front: Result<u32, SearchError>,
    // the numbers and names
    hits: &'static [(u32, &'static [u8])],
    rows: u64,
    records: u32,
}

fn check_hits<R: Abort>(rt: &R, hits: &HitList, wanted: &Reply) {
    let found = hits.hits();
    assert_eq!(rt; found.len(), wanted.hits.len());
    for place in 0..found.len() {
        let (number, name) = wanted.hits[place];
        assert_eq!(rt; found[place].number, number);
        assert_eq!(rt; found[place].name.bytes(), name);
    }
    assert_eq!(rt; hits.rows(), wanted.rows);
    assert_eq!(rt; hits.records(), wanted.records);
}

fn look<R: Abort>(
    rt: &R,
    alloc: Global,
    board: &Board,
    caller: &mut Caller,
    query: &Query,
    hits: &mut HitList,
    wanted: &Reply,
)
    requires rest { IsAtRest board.now caller.old }
    ensures rest { IsAtRest board.now caller.new }
{
    let front = search(alloc, board, caller, query, wanted.budget, hits);
    assert_eq!(rt; front, wanted.front);
    check_hits(rt, hits, wanted);
}

const NOTHING: Reply = Reply {
    budget: 0,
    front: Ok(0),
    hits: &[],
    rows: 0,
    records: 0,
};

#[test]
fn finds_nothing_on_a_new_board(rt: HostRuntime) -> Result<(), Fail> {
    let (board, mut loader, _) = open_two(rt.alloc(), 45, 4)?;
    let query = any_carbon(rt.alloc())?;
    let mut hits = HitList::new(rt.alloc());
    look(
        &rt,
        rt.alloc(),
        &board,
        &mut loader,
        &query,
        &mut hits,
        &NOTHING,
    );
    Ok(())
}

const FIRST: Reply = Reply {
    budget: 100,
    front: Ok(1),
    hits: &[(1, b"A")],
    rows: 2,
    records: 1,
};

const BOTH: Reply = Reply {
    budget: 100,
    front: Ok(2),
    hits: &[(1, b"A"), (2, b"B")],
    rows: 3,
    records: 2,
};

#[test]
fn a_held_lock_stops_no_search_and_no_stage(rt: HostRuntime) -> Result<(), Fail> {
    let alloc = rt.alloc();
    let (board, mut first, mut second, mut searcher) = open_three(alloc)?;
    let query = any_carbon(alloc)?;
    let mol = molecule(alloc, &[CARBON], &[])?;
    let mut hits = HitList::new(alloc);
    assert_eq!(rt; publish(&rt, &board, &mut first, &mol, b"A")?, Ok(1));
    let name = named(b"B")?;
    let staged = stage_at_rest(&board, &mut first, &mol, &name)?;

    let locked = lock_with(&rt, &board, &mut first, &staged);
    look(&rt, alloc, &board, &mut searcher, &query, &mut hits, &FIRST);
    let other = stage_at_rest(&board, &mut second, &mol, &name);
    let published = locked.publish(&board, &mut first, staged);

    assert!(rt; other.is_ok());
    assert_eq!(rt; published.ok(), Some(2));
    look(&rt, alloc, &board, &mut searcher, &query, &mut hits, &BOTH);
    Ok(())
}

// A call, and what it answers.
enum Step {
    Publish(&'static [u8], Result<u32, LogFull>),
    Withdraw(u32, Result<u32, WithdrawError>),
    Look(Reply),
}

const STEPS: [Step; 12] = [
    Step::Publish(b"A", Ok(1)),
    Step::Publish(b"B", Ok(2)),
    Step::Withdraw(0, Err(WithdrawError::Unknown { front: 2 })),
    Step::Withdraw(3, Err(WithdrawError::Unknown { front: 2 })),
    Step::Withdraw(9, Err(WithdrawError::Unknown { front: 2 })),
    Step::Withdraw(1, Ok(3)),
    Step::Withdraw(1, Err(WithdrawError::Gone { at: 3 })),
    Step::Withdraw(3, Err(WithdrawError::Unknown { front: 3 })),
    Step::Withdraw(2, Err(WithdrawError::LogFull { front: 3 })),
    Step::Publish(b"C", Err(LogFull { front: 3 })),
    Step::Look(Reply {
        budget: 100,
        front: Ok(3),
        hits: &[(2, b"B")],
        rows: 3,
        records: 1,
    }),
    Step::Look(Reply {
        budget: 0,
        front: Err(SearchError::OverBudget { front: 3 }),
        hits: &[],
        rows: 0,
        records: 0,
    }),
];

// The loader of each event, the name of a publication, and the number that is withdrawn.
const HISTORY: [(u8, &[u8], u32); 3] = [(1, b"A", 0), (1, b"B", 0), (1, b"", 1)];

fn take_step<R: Abort + Wait>(
    rt: &R,
    alloc: Global,
    board: &Board,
    loader: &mut Caller,
    searcher: &mut Caller,
    hits: &mut HitList,
    step: &Step,
) -> Result<(), Fail>
    requires rest { IsAtRest board.now loader.old }
    requires loader { CanLoad loader.old }
    requires searches { IsAtRest board.now searcher.old }
    ensures rest { OnOk result (IsAtRest board.now loader.new) }
    ensures loader { OnOk result (CanLoad loader.new) }
    ensures searches { OnOk result (IsAtRest board.now searcher.new) }
{
    match step {
        Step::Publish(name, wanted) => {
            let mol = molecule(alloc, &[CARBON], &[])?;
            assert_eq!(rt; publish(rt, board, loader, &mol, name)?, *wanted);
        }
        Step::Withdraw(number, wanted) => {
            assert_eq!(rt; withdraw(rt, board, loader, *number), *wanted);
        }
        Step::Look(wanted) => {
            let query = any_carbon(alloc)?;
            look(rt, alloc, board, searcher, &query, hits, wanted);
        }
    }
    Ok(())
}

fn gather_both(alloc: Global, board: Board, loader: Caller, searcher: Caller) -> Result<Final, Fail>
    requires count { board.shape.loaders + board.shape.searchers ≡ 2 }
    requires loader { IsAtRest board loader }
    requires searcher { IsAtRest board searcher }
{
    let mut callers = Vec::new(alloc);
    callers.push(loader)?;
    callers.push(searcher)?;
    Ok(gather(board, callers))
}

fn told(event: &Event) -> (u8, &[u8], u32) {
    match event {
        Event::Publish { caller, name, .. } => (*caller, name.bytes(), 0),
        Event::Withdraw { caller, number } => (*caller, &[], *number),
    }
}

#[test]
fn withdrawals_answer_by_their_cause(rt: HostRuntime) -> Result<(), Fail> {
    let alloc = rt.alloc();
    let (board, mut loader, mut searcher) = open_two(alloc, 45, 3)?;
    let shared = &board;
    let mut hits = HitList::new(alloc);
    for step in &STEPS {
        take_step(
            &rt,
            alloc,
            shared,
            &mut loader,
            &mut searcher,
            &mut hits,
            step,
        )?;
    }
    let last = gather_both(alloc, board, loader, searcher)?;
    let history = last.history(alloc)?;
    assert_eq!(rt; history.len(), 3);
    for place in 0..3 {
        assert_eq!(rt; told(&history[place]), HISTORY[place]);
    }
    Ok(())
}
