// A pool that is large enough for the rows and the loaders, of which no page ever comes back: a searcher stays pinned.
ghost use Rattle.std.specs.Prelude.{◌≡◌, ◌+◌, length, IfOk};
ghost use Rattle.std.specs.List.{All};
ghost use Rattle.board.specs.Seated.{IsAtRest};
ghost use Rattle.tree_tests.specs.Ready.{IsLoading};

use crate::boards::{Crowd, close, open};
use crate::checks::check_rows;
use crate::loads::{Loading, load};
use crate::pages::pages_of;
use crate::sketches::{Sketch, drawn_sketches, forked_sketches};
use crate::walks::walk_of;
use board::{Board, Caller};
use htss_defs::Shape;
use page_pool::{pin, unpin};
use std::alloc::Global;
use std::process::Abort;
use std::sync::Wait;
use std::test::Fail;
use std::thread::Threads;

// The loaders load the records while the searcher is pinned.
fn load_pinned<R: Threads + Wait + Sync>(
    rt: &R,
    alloc: Global,
    board: &Board,
    searcher: &mut Caller,
    loadings: &mut [Loading],
    sketches: &[Sketch],
)
    requires searcher { IsAtRest board.now searcher.old }
    requires loadings { All (λ l. IsLoading board.now l.caller) loadings.old }
    ensures searcher { IsAtRest board.now searcher.new }
    ensures loadings { All (λ l. IsLoading board.now l.caller) loadings.new }
{
    pin(board, searcher);
    load(rt, alloc, board, loadings, sketches);
    unpin(board, searcher);
}

// The same with the last of the searchers.
fn load_all<R: Threads + Wait + Sync>(
    rt: &R,
    alloc: Global,
    board: &Board,
    crowd: &mut Crowd,
    sketches: &[Sketch],
) -> Result<(), Fail>
    requires loadings { All (λ l. IsLoading board.now l.caller) crowd.old.loadings.items }
    requires searchers { All (IsAtRest board.now) crowd.old.searchers.items }
    ensures loadings { IfOk result (λ _. All (λ l. IsLoading board.now l.caller) crowd.new.loadings.items) }
    ensures searchers { IfOk result (λ _. All (IsAtRest board.now) crowd.new.searchers.items) }
    ensures count { IfOk result (λ _. length crowd.new.loadings.items + length crowd.new.searchers.items
        ≡ length crowd.old.loadings.items + length crowd.old.searchers.items) }
{
    let mut searcher = crowd.searchers.pop().ok_or("no searcher")?;
    load_pinned(
        rt,
        alloc,
        board,
        &mut searcher,
        crowd.loadings.as_mut_slice(),
        sketches,
    );
    crowd.searchers.push(searcher)?;
    Ok(())
}

// One page more than so many rows and loaders may want.
fn enough_for(rows: u32, loaders: u8) -> u32 {
    rows.saturating_mul(70)
        .saturating_add(33 * loaders as u32)
        .saturating_add(2)
}

fn rows_in(sketches: &[Sketch]) -> u32 {
    let mut rows = 0u32;
    for sketch in sketches {
        rows = rows.saturating_add(sketch.elements.len().min(999) as u32);
    }
    rows
}

// No record is refused.
fn all_are_loaded<R: Threads + Wait + Sync + Abort>(
    rt: &R,
    alloc: Global,
    loaders: u8,
    sketches: &[Sketch],
) -> Result<(), Fail> {
    let shape = Shape {
        loaders,
        searchers: 1,
        pages: enough_for(rows_in(sketches), loaders),
        room: 20_000,
        log: 1000,
        chain: 65_535,
    };
    let (board, mut crowd) = open(alloc, shape)?;
    load_all(rt, alloc, &board, &mut crowd, sketches)?;
    let (last, done) = close(alloc, board, false, crowd)?;
    let pages = pages_of(alloc, &last)?;
    let walk = walk_of(alloc, pages.as_slice())?;
    let tally = check_rows(alloc, &last, &walk, done.as_slice(), sketches)?;
    assert_eq!(rt; tally.published, sketches.len());
    Ok(())
}

#[test]
fn enough_pages_though_none_comes_back(rt: HostRuntime) -> Result<(), Fail> {
    let alloc = rt.alloc();
    for loaders in [1, 4, 8] {
        let forked = forked_sketches(alloc, 8)?;
        all_are_loaded(&rt, alloc, loaders, forked.as_slice())?;
        let drawn = drawn_sketches(alloc, loaders as u64, 100)?;
        all_are_loaded(&rt, alloc, loaders, drawn.as_slice())?;
    }
    Ok(())
}
