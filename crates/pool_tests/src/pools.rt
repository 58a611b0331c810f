// Sixteen pages: all are taken, and one that is kept is given again.
ghost use Rattle.std.specs.Prelude.{◌≡◌, ◌+◌, ◌<◌, ◌≤◌, [], IfOk, IsTrue};
ghost use Rattle.board_core.specs.Loaded.{HasOwn};
ghost use Rattle.pool_tests.specs.Ready.{IsIdle, IsReady};

use crate::made::open;
use board::{Board, Caller};
use page_pool::{NoPage, keep, take};
use std::alloc::Global;
use std::test::Fail;

// A new board of sixteen pages, and its loader. It has a searcher too.
fn open_loader(alloc: Global) -> Result<(Board, Caller), Fail>
    ensures loader { IfOk result (λ r. IsReady r.0 r.1 0) }
    ensures pages { IfOk result (λ r. r.0.shape.pages ≡ 16) }
{
    let (board, mut callers) = open(alloc, 1, 1, 16)?;
    if callers.len() != 2 {
        return Err("not two callers".into());
    }
    let loader = callers.remove(0);
    if !loader.is_loader() {
        return Err("no loader".into());
    }
    Ok((board, loader))
}

// A page, after so many at most. Page 16 stays the caller's own, if it was.
fn take_one(board: &Board, caller: &mut Caller, _count: u32) -> Result<u32, NoPage>
    requires ready { IsReady board.now caller.old _count }
    requires few { _count < 33 }
    ensures ready { IsReady board.now caller.new (_count + 1) }
    ensures own { IfOk result (λ page. HasOwn caller.new.account page) }
    ensures last { HasOwn caller.old.account 16 → HasOwn caller.new.account 16 }
{
    take(board, caller)
}

// Whether the next page is this one. There are as many before it, the root among them.
fn takes(board: &Board, caller: &mut Caller, page: u32) -> bool
    requires ready { IsReady board.now caller.old page }
    requires few { page < 33 }
    ensures ready { IsReady board.now caller.new (page + 1) }
    ensures own { IsTrue result → HasOwn caller.new.account page }
    ensures last { HasOwn caller.old.account 16 → HasOwn caller.new.account 16 }
{
    match take_one(board, caller, page) {
        Ok(given) => given == page,
        Err(NoPage) => false,
    }
}

// Whether the pages from 2 on are given in their order.
fn takes_all(board: &Board, caller: &mut Caller) -> bool
    requires ready { IsReady board.now caller.old 0 }
    ensures ready { IsReady board.now caller.new 17 }
    ensures own { IsTrue result → HasOwn caller.new.account 16 }
{
    for page in 2..17 {
        if !takes(board, caller, page) {
            return false;
        }
    }
    true
}

// Whether page 16, which is kept, is given again.
fn keeps_last(board: &Board, caller: &mut Caller) -> bool
    requires ready { IsReady board.now caller.old 18 }
    requires own { HasOwn caller.old.account 16 }
    requires pages { board.now.shape.pages ≡ 16 }
{
    keep(caller, 16);
    take(board, caller) == Ok(16)
}

#[test]
fn pool_of_sixteen(rt: HostRuntime) -> Result<(), Fail> {
    let (board, mut loader) = open_loader(rt.alloc())?;
    let board = &board;
    assert!(rt; takes_all(board, &mut loader));
    assert_eq!(rt; take_one(board, &mut loader, 17), Err(NoPage));
    assert!(rt; keeps_last(board, &mut loader));
    Ok(())
}
