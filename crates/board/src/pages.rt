// The states of pages: 0 of a free one, 1 of one that is busy, s + 1 of one that is retired with the stamp s. Each call
// is one atomic step, and takes no memory.
ghost use Rattle.std.specs.Prelude.{◌≡◌, ◌≢◌, ◌+◌, ◌<◌, ◌≤◌, ℕ, IsTrue, MatchBool};
ghost use Rattle.board_core.specs.Sheets.{owns};
ghost use Rattle.board_core.specs.EpochRule.{last_epoch};
ghost use Rattle.board_core.specs.Loaded.{IsPage};
ghost use Rattle.board_core.specs.Steps.{MayTakePage, MayRetire};
ghost use Rattle.board_core.specs.After.{after_state, after_page, after_retire};
ghost use Rattle.board.specs.Seated.{IsOf, with_account, number_of, IsLost};

use crate::places::state_place;
use crate::plays::{LoadState, RetirePage, TakePage};
use crate::{Board, Caller};
use std::marker::Brand;

// Which page a step is at. The call that makes the step picks it.
pub(crate) trait Paged {
    ghost page: { ℕ };
}

impl Paged for Brand {
    ghost page = { 0 };
}

fn load_state_of<P: Paged>(board: &Board, caller: &mut Caller, page: u32) -> u64
    requires fits { IsOf board.now caller.old }
    requires page { IsPage board.now.shape page }
    requires is { P.page ≡ page }
    ensures { caller.new ≡ with_account caller.old (after_state caller.old.account page result) }
{
    let at = state_place(board.shape, page);
    board
        .table
        .shared
        .load::<LoadState<P>>(&mut caller.seat, at)
}

/// Loads the state of a page.
pub fn load_state(board: &Board, caller: &mut Caller, page: u32) -> u64
    requires fits { IsOf board.now caller.old }
    requires page { IsPage board.now.shape page }
    ensures { caller.new ≡ with_account caller.old (after_state caller.old.account page result) }
{
    load_state_of::<Brand>(board, caller, page)
}

fn take_state<P: Paged>(board: &Board, caller: &mut Caller, page: u32, found: u64) -> bool
    requires fits { IsOf board.now caller.old }
    requires may { MayTakePage board.now.shape caller.old.account (number_of caller.old) page found }
    requires is { P.page ≡ page }
    ensures after { MatchBool result (caller.new ≡ with_account caller.old (after_page caller.old.account page))
        (IsLost caller.old caller.new page found) }
    ensures fresh { IsTrue result → owns page caller.old.account.pool.own ≡ 0 }
{
    let at = state_place(board.shape, page);
    let shared = &board.table.shared;
    shared.compare_exchange::<TakePage<P>>(&mut caller.seat, at, found, 1) == found
}

/// Takes a page whose state was loaded as this word, and says whether it still was. The page was not the caller's own.
pub fn exchange_state(board: &Board, caller: &mut Caller, page: u32, found: u64) -> bool
    requires fits { IsOf board.now caller.old }
    requires may { MayTakePage board.now.shape caller.old.account (number_of caller.old) page found }
    ensures after { MatchBool result (caller.new ≡ with_account caller.old (after_page caller.old.account page))
        (IsLost caller.old caller.new page found) }
    ensures fresh { IsTrue result → owns page caller.old.account.pool.own ≡ 0 }
{
    take_state::<Brand>(board, caller, page, found)
}

fn retire_with<P: Paged>(board: &Board, caller: &mut Caller, page: u32, stamp: u64)
    requires fits { IsOf board.now caller.old }
    requires may { MayRetire board.now.shape caller.old.account page stamp }
    requires most { stamp ≤ last_epoch }
    requires is { P.page ≡ page }
    ensures { caller.new ≡ with_account caller.old (after_retire caller.old.account page) }
{
    let at = state_place(board.shape, page);
    let shared = &board.table.shared;
    shared.store::<RetirePage<P>>(&mut caller.seat, at, stamp + 1);
}

/// Retires a page that the caller has unlinked, with the stamp that was loaded for it.
pub fn store_retired(board: &Board, caller: &mut Caller, page: u32, stamp: u64)
    requires fits { IsOf board.now caller.old }
    requires may { MayRetire board.now.shape caller.old.account page stamp }
    requires most { stamp ≤ last_epoch }
    ensures { caller.new ≡ with_account caller.old (after_retire caller.old.account page) }
{
    retire_with::<Brand>(board, caller, page, stamp);
}
