// An epoch is announced while pages are read.
ghost use Rattle.std.specs.Prelude.{◌≡◌};
ghost use Rattle.board_core.specs.After.{after_unpin};
ghost use Rattle.board.specs.Seated.{IsOf, with_account};
ghost use Rattle.page_pool.specs.Taking.{IsPinned};

use board::{Board, Caller, clear_announcement, load_epoch, store_announcement};

/// Loads the epoch and announces it. Until its `unpin`, no page that the caller reaches is taken.
pub fn pin(board: &Board, caller: &mut Caller)
    requires fits { IsOf board.now caller.old }
    requires unpinned { caller.old.account.pool.announced ≡ 0 }
    ensures { IsPinned caller.old caller.new }
{
    let epoch = load_epoch(board, caller);
    store_announcement(board, caller, epoch);
}

/// Takes the announcement back. From then on the caller holds no page.
pub fn unpin(board: &Board, caller: &mut Caller)
    requires { IsOf board.now caller.old }
    ensures { caller.new ≡ with_account caller.old (after_unpin caller.old.account) }
{
    clear_announcement(board, caller);
}
