// A page is given back, with a stamp.
ghost use Rattle.board_core.specs.Loaded.{IsPage};
ghost use Rattle.board.specs.Seated.{IsOf};
ghost use Rattle.page_pool.specs.Taking.{IsUnstamped, IsRetired};

use board::{Board, Caller, load_epoch, store_retired};

/// Retires a page that the caller has unlinked, with the epoch loaded afterwards as its stamp.
pub fn retire(board: &Board, caller: &mut Caller, page: u32)
    requires fits { IsOf board.now caller.old }
    requires page { IsPage board.now.shape page }
    requires unlinked { IsUnstamped caller.old.account page }
    ensures { IsRetired caller.old caller.new page }
{
    let epoch = load_epoch(board, caller);
    store_retired(board, caller, page, epoch);
}
