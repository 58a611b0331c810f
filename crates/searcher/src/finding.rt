// A descent with the need of the query's pivot, between a pin and an unpin.
ghost use Rattle.std.specs.Prelude.{◌≡◌, ℕ, [], IfOk, IfErr};
ghost use Rattle.htss_defs.specs.Needs.{need_at};
ghost use Rattle.htss_defs.specs.Screened.{IsPivot};
ghost use Rattle.board.specs.Seated.{IsOf};
ghost use Rattle.searcher.specs.Finding.{HasFound, Visits};

use crate::given::Rows;
use board::{Board, Caller};
use descent::descend;
use env_cover::{need_of, pivot};
use htss_defs::{Need, OutOfMemory, Query};
use page_pool::{pin, unpin};

// The need of the query's pivot.
fn pivot_need(query: &Query) -> Need
    ensures { (u : ℕ) × IsPivot query.now u × (result ≡ need_at query.now u) }
{
    need_of(query, pivot(query))
}

// Fills an empty list with the rows that cover the need of the query's pivot, and answers how many rows it loaded.
pub(crate) fn find_rows(
    board: &Board,
    caller: &mut Caller,
    query: &Query,
    found: &mut Rows,
) -> Result<u64, OutOfMemory>
    requires fits { IsOf board.now caller.old }
    requires unpinned { caller.old.account.pool.announced ≡ 0 }
    requires empty { found.old.rows.items ≡ [] }
    ensures of { IsOf board.now caller.new }
    ensures stock { caller.new.stock ≡ caller.old.stock }
    ensures found { IfOk result
        (λ n. HasFound board.now.shape query.now caller.old.account caller.new.account found.new.rows.items n) }
    ensures visits { Visits caller.old.account caller.new.account }
{
    let need = pivot_need(query);
    pin(board, caller);
    let rows = descend(board, caller, &need, found);
    unpin(board, caller);
    rows
}
