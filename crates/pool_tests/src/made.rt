// Boards that were just opened, with their callers.
ghost use Rattle.std.specs.Prelude.{◌≡◌, IfOk};
ghost use Rattle.std.specs.List.{All};
ghost use Rattle.pool_tests.specs.Ready.{IsIdle, IsResting};

use board::{Board, Caller, open_board};
use htss_defs::Shape;
use std::alloc::Global;
use std::test::Fail;

// A new board of so many loaders, searchers and pages, and its callers in their order.
pub(crate) fn open(
    alloc: Global,
    loaders: u8,
    searchers: u8,
    pages: u32,
) -> Result<(Board, Vec<Caller>), Fail>
    ensures callers { IfOk result (λ r. All (IsIdle r.0) r.1.items) }
    ensures resting { IfOk result (λ r. All (IsResting r.0) r.1.items) }
    ensures pages { IfOk result (λ r. r.0.shape.pages ≡ pages) }
{
    let shape = Shape {
        loaders,
        searchers,
        pages,
        room: 10,
        log: 1,
        chain: 2,
    };
    Ok(open_board(alloc, shape)?)
}
