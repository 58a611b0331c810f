// A leaf of the last depth is passed: a page with a next page is full. The call is one atomic step, and takes no
// memory.
ghost use Rattle.std.specs.Prelude.{◌≡◌, ◌≢◌, ◌+◌, ◌<◌};
ghost use Rattle.board_core.specs.Loaded.{IsPage};
ghost use Rattle.board_core.specs.Passing.{MayPassLeaf, after_passed};
ghost use Rattle.board_core.specs.After.{visited};
ghost use Rattle.board.specs.Seated.{IsOf, with_account};

use crate::places::page_place;
use crate::plays::PassLeaf;
use crate::tree::Reaches;
use crate::{Board, Caller};
use std::marker::Brand;

fn pass_leaf_of<R: Reaches>(board: &Board, caller: &mut Caller, page: u32, number: u64) -> u64
    requires fits { IsOf board.now caller.old }
    requires may { MayPassLeaf board.now.shape caller.old.account number }
    requires page { (visited caller.old.account.tree.reached number).page ≡ page }
    requires is { R.number ≡ number }
    ensures after { caller.new ≡ with_account caller.old (after_passed caller.old.account number result) }
    ensures page { result ≢ 0 → IsPage board.now.shape result }
    ensures rank { result ≢ 0 → (visited caller.old.account.tree.reached number).rank + 1 < board.now.shape.chain }
{
    let at = page_place(board.shape, page, 1);
    board.table.shared.load::<PassLeaf<R>>(&mut caller.seat, at)
}

/// Loads the next page of a leaf of the last depth, whatever was read of the leaf. Where there is one, the leaf is
/// full, and the next page was reached. The caller then speaks of no row as old, since it does not know what stands in
/// the leaf.
pub fn pass_leaf(board: &Board, caller: &mut Caller, page: u32, number: u64) -> u64
    requires fits { IsOf board.now caller.old }
    requires may { MayPassLeaf board.now.shape caller.old.account number }
    requires page { (visited caller.old.account.tree.reached number).page ≡ page }
    ensures after { caller.new ≡ with_account caller.old (after_passed caller.old.account number result) }
    ensures page { result ≢ 0 → IsPage board.now.shape result }
    ensures rank { result ≢ 0 → (visited caller.old.account.tree.reached number).rank + 1 < board.now.shape.chain }
{
    pass_leaf_of::<Brand>(board, caller, page, number)
}
