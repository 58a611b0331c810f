// Pages that are taken for a split, and kept again.
ghost use Rattle.std.specs.Prelude.{◌≡◌, ◌+◌, ◌<◌, ◌≤◌, IfOk, IfErr, length};
ghost use Rattle.board.specs.Seated.{IsOf, IsLoader, with_stock};
ghost use Rattle.class_tree.specs.Inserting.{IsStocked};
ghost use Rattle.class_tree.specs.Splitting.{AreTaken, TakesAll};
ghost use Rattle.class_tree.specs.Refusing.{WasRefused};

use board::{Board, Caller};
use page_pool::{NoPage, keep, take};

// Takes so many pages, or none.
pub(crate) fn take_all(
    board: &Board,
    caller: &mut Caller,
    need: usize,
    pages: &mut [u32; 16],
) -> Result<(), NoPage>
    requires fits { IsOf board.now caller.old }
    requires loader { IsLoader caller.old }
    requires stocked { IsStocked caller.old }
    requires need { need ≤ 16 }
    ensures of { IsOf board.now caller.new }
    ensures loader { IsLoader caller.new }
    ensures taken { IfOk result (λ _. TakesAll caller.old caller.new pages.new need) }
    ensures refused { IfErr result (λ _. WasRefused board.now.shape caller.old caller.new need) }
    ensures reached { IfErr result (λ _. caller.new.account.tree.reached ≡ caller.old.account.tree.reached) }
    ensures stocked { IfErr result (λ _. IsStocked caller.new) }
{
    for i in 0..need {
        match take(board, caller) {
            Ok(page) => pages[i] = page,
            Err(none) => {
                keep_all(caller, i, pages);
                return Err(none);
            }
        }
    }
    Ok(())
}

// Keeps the first pages, which were taken.
pub(crate) fn keep_all(caller: &mut Caller, count: usize, pages: &[u32; 16])
    requires count { count ≤ 16 }
    requires taken { AreTaken caller.old pages.now count }
    ensures only { caller.new ≡ with_stock caller.old caller.new.stock }
    ensures stocked { IsStocked caller.new }
    ensures size { length caller.new.stock ≡ length caller.old.stock + count }
{
    for i in 0..count {
        keep(caller, pages[count - 1 - i]);
    }
}
