// The rows of a block are inserted.
ghost use Rattle.std.specs.Prelude.{◌≡◌, ◌≤◌, ℕ, ◌<◌, [], IfOk, IfErr};
ghost use Rattle.board_core.specs.Each.{In};
ghost use Rattle.board_core.specs.Blocks.{atoms_in};
ghost use Rattle.board_core.specs.Loaded.{IsInTable};
ghost use Rattle.board_core.specs.RoomRule.{IsSealed};
ghost use Rattle.board_core.specs.Rows.{words_of};
ghost use Rattle.board.specs.Seated.{IsOf, IsLoader};
ghost use Rattle.class_tree.specs.Inserting.{IsStocked};
ghost use Rattle.loader.specs.Stages.{HasRows, WasStopped};

use board::{Board, Caller};
use class_tree::{InsertError, Row, insert_row};

// Inserts the rows of a sealed block in the order of its atoms, as far as none is refused.
pub(crate) fn insert_rows(
    board: &Board,
    caller: &mut Caller,
    block: u64,
    atoms: u16,
) -> Result<(), InsertError>
    requires fits { IsOf board.now caller.old }
    requires loader { IsLoader caller.old }
    requires unpinned { caller.old.account.pool.announced ≡ 0 }
    requires stocked { IsStocked caller.old }
    requires sealed { IsSealed caller.old.account.room.sealed block }
    requires place { IsInTable board.now.shape block }
    requires atoms { atoms
        ≤ atoms_in (words_of board.now.shape caller.old.account.who caller.old.account.room.used block 0) }
    requires fresh { (atom : ℕ) → In (record { block = block; atom = atom }) caller.old.account.tree.placed → ⊥ }
    ensures of { IsOf board.now caller.new }
    ensures loader { IsLoader caller.new }
    ensures stocked { IsStocked caller.new }
    ensures all { IfOk result (λ _. HasRows caller.old.account caller.new.account block atoms atoms []) }
    ensures stopped { IfErr result (λ e. WasStopped board.now.shape caller.old caller.new block atoms e) }
{
    for index in 0..atoms {
        let row = Row {
            block,
            atom: index + 1,
        };
        match insert_row(board, caller, row) {
            Ok(()) => {}
            Err(refused) => return Err(refused),
        }
    }
    Ok(())
}
