// Records that are staged.
ghost use Rattle.std.specs.Prelude.{IfOk};
ghost use Rattle.htss_defs.specs.Marked.{IsMarked};
ghost use Rattle.board.specs.Seated.{IsAtRest};
ghost use Rattle.board_tests.specs.Loading.{CanLoad};
ghost use Rattle.board.specs.Staging.{IsStaged};

use crate::made::{CARBON, molecule, named, open_two};
use board::{Board, Caller, Staged};
use htss_defs::{Mol, Name};
use loader::{StageError, stage};
use std::test::Fail;

// Stages a record, by a loader that holds no lock.
pub(crate) fn stage_at_rest(
    board: &Board,
    caller: &mut Caller,
    mol: &Mol,
    name: &Name,
) -> Result<Staged, StageError>
    requires rest { IsAtRest board.now caller.old }
    requires loader { CanLoad caller.old }
    requires marked { IsMarked mol.now }
    ensures rest { IsAtRest board.now caller.new }
    ensures loader { CanLoad caller.new }
    ensures staged { IfOk result (λ s. IsStaged board.now.shape caller.new.account s) }
{
    stage(board, caller, mol, name)
}

const FULL: StageError = StageError::DataFull { left: 5, need: 10 };

// One carbon: with a name of one byte its block has 3 + 1 + 1 + 5 words. Before the region stand 3 words, 2
// announcements, 16 states, 16 pages of 16 words, and 4 log words.
#[test]
fn stages_until_the_region_is_full(rt: HostRuntime) -> Result<(), Fail> {
    let (board, mut loader, _) = open_two(rt.alloc(), 45, 4)?;
    let board = &board;
    let name = named(b"A")?;
    let mol = molecule(rt.alloc(), &[CARBON], &[])?;
    let places = [Ok(281), Ok(291), Ok(301), Ok(311), Err(FULL), Err(FULL)];
    for wanted in places {
        let place = match stage_at_rest(board, &mut loader, &mol, &name) {
            Ok(staged) => Ok(staged.block()),
            Err(cause) => Err(cause),
        };
        assert_eq!(rt; place, wanted);
    }
    assert_eq!(rt; loader.used(), 40);
    Ok(())
}
