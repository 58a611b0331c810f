// The lock, and numbers that no history has.
ghost use Rattle.board.specs.Seated.{IsAtRest};
ghost use Rattle.board_tests.specs.Loading.{CanLoad};

use crate::made::open_two;
use board::{Board, Caller};
use pub_log::{WithdrawError, front, lock};
use std::sync::Wait;
use std::test::Fail;

// The lock is taken and given back. Answers the front.
fn take_and_release<R: Wait>(rt: &R, board: &Board, caller: &mut Caller) -> u32
    requires rest { IsAtRest board.now caller.old }
    requires loader { CanLoad caller.old }
{
    let locked = lock(rt, board, caller);
    locked.release(board, caller)
}

// A number is withdrawn. Answers the number of the withdrawal.
pub(crate) fn withdraw<R: Wait>(
    rt: &R,
    board: &Board,
    caller: &mut Caller,
    number: u32,
) -> Result<u32, WithdrawError>
    requires rest { IsAtRest board.now caller.old }
    requires loader { CanLoad caller.old }
    ensures rest { IsAtRest board.now caller.new }
    ensures loader { CanLoad caller.new }
{
    let locked = lock(rt, board, caller);
    locked.withdraw(board, caller, number)
}

#[test]
fn refuses_numbers_of_an_empty_history(rt: HostRuntime) -> Result<(), Fail> {
    let (board, mut caller, _) = open_two(rt.alloc(), 10, 4)?;
    let board = &board;
    assert_eq!(rt; front(board, &mut caller), 0);
    let unknown = Err(WithdrawError::Unknown { front: 0 });
    for number in [0, 1, u32::MAX] {
        assert_eq!(rt; withdraw(&rt, board, &mut caller, number), unknown);
    }
    assert_eq!(rt; take_and_release(&rt, board, &mut caller), 0);
    Ok(())
}
