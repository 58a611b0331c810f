// Boards that are opened and gathered, and the steps of their callers.
ghost use Rattle.std.specs.Prelude.{◌≡◌, []};
ghost use Rattle.board.specs.Seated.{IsLoader, IsAtRest};

use crate::made::open_three;
use board::{
    Answers, Board, Caller, OpenError, exchange_lock, free_lock, gather, hear, load_front, note,
    note_answers, open_board,
};
use htss_defs::{Field, Shape};
use std::test::Fail;

// A call that answers nothing.
struct Silent;

impl Answers for Silent {
    ghost entries = { [] };
}

const SMALL: Shape = Shape {
    loaders: 2,
    searchers: 1,
    pages: 16,
    room: 10,
    log: 4,
    chain: 2,
};

// Shapes beyond their limits, and the first field that is.
const REFUSED: [(Shape, Field); 4] = [
    (Shape { pages: 15, ..SMALL }, Field::Pages),
    (
        Shape {
            pages: 15,
            room: 9,
            ..SMALL
        },
        Field::Pages,
    ),
    (
        Shape {
            pages: 15,
            loaders: 0,
            ..SMALL
        },
        Field::Loaders,
    ),
    (Shape { log: 0, ..SMALL }, Field::Log),
];

#[test]
fn refuses_shapes(rt: HostRuntime) {
    for (shape, field) in REFUSED {
        let cause = OpenError::Shape(field);
        assert_eq!(rt; open_board(rt.alloc(), shape).err(), Some(cause));
    }
}

// Which callers are loaders, and the number of each.
const CALLERS: [(bool, u8); 3] = [(true, 1), (true, 2), (false, 1)];

#[test]
fn opens_and_gathers_all_callers(rt: HostRuntime) -> Result<(), Fail> {
    let (board, callers) = open_board(rt.alloc(), SMALL)?;
    assert_eq!(rt; board.shape(), SMALL);
    assert_eq!(rt; callers.len(), 3);
    for place in 0..3 {
        let caller = &callers[place];
        assert_eq!(rt; (caller.is_loader(), caller.number()), CALLERS[place]);
        assert_eq!(rt; caller.seen(), 0);
    }
    let last = gather(board, callers);
    last.is_settled();
    assert_eq!(rt; last.history(rt.alloc())?.len(), 0);
    Ok(())
}

// The lock is taken, the front loaded, and the lock freed. Answers the front.
fn take_and_free(board: &Board, caller: &mut Caller) -> Option<u32>
    requires rest { IsAtRest board.now caller.old }
    requires loader { IsLoader caller.old }
{
    if !exchange_lock(board, caller) {
        return None;
    }
    let front = load_front(board, caller);
    note_answers::<Silent>(board, caller);
    free_lock::<Silent>(board, caller);
    Some(front)
}

#[test]
fn takes_steps(rt: HostRuntime) -> Result<(), Fail> {
    let (board, mut first, mut second, _) = open_three(rt.alloc())?;
    let told = note(&board, &mut first)?;
    assert_eq!(rt; hear(&board, &mut second, told), 0);
    assert_eq!(rt; second.seen(), 0);
    assert_eq!(rt; take_and_free(&board, &mut first), Some(0));
    Ok(())
}
