// What a caller has seen, told to another.
ghost use Rattle.std.specs.Prelude.{◌≡◌, max, IfOk, IsOk};
ghost use Rattle.board.specs.Seated.{IsOf, with_account};
ghost use Rattle.board_core.specs.After.{after_hear};

use crate::plays::{Copied, Heard};
use crate::{Board, Caller, Note};
use htss_defs::OutOfMemory;

/// Makes a note of what the caller has seen. A note takes no memory, so there always is one (`made`); the answer is a
/// `Result` so that callers stand if it comes to take some.
pub fn note(board: &Board, caller: &mut Caller) -> Result<Note, OutOfMemory>
    requires fits { IsOf board.now caller.old }
    ensures same { caller.new ≡ caller.old }
    ensures made { IsOk result }
    ensures table { IfOk result (λ n. n.table ≡ board.now.table) }
    ensures seen { IfOk result (λ n. n.seen ≡ caller.old.account.log.seen) }
{
    let seat = board.table.shared.split_seat::<Copied>(&mut caller.seat);
    Ok(Note {
        seat,
        seen: caller.seen,
    })
}

/// The caller has then seen at least as much as the note, and no more than either of them had.
pub fn hear(board: &Board, caller: &mut Caller, note: Note) -> u32
    requires fits { IsOf board.now caller.old }
    requires note { note.table ≡ board.now.table }
    ensures after { caller.new ≡ with_account caller.old (after_hear caller.old.account note.seen) }
    ensures seen { result ≡ max caller.old.account.log.seen note.seen }
{
    let Note { seat, seen } = note;
    board
        .table
        .shared
        .join_seat::<Heard>(&mut caller.seat, seat);
    caller.seen = caller.seen.max(seen);
    caller.seen
}
