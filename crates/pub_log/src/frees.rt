// The lock is given back, with the answers of a call.
ghost use Rattle.std.specs.Prelude.{◌≡◌, [], ◌∷◌};
ghost use Rattle.board_core.specs.declared.entry.Entry.TheVariants.{Unknown, Gone, LogFull};
ghost use Rattle.board_core.specs.Steps.{MayFree, AreTrue};
ghost use Rattle.board_core.specs.After.{after_free};
ghost use Rattle.board.specs.Seated.{IsOf, with_account};
ghost use Rattle.pub_log.specs.Locking.{IsToldBy};

use board::{Answers, Board, Caller, free_lock};
use std::marker::Brand;

// A call that answers nothing.
pub(crate) struct Silent;

impl Answers for Silent {
    ghost use Rattle.std.specs.Prelude.{[]};

    ghost entries = { [] };
}

// The log is full.
pub(crate) fn free_full(board: &Board, caller: &mut Caller)
    requires fits { IsOf board.now caller.old }
    requires may { MayFree caller.old.account }
    requires full { caller.old.account.log.seen ≡ board.now.shape.log }
    ensures told { IsToldBy board.now.shape caller.new.account (LogFull caller.old.account.log.seen) }
    ensures after { caller.new ≡ with_account caller.old
        (after_free caller.old.account (LogFull caller.old.account.log.seen ∷ [])) }
{
    free_lock::<Brand>(board, caller);
}

// The answers of `E` may speak of these numbers.
fn free_with<E: Answers>(board: &Board, caller: &mut Caller, _number: u32, _at: u32)
    requires fits { IsOf board.now caller.old }
    requires may { MayFree caller.old.account }
    requires answers { AreTrue board.now.shape caller.old.account E.entries }
    ensures { caller.new ≡ with_account caller.old (after_free caller.old.account E.entries) }
{
    free_lock::<E>(board, caller);
}

// No event up to the front publishes the number.
pub(crate) fn free_unknown(board: &Board, caller: &mut Caller, number: u32)
    requires fits { IsOf board.now caller.old }
    requires may { MayFree caller.old.account }
    requires unknown { IsToldBy board.now.shape caller.old.account (Unknown number caller.old.account.log.seen) }
    ensures told { IsToldBy board.now.shape caller.new.account (Unknown number caller.old.account.log.seen) }
    ensures after { caller.new ≡ with_account caller.old
        (after_free caller.old.account (Unknown number caller.old.account.log.seen ∷ [])) }
{
    free_with::<Brand>(board, caller, number, 0);
}

// This event withdraws the number.
pub(crate) fn free_gone(board: &Board, caller: &mut Caller, number: u32, at: u32)
    requires fits { IsOf board.now caller.old }
    requires may { MayFree caller.old.account }
    requires gone { IsToldBy board.now.shape caller.old.account (Gone number at) }
    ensures told { IsToldBy board.now.shape caller.new.account (Gone number at) }
    ensures after { caller.new ≡ with_account caller.old (after_free caller.old.account (Gone number at ∷ [])) }
{
    free_with::<Brand>(board, caller, number, at);
}
