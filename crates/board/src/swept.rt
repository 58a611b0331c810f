// What a descent answers is noted.
ghost use Rattle.std.specs.Prelude.{◌≡◌, ℕ, List, [], ◌∷◌};
ghost use Rattle.htss_defs.specs.declared.needs.Need.{Need};
ghost use Rattle.board_core.specs.declared.entry.Entry.TheVariants.{Swept};
ghost use Rattle.board_core.specs.declared.room.Row.{Row};
ghost use Rattle.board_core.specs.After.{after_answer};
ghost use Rattle.board_core.specs.Boards.{SomeBoard};
ghost use Rattle.board_core.specs.Sweeps.{MaySweep};
ghost use Rattle.board.specs.Seated.{IsOf, with_account};

use crate::plays::NoteSwept;
use crate::{Board, Caller};
use std::marker::Brand;

/// What a descent answered: the need, the front and the rows.
pub trait Sweeps {
    ghost need: { Need };

    ghost front: { ℕ };

    ghost rows: { List Row };
}

impl Sweeps for Brand {
    ghost use Rattle.std.specs.Prelude.{[]};
    ghost use Rattle.htss_defs.specs.declared.query.AtomTest.TheVariants.{Any};

    ghost need = { record { test = Any; words = [] } };

    ghost front = { 0 };

    ghost rows = { [] };
}

/// Loads the lock's word and does not use it. The account gains the rows that a descent of `S` gave. There was a board
/// that had the caller, and there is one now.
pub fn note_swept<S: Sweeps>(board: &Board, caller: &mut Caller)
    requires fits { IsOf board.now caller.old }
    requires may { MaySweep board.now.shape caller.old.account S.need S.front S.rows }
    ensures after { caller.new ≡ with_account caller.old
        (after_answer caller.old.account (Swept S.need S.front S.rows ∷ [])) }
    ensures before { SomeBoard board.now.shape caller.old.account }
    ensures board { SomeBoard board.now.shape caller.new.account }
{
    board.table.shared.load::<NoteSwept<S>>(&mut caller.seat, 1);
}
