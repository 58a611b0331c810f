// The descent for a need, whose rows are noted.
ghost use Rattle.std.specs.Prelude.{◌≡◌, ℕ, ◌<◌, List, [], ◌∷◌, ◌++◌, IfOk, IfErr};
ghost use Rattle.board_core.specs.declared.room.Row.{Row};
ghost use Rattle.board_core.specs.declared.entry.Entry.TheVariants.{Swept};
ghost use Rattle.board_core.specs.After.{after_answer};
ghost use Rattle.board_core.specs.Boards.{SomeBoard};
ghost use Rattle.board_core.specs.Sweeps.{MaySweep};
ghost use Rattle.board.specs.Seated.{IsOf, with_account};
ghost use Rattle.env_cover.specs.Reach.{CoversCode};
ghost use Rattle.descent.specs.Descended.{HasCut};
ghost use Rattle.descent.specs.Answered.{HasSwept};

use crate::rows::{Asks, RowSink};
use crate::walk::sweep;
use board::{Board, Caller, Sweeps, note_swept};
use env_cover::covers_code;
use htss_defs::{Need, OutOfMemory};
use std::marker::Brand;

impl Asks for Need {
    ghost use Rattle.env_cover.specs.Reach.{CoversCode};

    ghost covers = { CoversCode };

    fn covers_code(&self, level: u8, code: u64) -> bool {
        covers_code(self, level, code)
    }
}

// The need and the sink are there for the call that picks what is noted.
fn note_with<W: Sweeps, S: RowSink>(board: &Board, caller: &mut Caller, _need: &Need, _sink: &S)
    requires fits { IsOf board.now caller.old }
    requires may { MaySweep board.now.shape caller.old.account W.need W.front W.rows }
    ensures after { caller.new ≡ with_account caller.old
        (after_answer caller.old.account (Swept W.need W.front W.rows ∷ [])) }
    ensures before { SomeBoard board.now.shape caller.old.account }
    ensures board { SomeBoard board.now.shape caller.new.account }
{
    note_swept::<W>(board, caller);
}

// Gives the rows to a sink that has these, and notes what it gave.
fn give_noted<S: RowSink>(
    board: &Board,
    caller: &mut Caller,
    need: &Need,
    sink: &mut S,
) -> Result<u64, OutOfMemory>
    ghost past: { List Row }
    requires fits { IsOf board.now caller.old }
    requires pinned { 0 < caller.old.account.pool.announced }
    requires past { S.given sink.old ≡ past }
    ensures swept { IfOk result (λ n. (given : List Row) × (S.given sink.new ≡ past ++ given)
        × HasSwept board.now.shape need.now caller.old caller.new given n) }
    ensures board { IfOk result (λ _. SomeBoard board.now.shape caller.new.account) }
    ensures cut { IfErr result (λ _. HasCut board.now.shape (CoversCode need.now) caller.old caller.new
        (S.given sink.old) (S.given sink.new)) }
{
    let rows = sweep(board, caller, need, sink)?;
    note_with::<Brand, S>(board, caller, need, sink);
    Ok(rows)
}

/// Gives the sink the rows whose codes cover the need, none twice, among them each covering row of the blocks that the
/// events show which the caller had seen at its pin, and notes them. It answers how many rows it loaded. What the
/// caller had reached before is set aside. Where the sink can take no more, it has got some rows that cover, none
/// twice, and nothing is noted.
pub fn descend<S: RowSink>(
    board: &Board,
    caller: &mut Caller,
    need: &Need,
    sink: &mut S,
) -> Result<u64, OutOfMemory>
    requires fits { IsOf board.now caller.old }
    requires pinned { 0 < caller.old.account.pool.announced }
    ensures swept { IfOk result (λ n. (given : List Row) × (S.given sink.new ≡ S.given sink.old ++ given)
        × HasSwept board.now.shape need.now caller.old caller.new given n) }
    ensures board { IfOk result (λ _. SomeBoard board.now.shape caller.new.account) }
    ensures cut { IfErr result (λ _. HasCut board.now.shape (CoversCode need.now) caller.old caller.new
        (S.given sink.old) (S.given sink.new)) }
{
    give_noted(board, caller, need, sink)
}
