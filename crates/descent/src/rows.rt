// A row's codes are loaded from the first on, up to the first that does not cover.
ghost use Rattle.std.specs.Prelude.{◌≡◌, ℕ, ◌<◌, ◌↔◌, List, [], ◌∷◌, ◌++◌, IfOk, IfErr, IsTrue};
ghost use Rattle.board_core.specs.declared.room.Row.{Row};
ghost use Rattle.board_core.specs.Rows.{block_named};
ghost use Rattle.board_core.specs.Loaded.{IsInTable};
ghost use Rattle.board_core.specs.Met.{row_named, HasMet};
ghost use Rattle.board.specs.Seated.{IsOf};
ghost use Rattle.descent.specs.Seats.{seat_of};
ghost use Rattle.descent.specs.Standing.{OnlyLoads};
ghost use Rattle.descent.specs.Walks.{Sifts, Offered, OfferFailed};

use crate::loads::Visit;
use board::{Board, Caller, load_met_code, load_met_head};
use board_core::Row;
use htss_defs::OutOfMemory;

/// A need: which codes it lets pass at each level.
pub trait Asks {
    ghost covers: { Self → ℕ → ℕ → Type 0 };

    fn covers_code(&self, level: u8, code: u64) -> bool
        requires { level < 5 }
        ensures { IsTrue result ↔ covers self.now level code };
}

/// Takes rows.
pub trait RowSink {
    ghost given: { Self → List Row };

    fn give(&mut self, row: Row) -> Result<(), OutOfMemory>
        ensures ok { IfOk result (λ _. given self.new ≡ given self.old ++ row ∷ []) }
        ensures err { IfErr result (λ _. given self.new ≡ given self.old) };
}

// The row that an entry names.
fn row_named(entry: u64) -> Row
    ensures { result ≡ row_named entry }
{
    Row {
        block: entry / 1024,
        atom: (entry % 1024) as u16,
    }
}

// Loads the codes of a row from the first on, up to the first that does not cover, and says whether all do.
fn sift<N: Asks>(
    board: &Board,
    caller: &mut Caller,
    need: &N,
    at: Visit,
    index: u8,
    row: u64,
) -> bool
    requires fits { IsOf board.now caller.old }
    requires met { HasMet caller.old.account at.number index row }
    requires place { IsInTable board.now.shape (block_named row) }
    ensures sifts { Sifts (N.covers need.now) row (seat_of caller.old.account) (seat_of caller.new.account) result }
    ensures only { OnlyLoads caller.old caller.new }
{
    let head = load_met_head(board, caller, at.number, index, row);
    for level in 0..5u8 {
        let code = load_met_code(board, caller, at.number, index, row, head, level);
        if !need.covers_code(level, code) {
            return false;
        }
    }
    true
}

// Gives a row if it covers.
pub(crate) fn offer<N: Asks, S: RowSink>(
    board: &Board,
    caller: &mut Caller,
    need: &N,
    at: Visit,
    index: u8,
    row: u64,
    sink: &mut S,
) -> Result<(), OutOfMemory>
    requires fits { IsOf board.now caller.old }
    requires met { HasMet caller.old.account at.number index row }
    requires place { IsInTable board.now.shape (block_named row) }
    ensures ok { IfOk result (λ _. Offered (N.covers need.now) row (seat_of caller.old.account)
        (seat_of caller.new.account) (S.given sink.old) (S.given sink.new)) }
    ensures err { IfErr result (λ _. OfferFailed (seat_of caller.old.account) (seat_of caller.new.account)
        (S.given sink.old) (S.given sink.new)) }
    ensures only { OnlyLoads caller.old caller.new }
{
    if sift(board, caller, need, at, index, row) {
        sink.give(row_named(row))?;
    }
    Ok(())
}
