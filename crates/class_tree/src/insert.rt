// Rows are inserted.
ghost use Rattle.std.specs.Prelude.{◌≡◌, ◌≢◌, ℕ, ◌+◌, ◌<◌, ◌≤◌, [], ◌∷◌, MatchResult};
ghost use Rattle.board_core.specs.declared.entry.Entry.TheVariants.{ChainFull as ChainWasFull};
ghost use Rattle.board_core.specs.Each.{In};
ghost use Rattle.board_core.specs.Words.{total_of};
ghost use Rattle.board_core.specs.Loaded.{IsPage};
ghost use Rattle.board_core.specs.Rows.{entry_word, IsOwnRow};
ghost use Rattle.board_core.specs.ChainRule.{HasWalked};
ghost use Rattle.board_core.specs.After.{after_answer};
ghost use Rattle.board_core.specs.CountRule.{most_linked};
ghost use Rattle.board_core.specs.Steps.{MayLink};
ghost use Rattle.board.specs.Seated.{IsOf, IsLoader, with_account};
ghost use Rattle.class_tree.specs.declared.insert.InsertError.TheVariants.{ChainFull};
ghost use Rattle.class_tree.specs.Inserting.{IsStocked, HasBegun, HasPlaced, IsRefusal};
ghost use Rattle.class_tree.specs.Walking.{IsTarget, IsDown, Places, Begins};
ghost use Rattle.class_tree.specs.Refusing.{Stops};

use crate::find::find_code;
use crate::link::{Step, follow};
use crate::walks::{Stop, Target};
use board::{Board, Caller, begin_row, load_own_code, load_own_head, note_answers};
use board_core::Row;
use page_pool::{pin, unpin};
use std::marker::Brand;

/// Why a row was not inserted.
#[derive(Clone, Copy, Debug, PartialEq, Eq, Drop)]
pub enum InsertError {
    /// Pages were wanted, and the pool refused one while the stock was empty.
    NoPage,
    /// A chain on the row's walk has as many pages as the board's shape allows, and each is full.
    ChainFull { pages: u32 },
}

// Answers that a chain on the row's walk is full.
pub(crate) fn refuse_chain(board: &Board, caller: &mut Caller) -> InsertError
    requires fits { IsOf board.now caller.old }
    requires walked { HasWalked caller.old.account board.now.shape.chain }
    ensures after { caller.new ≡ with_account caller.old
        (after_answer caller.old.account (ChainWasFull board.now.shape.chain ∷ [])) }
    ensures full { result ≡ ChainFull board.now.shape.chain }
{
    note_answers::<Brand>(board, caller);
    InsertError::ChainFull {
        pages: board.shape().chain,
    }
}

// The word of a leaf that names a row. It fits, since a board has fewer words than 2 ^ 40.
fn entry_of(board: &Board, row: Row) -> u64
    requires { row.block < total_of board.now.shape }
    ensures { result ≡ entry_word row }
{
    let _limits = board.shape();
    row.block * 1024 + row.atom as u64
}

// Begins the row, and loads its five codes.
fn begin(board: &Board, caller: &mut Caller, row: Row) -> Target
    requires fits { IsOf board.now caller.old }
    requires row { IsOwnRow board.now.shape caller.old.account row }
    requires inside { row.block < total_of board.now.shape }
    requires fresh { In row caller.old.account.tree.placed → ⊥ }
    ensures begun { Begins board.now.shape caller.old caller.new row }
    ensures target { IsTarget board.now.shape caller.new.account result }
    ensures row { result.row ≡ row }
    ensures few { MayLink caller.new.account most_linked }
{
    let (block, atom) = (row.block, row.atom);
    let head = load_own_head(board, caller, block);
    let first = begin_row(board, caller, block, head, atom, 0);
    let second = load_own_code(board, caller, block, head, atom, 1);
    let third = load_own_code(board, caller, block, head, atom, 2);
    let fourth = load_own_code(board, caller, block, head, atom, 3);
    let fifth = load_own_code(board, caller, block, head, atom, 4);
    Target {
        row,
        entry: entry_of(board, row),
        codes: [first, second, third, fourth, fifth],
    }
}

// The root, where each walk begins.
fn root(board: &Board) -> Stop
    ensures first { result ≡ record { page = 1; number = 0 } }
    ensures page { IsPage board.now.shape 1 }
{
    let _limits = board.shape();
    Stop { page: 1, number: 0 }
}

// Goes down from the root, one depth after the other.
fn descend(
    board: &Board,
    caller: &mut Caller,
    first: Stop,
    target: &Target,
) -> Result<(), InsertError>
    requires fits { IsOf board.now caller.old }
    requires loader { IsLoader caller.old }
    requires stocked { IsStocked caller.old }
    requires down { IsDown board.now.shape caller.old.account first 0 target.now }
    requires number { first.number ≡ 0 }
    requires few { MayLink caller.old.account most_linked }
    ensures of { IsOf board.now caller.new }
    ensures loader { IsLoader caller.new }
    ensures stocked { IsStocked caller.new }
    ensures placed { MatchResult result (λ _. Places caller.old caller.new target.now.row)
        (λ e. Stops board.now.shape caller.old caller.new target.now.row e) }
{
    let mut at = first;
    for depth in 0..5u8 {
        let slot = match find_code(board, caller, at, depth, target) {
            Ok(slot) => slot,
            Err(e) => return Err(e),
        };
        match follow(board, caller, slot, depth, target) {
            Ok(Step::Placed) => return Ok(()),
            Ok(Step::Down(next)) => at = next,
            Err(e) => return Err(e),
        }
    }
    unreachable!()
}

/// Puts a row of the caller's into the tree, below its five codes. It begins the row, takes no memory, waits for
/// nobody, and walks no chain twice: an exchange that another was faster at tells the word that stands there now, and
/// the walk goes on from it. It splits each full leaf above depth 5 that it comes to.
pub fn insert_row(board: &Board, caller: &mut Caller, row: Row) -> Result<(), InsertError>
    requires fits { IsOf board.now caller.old }
    requires loader { IsLoader caller.old }
    requires unpinned { caller.old.account.pool.announced ≡ 0 }
    requires row { IsOwnRow board.now.shape caller.old.account row }
    requires inside { row.block < total_of board.now.shape }
    requires fresh { In row caller.old.account.tree.placed → ⊥ }
    requires stocked { IsStocked caller.old }
    ensures of { IsOf board.now caller.new }
    ensures loader { IsLoader caller.new }
    ensures stocked { IsStocked caller.new }
    ensures begun { HasBegun board.now.shape caller.old caller.new row }
    ensures answer { MatchResult result (λ _. HasPlaced caller.old caller.new row)
        (λ e. IsRefusal board.now.shape caller.old caller.new row e) }
{
    let target = begin(board, caller, row);
    pin(board, caller);
    let first = root(board);
    let answer = descend(board, caller, first, &target);
    unpin(board, caller);
    answer
}
