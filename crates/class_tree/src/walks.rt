// Where a walk down the tree stands, what it looks for, and new pages.
ghost use Rattle.std.specs.Prelude.{◌≡◌, ◌≢◌, ℕ, ◌+◌, ◌*◌, ◌<◌, ◌≤◌, ◌^◌, Bool, length, IfOk, IfErr};
ghost use Rattle.board_core.specs.ClassTree.{kind_of};
ghost use Rattle.board_core.specs.Loaded.{IsPage, HasOwn, HasStored, one_word};
ghost use Rattle.board.specs.Seated.{IsOf, IsLoader};
ghost use Rattle.class_tree.specs.Inserting.{IsStocked};
ghost use Rattle.class_tree.specs.Stocked.{IsStockedBut, IsReady, HasMade, fresh_word};
ghost use Rattle.class_tree.specs.Refusing.{WasRefused};

use board::{Board, Caller, store_own_word};
use board_core::Row;
use page_pool::{NoPage, take};

/// A page that a walk stands at: its number in the table, and among the pages that the walk has reached.
#[derive(Clone, Copy)]
pub struct Stop {
    pub page: u32,
    pub number: u64,
}

/// A leaf that a walk stands at, and its rank in its chain, from 0.
#[derive(Clone, Copy)]
pub struct Ranked {
    pub stop: Stop,
    pub rank: u32,
}

/// A pair of an inner page: a code and its link. Pairs count from 0.
#[derive(Clone, Copy)]
pub struct Slot {
    pub stop: Stop,
    pub index: u8,
}

/// A row that is to be placed, the word of a leaf that names it, and its five codes.
#[derive(Clone, Copy)]
pub struct Target {
    pub row: Row,
    pub entry: u64,
    pub codes: [u64; 5],
}

// The page that a word names. Its number fits, since a shape has fewer pages than that.
pub(crate) fn stop_at(board: &Board, word: u64, number: u64) -> Stop
    requires { IsPage board.now.shape word }
    ensures { result ≡ record { page = word; number = number } }
{
    let _limits = board.shape();
    Stop {
        page: word as u32,
        number,
    }
}

// The header of a page of this kind, depth and rank.
pub(crate) fn header_word(leaf: bool, depth: u8, rank: u32) -> u64
    requires { rank < 2 ^ 16 }
    ensures { result ≡ kind_of leaf + 4 * depth + 32 * rank }
{
    let kind = if leaf { 1 } else { 2 };
    kind + 4 * depth as u64 + 32 * rank as u64
}

// A word of a page with this header, and one code or entry.
fn fresh_word(header: u64, first: u64, place: u8) -> u64
    ensures { result ≡ fresh_word header first place }
{
    if place == 0 {
        header
    } else if place == 2 {
        first
    } else {
        0
    }
}

// Stores the words of an own page with this header, and one code or entry.
fn store_page(board: &Board, caller: &mut Caller, own: u32, header: u64, first: u64)
    requires fits { IsOf board.now caller.old }
    requires page { IsPage board.now.shape own }
    requires mine { HasOwn caller.old.account own }
    ensures { HasMade caller.old caller.new own header first 16 }
{
    for place in 0..16u8 {
        let word = fresh_word(header, first, place);
        store_own_word(board, caller, own, place, word);
    }
}

// Takes a page and stores its words: this header, and one code or entry.
pub(crate) fn make_page(
    board: &Board,
    caller: &mut Caller,
    header: u64,
    first: u64,
) -> Result<u32, NoPage>
    requires fits { IsOf board.now caller.old }
    requires loader { IsLoader caller.old }
    requires stocked { IsStocked caller.old }
    ensures of { IsOf board.now caller.new }
    ensures loader { IsLoader caller.new }
    ensures ready { IfOk result (λ page. IsReady board.now.shape caller.old caller.new page header first) }
    ensures refused { IfErr result (λ _. WasRefused board.now.shape caller.old caller.new 1) }
    ensures stocked { IfErr result (λ _. IsStocked caller.new) }
{
    let own = match take(board, caller) {
        Ok(own) => own,
        Err(none) => return Err(none),
    };
    store_page(board, caller, own, header, first);
    Ok(own)
}
