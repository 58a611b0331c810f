// What a split reads of a full leaf: its rows, and the code of each that comes next.
ghost use Rattle.std.specs.Prelude.{◌≡◌, ◌<◌};
ghost use Rattle.board.specs.Seated.{IsOf};
ghost use Rattle.class_tree.specs.Walking.{here};
ghost use Rattle.class_tree.specs.Splitting.{IsAtFull, Learns, IsRowOf, AreRowsOf};

use crate::walks::Stop;
use board::{Board, Caller, load_met_code, load_met_entry, load_met_head};

// A row of a leaf, by the word that names it, and its next code.
#[derive(Clone, Copy)]
pub struct Next {
    pub row: u64,
    pub code: u64,
}

// The rows of a full leaf, and their next codes.
#[derive(Clone, Copy)]
pub struct Nexts {
    pub rows: [u64; 14],
    pub codes: [u64; 14],
}

// Loads an entry of a full leaf again, and its row's code of this depth.
fn load_next(board: &Board, caller: &mut Caller, at: Stop, index: u8, depth: u8) -> Next
    requires fits { IsOf board.now caller.old }
    requires leaf { IsAtFull board.now.shape caller.old.account at depth }
    requires room { index < 14 }
    ensures learns { Learns caller.old caller.new }
    ensures row { IsRowOf caller.new.account (here caller.new.account at) index result.row result.code }
{
    let row = load_met_entry(board, caller, at.page, at.number, index);
    let head = load_met_head(board, caller, at.number, index, row);
    let code = load_met_code(board, caller, at.number, index, row, head, depth);
    Next { row, code }
}

// The rows of a full leaf of this depth, each with its code of this depth.
pub(crate) fn load_nexts(board: &Board, caller: &mut Caller, at: Stop, depth: u8) -> Nexts
    requires fits { IsOf board.now caller.old }
    requires leaf { IsAtFull board.now.shape caller.old.account at depth }
    ensures learns { Learns caller.old caller.new }
    ensures rows { AreRowsOf caller.new.account (here caller.new.account at) result.rows result.codes 14 }
{
    let mut rows = [0; 14];
    let mut codes = [0; 14];
    for index in 0..14u8 {
        let next = load_next(board, caller, at, index, depth);
        rows[index as usize] = next.row;
        codes[index as usize] = next.code;
    }
    Nexts { rows, codes }
}
