// One call for each kind of word of a block that is loaded. Each is one atomic step, and takes no memory.
ghost use Rattle.std.specs.Prelude.{◌≡◌, ℕ, ◌+◌, ◌<◌, ◌≤◌};
ghost use Rattle.board_core.specs.declared.room.Row.{Row};
ghost use Rattle.board_core.specs.Words.{total_of};
ghost use Rattle.board_core.specs.Blocks.{block_size, atoms_in, shown_at, ended_at};
ghost use Rattle.board_core.specs.Loaded.{KnowsBlock, KnowsHead, KnowsRow, IsInTable};
ghost use Rattle.board_core.specs.Steps.{MayBeSome};
ghost use Rattle.board_core.specs.After.{after_head, after_mark, after_fact, after_code};
ghost use Rattle.board.specs.Seated.{IsOf, with_account};

use crate::places::code_place;
use crate::plays::{LoadCode, LoadFact, LoadHead, LoadMark};
use crate::{Board, Caller};
use std::marker::Brand;

// Which code word a step loads. The call that makes the step picks it.
pub(crate) trait Coded {
    ghost loaded_row: { Row };

    ghost loaded_code: { ℕ };
}

impl Coded for Brand {
    ghost loaded_row = { record { block = 0; atom = 0 } };

    ghost loaded_code = { 0 };
}

/// Loads the first word of a block that a log word shows, which tells how many words it has.
pub fn load_head(board: &Board, caller: &mut Caller, block: u64) -> u64
    requires fits { IsOf board.now caller.old }
    requires known { KnowsBlock board.now.shape caller.old.account block }
    requires place { IsInTable board.now.shape block }
    ensures after { caller.new ≡ with_account caller.old (after_head caller.old.account block result) }
    ensures may { MayBeSome board.now.shape caller.new.account }
    ensures until { block + block_size result ≤ total_of board.now.shape }
{
    let shared = &board.table.shared;
    let at = block as usize;
    shared.load::<LoadHead>(&mut caller.seat, at)
}

/// Loads the last mark of a block that a log word shows: 0, or the number of the event that withdraws it.
pub fn load_mark(board: &Board, caller: &mut Caller, block: u64) -> u64
    requires fits { IsOf board.now caller.old }
    requires known { KnowsBlock board.now.shape caller.old.account block }
    requires place { IsInTable board.now.shape block }
    ensures { caller.new ≡ with_account caller.old (after_mark caller.old.account (block + ended_at) result) }
{
    let shared = &board.table.shared;
    let at = block as usize + 2;
    shared.load::<LoadMark>(&mut caller.seat, at)
}

/// Loads the first mark of a block: 0, or the number of the event that publishes it. A code of an atom of the block was
/// loaded.
pub fn load_shown(board: &Board, caller: &mut Caller, block: u64) -> u64
    requires fits { IsOf board.now caller.old }
    requires known { KnowsRow caller.old.account block }
    requires place { IsInTable board.now.shape block }
    ensures { caller.new ≡ with_account caller.old (after_mark caller.old.account (block + shown_at) result) }
{
    let shared = &board.table.shared;
    let at = block as usize + 1;
    shared.load::<LoadMark>(&mut caller.seat, at)
}

/// Loads a word of the name, of an atom or of a bond of a block whose first word was loaded. Words count from 0.
pub fn load_fact(board: &Board, caller: &mut Caller, block: u64, head: u64, word: u32) -> u64
    requires fits { IsOf board.now caller.old }
    requires known { KnowsHead board.now.shape caller.old.account block head }
    requires place { block + block_size head ≤ total_of board.now.shape }
    requires word { (3 ≤ word) × (word < block_size head) }
    ensures after { caller.new ≡ with_account caller.old (after_fact caller.old.account (block + word) result) }
    ensures may { MayBeSome board.now.shape caller.new.account }
{
    let shared = &board.table.shared;
    let at = block as usize + word as usize;
    shared.load::<LoadFact>(&mut caller.seat, at)
}

fn load_code_of<C: Coded>(
    board: &Board,
    caller: &mut Caller,
    block: u64,
    head: u64,
    atom: u16,
    code: u8,
) -> u64
    requires fits { IsOf board.now caller.old }
    requires known { KnowsHead board.now.shape caller.old.account block head }
    requires place { block + block_size head ≤ total_of board.now.shape }
    requires atom { (0 < atom) × (atom ≤ atoms_in head) }
    requires code { code < 5 }
    requires row { C.loaded_row ≡ record { block = block; atom = atom } }
    requires which { C.loaded_code ≡ code }
    ensures after { caller.new ≡ with_account caller.old
        (after_code caller.old.account (record { block = block; atom = atom }) code result) }
    ensures may { MayBeSome board.now.shape caller.new.account }
{
    let shared = &board.table.shared;
    let at = code_place(block, head, atom, code);
    shared.load::<LoadCode<C>>(&mut caller.seat, at)
}

/// Loads a code word of an atom of a block whose first word was loaded. Atoms count from 1, codes from 0 to 4.
pub fn load_code(
    board: &Board,
    caller: &mut Caller,
    block: u64,
    head: u64,
    atom: u16,
    code: u8,
) -> u64
    requires fits { IsOf board.now caller.old }
    requires known { KnowsHead board.now.shape caller.old.account block head }
    requires place { block + block_size head ≤ total_of board.now.shape }
    requires atom { (0 < atom) × (atom ≤ atoms_in head) }
    requires code { code < 5 }
    ensures after { caller.new ≡ with_account caller.old
        (after_code caller.old.account (record { block = block; atom = atom }) code result) }
    ensures may { MayBeSome board.now.shape caller.new.account }
{
    load_code_of::<Brand>(board, caller, block, head, atom, code)
}
