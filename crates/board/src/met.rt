// Rows that a caller has read in leaves, of any loader. Each call is one atomic step, and takes no memory.
ghost use Rattle.std.specs.Prelude.{◌≡◌, ◌≢◌, ℕ, ◌+◌, ◌<◌, ◌≤◌};
ghost use Rattle.board_core.specs.Words.{total_of};
ghost use Rattle.board_core.specs.Blocks.{atoms_in, block_size};
ghost use Rattle.board_core.specs.Rows.{block_named, atom_named};
ghost use Rattle.board_core.specs.Loaded.{IsInTable};
ghost use Rattle.board_core.specs.Met.{row_named, HasMet, MayLoadEntry, MayLoadMet};
ghost use Rattle.board_core.specs.Steps.{MayBeSome};
ghost use Rattle.board_core.specs.After.{visited, after_head, after_code};
ghost use Rattle.board.specs.Seated.{IsOf, with_account};

use crate::places::{code_place, page_place};
use crate::plays::{LoadEntry, LoadMetCode, LoadMetHead};
use crate::{Board, Caller};
use std::marker::Brand;

// Which entry of which page a step is about, and which code of its row. The call that makes the step picks them.
pub(crate) trait Met {
    ghost number: { ℕ };

    ghost index: { ℕ };

    ghost entry: { ℕ };

    ghost code: { ℕ };
}

impl Met for Brand {
    ghost number = { 0 };

    ghost index = { 0 };

    ghost entry = { 0 };

    ghost code = { 0 };
}

fn load_met_entry_of<E: Met>(
    board: &Board,
    caller: &mut Caller,
    page: u32,
    number: u64,
    index: u8,
) -> u64
    requires fits { IsOf board.now caller.old }
    requires may { MayLoadEntry board.now.shape caller.old.account number index }
    requires page { (visited caller.old.account.tree.reached number).page ≡ page }
    requires small { index < 14 }
    requires is { (E.number ≡ number) × (E.index ≡ index) }
    ensures same { caller.new ≡ caller.old }
    ensures met { HasMet caller.old.account number index result }
    ensures block { IsInTable board.now.shape (block_named result) }
{
    let at = page_place(board.shape, page, 2 + index);
    board
        .table
        .shared
        .load::<LoadEntry<E>>(&mut caller.seat, at)
}

/// Loads an entry of a leaf again: it is the one that was read, and names a block that is in the table.
pub fn load_met_entry(board: &Board, caller: &mut Caller, page: u32, number: u64, index: u8) -> u64
    requires fits { IsOf board.now caller.old }
    requires may { MayLoadEntry board.now.shape caller.old.account number index }
    requires page { (visited caller.old.account.tree.reached number).page ≡ page }
    requires small { index < 14 }
    ensures same { caller.new ≡ caller.old }
    ensures met { HasMet caller.old.account number index result }
    ensures block { IsInTable board.now.shape (block_named result) }
{
    load_met_entry_of::<Brand>(board, caller, page, number, index)
}

fn load_met_head_of<E: Met>(
    board: &Board,
    caller: &mut Caller,
    _number: u64,
    _index: u8,
    entry: u64,
) -> u64
    requires fits { IsOf board.now caller.old }
    requires met { HasMet caller.old.account _number _index entry }
    requires place { IsInTable board.now.shape (block_named entry) }
    requires is { E.entry ≡ entry }
    ensures after { caller.new ≡ with_account caller.old (after_head caller.old.account (block_named entry) result) }
    ensures may { MayBeSome board.now.shape caller.new.account }
    ensures until { block_named entry + block_size result ≤ total_of board.now.shape }
    ensures atom { (0 < atom_named entry) × (atom_named entry ≤ atoms_in result) }
{
    let shared = &board.table.shared;
    let at = (entry / 1024) as usize;
    shared.load::<LoadMetHead<E>>(&mut caller.seat, at)
}

/// Loads the first word of the block that an entry names. The entry was read in a leaf. The block has the atom that it
/// names.
pub fn load_met_head(board: &Board, caller: &mut Caller, number: u64, index: u8, entry: u64) -> u64
    requires fits { IsOf board.now caller.old }
    requires met { HasMet caller.old.account number index entry }
    requires place { IsInTable board.now.shape (block_named entry) }
    ensures after { caller.new ≡ with_account caller.old (after_head caller.old.account (block_named entry) result) }
    ensures may { MayBeSome board.now.shape caller.new.account }
    ensures until { block_named entry + block_size result ≤ total_of board.now.shape }
    ensures atom { (0 < atom_named entry) × (atom_named entry ≤ atoms_in result) }
{
    load_met_head_of::<Brand>(board, caller, number, index, entry)
}

fn load_met_code_of<E: Met>(
    board: &Board,
    caller: &mut Caller,
    _number: u64,
    _index: u8,
    entry: u64,
    head: u64,
    code: u8,
) -> u64
    requires fits { IsOf board.now caller.old }
    requires may { MayLoadMet caller.old.account _number _index entry head code }
    requires place { block_named entry + block_size head ≤ total_of board.now.shape }
    requires atom { (0 < atom_named entry) × (atom_named entry ≤ atoms_in head) }
    requires is { (E.entry ≡ entry) × (E.code ≡ code) }
    ensures after { caller.new ≡ with_account caller.old (after_code caller.old.account (row_named entry) code result) }
    ensures may { MayBeSome board.now.shape caller.new.account }
    ensures some { result ≢ 0 }
{
    let shared = &board.table.shared;
    let at = code_place(entry / 1024, head, (entry % 1024) as u16, code);
    shared.load::<LoadMetCode<E>>(&mut caller.seat, at)
}

/// Loads a code word of the row that an entry names, which was read in a leaf. The first word of the block was loaded.
/// No code is 0.
pub fn load_met_code(
    board: &Board,
    caller: &mut Caller,
    number: u64,
    index: u8,
    entry: u64,
    head: u64,
    code: u8,
) -> u64
    requires fits { IsOf board.now caller.old }
    requires may { MayLoadMet caller.old.account number index entry head code }
    requires place { block_named entry + block_size head ≤ total_of board.now.shape }
    requires atom { (0 < atom_named entry) × (atom_named entry ≤ atoms_in head) }
    ensures after { caller.new ≡ with_account caller.old (after_code caller.old.account (row_named entry) code result) }
    ensures may { MayBeSome board.now.shape caller.new.account }
    ensures some { result ≢ 0 }
{
    load_met_code_of::<Brand>(board, caller, number, index, entry, head, code)
}
