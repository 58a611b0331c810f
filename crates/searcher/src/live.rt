// The record of a number is read, where it is live at the front.
ghost use Rattle.std.specs.Prelude.{◌≡◌, ℕ, ◌<◌, ◌≤◌, [], length, IfSome, IfOk, None, Ok};
ghost use Rattle.board.specs.Seated.{IsOf};
ghost use Rattle.searcher.specs.Records.{ReadsLive, ReadsOne, ReadsOnly};
ghost use Rattle.searcher.specs.Searched.{Loads, LoadsOnce};
ghost use Rattle.searcher.specs.Walking.{Reads, IsOpenBlock, IsReadLive, NotLive, Whatever};

use crate::blocks::load_block;
use block_words::{read_mol, read_name};
use board::{Board, Caller, load_log_word, load_mark};
use htss_defs::{Mol, Name, OutOfMemory};
use std::alloc::Global;

#[derive(Drop)]
pub(crate) struct Live {
    pub(crate) name: Name,
    pub(crate) mol: Mol,
}

// The block of a number that is live at the front that the caller has seen.
fn open_block(board: &Board, caller: &mut Caller, front: u32, number: u32) -> Option<u64>
    requires fits { IsOf board.now caller.old }
    requires seen { caller.old.account.log.seen ≡ front }
    requires front { front ≤ board.now.shape.log }
    requires number { (0 < number) × (number ≤ front) }
    ensures of { IsOf board.now caller.new }
    ensures stock { caller.new.stock ≡ caller.old.stock }
    ensures reads { Reads caller.old.account caller.new.account }
    ensures block { IfSome result (IsOpenBlock board.now.shape caller.new.account front number) }
    ensures none { result ≡ None → Whatever board.now.shape caller.new.account front (NotLive number) }
    ensures once { (marks : ℕ) × (marks ≤ 1) × Loads caller.old.account caller.new.account 1 marks 0 [] }
{
    let word = load_log_word(board, caller, number);
    if word >> 48 == 2 {
        return None;
    }
    let block = word % (1 << 40);
    let mark = load_mark(board, caller, block);
    if mark > 0 && mark <= front as u64 {
        return None;
    }
    Some(block)
}

// The record of a number, where it is live at the front that the caller has seen.
pub(crate) fn load_live(
    alloc: Global,
    board: &Board,
    caller: &mut Caller,
    front: u32,
    number: u32,
    words: &mut [u64],
) -> Result<Option<Live>, OutOfMemory>
    requires fits { IsOf board.now caller.old }
    requires seen { caller.old.account.log.seen ≡ front }
    requires front { front ≤ board.now.shape.log }
    requires number { (0 < number) × (number ≤ front) }
    requires room { length words.old ≡ 7200 }
    ensures of { IsOf board.now caller.new }
    ensures stock { caller.new.stock ≡ caller.old.stock }
    ensures reads { Reads caller.old.account caller.new.account }
    ensures size { length words.new ≡ 7200 }
    ensures live { IfOk result (λ r. IfSome r
        (λ one. IsReadLive board.now.shape caller.new.account front number one.name one.mol)) }
    ensures none { result ≡ Ok None → Whatever board.now.shape caller.new.account front (NotLive number) }
    ensures once { LoadsOnce caller.old.account caller.new.account 1 }
    ensures read { ReadsOnly board.now.shape front number caller.old.account caller.new.account }
    ensures one { ReadsOne board.now.shape number caller.old.account caller.new.account }
    ensures whole { ReadsLive board.now.shape front number caller.old.account caller.new.account }
{
    let Some(block) = open_block(board, caller, front, number) else {
        return Ok(None);
    };
    load_block(board, caller, block, words);
    let name = read_name(words);
    let mol = read_mol(alloc, words)?;
    Ok(Some(Live { name, mol }))
}
