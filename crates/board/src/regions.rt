// The steps that store words of the regions: the next word of the own region, and the marks of a block.
ghost use Rattle.std.specs.Prelude.{◌≡◌, ℕ, ◌+◌, ◌≤◌, [], ◌∷◌, length};
ghost use Rattle.board_core.specs.Words.{total_of};
ghost use Rattle.board_core.specs.RoomRule.{region_of};
ghost use Rattle.board_core.specs.declared.log.Ending.{Ending};
ghost use Rattle.board_core.specs.declared.room.Sealed.{Sealed};
ghost use Rattle.board_core.specs.Loaded.{IsInTable};
ghost use Rattle.board_core.specs.Steps.{IsKnownRoom, MayStore, MaySeal, MayPublish, MayEnd};
ghost use Rattle.board_core.specs.After.{after_word, after_shows, after_ends};
ghost use Rattle.board.specs.Seated.{IsOf, IsLoader, with_account, number_of};

use crate::places::region_place;
use crate::plays::{SealBlock, StoreEnded, StoreShown, StoreWord};
use crate::{Board, Caller};
use std::marker::Brand;

// Which block a word completes. The call that makes the step picks it.
pub(crate) trait Completed {
    ghost block: { Sealed };
}

impl Completed for Brand {
    ghost block = { record { place = 0; size = 0 } };
}

// Which block a step marks as published. The call that makes the step picks it.
pub(crate) trait Marked {
    ghost block: { ℕ };
}

impl Marked for Brand {
    ghost block = { 0 };
}

// Which number a step marks as withdrawn, and its block. The call that makes the step picks it.
pub(crate) trait Ended {
    ghost ending: { Ending };
}

impl Ended for Brand {
    ghost ending = { record { target = 0; block = 0 } };
}

/// Where the next word of the loader's region stands in the table, from 0.
pub fn next_place(board: &Board, caller: &Caller) -> u64
    requires fits { IsOf board.now caller.now }
    requires loader { IsLoader caller.now }
    ensures value { result ≡ region_of board.now.shape caller.now.account.who + length caller.now.account.room.used }
    ensures inside { region_of board.now.shape caller.now.account.who + board.now.shape.room
        ≤ total_of board.now.shape }
{
    let at = region_place(board.shape, caller.number);
    at as u64 + caller.used as u64
}

/// Stores the next word of the loader's region. It completes no block. What it stored before is as the rule says.
pub fn store_word(board: &Board, caller: &mut Caller, word: u64)
    requires fits { IsOf board.now caller.old }
    requires may { MayStore board.now.shape caller.old.account (number_of caller.old) }
    ensures after { caller.new ≡ with_account caller.old (after_word caller.old.account word []) }
    ensures room { IsKnownRoom board.now.shape caller.old.account }
{
    let at = region_place(board.shape, caller.number) + caller.used as usize;
    let shared = &board.table.shared;
    shared.store::<StoreWord>(&mut caller.seat, at, word);
    caller.used += 1;
}

fn complete<B: Completed>(board: &Board, caller: &mut Caller, word: u64, place: u64, size: u64)
    requires fits { IsOf board.now caller.old }
    requires may { MayStore board.now.shape caller.old.account (number_of caller.old) }
    requires seals { MaySeal board.now.shape caller.old.account word (record { place = place; size = size }) }
    requires is { B.block ≡ record { place = place; size = size } }
    ensures { caller.new ≡ with_account caller.old
        (after_word caller.old.account word (record { place = place; size = size } ∷ [])) }
{
    let at = region_place(board.shape, caller.number) + caller.used as usize;
    let shared = &board.table.shared;
    shared.store::<SealBlock<B>>(&mut caller.seat, at, word);
    caller.used += 1;
}

/// Stores the next word of the loader's region, the last of a block at this place of the table and of so many words.
/// Nobody stores into it any more, its two marks excepted.
pub fn seal_block(board: &Board, caller: &mut Caller, word: u64, place: u64, size: u64)
    requires fits { IsOf board.now caller.old }
    requires may { MayStore board.now.shape caller.old.account (number_of caller.old) }
    requires seals { MaySeal board.now.shape caller.old.account word (record { place = place; size = size }) }
    ensures { caller.new ≡ with_account caller.old
        (after_word caller.old.account word (record { place = place; size = size } ∷ [])) }
{
    complete::<Brand>(board, caller, word, place, size);
}

fn mark_shown<B: Marked>(board: &Board, caller: &mut Caller, block: u64)
    requires fits { IsOf board.now caller.old }
    requires may { MayPublish board.now.shape caller.old.account block }
    requires place { IsInTable board.now.shape block }
    requires is { B.block ≡ block }
    ensures { caller.new ≡ with_account caller.old (after_shows caller.old.account block) }
{
    let shared = &board.table.shared;
    let next = caller.seen + 1;
    let at = block as usize + 1;
    shared.store::<StoreShown<B>>(&mut caller.seat, at, next as u64);
}

/// Marks an own block as published by the event to come.
pub fn store_shown(board: &Board, caller: &mut Caller, block: u64)
    requires fits { IsOf board.now caller.old }
    requires may { MayPublish board.now.shape caller.old.account block }
    requires place { IsInTable board.now.shape block }
    ensures { caller.new ≡ with_account caller.old (after_shows caller.old.account block) }
{
    mark_shown::<Brand>(board, caller, block);
}

fn mark_ended<E: Ended>(board: &Board, caller: &mut Caller, target: u64, block: u64)
    requires fits { IsOf board.now caller.old }
    requires may { MayEnd board.now.shape caller.old.account (record { target = target; block = block }) }
    requires place { IsInTable board.now.shape block }
    requires is { E.ending ≡ record { target = target; block = block } }
    ensures { caller.new ≡ with_account caller.old
        (after_ends caller.old.account (record { target = target; block = block })) }
{
    let shared = &board.table.shared;
    let next = caller.seen + 1;
    let at = block as usize + 2;
    shared.store::<StoreEnded<E>>(&mut caller.seat, at, next as u64);
}

/// Marks the block of a number as withdrawn by the event to come.
pub fn store_ended(board: &Board, caller: &mut Caller, target: u64, block: u64)
    requires fits { IsOf board.now caller.old }
    requires may { MayEnd board.now.shape caller.old.account (record { target = target; block = block }) }
    requires place { IsInTable board.now.shape block }
    ensures { caller.new ≡ with_account caller.old
        (after_ends caller.old.account (record { target = target; block = block })) }
{
    mark_ended::<Brand>(board, caller, target, block);
}
