// One call for each kind of step on the words of the log. Each is one atomic step of the caller's seat, and takes no
// memory.
ghost use Rattle.std.specs.Prelude.{◌≡◌, ◌+◌, ◌-◌, ◌<◌, ◌≤◌, List, [], Some, MatchBool};
ghost use Rattle.htss_defs.specs.declared.history.Event.{Event};
ghost use Rattle.htss_defs.specs.declared.history.Event.TheVariants.{Withdraw};
ghost use Rattle.board_core.specs.declared.entry.Entry.{Entry};
ghost use Rattle.board_core.specs.declared.log.Holding.TheVariants.{Fronted};
ghost use Rattle.board_core.specs.Accounts.{nothing};
ghost use Rattle.board_core.specs.Boards.{SomeBoard};
ghost use Rattle.board_core.specs.LogRule.{word_or_0};
ghost use Rattle.board_core.specs.LogWord.{target_in, ShowsBlock};
ghost use Rattle.board_core.specs.Loaded.{IsInTable};
ghost use Rattle.board_core.specs.Words.{log_at};
ghost use Rattle.board_core.specs.Steps.{MayTake, MayFree, MayLog, AreTrue};
ghost use Rattle.board_core.specs.After.{after_take, after_free, after_answer, after_front, after_shown, after_logged};
ghost use Rattle.board_core.specs.After.{after_event};
ghost use Rattle.board.specs.Seated.{IsOf, IsLoader, with_account, number_of};
ghost use Rattle.board_core.specs.Steps.{event_by};

use crate::places::log_place;
use crate::plays::{Answer, FreeLock, LoadFront, LoadLogWord, ShowEvent, StoreLogWord, TakeLock};
use crate::{Board, Caller};
use std::marker::Brand;

/// What a call answers, as entries of its account. The call that makes the step picks them.
pub trait Answers {
    ghost entries: { List Entry };
}

impl Answers for Brand {
    ghost entries = { [] };
}

/// Which event a step shows. The call that makes the step picks it.
pub trait Shown {
    ghost event: { Event };
}

impl Shown for Brand {
    ghost event = { Withdraw 0 0 };
}

/// Takes the lock where it is free, and says whether it did. A caller without the lock has nothing pending.
pub fn exchange_lock(board: &Board, caller: &mut Caller) -> bool
    requires fits { IsOf board.now caller.old }
    requires loader { IsLoader caller.old }
    requires may { MayTake caller.old.account }
    ensures idle { caller.old.account.log.pending ≡ nothing }
    ensures after { MatchBool result (caller.new ≡ with_account caller.old (after_take caller.old.account))
        (caller.new ≡ caller.old) }
{
    let own = caller.number as u64;
    board
        .table
        .shared
        .compare_exchange::<TakeLock>(&mut caller.seat, 1, 0, own)
        == 0
}

/// Gives the lock back. The account gains the answers of `E`.
pub fn free_lock<E: Answers>(board: &Board, caller: &mut Caller)
    requires fits { IsOf board.now caller.old }
    requires may { MayFree caller.old.account }
    requires answers { AreTrue board.now.shape caller.old.account E.entries }
    ensures { caller.new ≡ with_account caller.old (after_free caller.old.account E.entries) }
{
    board
        .table
        .shared
        .store::<FreeLock<E>>(&mut caller.seat, 1, 0);
}

/// Loads the lock's word and does not use it. The account gains the answers of `E`.
pub fn note_answers<E: Answers>(board: &Board, caller: &mut Caller)
    requires fits { IsOf board.now caller.old }
    requires answers { AreTrue board.now.shape caller.old.account E.entries }
    ensures after { caller.new ≡ with_account caller.old (after_answer caller.old.account E.entries) }
    ensures before { SomeBoard board.now.shape caller.old.account }
{
    board.table.shared.load::<Answer<E>>(&mut caller.seat, 1);
}

/// Loads the front.
pub fn load_front(board: &Board, caller: &mut Caller) -> u32
    requires { IsOf board.now caller.old }
    ensures after { caller.new ≡ with_account caller.old (after_front caller.old.account result) }
    ensures later { caller.old.account.log.seen ≤ result }
    ensures in_log { result ≤ board.now.shape.log }
    ensures same { caller.old.account.log.holding ≡ Fronted → result ≡ caller.old.account.log.seen }
{
    let front = board.table.shared.load::<LoadFront>(&mut caller.seat, 0);
    caller.seen = front as u32;
    caller.seen
}

/// Loads the log word of an event that the caller has seen. The block that it publishes is in the table.
pub fn load_log_word(board: &Board, caller: &mut Caller, number: u32) -> u64
    requires fits { IsOf board.now caller.old }
    requires number { (0 < number) × (number ≤ caller.old.account.log.seen) }
    requires room { number ≤ board.now.shape.log }
    ensures after { caller.new ≡ with_account caller.old
        (after_shown caller.old.account (log_at board.now.shape + (number - 1)) result) }
    ensures block { ShowsBlock result → IsInTable board.now.shape (target_in result) }
{
    let at = log_place(board.shape) + (number as usize - 1);
    board.table.shared.load::<LoadLogWord>(&mut caller.seat, at)
}

/// Stores the log word of the event whose mark is stored, behind the front, where nobody sees it yet.
pub fn store_log_word(board: &Board, caller: &mut Caller, word: u64)
    requires fits { IsOf board.now caller.old }
    requires may { MayLog board.now.shape caller.old.account (number_of caller.old) word }
    ensures { caller.new ≡ with_account caller.old (after_logged caller.old.account word) }
{
    let at = log_place(board.shape) + caller.seen as usize;
    board
        .table
        .shared
        .store::<StoreLogWord>(&mut caller.seat, at, word);
}

/// Shows the event whose log word is stored: the front becomes its number. The account gains the event's entry.
pub fn advance_front<E: Shown>(board: &Board, caller: &mut Caller)
    requires fits { IsOf board.now caller.old }
    requires holding { caller.old.account.log.holding ≡ Fronted }
    requires logged { caller.old.account.log.pending.logged ≡ Some (word_or_0 caller.old.account.log.pending.logged) }
    requires room { caller.old.account.log.seen < board.now.shape.log }
    requires event { event_by board.now.shape caller.old.account (word_or_0 caller.old.account.log.pending.logged)
        ≡ E.event }
    ensures { caller.new ≡ with_account caller.old (after_event caller.old.account E.event) }
{
    let shared = &board.table.shared;
    let next = caller.seen + 1;
    shared.store::<ShowEvent<E>>(&mut caller.seat, 0, next as u64);
    caller.seen = next;
}
