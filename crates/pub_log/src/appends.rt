// An event is added under the lock: the mark of its block, its log word, then the front. Then the lock is given back.
ghost use Rattle.std.specs.Prelude.{◌≡◌, ◌<◌, ◌^◌, Some};
ghost use Rattle.board_core.specs.declared.log.Holding.TheVariants.{Fronted};
ghost use Rattle.board_core.specs.LogRule.{word_or_0};
ghost use Rattle.board_core.specs.Loaded.{IsInTable};
ghost use Rattle.board_core.specs.Steps.{MayEnd, event_by};
ghost use Rattle.board_core.specs.After.{after_event};
ghost use Rattle.board.specs.Seated.{IsOf, IsLoader, with_account, number_of};
ghost use Rattle.board.specs.Staging.{IsStaged};
ghost use Rattle.pub_log.specs.Locking.{IsHeld, after_publication, after_withdrawal};

use crate::frees::Silent;
use board::{
    Board, Caller, Staged, advance_front, free_lock, store_ended, store_log_word, store_shown,
};
use std::marker::Brand;

// The front becomes the number of the event whose log word is stored.
fn show_event(board: &Board, caller: &mut Caller)
    requires fits { IsOf board.now caller.old }
    requires holding { caller.old.account.log.holding ≡ Fronted }
    requires logged { caller.old.account.log.pending.logged ≡ Some (word_or_0 caller.old.account.log.pending.logged) }
    requires room { caller.old.account.log.seen < board.now.shape.log }
    ensures { caller.new ≡ with_account caller.old
        (after_event caller.old.account
        (event_by board.now.shape caller.old.account (word_or_0 caller.old.account.log.pending.logged))) }
{
    advance_front::<Brand>(board, caller);
}

// The staged record is published.
pub(crate) fn append_publication(board: &Board, caller: &mut Caller, staged: Staged)
    requires fits { IsOf board.now caller.old }
    requires held { IsHeld board.now.shape caller.old.account caller.old.account.log.seen }
    requires room { caller.old.account.log.seen < board.now.shape.log }
    requires loader { IsLoader caller.old }
    requires staged { IsStaged board.now.shape caller.old.account staged }
    requires small { staged.block < 2 ^ 40 }
    ensures { caller.new ≡ with_account caller.old
        (after_publication caller.old.account (number_of caller.old) staged) }
{
    let block = staged.block();
    let loader = caller.number() as u64;
    store_shown(board, caller, block);
    store_log_word(board, caller, block + (1 << 40) * loader + (1 << 48));
    show_event(board, caller);
    free_lock::<Silent>(board, caller);
}

// The number, which this block shows, is withdrawn.
pub(crate) fn append_withdrawal(board: &Board, caller: &mut Caller, number: u32, block: u64)
    requires fits { IsOf board.now caller.old }
    requires loader { IsLoader caller.old }
    requires may { MayEnd board.now.shape caller.old.account (record { target = number; block = block }) }
    requires place { IsInTable board.now.shape block }
    ensures { caller.new ≡ with_account caller.old
        (after_withdrawal caller.old.account (number_of caller.old) (record { target = number; block = block })) }
{
    let target = number as u64;
    let loader = caller.number() as u64;
    store_ended(board, caller, target, block);
    store_log_word(board, caller, target + (1 << 40) * loader + (1 << 49));
    show_event(board, caller);
    free_lock::<Silent>(board, caller);
}
