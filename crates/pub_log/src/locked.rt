// The lock is taken, and one thing is done under it.
ghost use Rattle.std.specs.Prelude.{◌≡◌, ◌+◌, ◌<◌, ◌≤◌, [], ◌∷◌, IfOk, IfErr, MatchResult};
ghost use Rattle.htss_defs.specs.declared.history.Event.TheVariants.{Withdraw};
ghost use Rattle.board_core.specs.declared.entry.Entry.TheVariants.{Withdrawn, LogFull as Full};
ghost use Rattle.board_core.specs.declared.log.Holding.TheVariants.{Away};
ghost use Rattle.board_core.specs.After.{after_take, after_front, after_free};
ghost use Rattle.board.specs.Seated.{IsOf, IsLoader, with_account, number_of};
ghost use Rattle.board.specs.Staging.{IsStaged, StayStaged, StayStagedBut};
ghost use Rattle.pub_log.specs.Locking.{IsHeld, IsCalled, IsRefusal, after_publication, refusal, IsToldBy};

use crate::appends::{append_publication, append_withdrawal};
use crate::frees::{Silent, free_full, free_gone, free_unknown};
use crate::refusals::{LogFull, WithdrawError};
use board::{
    Board, Caller, Staged, exchange_lock, free_lock, load_front, load_log_word, load_mark,
};
use std::marker::Model;
use std::sync::Wait;
use std::thread;

/// The lock is held, by the caller that took it. It must be spent by one of its calls, which free the lock. Contracts
/// see the front under the lock.
pub struct Locked {
    front: u32,
}

impl Model for Locked {
    ghost use Rattle.std.specs.Prelude.{ℕ};

    ghost Value = { ℕ };

    ghost view = { λ l. l.front };
}

/// Takes the lock, and loads the front under it. It tries again, giving way after each try, until it has the lock.
pub fn lock<R: Wait>(rt: &R, board: &Board, caller: &mut Caller) -> Locked
    requires fits { IsOf board.now caller.old }
    requires loader { IsLoader caller.old }
    requires free { caller.old.account.log.holding ≡ Away }
    ensures account { caller.new ≡ with_account caller.old (after_front (after_take caller.old.account) result) }
    ensures held { IsHeld board.now.shape caller.new.account result }
    ensures later { caller.old.account.log.seen ≤ result }
{
    for _ in rt.forever() {
        if exchange_lock(board, caller) {
            let front = load_front(board, caller);
            return Locked { front };
        }
        thread::yield_now();
    }
    unreachable!()
}

/// Loads the front. It is not below what the caller had seen.
pub fn front(board: &Board, caller: &mut Caller) -> u32
    requires fits { IsOf board.now caller.old }
    ensures account { caller.new ≡ with_account caller.old (after_front caller.old.account result) }
    ensures later { caller.old.account.log.seen ≤ result }
    ensures in_log { result ≤ board.now.shape.log }
{
    load_front(board, caller)
}

impl Locked {
    /// Gives the lock back, and answers the front under it. Nothing else changes.
    pub fn release(self, board: &Board, caller: &mut Caller) -> u32
        requires fits { IsOf board.now caller.old }
        requires held { IsHeld board.now.shape caller.old.account self }
        ensures front { result ≡ self }
        ensures account { caller.new ≡ with_account caller.old (after_free caller.old.account []) }
    {
        let Locked { front } = self;
        free_lock::<Silent>(board, caller);
        front
    }

    /// Appends the publication of a staged record of the caller's own, and answers its number. It is refused exactly
    /// where the log is full; then the staged record is handed back as it was. Other records that are staged stay so.
    pub fn publish(
        self,
        board: &Board,
        caller: &mut Caller,
        staged: Staged,
    ) -> Result<u32, (LogFull, Staged)>
        requires fits { IsOf board.now caller.old }
        requires held { IsHeld board.now.shape caller.old.account self }
        requires loader { IsLoader caller.old }
        requires staged { IsStaged board.now.shape caller.old.account staged }
        ensures ok { IfOk result (λ n. (n ≡ self + 1) × (self < board.now.shape.log)
            × (caller.new ≡ with_account caller.old
            (after_publication caller.old.account (number_of caller.old) staged))) }
        ensures others { MatchResult result
            (λ _. StayStagedBut staged.block board.now.shape caller.old.account caller.new.account)
            (λ _. StayStaged board.now.shape caller.old.account caller.new.account) }
        ensures full { IfErr result (λ e. (e.0.front ≡ self) × (self ≡ board.now.shape.log) × (e.1 ≡ staged)
            × (caller.new ≡ with_account caller.old (after_free caller.old.account (Full self ∷ [])))) }
    {
        let Locked { front } = self;
        if front >= board.shape().log {
            free_full(board, caller);
            return Err((LogFull { front }, staged));
        }
        append_publication(board, caller, staged);
        Ok(front + 1)
    }

    /// Appends the withdrawal of a number, and answers its own number. It is refused exactly where the number is no
    /// publication's up to the front, where an event has withdrawn it, or else where the log is full; what it tells is
    /// true of every board that has what the caller has loaded.
    pub fn withdraw(
        self,
        board: &Board,
        caller: &mut Caller,
        number: u32,
    ) -> Result<u32, WithdrawError>
        requires fits { IsOf board.now caller.old }
        requires held { IsHeld board.now.shape caller.old.account self }
        requires loader { IsLoader caller.old }
        ensures of { IsOf board.now caller.new }
        ensures stock { caller.new.stock ≡ caller.old.stock }
        ensures ok { IfOk result (λ n. (n ≡ self + 1) × (self < board.now.shape.log)
            × IsCalled caller.old.account caller.new.account n
            (Withdrawn n (Withdraw (number_of caller.old) number) ∷ [])) }
        ensures refused { IfErr result (λ e. IsRefusal board.now.shape caller.new.account self number e
            × IsCalled caller.old.account caller.new.account self (refusal number e ∷ [])) }
        ensures told { IfErr result (λ e. IsToldBy board.now.shape caller.new.account (refusal number e)) }
    {
        let Locked { front } = self;
        if number == 0 || number > front {
            free_unknown(board, caller, number);
            return Err(WithdrawError::Unknown { front });
        }
        let word = load_log_word(board, caller, number);
        if word >> 48 == 2 {
            free_unknown(board, caller, number);
            return Err(WithdrawError::Unknown { front });
        }
        let block = word % (1 << 40);
        let mark = load_mark(board, caller, block);
        if mark != 0 && mark <= front as u64 {
            free_gone(board, caller, number, mark as u32);
            return Err(WithdrawError::Gone { at: mark as u32 });
        }
        if front >= board.shape().log {
            free_full(board, caller);
            return Err(WithdrawError::LogFull { front });
        }
        append_withdrawal(board, caller, number, block);
        Ok(front + 1)
    }
}
