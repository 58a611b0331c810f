// The announcements of all callers are loaded, and then the states of pages.
ghost use Rattle.std.specs.Prelude.{◌≡◌, ◌+◌, ◌<◌, ◌≤◌, IfSome, IfNone, MatchBool, length};
ghost use Rattle.board_core.specs.CountRule.{most_own};
ghost use Rattle.board_core.specs.EpochRule.{last_epoch};
ghost use Rattle.board_core.specs.Loaded.{IsPage, HasEpoch};
ghost use Rattle.board_core.specs.After.{lower};
ghost use Rattle.board.specs.Seated.{IsOf, IsLoader};
ghost use Rattle.page_pool.specs.Taking.{HasTried, HasRisen, HasPassed, HasScanned, AreBetween, AreRound, HasLooked};
ghost use Rattle.page_pool.specs.Taking.{HasTaken};

use board::{
    Board, Caller, LAST_EPOCH, advance_epoch, exchange_state, load_announcement, load_epoch,
    load_state,
};

// The epoch after this one is tried. Then it has come, unless this is the last.
fn try_next(board: &Board, caller: &mut Caller, first: u64)
    requires fits { IsOf board.now caller.old }
    requires loaded { HasEpoch caller.old.account first }
    requires most { first ≤ last_epoch }
    ensures { HasTried first caller.old caller.new }
{
    if first < LAST_EPOCH {
        advance_epoch(board, caller, first);
    }
}

// The epoch, after the one that follows an epoch just loaded was tried.
fn later_epoch(board: &Board, caller: &mut Caller) -> u64
    requires fits { IsOf board.now caller.old }
    ensures { HasRisen caller.old caller.new result }
{
    let first = load_epoch(board, caller);
    try_next(board, caller, first);
    load_epoch(board, caller)
}

// The lesser of an epoch and an announcement, which is 0 of a caller that is not pinned.
fn least_of(low: u64, announced: u64) -> u64
    ensures { result ≡ lower low announced }
{
    if announced == 0 {
        return low;
    }
    low.min(announced)
}

// The least of an epoch and of all announcements.
fn least_announced(board: &Board, caller: &mut Caller, epoch: u64) -> u64
    requires fits { IsOf board.now caller.old }
    requires fresh { caller.old.account.pool.passed ≡ 0 }
    requires epoch { caller.old.account.pool.low ≡ epoch }
    ensures passed { HasPassed (board.now.shape.loaders + board.now.shape.searchers) caller.old caller.new }
    ensures low { caller.new.account.pool.low ≡ result }
{
    let shape = board.shape();
    let count = shape.loaders + shape.searchers;
    let mut low = epoch;
    for index in 0..count {
        let announced = load_announcement(board, caller, index);
        low = least_of(low, announced);
    }
    low
}

// A scan of all announcements, and the least epoch of it.
pub(crate) fn scan_callers(board: &Board, caller: &mut Caller) -> u64
    requires fits { IsOf board.now caller.old }
    ensures scanned { HasScanned board.now.shape caller.old caller.new }
    ensures low { caller.new.account.pool.low ≡ result }
{
    let epoch = later_epoch(board, caller);
    least_announced(board, caller, epoch)
}

// The page is taken if it is free, or retired below this epoch, and no other caller is faster.
fn try_page(board: &Board, caller: &mut Caller, page: u32, low: u64) -> bool
    requires fits { IsOf board.now caller.old }
    requires loader { IsLoader caller.old }
    requires few { length caller.old.account.pool.own < most_own }
    requires page { IsPage board.now.shape page }
    requires low { caller.old.account.pool.low ≡ low }
    requires scanned { board.now.shape.loaders + board.now.shape.searchers ≤ caller.old.account.pool.passed }
    ensures { MatchBool result (HasTaken (AreBetween page (page + 1)) caller.old caller.new page)
        (HasLooked (AreBetween page (page + 1)) low page (page + 1) caller.old caller.new) }
{
    let state = load_state(board, caller, page);
    if state == 1 || state > low {
        return false;
    }
    exchange_state(board, caller, page, state)
}

// The first of these pages that could be taken.
fn look_from(board: &Board, caller: &mut Caller, from: u32, until: u32, low: u64) -> Option<u32>
    requires fits { IsOf board.now caller.old }
    requires loader { IsLoader caller.old }
    requires few { length caller.old.account.pool.own < most_own }
    requires range { (0 < from) × (from ≤ until) × (until ≤ board.now.shape.pages + 1) }
    requires low { caller.old.account.pool.low ≡ low }
    requires scanned { board.now.shape.loaders + board.now.shape.searchers ≤ caller.old.account.pool.passed }
    ensures some { IfSome result (λ page. (from ≤ page) × (page < until)
        × HasTaken (AreBetween from (page + 1)) caller.old caller.new page) }
    ensures none { IfNone result (HasLooked (AreBetween from until) low from until caller.old caller.new) }
{
    for page in from..until {
        if try_page(board, caller, page, low) {
            return Some(page);
        }
    }
    None
}

// The first of all pages that could be taken, from this one on and then from the first.
pub(crate) fn look_round(board: &Board, caller: &mut Caller, next: u32, low: u64) -> Option<u32>
    requires fits { IsOf board.now caller.old }
    requires loader { IsLoader caller.old }
    requires few { length caller.old.account.pool.own < most_own }
    requires next { IsPage board.now.shape next }
    requires low { caller.old.account.pool.low ≡ low }
    requires scanned { board.now.shape.loaders + board.now.shape.searchers ≤ caller.old.account.pool.passed }
    ensures some { IfSome result (λ page. IsPage board.now.shape page
        × HasTaken (AreRound board.now.shape.pages next) caller.old caller.new page) }
    ensures none { IfNone result (HasLooked (AreRound board.now.shape.pages next) low 1
        (board.now.shape.pages + 1) caller.old caller.new) }
{
    let end = board.shape().pages + 1;
    if let Some(page) = look_from(board, caller, next, end, low) {
        return Some(page);
    }
    look_from(board, caller, 1, next, low)
}
