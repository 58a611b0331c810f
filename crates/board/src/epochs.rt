// The epoch, and what callers announce of it. Each call is one atomic step, and takes no memory.
ghost use Rattle.std.specs.Prelude.{◌≡◌, ◌+◌, ◌<◌, ◌≤◌};
ghost use Rattle.board_core.specs.Each.{Each};
ghost use Rattle.board_core.specs.EpochRule.{IsPast, last_epoch};
ghost use Rattle.board_core.specs.Steps.{MayPin, MayAdvance, MayPass};
ghost use Rattle.board_core.specs.After.{after_epoch, after_advance, after_pin, after_unpin, after_pass};
ghost use Rattle.board.specs.Seated.{IsOf, with_account};

use crate::places::announcement_place;
use crate::plays::{AdvanceEpoch, LoadEpoch, PassCaller, Pin, Unpin};
use crate::{Board, Caller};

/// The epoch past which none comes.
pub const LAST_EPOCH: u64 = 1 << 62;

/// Loads the epoch, which is no earlier than any that the caller loaded before, or that it knows to have come. A scan
/// of the announcements begins, and each page that the caller has unlinked and not stamped has this stamp.
pub fn load_epoch(board: &Board, caller: &mut Caller) -> u64
    requires { IsOf board.now caller.old }
    ensures after { caller.new ≡ with_account caller.old (after_epoch caller.old.account result) }
    ensures above { 0 < result }
    ensures most { result ≤ last_epoch }
    ensures later { Each (IsPast result) caller.old.account.loads.epochs }
    ensures risen { caller.old.account.pool.risen ≤ result }
{
    board.table.shared.load::<LoadEpoch>(&mut caller.seat, 2)
}

/// Exchanges an epoch that was loaded for the next. Whether it was still the epoch or not, the next has then come, so
/// nothing is answered.
pub fn advance_epoch(board: &Board, caller: &mut Caller, epoch: u64)
    requires fits { IsOf board.now caller.old }
    requires may { MayAdvance caller.old.account epoch }
    ensures { caller.new ≡ with_account caller.old (after_advance caller.old.account epoch) }
{
    let shared = &board.table.shared;
    shared.compare_exchange::<AdvanceEpoch>(&mut caller.seat, 2, epoch, epoch + 1);
}

/// Announces an epoch that was loaded. The caller has then reached the root.
pub fn store_announcement(board: &Board, caller: &mut Caller, epoch: u64)
    requires fits { IsOf board.now caller.old }
    requires may { MayPin caller.old.account epoch }
    ensures { caller.new ≡ with_account caller.old (after_pin caller.old.account epoch) }
{
    let at = announcement_place(board.shape, caller.loader, caller.number);
    board.table.shared.store::<Pin>(&mut caller.seat, at, epoch);
}

/// Takes the announcement back. The caller has then reached no page.
pub fn clear_announcement(board: &Board, caller: &mut Caller)
    requires { IsOf board.now caller.old }
    ensures { caller.new ≡ with_account caller.old (after_unpin caller.old.account) }
{
    let at = announcement_place(board.shape, caller.loader, caller.number);
    board.table.shared.store::<Unpin>(&mut caller.seat, at, 0);
}

/// Loads the announcement of the caller that the scan has come to, counted from 0: loaders, then searchers.
pub fn load_announcement(board: &Board, caller: &mut Caller, index: u8) -> u64
    requires fits { IsOf board.now caller.old }
    requires may { MayPass board.now.shape caller.old.account index }
    ensures { caller.new ≡ with_account caller.old (after_pass caller.old.account result) }
{
    let at = 3 + index as usize;
    board.table.shared.load::<PassCaller>(&mut caller.seat, at)
}
