// The split of a full leaf.
ghost use Rattle.std.specs.Prelude.{◌≡◌, ◌≢◌, ℕ, ◌+◌, ◌<◌, ◌≤◌, ◌^◌, IfOk, IfErr, MatchResult, take, slice_index};
ghost use Rattle.board.specs.Seated.{IsOf, IsLoader};
ghost use Rattle.board_core.specs.Steps.{MayExchangeLeaf, MayLink};
ghost use Rattle.class_tree.specs.Inserting.{IsStocked};
ghost use Rattle.class_tree.specs.Linking.{IsBehindFull, ComesIn};
ghost use Rattle.class_tree.specs.Refusing.{LacksPages};
ghost use Rattle.class_tree.specs.Splitting.{IsMade};

use crate::fill::fill;
use crate::read::load_nexts;
use crate::taken::{keep_all, take_all};
use crate::walks::{Slot, Stop, Target, stop_at};
use board::{Board, Caller, exchange_leaf};
use leaf_split::group;
use page_pool::{NoPage, retire};

// Makes the pages that may take the place of the full leaf here, which hangs at this link, and says how many they are.
fn make_pages(
    board: &Board,
    caller: &mut Caller,
    slot: Slot,
    at: Stop,
    depth: u8,
    target: &Target,
    pages: &mut [u32; 16],
) -> Result<usize, NoPage>
    requires fits { IsOf board.now caller.old }
    requires loader { IsLoader caller.old }
    requires stocked { IsStocked caller.old }
    requires leaf { IsBehindFull board.now.shape caller.old.account slot at depth target.now }
    requires few { MayLink caller.old.account 16 }
    ensures of { IsOf board.now caller.new }
    ensures loader { IsLoader caller.new }
    ensures made { IfOk result (λ need. IsMade board.now.shape caller.old caller.new slot at depth target.now pages.new need) }
    ensures lacks { IfErr result (λ _. LacksPages board.now.shape caller.old caller.new target.now.row) }
    ensures stocked { IfErr result (λ _. IsStocked caller.new) }
{
    let nexts = load_nexts(board, caller, at, depth + 1);
    let groups = group(&nexts.rows, &nexts.codes);
    let need = groups.pages();
    match take_all(board, caller, need, pages) {
        Ok(()) => {}
        Err(none) => return Err(none),
    }
    fill(board, caller, &groups, depth + 1, &pages[..need]);
    Ok(need)
}

// Splits the full leaf here, which hangs at this link of an inner page. Answers the first page of the inner chain that
// took its place, by this exchange or by another's.
pub(crate) fn split_leaf(
    board: &Board,
    caller: &mut Caller,
    slot: Slot,
    at: Stop,
    depth: u8,
    target: &Target,
) -> Result<Stop, NoPage>
    requires fits { IsOf board.now caller.old }
    requires loader { IsLoader caller.old }
    requires stocked { IsStocked caller.old }
    requires leaf { IsBehindFull board.now.shape caller.old.account slot at depth target.now }
    requires few { MayLink caller.old.account 16 }
    requires number { at.number < 2 ^ 32 }
    ensures of { IsOf board.now caller.new }
    ensures loader { IsLoader caller.new }
    ensures stocked { IsStocked caller.new }
    ensures comes { MatchResult result
        (λ next. ComesIn board.now.shape caller.old caller.new at next (depth + 1) target.now)
        (λ _. LacksPages board.now.shape caller.old caller.new target.now.row) }
{
    let mut pages = [0u32; 16];
    let need = match make_pages(board, caller, slot, at, depth, target, &mut pages) {
        Ok(need) => need,
        Err(none) => return Err(none),
    };
    let (pair, code, next) = (slot.stop, target.codes[depth as usize], at.number + 1);
    let found = exchange_leaf(
        board,
        caller,
        pair.page,
        pair.number,
        slot.index,
        code,
        at.page,
        at.number,
        pages[0],
        &pages[..need],
    );
    if found == at.page as u64 {
        retire(board, caller, at.page);
        return Ok(Stop {
            page: pages[0],
            number: next,
        });
    }
    keep_all(caller, need, &pages);
    Ok(stop_at(board, found, next))
}
