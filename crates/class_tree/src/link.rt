// What hangs at a link.
ghost use Rattle.std.specs.Prelude.{◌≡◌, ◌≢◌, ℕ, ◌+◌, ◌*◌, ◌<◌, ◌≤◌, ◌^◌, MatchResult};
ghost use Rattle.board.specs.Seated.{IsOf, IsLoader};
ghost use Rattle.board_core.specs.Steps.{MayLink};
ghost use Rattle.class_tree.specs.Inserting.{IsStocked};
ghost use Rattle.class_tree.specs.Walking.{HasCode};
ghost use Rattle.class_tree.specs.Linking.{GoesBelow, GoesOn, FollowsTo, IsBehind};
ghost use Rattle.class_tree.specs.Refusing.{WasRefused, Stops};

use crate::insert::InsertError;
use crate::leaf::{fill_chain, fill_leaf};
use crate::split::split_leaf;
use crate::walks::{Slot, Stop, Target, header_word, make_page, stop_at};
use board::{Board, Caller, link_leaf, load_header, load_link};
use page_pool::{NoPage, keep};

/// What a walk comes to behind a link.
#[derive(Drop)]
pub enum Step {
    Placed,
    Down(Stop),
}

// The page that hangs at this link. Where none does, a leaf is linked there with the row.
fn reach(
    board: &Board,
    caller: &mut Caller,
    slot: Slot,
    depth: u8,
    target: &Target,
) -> Result<Option<Stop>, NoPage>
    requires fits { IsOf board.now caller.old }
    requires loader { IsLoader caller.old }
    requires stocked { IsStocked caller.old }
    requires code { HasCode board.now.shape caller.old.account slot depth target.now }
    requires few { MayLink caller.old.account 1 }
    requires number { slot.stop.number < 2 ^ 32 }
    ensures of { IsOf board.now caller.new }
    ensures loader { IsLoader caller.new }
    ensures stocked { IsStocked caller.new }
    ensures led { MatchResult result
        (λ next. GoesBelow board.now.shape caller.old caller.new slot depth target.now next)
        (λ _. WasRefused board.now.shape caller.old caller.new 1) }
{
    let (at, index, code) = (slot.stop, slot.index, target.codes[depth as usize]);
    let next = at.number + 1;
    let word = load_link(board, caller, at.page, at.number, index, code);
    if word != 0 {
        return Ok(Some(stop_at(board, word, next)));
    }
    let header = header_word(true, depth + 1, 0);
    let own = match make_page(board, caller, header, target.entry) {
        Ok(own) => own,
        Err(none) => return Err(none),
    };
    let found = link_leaf(
        board, caller, at.page, at.number, index, code, own, target.row,
    );
    if found == 0 {
        return Ok(None);
    }
    keep(caller, own);
    Ok(Some(stop_at(board, found, next)))
}

// Places the row in the leaf that hangs at a link of this depth, or behind it where leaves chain. Else it comes to an
// inner chain: one that hangs there, or that takes the full leaf's place.
fn enter_child(
    board: &Board,
    caller: &mut Caller,
    slot: Slot,
    at: Stop,
    depth: u8,
    target: &Target,
) -> Result<Step, InsertError>
    requires fits { IsOf board.now caller.old }
    requires loader { IsLoader caller.old }
    requires stocked { IsStocked caller.old }
    requires behind { IsBehind board.now.shape caller.old.account slot at depth target.now }
    requires leaf { MayLink caller.old.account 1 }
    requires split { depth < 4 → MayLink caller.old.account 16 }
    requires number { at.number ≤ 65537 * (depth + 1) }
    ensures of { IsOf board.now caller.new }
    ensures loader { IsLoader caller.new }
    ensures stocked { IsStocked caller.new }
    ensures goes { MatchResult result (λ s. GoesOn board.now.shape caller.old caller.new at depth target.now s)
        (λ e. Stops board.now.shape caller.old caller.new target.now.row e) }
{
    if load_header(board, caller, at.page, at.number) % 4 != 1 {
        return Ok(Step::Down(at));
    }
    if depth == 4 {
        return match fill_chain(board, caller, at, target) {
            Ok(()) => Ok(Step::Placed),
            Err(e) => Err(e),
        };
    }
    if fill_leaf(board, caller, at, depth + 1, 0, target) {
        return Ok(Step::Placed);
    }
    match split_leaf(board, caller, slot, at, depth, target) {
        Ok(next) => Ok(Step::Down(next)),
        Err(_) => Err(InsertError::NoPage),
    }
}

// Follows a link: places the row behind it, or comes to the first page of the inner chain there.
pub(crate) fn follow(
    board: &Board,
    caller: &mut Caller,
    slot: Slot,
    depth: u8,
    target: &Target,
) -> Result<Step, InsertError>
    requires fits { IsOf board.now caller.old }
    requires loader { IsLoader caller.old }
    requires stocked { IsStocked caller.old }
    requires code { HasCode board.now.shape caller.old.account slot depth target.now }
    requires leaf { MayLink caller.old.account 1 }
    requires split { depth < 4 → MayLink caller.old.account 16 }
    requires number { slot.stop.number < 65537 * depth + 65536 }
    ensures of { IsOf board.now caller.new }
    ensures loader { IsLoader caller.new }
    ensures stocked { IsStocked caller.new }
    ensures goes { MatchResult result (λ s. FollowsTo board.now.shape caller.old caller.new slot depth target.now s)
        (λ e. Stops board.now.shape caller.old caller.new target.now.row e) }
{
    let next = match reach(board, caller, slot, depth, target) {
        Ok(Some(next)) => next,
        Ok(None) => return Ok(Step::Placed),
        Err(_) => return Err(InsertError::NoPage),
    };
    enter_child(board, caller, slot, next, depth, target)
}
