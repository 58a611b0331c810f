// Rows in one leaf, and in a chain of leaves.
ghost use Rattle.std.specs.Prelude.{◌≡◌, ◌≢◌, ℕ, ◌+◌, ◌*◌, ◌<◌, ◌≤◌, ◌^◌, MatchResult, MatchBool, length};
ghost use Rattle.board.specs.Seated.{IsOf, IsLoader, with_account};
ghost use Rattle.board_core.specs.After.{after_slot, after_entry};
ghost use Rattle.board_core.specs.Steps.{MayLink};
ghost use Rattle.class_tree.specs.Inserting.{IsStocked};
ghost use Rattle.class_tree.specs.Walking.{IsAtLeaf, IsTarget, Reads, Places, EntersRow};
ghost use Rattle.class_tree.specs.Linking.{GoesBehind, GoesPast, IsFirst, ComesTo, KeepsMind, FillsOr};
ghost use Rattle.class_tree.specs.Refusing.{WasRefused, Stops};

use crate::insert::{InsertError, refuse_chain};
use crate::walks::{Ranked, Stop, Target, header_word, make_page, stop_at};
use board::{
    Board, Caller, claim_entry, keep_leaves, link_next_leaf, load_more, load_slot, pass_leaf,
    reach_again, recall_leaf,
};
use page_pool::{NoPage, keep};

// From this rank on a leaf is kept in mind: a shorter chain is walked as fast.
const KEPT_FROM: u32 = 2;

// Reads the entry of this slot, or puts the row there: the answer is 0 where it did.
fn enter(
    board: &Board,
    caller: &mut Caller,
    at: Stop,
    index: u8,
    depth: u8,
    rank: u32,
    target: &Target,
) -> u64
    requires fits { IsOf board.now caller.old }
    requires leaf { IsAtLeaf board.now.shape caller.old.account at depth rank index target.now }
    requires room { index < 14 }
    ensures placed { result ≡ 0 → EntersRow caller.old caller.new target.now.row }
    ensures read { result ≢ 0 → caller.new ≡ with_account caller.old (after_slot caller.old.account at.number result) }
{
    let place = 2 + index;
    let word = load_slot(board, caller, at.page, at.number, place);
    if word != 0 {
        return word;
    }
    claim_entry(
        board,
        caller,
        at.page,
        at.number,
        place,
        target.entry,
        target.row,
    )
}

// Puts the row into a free entry of the leaf, and says whether it did. Else the leaf is full.
pub(crate) fn fill_leaf(
    board: &Board,
    caller: &mut Caller,
    at: Stop,
    depth: u8,
    rank: u32,
    target: &Target,
) -> bool
    requires fits { IsOf board.now caller.old }
    requires leaf { IsAtLeaf board.now.shape caller.old.account at depth rank 0 target.now }
    ensures placed { MatchBool result (EntersRow caller.old caller.new target.now.row)
        (Reads caller.old caller.new at.number
        × IsAtLeaf board.now.shape caller.new.account at depth rank 14 target.now) }
{
    for index in 0..14u8 {
        if enter(board, caller, at, index, depth, rank, target) == 0 {
            return true;
        }
    }
    false
}

// The leaf behind this one, which is full and of the last depth. Where there is none, one is made with the row.
fn next_leaf(
    board: &Board,
    caller: &mut Caller,
    at: Stop,
    rank: u32,
    target: &Target,
) -> Result<Option<Stop>, NoPage>
    requires fits { IsOf board.now caller.old }
    requires loader { IsLoader caller.old }
    requires stocked { IsStocked caller.old }
    requires leaf { IsAtLeaf board.now.shape caller.old.account at 5 rank 14 target.now }
    requires few { MayLink caller.old.account 1 }
    requires rank { (rank + 1 < board.now.shape.chain) × (rank + 1 < 2 ^ 16) }
    requires number { at.number < 2 ^ 32 }
    ensures of { IsOf board.now caller.new }
    ensures loader { IsLoader caller.new }
    ensures stocked { IsStocked caller.new }
    ensures next { MatchResult result
        (λ next. GoesBehind board.now.shape caller.old caller.new at 5 rank target.now next)
        (λ _. WasRefused board.now.shape caller.old caller.new 1) }
{
    let next = at.number + 1;
    let word = load_more(board, caller, at.page, at.number);
    if word != 0 {
        return Ok(Some(stop_at(board, word, next)));
    }
    let header = header_word(true, 5, rank + 1);
    let own = match make_page(board, caller, header, target.entry) {
        Ok(own) => own,
        Err(none) => return Err(none),
    };
    let found = link_next_leaf(board, caller, at.page, at.number, own, target.row);
    if found == 0 {
        return Ok(None);
    }
    keep(caller, own);
    Ok(Some(stop_at(board, found, next)))
}

// The leaf behind this one of the last depth, by one load: a leaf that has a next one is full. Where there is none yet,
// the row is placed in this leaf or behind it.
fn go_past(
    board: &Board,
    caller: &mut Caller,
    at: Stop,
    rank: u32,
    target: &Target,
) -> Result<Option<Stop>, NoPage>
    requires fits { IsOf board.now caller.old }
    requires loader { IsLoader caller.old }
    requires stocked { IsStocked caller.old }
    requires leaf { IsAtLeaf board.now.shape caller.old.account at 5 rank 0 target.now }
    requires few { MayLink caller.old.account 1 }
    requires rank { (rank + 1 < board.now.shape.chain) × (rank + 1 < 2 ^ 16) }
    requires number { at.number < 2 ^ 32 }
    ensures of { IsOf board.now caller.new }
    ensures loader { IsLoader caller.new }
    ensures stocked { IsStocked caller.new }
    ensures past { MatchResult result
        (λ next. GoesPast board.now.shape caller.old caller.new at 5 rank target.now next)
        (λ _. WasRefused board.now.shape caller.old caller.new 1) }
{
    let word = pass_leaf(board, caller, at.page, at.number);
    if word != 0 {
        return Ok(Some(stop_at(board, word, at.number + 1)));
    }
    if fill_leaf(board, caller, at, 5, rank, target) {
        return Ok(None);
    }
    next_leaf(board, caller, at, rank, target)
}

// A leaf of the chain that begins at this one: a later one, where the caller keeps one in mind.
fn recall(board: &Board, caller: &mut Caller, first: Stop, _target: &Target) -> Ranked
    requires fits { IsOf board.now caller.old }
    requires leaf { IsAtLeaf board.now.shape caller.old.account first 5 0 0 _target.now }
    requires number { first.number < 2 ^ 32 }
    ensures { ComesTo board.now.shape caller.old caller.new first result _target.now }
{
    let _limits = board.shape();
    match recall_leaf(board, caller, first.page, first.number) {
        Some(leaf) => {
            let number = first.number + 1;
            let page = leaf.page;
            Ranked {
                stop: Stop { page, number },
                rank: leaf.rank,
            }
        }
        None => Ranked {
            stop: first,
            rank: 0,
        },
    }
}

// Keeps in mind where the chain goes on, once that spares some loads.
fn remember(board: &Board, caller: &mut Caller, first: Stop, at: Stop, rank: u32, _target: &Target)
    requires fits { IsOf board.now caller.old }
    requires first { IsFirst board.now.shape caller.old.account first _target.now }
    requires leaf { IsAtLeaf board.now.shape caller.old.account at 5 (rank + 1) 0 _target.now }
    ensures { KeepsMind caller.old caller.new }
{
    if rank < KEPT_FROM {
        return;
    }
    keep_leaves(board, caller, first.page, first.number, at.page, at.number);
}

// Puts the row into a chain of leaves of the last depth, from this leaf on. Else the last one that the chain may have
// was read to its end. It reads the entries of no leaf that has a next one.
fn fill_from(
    board: &Board,
    caller: &mut Caller,
    first: Stop,
    from: Ranked,
    target: &Target,
) -> Result<Option<Stop>, NoPage>
    requires fits { IsOf board.now caller.old }
    requires loader { IsLoader caller.old }
    requires stocked { IsStocked caller.old }
    requires first { IsFirst board.now.shape caller.old.account first target.now }
    requires before { first.number ≤ from.stop.number }
    requires leaf { IsAtLeaf board.now.shape caller.old.account from.stop 5 from.rank 0 target.now }
    requires rank { from.rank < board.now.shape.chain }
    requires few { MayLink caller.old.account 1 }
    requires number { from.stop.number ≤ 65537 * 7 }
    ensures of { IsOf board.now caller.new }
    ensures loader { IsLoader caller.new }
    ensures stocked { IsStocked caller.new }
    ensures placed { MatchResult result
        (λ last. FillsOr board.now.shape caller.old caller.new first from target.now last)
        (λ _. WasRefused board.now.shape caller.old caller.new 1) }
{
    let chain = board.shape().chain;
    let mut at = from.stop;
    for rank in from.rank..chain - 1 {
        match go_past(board, caller, at, rank, target) {
            Ok(None) => return Ok(None),
            Ok(Some(next)) => {
                remember(board, caller, first, next, rank, target);
                at = next;
            }
            Err(none) => return Err(none),
        }
    }
    if fill_leaf(board, caller, at, 5, chain - 1, target) {
        return Ok(None);
    }
    Ok(Some(at))
}

// Puts the row into the chain of leaves that begins at this leaf, from its first leaf on. Where that has no room, each
// page that the chain may have was reached.
fn fill_again(
    board: &Board,
    caller: &mut Caller,
    first: Stop,
    last: Stop,
    target: &Target,
) -> Result<(), InsertError>
    requires fits { IsOf board.now caller.old }
    requires loader { IsLoader caller.old }
    requires stocked { IsStocked caller.old }
    requires first { IsFirst board.now.shape caller.old.account first target.now }
    requires target { IsTarget board.now.shape caller.old.account target.now }
    requires pinned { 0 < caller.old.account.pool.announced }
    requires size { length caller.old.account.tree.reached ≡ last.number + 1 }
    requires few { MayLink caller.old.account 1 }
    requires number { last.number < 65537 * 7 }
    ensures of { IsOf board.now caller.new }
    ensures loader { IsLoader caller.new }
    ensures stocked { IsStocked caller.new }
    ensures placed { MatchResult result (λ _. Places caller.old caller.new target.now.row)
        (λ e. Stops board.now.shape caller.old caller.new target.now.row e) }
{
    let _limits = board.shape();
    reach_again(board, caller, first.page, first.number);
    let again = Stop {
        page: first.page,
        number: last.number + 1,
    };
    let from = Ranked {
        stop: again,
        rank: 0,
    };
    match fill_from(board, caller, again, from, target) {
        Ok(None) => Ok(()),
        Ok(Some(_)) => Err(refuse_chain(board, caller)),
        Err(_) => Err(InsertError::NoPage),
    }
}

// Puts the row into the chain of leaves of the last depth that begins at this leaf. It goes on at the last leaf that
// the caller keeps in mind of the chain. Where there is no room from there on, it walks the whole chain.
pub(crate) fn fill_chain(
    board: &Board,
    caller: &mut Caller,
    first: Stop,
    target: &Target,
) -> Result<(), InsertError>
    requires fits { IsOf board.now caller.old }
    requires loader { IsLoader caller.old }
    requires stocked { IsStocked caller.old }
    requires leaf { IsAtLeaf board.now.shape caller.old.account first 5 0 0 target.now }
    requires few { MayLink caller.old.account 1 }
    requires number { first.number ≤ 65537 * 5 }
    ensures of { IsOf board.now caller.new }
    ensures loader { IsLoader caller.new }
    ensures stocked { IsStocked caller.new }
    ensures placed { MatchResult result (λ _. Places caller.old caller.new target.now.row)
        (λ e. Stops board.now.shape caller.old caller.new target.now.row e) }
{
    let from = recall(board, caller, first, target);
    let last = match fill_from(board, caller, first, from, target) {
        Ok(None) => return Ok(()),
        Ok(Some(last)) => last,
        Err(_) => return Err(InsertError::NoPage),
    };
    if from.rank == 0 {
        return Err(refuse_chain(board, caller));
    }
    fill_again(board, caller, first, last, target)
}
