// Finding, or making, the place of a code in a chain of inner pages.
ghost use Rattle.std.specs.Prelude.{◌≡◌, ◌≢◌, ℕ, ◌+◌, ◌*◌, ◌<◌, ◌≤◌, ◌^◌, false, length, slice_index, MatchOption};
ghost use Rattle.std.specs.Prelude.{MatchResult};
ghost use Rattle.board.specs.Seated.{IsOf, IsLoader, with_account};
ghost use Rattle.board_core.specs.After.{after_slot};
ghost use Rattle.board_core.specs.Steps.{MayLink};
ghost use Rattle.class_tree.specs.Inserting.{IsStocked};
ghost use Rattle.class_tree.specs.Walking.{IsSeeking, IsDown, HasCode, Goes, AreFull, GoesAlong, Reads, IsFound};
ghost use Rattle.class_tree.specs.Refusing.{WasRefused, Stops};

use crate::insert::{InsertError, refuse_chain};
use crate::walks::{Slot, Stop, Target, header_word, make_page, stop_at};
use board::{Board, Caller, claim_code, link_next_inner, load_more, load_slot};
use page_pool::{NoPage, keep};

// The code that stands in this slot now: what stood there, or else the row's code of this depth.
fn claim(
    board: &Board,
    caller: &mut Caller,
    at: Stop,
    index: u8,
    depth: u8,
    rank: u32,
    target: &Target,
) -> u64
    requires fits { IsOf board.now caller.old }
    requires seeking { IsSeeking board.now.shape caller.old.account at depth rank index target.now }
    requires room { index < 7 }
    ensures some { result ≢ 0 }
    ensures after { caller.new ≡ with_account caller.old (after_slot caller.old.account at.number result) }
{
    let place = 2 + 2 * index;
    let word = load_slot(board, caller, at.page, at.number, place);
    if word != 0 {
        return word;
    }
    let code = target.codes[depth as usize];
    let found = claim_code(board, caller, at.page, at.number, place, code);
    if found != 0 {
        return found;
    }
    code
}

// The slot of the code in this page, where it stands now if it did not stand there and a slot was free.
fn find_in_page(
    board: &Board,
    caller: &mut Caller,
    at: Stop,
    depth: u8,
    rank: u32,
    target: &Target,
) -> Option<u8>
    requires fits { IsOf board.now caller.old }
    requires seeking { IsSeeking board.now.shape caller.old.account at depth rank 0 target.now }
    ensures reads { Reads caller.old caller.new at.number }
    ensures found { MatchOption result (IsSeeking board.now.shape caller.new.account at depth rank 7 target.now)
        (λ index. HasCode board.now.shape caller.new.account (record { stop = at; index = index }) depth target.now) }
{
    for index in 0..7u8 {
        if claim(board, caller, at, index, depth, rank, target) == target.codes[depth as usize] {
            return Some(index);
        }
    }
    None
}

/// What stands behind a full inner page.
#[derive(Drop)]
pub enum NextPage {
    /// A page that is to be read.
    There(Stop),
    /// An own page that was linked, with the row's code in its first slot.
    Made(Stop),
}

// The page behind this one, which is full. Where there is none, one is made for the code.
fn next_inner(
    board: &Board,
    caller: &mut Caller,
    at: Stop,
    depth: u8,
    rank: u32,
    target: &Target,
) -> Result<NextPage, NoPage>
    requires fits { IsOf board.now caller.old }
    requires loader { IsLoader caller.old }
    requires stocked { IsStocked caller.old }
    requires seeking { IsSeeking board.now.shape caller.old.account at depth rank 7 target.now }
    requires few { MayLink caller.old.account 1 }
    requires rank { (rank + 1 < board.now.shape.chain) × (rank + 1 < 2 ^ 16) }
    requires number { at.number < 2 ^ 32 }
    ensures of { IsOf board.now caller.new }
    ensures loader { IsLoader caller.new }
    ensures stocked { IsStocked caller.new }
    ensures next { MatchResult result
        (λ next. GoesAlong board.now.shape caller.old caller.new at depth rank target.now next)
        (λ _. WasRefused board.now.shape caller.old caller.new 1) }
{
    let next = at.number + 1;
    let word = load_more(board, caller, at.page, at.number);
    if word != 0 {
        return Ok(NextPage::There(stop_at(board, word, next)));
    }
    let code = target.codes[depth as usize];
    let header = header_word(false, depth, rank + 1);
    let own = match make_page(board, caller, header, code) {
        Ok(own) => own,
        Err(none) => return Err(none),
    };
    let found = link_next_inner(board, caller, at.page, at.number, own, code);
    if found == 0 {
        return Ok(NextPage::Made(Stop {
            page: own,
            number: next,
        }));
    }
    keep(caller, own);
    Ok(NextPage::There(stop_at(board, found, next)))
}

// The slot of the row's code of this depth in the chain of inner pages that begins at this page.
pub(crate) fn find_code(
    board: &Board,
    caller: &mut Caller,
    first: Stop,
    depth: u8,
    target: &Target,
) -> Result<Slot, InsertError>
    requires fits { IsOf board.now caller.old }
    requires loader { IsLoader caller.old }
    requires stocked { IsStocked caller.old }
    requires down { IsDown board.now.shape caller.old.account first depth target.now }
    requires deep { depth < 5 }
    requires few { MayLink caller.old.account 1 }
    requires number { first.number ≤ 65537 * depth }
    ensures of { IsOf board.now caller.new }
    ensures loader { IsLoader caller.new }
    ensures stocked { IsStocked caller.new }
    ensures found { MatchResult result (λ slot. IsFound board.now.shape caller.old caller.new slot depth target.now)
        (λ e. Stops board.now.shape caller.old caller.new target.now.row e) }
{
    let chain = board.shape().chain;
    let mut at = first;
    for rank in 0..chain - 1 {
        if let Some(index) = find_in_page(board, caller, at, depth, rank, target) {
            return Ok(Slot { stop: at, index });
        }
        match next_inner(board, caller, at, depth, rank, target) {
            Ok(NextPage::There(next)) => at = next,
            Ok(NextPage::Made(stop)) => return Ok(Slot { stop, index: 0 }),
            Err(_) => return Err(InsertError::NoPage),
        }
    }
    match find_in_page(board, caller, at, depth, chain - 1, target) {
        Some(index) => Ok(Slot { stop: at, index }),
        None => Err(refuse_chain(board, caller)),
    }
}
