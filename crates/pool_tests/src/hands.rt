// Eight callers take, hold, keep, pin and unpin beside each other. A table tells which pages are in somebody's hand.
ghost use Rattle.std.specs.Prelude.{◌≡◌, ◌≤◌, length};
ghost use Rattle.std.specs.List.{All};
ghost use Rattle.board.specs.Seated.{IsOf, IsLoader};
ghost use Rattle.pool_tests.specs.Ready.{IsResting};

use crate::made::open;
use board::{Board, Caller};
use page_pool::{NoPage, keep, pin, take, unpin};
use std::alloc::Global;
use std::sync::atomic::{AtomicBool, Ordering};
use std::test::Fail;
use std::thread::{Threads, for_each_mut, yield_now};

const PAGES: u32 = 32;

const TURNS: u32 = 10_000;

// For each page, whether somebody has it in its hand. Place 0 is no page's.
fn empty_hands(alloc: Global) -> Result<Vec<AtomicBool>, Fail> {
    let mut hands = Vec::new(alloc);
    for _ in 0..PAGES + 1 {
        hands.push(AtomicBool::new(false))?;
    }
    Ok(hands)
}

// Takes the page into the hand, and says whether it was in no other.
fn picks_up(hands: &[AtomicBool], page: u32) -> bool {
    match hands.get(page as usize) {
        Some(hand) => !hand.swap(true, Ordering::SeqCst),
        None => false,
    }
}

fn puts_down(hands: &[AtomicBool], page: u32) {
    if let Some(hand) = hands.get(page as usize) {
        hand.store(false, Ordering::SeqCst);
    }
}

// A loader takes a page while it is pinned, holds it for a while, and keeps it. Answers whether the page was in no
// other hand.
fn borrows(board: &Board, caller: &mut Caller, hands: &[AtomicBool]) -> bool
    requires idle { IsResting board.now caller.old }
    requires loader { IsLoader caller.old }
    ensures { IsResting board.now caller.new }
{
    pin(board, caller);
    match take(board, caller) {
        Ok(page) => {
            let alone = picks_up(hands, page);
            yield_now();
            puts_down(hands, page);
            unpin(board, caller);
            keep(caller, page);
            alone
        }
        Err(NoPage) => {
            unpin(board, caller);
            true
        }
    }
}

// A searcher is pinned for a while.
fn stays(board: &Board, caller: &mut Caller)
    requires { IsResting board.now caller.old }
    ensures { IsResting board.now caller.new }
{
    pin(board, caller);
    yield_now();
    unpin(board, caller);
}

// One turn of a caller. Answers whether no page was in two hands.
fn turn(board: &Board, caller: &mut Caller, hands: &[AtomicBool]) -> bool
    requires { IsResting board.now caller.old }
    ensures { IsResting board.now caller.new }
{
    if caller.is_loader() {
        return borrows(board, caller, hands);
    }
    stays(board, caller);
    true
}

fn all_turns(board: &Board, caller: &mut Caller, hands: &[AtomicBool], alone: &AtomicBool)
    requires { IsResting board.now caller.old }
    ensures { IsResting board.now caller.new }
{
    for _ in 0..TURNS {
        if !turn(board, caller, hands) {
            alone.store(false, Ordering::SeqCst);
        }
    }
}

// All callers have their turns, each in a thread of its own.
fn run<R: Threads + Sync>(
    rt: &R,
    board: &Board,
    callers: &mut [Caller],
    hands: &[AtomicBool],
    alone: &AtomicBool,
)
    requires { All (IsResting board.now) callers.old }
    ensures { All (IsResting board.now) callers.new }
{
    for_each_mut(
        rt,
        callers,
        8,
        &|_: usize, caller: &mut Caller|
            requires { IsResting board.now caller.old }
            ensures { IsResting board.entry.now caller.new }
        { all_turns(board, caller, hands, alone) },
    );
}

// How many pages a loader is given, one after the other, of which each is in no hand.
fn given(board: &Board, caller: &mut Caller, hands: &[AtomicBool]) -> u32
    requires of { IsOf board.now caller.old }
    requires loader { IsLoader caller.old }
    requires few { length caller.old.account.pool.own ≤ 1 }
{
    for count in 0..PAGES {
        match take(board, caller) {
            Ok(page) => {
                if !picks_up(hands, page) {
                    return count;
                }
            }
            Err(NoPage) => return count,
        }
    }
    PAGES
}

// The first caller takes all pages that are left.
fn given_to_first(board: &Board, mut callers: Vec<Caller>, hands: &[AtomicBool]) -> u32
    requires { All (IsResting board.now) callers.items }
{
    if callers.is_empty() {
        return 0;
    }
    let mut first = callers.remove(0);
    if first.is_loader() {
        return given(board, &mut first, hands);
    }
    0
}

#[test]
fn no_page_is_in_two_hands(rt: HostRuntime) -> Result<(), Fail> {
    let (board, mut callers) = open(rt.alloc(), 4, 4, PAGES)?;
    let hands = empty_hands(rt.alloc())?;
    let alone = AtomicBool::new(true);
    run(&rt, &board, &mut callers, &hands, &alone);
    assert!(rt; alone.load(Ordering::SeqCst));
    // The root is given to nobody, and each of the three other loaders keeps a page.
    assert_eq!(rt; given_to_first(&board, callers, &hands), PAGES - 4);
    Ok(())
}
