// Leaves of the last depth that a caller keeps in mind beyond its pin: such a leaf never leaves the tree. Each call is
// at most one atomic step, and takes no memory.
ghost use Rattle.std.specs.Prelude.{◌≡◌, ◌≢◌, ◌<◌, ℕ, IfSome, IfNone, length};
ghost use Rattle.board_core.specs.declared.tree.Reached.{Reached};
ghost use Rattle.board_core.specs.ClassTree.{header_of};
ghost use Rattle.board_core.specs.KnownPages.{place_of};
ghost use Rattle.board_core.specs.Loaded.{IsPage};
ghost use Rattle.board_core.specs.Passing.{MayPassLeaf, AreKeptOf, MayRecall, kept_at, recalled, after_kept};
ghost use Rattle.board_core.specs.Passing.{after_recalled};
ghost use Rattle.board_core.specs.After.{visited};
ghost use Rattle.board.specs.Seated.{IsOf, with_account};

use crate::places::page_place;
use crate::plays::{KeepLeaves, Recall};
use crate::seats::{TAILS, Tail};
use crate::{Board, Caller};
use std::marker::Brand;

// Which leaves that were reached are kept.
pub(crate) trait Pairs {
    ghost first: { ℕ };

    ghost last: { ℕ };
}

impl Pairs for Brand {
    ghost first = { 0 };

    ghost last = { 0 };
}

// Which leaf is gone to, and from which one of its chain.
pub(crate) trait Returns {
    ghost use Rattle.board_core.specs.declared.tree.Reached.{Reached};

    ghost number: { ℕ };

    ghost to: { Reached };
}

impl Returns for Brand {
    ghost use Rattle.board_core.specs.After.{root};

    ghost number = { 0 };

    ghost to = { root };
}

/// A leaf of the last depth: its page, and its rank in its chain, from 0.
#[derive(Clone, Copy)]
pub struct Leaf {
    pub page: u32,
    pub rank: u32,
}

impl Caller {
    // Where the chain that begins at this page is kept in mind.
    fn tail_place(page: u32) -> usize
        ensures { result < 4096 }
    {
        page as usize % TAILS
    }

    // Keeps in mind that this leaf is of the chain of that first one.
    fn remember(&mut self, first: u32, last: u32)
        requires kept { AreKeptOf self.old.account.tree.lasting first last }
        requires page { IsPage self.old.shape last }
        ensures { self.new ≡ self.old }
    {
        self.tails[Caller::tail_place(first)] = Tail { first, last };
    }

    // The last leaf that is known of the chain that begins at this page, or 0.
    fn tail_of(&self, page: u32) -> u32
        requires { IsPage self.now.shape page }
        ensures { result ≢ 0 → AreKeptOf self.now.account.tree.lasting page result × IsPage self.now.shape result }
    {
        let tail = self.tails[Caller::tail_place(page)];
        if tail.first == page {
            return tail.last;
        }
        0
    }
}

fn keep_of<P: Pairs>(board: &Board, caller: &mut Caller, _first_number: u64, _number: u64)
    requires fits { IsOf board.now caller.old }
    requires first { MayPassLeaf board.now.shape caller.old.account P.first }
    requires last { MayPassLeaf board.now.shape caller.old.account P.last }
    ensures { caller.new ≡ with_account caller.old (after_kept caller.old.account P.first P.last) }
{
    let at = page_place(board.shape, 1, 0);
    board
        .table
        .shared
        .load::<KeepLeaves<P>>(&mut caller.seat, at);
}

/// Keeps two leaves of one chain of the last depth in mind, also after the caller's `unpin`: `recall_leaf` goes from the
/// first one to the other. It loads the root's header, and does not use it.
pub fn keep_leaves(
    board: &Board,
    caller: &mut Caller,
    first: u32,
    first_number: u64,
    page: u32,
    number: u64,
)
    requires fits { IsOf board.now caller.old }
    requires first { MayPassLeaf board.now.shape caller.old.account first_number }
    requires last { MayPassLeaf board.now.shape caller.old.account number }
    requires first_page { (visited caller.old.account.tree.reached first_number).page ≡ first }
    requires page { (visited caller.old.account.tree.reached number).page ≡ page }
    requires path { (visited caller.old.account.tree.reached number).path
        ≡ (visited caller.old.account.tree.reached first_number).path }
    ensures { caller.new ≡ with_account caller.old (after_kept caller.old.account first_number number) }
{
    keep_of::<Brand>(board, caller, first_number, number);
    caller.remember(first, page);
}

// The number is there for the call that picks the leaf.
fn recall_of<R: Returns>(board: &Board, caller: &mut Caller, page: u32, _number: u64) -> u64
    requires fits { IsOf board.now caller.old }
    requires may { MayRecall board.now.shape caller.old.account R.number R.to }
    requires page { R.to.page ≡ page }
    ensures after { caller.new ≡ with_account caller.old (after_recalled caller.old.account R.number R.to) }
    ensures header { result ≡ header_of (place_of (recalled (visited caller.old.account.tree.reached R.number) R.to)) }
    ensures rank { R.to.rank < board.now.shape.chain }
{
    let at = page_place(board.shape, page, 0);
    board.table.shared.load::<Recall<R>>(&mut caller.seat, at)
}

/// Goes from a leaf of the last depth at once to a later leaf of its chain, where the caller keeps one in mind. The
/// caller then speaks of no row as old, since it does not know what stands in the leaves between.
pub fn recall_leaf(board: &Board, caller: &mut Caller, page: u32, number: u64) -> Option<Leaf>
    requires fits { IsOf board.now caller.old }
    requires may { MayPassLeaf board.now.shape caller.old.account number }
    requires page { (visited caller.old.account.tree.reached number).page ≡ page }
    requires depth { length (visited caller.old.account.tree.reached number).path ≡ 5 }
    ensures after { IfSome result (λ leaf. caller.new ≡ with_account caller.old
        (after_recalled caller.old.account number (kept_at caller.old.account.tree.lasting leaf.page))) }
    ensures rank { IfSome result (λ leaf. (kept_at caller.old.account.tree.lasting leaf.page).rank ≡ leaf.rank) }
    ensures page { IfSome result (λ leaf. (kept_at caller.old.account.tree.lasting leaf.page).page ≡ leaf.page) }
    ensures inside { IfSome result (λ leaf. IsPage board.now.shape leaf.page × (leaf.rank < board.now.shape.chain)) }
    ensures none { IfNone result (caller.new ≡ caller.old) }
{
    let _limits = board.shape();
    let last = caller.tail_of(page);
    if last == 0 {
        return None;
    }
    let header = recall_of::<Brand>(board, caller, last, number);
    Some(Leaf {
        page: last,
        rank: (header / 32) as u32,
    })
}

/// Goes to a leaf of the last depth again that was reached, as if nothing were read of it. The caller then speaks of no
/// row as old.
pub fn reach_again(board: &Board, caller: &mut Caller, page: u32, number: u64)
    requires fits { IsOf board.now caller.old }
    requires may { MayPassLeaf board.now.shape caller.old.account number }
    requires page { (visited caller.old.account.tree.reached number).page ≡ page }
    ensures { caller.new ≡ with_account caller.old
        (after_recalled caller.old.account number (visited caller.old.account.tree.reached number)) }
{
    recall_of::<Brand>(board, caller, page, number);
}
