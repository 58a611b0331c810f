// The words of the pages that take a full leaf's place are stored.
ghost use Rattle.std.specs.Prelude.{◌≡◌, ◌<◌, ◌≤◌, ℕ, length, slice_index};
ghost use Rattle.board_core.specs.Loaded.{IsPage, HasOwn};
ghost use Rattle.board.specs.Seated.{IsOf};
ghost use Rattle.leaf_split.specs.Groups.{entry_of};
ghost use Rattle.leaf_split.specs.Pages.{pages_of, word_of};
ghost use Rattle.class_tree.specs.Splitting.{AreStored, AreFilled, StoresOnly};

use board::{Board, Caller, store_own_word};
use leaf_split::Groups;

// Stores all words of one page, in order.
fn fill_page(
    board: &Board,
    caller: &mut Caller,
    groups: &Groups,
    depth: u8,
    pages: &[u32],
    page: usize,
)
    requires fits { IsOf board.now caller.old }
    requires few { groups.now.count ≤ 14 }
    requires depth { depth < 5 }
    requires size { length pages.now ≡ pages_of groups.now.count }
    requires page { page < pages_of groups.now.count }
    requires mine { IsPage board.now.shape (slice_index pages.now page)
        × HasOwn caller.old.account (slice_index pages.now page) }
    ensures only { StoresOnly caller.old caller.new (λ q. q ≡ slice_index pages.now page) }
    ensures stored { AreStored caller.new.account.pool.own (slice_index pages.now page)
        (word_of depth groups.now.count (slice_index groups.now.codes) (entry_of groups.now.entries)
        (slice_index pages.now) page) 16 }
{
    for place in 0..16u8 {
        let word = groups.word(depth as u64, pages, page, place as usize);
        store_own_word(board, caller, pages[page], place, word);
    }
}

// Stores the words of all pages.
pub(crate) fn fill(board: &Board, caller: &mut Caller, groups: &Groups, depth: u8, pages: &[u32])
    requires fits { IsOf board.now caller.old }
    requires few { groups.now.count ≤ 14 }
    requires depth { depth < 5 }
    requires size { length pages.now ≡ pages_of groups.now.count }
    requires mine { (t : ℕ) → t < length pages.now → IsPage board.now.shape (slice_index pages.now t)
        × HasOwn caller.old.account (slice_index pages.now t) }
    requires apart { (t u : ℕ) → t < length pages.now → u < length pages.now
        → slice_index pages.now t ≡ slice_index pages.now u → t ≡ u }
    ensures only { StoresOnly caller.old caller.new
        (λ q. (t : ℕ) × (t < length pages.now) × (slice_index pages.now t ≡ q)) }
    ensures filled { AreFilled caller.new.account.pool.own pages.now
        (word_of depth groups.now.count (slice_index groups.now.codes) (entry_of groups.now.entries)
        (slice_index pages.now)) (length pages.now) }
{
    for page in 0..groups.pages() {
        fill_page(board, caller, groups, depth, pages, page);
    }
}
