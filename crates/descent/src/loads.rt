// One call for each kind of load of a pinned caller. Each is one atomic step, and anybody may step in between.
ghost use Rattle.std.specs.Prelude.{◌≡◌, ℕ, ◌+◌, ◌<◌, ◌^◌, ◌↔◌, Bool, false, List, [], ◌∷◌, ◌++◌, length, set, IfOk};
ghost use Rattle.std.specs.Prelude.{IfErr, IsTrue, MatchOption};
ghost use mathlib.Core.Option.{some};
ghost use lib.ListN.{get_elem?};
ghost use Rattle.board_core.specs.declared.room.Row.{Row};
ghost use Rattle.board_core.specs.declared.tree.Link.TheVariants.{Unread};
ghost use Rattle.board_core.specs.ClassTree.{page_room, slot_at, header_of};
ghost use Rattle.board_core.specs.KnownPages.{place_of};
ghost use Rattle.board_core.specs.Loaded.{IsPage};
ghost use Rattle.board_core.specs.Boards.{SomeBoard};
ghost use Rattle.board.specs.Seated.{IsOf};
ghost use Rattle.descent.specs.Seats.{seat_of, with_reached};
ghost use Rattle.descent.specs.Visits.{visited, with_slot, IsVisit, MayLink, MayMore, AfterLink, AfterMore};
ghost use Rattle.descent.specs.Standing.{Stands, OnlyLoads};

use board::{Board, Caller, load_header, load_link, load_more, load_slot};

/// A page that was reached, and how many pages had been reached before it since the pin.
#[derive(Clone, Copy)]
pub struct Visit {
    pub page: u32,
    pub number: u64,
}

// The page that a word names. Its number fits, since a shape has fewer pages than that.
fn visit_at(board: &Board, word: u64, number: u64) -> Visit
    requires { IsPage board.now.shape word }
    ensures { result ≡ record { page = word; number = number } }
{
    let _limits = board.shape();
    Visit {
        page: word as u32,
        number,
    }
}

// The place of a code of an inner page, or of an entry of a leaf.
fn slot_place(leaf: bool, index: u8) -> u8
    requires { index < page_room leaf }
    ensures { slot_at leaf index ≡ result }
{
    if leaf { 2 + index } else { 2 + 2 * index }
}

// Loads the header of a page that was reached.
pub(crate) fn header(board: &Board, caller: &mut Caller, at: Visit) -> u64
    requires fits { IsOf board.now caller.old }
    requires page { IsPage board.now.shape at.page }
    requires at { IsVisit caller.old.account.tree.reached at }
    ensures same { caller.new ≡ caller.old }
    ensures word { result ≡ header_of (place_of (visited caller.old.account.tree.reached at.number)) }
{
    load_header(board, caller, at.page, at.number)
}

// Loads the next code of an inner page, or the next entry of a leaf.
pub(crate) fn slot(board: &Board, caller: &mut Caller, at: Visit, leaf: bool, index: u8) -> u64
    requires fits { IsOf board.now caller.old }
    requires page { IsPage board.now.shape at.page }
    requires at { IsVisit caller.old.account.tree.reached at }
    requires kind { (visited caller.old.account.tree.reached at.number).leaf ≡ leaf }
    requires next { length (visited caller.old.account.tree.reached at.number).slots ≡ index }
    requires unread { (visited caller.old.account.tree.reached at.number).more ≡ Unread }
    requires room { index < page_room leaf }
    ensures after { seat_of caller.new.account ≡ with_reached (seat_of caller.old.account)
        (set (seat_of caller.old.account).reached at.number
        (with_slot result (visited (seat_of caller.old.account).reached at.number))) }
    ensures board { SomeBoard board.now.shape caller.new.account }
    ensures only { OnlyLoads caller.old caller.new }
{
    let place = slot_place(leaf, index);
    load_slot(board, caller, at.page, at.number, place)
}

// Loads the link beside a code that was loaded, and says which page it leads to.
pub(crate) fn link(
    board: &Board,
    caller: &mut Caller,
    at: Visit,
    index: u8,
    code: u64,
    count: &mut u64,
) -> Option<Visit>
    requires stands { Stands board.now caller.old count.old }
    requires page { IsPage board.now.shape at.page }
    requires at { IsVisit caller.old.account.tree.reached at }
    requires may { MayLink (visited caller.old.account.tree.reached at.number) index }
    requires code { get_elem? (visited caller.old.account.tree.reached at.number).slots index ≡ some code }
    requires small { index < 7 }
    requires room { count.old + 1 < 2 ^ 64 }
    ensures after { AfterLink (seat_of caller.old.account) at.number index result (seat_of caller.new.account) }
    ensures page { MatchOption result (Unit {0}) (λ next. IsPage board.now.shape next.page) }
    ensures board { SomeBoard board.now.shape caller.new.account }
    ensures stands { Stands board.now caller.new count.new }
    ensures only { OnlyLoads caller.old caller.new }
{
    let word = load_link(board, caller, at.page, at.number, index, code);
    if word == 0 {
        return None;
    }
    let next = visit_at(board, word, *count);
    *count += 1;
    Some(next)
}

// Loads the word of a full page that leads to the next page of its chain.
pub(crate) fn more(board: &Board, caller: &mut Caller, at: Visit, count: &mut u64) -> Option<Visit>
    requires stands { Stands board.now caller.old count.old }
    requires page { IsPage board.now.shape at.page }
    requires at { IsVisit caller.old.account.tree.reached at }
    requires may { MayMore (visited caller.old.account.tree.reached at.number) }
    requires room { count.old + 1 < 2 ^ 64 }
    ensures after { AfterMore (seat_of caller.old.account) at.number result (seat_of caller.new.account) }
    ensures page { MatchOption result (Unit {0}) (λ next. IsPage board.now.shape next.page) }
    ensures board { SomeBoard board.now.shape caller.new.account }
    ensures stands { Stands board.now caller.new count.new }
    ensures only { OnlyLoads caller.old caller.new }
{
    let word = load_more(board, caller, at.page, at.number);
    if word == 0 {
        return None;
    }
    let next = visit_at(board, word, *count);
    *count += 1;
    Some(next)
}
