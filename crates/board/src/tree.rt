// The words of pages of the class tree, and of own pages. Each call is one atomic step, and takes no memory.
ghost use Rattle.std.specs.Prelude.{◌≡◌, ◌≢◌, ◌+◌, ◌*◌, ◌<◌, ◌≤◌, ◌==◌, ℕ, Bool, false, [], ◌∷◌, length, if◌then◌else◌};
ghost use Rattle.board_core.specs.ClassTree.{slot_at, header_of};
ghost use Rattle.board_core.specs.KnownPages.{place_of};
ghost use Rattle.board_core.specs.Loaded.{IsPage, IsVisit};
ghost use Rattle.board_core.specs.Boards.{SomeBoard};
ghost use Rattle.board_core.specs.Steps.{MayStoreOwn, MayLoadSlot, MayLoadLink, MayLoadMore, Claim, CodeOf, MayClaim};
ghost use Rattle.board_core.specs.Steps.{after_claim, MayLinkLeaf, MayClaimEntry, MayClaimCode, MayLinkMoreLeaf};
ghost use Rattle.board_core.specs.Steps.{MayLinkInner, MayLink};
ghost use Rattle.board_core.specs.CountRule.{most_linked};
ghost use Rattle.board_core.specs.After.{visited, after_own, after_walk, after_slot, after_link, after_more};
ghost use Rattle.board_core.specs.After.{after_linked, after_next, after_entry};
ghost use Rattle.board_core.specs.Sheets.{owns};
ghost use Rattle.board_core.specs.MarkRule.{IsAmong};
ghost use Rattle.board_core.specs.Rows.{entry_word, code_of, words_of, HasRow};
ghost use Rattle.board_core.specs.Each.{In};
ghost use Rattle.board_core.specs.RoomRule.{IsSealed};
ghost use Rattle.board.specs.Claimed.{HasClaimed};
ghost use Rattle.board_core.specs.Blocks.{atoms_in, block_size};
ghost use Rattle.board_core.specs.Words.{total_of};
ghost use Rattle.board_core.specs.Steps.{MayLoadOwn};
ghost use Rattle.board_core.specs.After.{after_code, after_begun};
ghost use Rattle.board.specs.Seated.{IsOf, with_account};

use crate::blocks::Coded;
use crate::places::{code_place, page_place};
use crate::plays::{
    BeginRow, BeginWalk, ClaimWord, LoadHeader, LoadLink, LoadMore, LoadOwnCode, LoadOwnHead,
    LoadSlot, StoreOwn,
};
use crate::{Board, Caller};
use board_core::Row;
use std::marker::Brand;

// Which page that was reached a step is at, by its number, and which of its links it loads. The call that makes the
// step picks them.
pub(crate) trait Reaches {
    ghost number: { ℕ };

    ghost index: { ℕ };

    ghost code: { ℕ };
}

impl Reaches for Brand {
    ghost number = { 0 };

    ghost index = { 0 };

    ghost code = { 0 };
}

// Which word of an own page is stored.
pub(crate) trait Keeps {
    ghost page: { ℕ };

    ghost place: { ℕ };
}

impl Keeps for Brand {
    ghost page = { 0 };

    ghost place = { 0 };
}

// Which exchange of a page word it is.
pub(crate) trait Claims {
    ghost claim: { Claim };
}

impl Claims for Brand {
    ghost claim = { CodeOf 0 0 };
}

fn store_own_of<K: Keeps>(board: &Board, caller: &mut Caller, page: u32, place: u8, word: u64)
    requires fits { IsOf board.now caller.old }
    requires may { MayStoreOwn board.now.shape caller.old.account page place }
    requires page { K.page ≡ page }
    requires place { K.place ≡ place }
    ensures { caller.new ≡ with_account caller.old (after_own caller.old.account page place word) }
{
    let at = page_place(board.shape, page, place);
    let shared = &board.table.shared;
    shared.store::<StoreOwn<K>>(&mut caller.seat, at, word);
}

/// Stores a word of an own page, of which all words before it are stored.
pub fn store_own_word(board: &Board, caller: &mut Caller, page: u32, place: u8, word: u64)
    requires fits { IsOf board.now caller.old }
    requires may { MayStoreOwn board.now.shape caller.old.account page place }
    ensures { caller.new ≡ with_account caller.old (after_own caller.old.account page place word) }
{
    store_own_of::<Brand>(board, caller, page, place, word);
}

/// Begins a walk at the root: loads its header, and sets aside what was reached. The events that were seen at the pin
/// stay.
pub fn begin_walk(board: &Board, caller: &mut Caller)
    requires fits { IsOf board.now caller.old }
    ensures { caller.new ≡ with_account caller.old (after_walk caller.old.account) }
{
    let at = page_place(board.shape, 1, 0);
    board.table.shared.load::<BeginWalk>(&mut caller.seat, at);
}

fn load_header_of<R: Reaches>(board: &Board, caller: &mut Caller, page: u32, number: u64) -> u64
    requires fits { IsOf board.now caller.old }
    requires visit { IsVisit board.now.shape caller.old.account number }
    requires page { (visited caller.old.account.tree.reached number).page ≡ page }
    requires is { R.number ≡ number }
    ensures same { caller.new ≡ caller.old }
    ensures header { result ≡ header_of (place_of (visited caller.old.account.tree.reached number)) }
    ensures shallow { (visited caller.old.account.tree.reached number).leaf ≡ false
        → length (visited caller.old.account.tree.reached number).path < 5 }
{
    let at = page_place(board.shape, page, 0);
    board
        .table
        .shared
        .load::<LoadHeader<R>>(&mut caller.seat, at)
}

/// Loads the header of a page that was reached: its kind, depth and rank. An inner page stands above depth 5.
pub fn load_header(board: &Board, caller: &mut Caller, page: u32, number: u64) -> u64
    requires fits { IsOf board.now caller.old }
    requires visit { IsVisit board.now.shape caller.old.account number }
    requires page { (visited caller.old.account.tree.reached number).page ≡ page }
    ensures same { caller.new ≡ caller.old }
    ensures header { result ≡ header_of (place_of (visited caller.old.account.tree.reached number)) }
    ensures shallow { (visited caller.old.account.tree.reached number).leaf ≡ false
        → length (visited caller.old.account.tree.reached number).path < 5 }
{
    load_header_of::<Brand>(board, caller, page, number)
}

fn load_slot_of<R: Reaches>(
    board: &Board,
    caller: &mut Caller,
    page: u32,
    number: u64,
    place: u8,
) -> u64
    requires fits { IsOf board.now caller.old }
    requires may { MayLoadSlot board.now.shape caller.old.account number }
    requires page { (visited caller.old.account.tree.reached number).page ≡ page }
    requires place { slot_at (visited caller.old.account.tree.reached number).leaf
        (length (visited caller.old.account.tree.reached number).slots) ≡ place }
    requires is { R.number ≡ number }
    ensures after { caller.new ≡ with_account caller.old (after_slot caller.old.account number result) }
    ensures board { SomeBoard board.now.shape caller.new.account }
{
    let at = page_place(board.shape, page, place);
    board.table.shared.load::<LoadSlot<R>>(&mut caller.seat, at)
}

/// Loads the next code or entry of a page that was reached: the place is that of its word in the page. Then there is a
/// board of which the rule holds and that has the caller, as after each load of a page word.
pub fn load_slot(board: &Board, caller: &mut Caller, page: u32, number: u64, place: u8) -> u64
    requires fits { IsOf board.now caller.old }
    requires may { MayLoadSlot board.now.shape caller.old.account number }
    requires page { (visited caller.old.account.tree.reached number).page ≡ page }
    requires place { slot_at (visited caller.old.account.tree.reached number).leaf
        (length (visited caller.old.account.tree.reached number).slots) ≡ place }
    ensures after { caller.new ≡ with_account caller.old (after_slot caller.old.account number result) }
    ensures board { SomeBoard board.now.shape caller.new.account }
{
    load_slot_of::<Brand>(board, caller, page, number, place)
}

fn load_link_of<R: Reaches>(
    board: &Board,
    caller: &mut Caller,
    page: u32,
    number: u64,
    index: u8,
    code: u64,
) -> u64
    requires fits { IsOf board.now caller.old }
    requires may { MayLoadLink board.now.shape caller.old.account number index code }
    requires page { (visited caller.old.account.tree.reached number).page ≡ page }
    requires small { index < 7 }
    requires is { (R.number ≡ number) × (R.index ≡ index) × (R.code ≡ code) }
    ensures after { (leaf : Bool)
        × (caller.new ≡ with_account caller.old (after_link caller.old.account number index code result leaf)) }
    ensures page { result ≢ 0 → IsPage board.now.shape result }
    ensures board { SomeBoard board.now.shape caller.new.account }
{
    let at = page_place(board.shape, page, 3 + 2 * index);
    board.table.shared.load::<LoadLink<R>>(&mut caller.seat, at)
}

/// Loads the link of a code that was loaded. It leads to a leaf or to an inner page, which is held from now on if it is
/// a leaf.
pub fn load_link(
    board: &Board,
    caller: &mut Caller,
    page: u32,
    number: u64,
    index: u8,
    code: u64,
) -> u64
    requires fits { IsOf board.now caller.old }
    requires may { MayLoadLink board.now.shape caller.old.account number index code }
    requires page { (visited caller.old.account.tree.reached number).page ≡ page }
    requires small { index < 7 }
    ensures after { (leaf : Bool)
        × (caller.new ≡ with_account caller.old (after_link caller.old.account number index code result leaf)) }
    ensures page { result ≢ 0 → IsPage board.now.shape result }
    ensures board { SomeBoard board.now.shape caller.new.account }
{
    load_link_of::<Brand>(board, caller, page, number, index, code)
}

fn load_more_of<R: Reaches>(board: &Board, caller: &mut Caller, page: u32, number: u64) -> u64
    requires fits { IsOf board.now caller.old }
    requires may { MayLoadMore board.now.shape caller.old.account number }
    requires page { (visited caller.old.account.tree.reached number).page ≡ page }
    requires is { R.number ≡ number }
    ensures after { caller.new ≡ with_account caller.old (after_more caller.old.account number result) }
    ensures page { result ≢ 0 → IsPage board.now.shape result }
    ensures rank { result ≢ 0 → (visited caller.old.account.tree.reached number).rank + 1 < board.now.shape.chain }
    ensures board { SomeBoard board.now.shape caller.new.account }
{
    let at = page_place(board.shape, page, 1);
    board.table.shared.load::<LoadMore<R>>(&mut caller.seat, at)
}

/// Loads the next page of a chain, of a page that was read whole.
pub fn load_more(board: &Board, caller: &mut Caller, page: u32, number: u64) -> u64
    requires fits { IsOf board.now caller.old }
    requires may { MayLoadMore board.now.shape caller.old.account number }
    requires page { (visited caller.old.account.tree.reached number).page ≡ page }
    ensures after { caller.new ≡ with_account caller.old (after_more caller.old.account number result) }
    ensures page { result ≢ 0 → IsPage board.now.shape result }
    ensures rank { result ≢ 0 → (visited caller.old.account.tree.reached number).rank + 1 < board.now.shape.chain }
    ensures board { SomeBoard board.now.shape caller.new.account }
{
    load_more_of::<Brand>(board, caller, page, number)
}

// The numbers and the row are there for the call that picks which exchange it is.
fn claim_of<C: Claims>(
    board: &Board,
    caller: &mut Caller,
    page: u32,
    place: u8,
    word: u64,
    _number: u64,
    _index: u8,
    _code: u64,
    _row: Row,
) -> u64
    requires fits { IsOf board.now caller.old }
    requires may { MayClaim board.now.shape caller.old.account page place word C.claim }
    requires stock { (p : ℕ) → IsAmong caller.old.stock p
        → owns p caller.old.account.pool.own ≤ owns p (after_claim caller.old.account C.claim).pool.own }
    ensures { HasClaimed board.now.shape C.claim caller.old caller.new result }
{
    let at = page_place(board.shape, page, place);
    let shared = &board.table.shared;
    shared.compare_exchange::<ClaimWord<C>>(&mut caller.seat, at, 0, word)
}

/// Exchanges a link that is 0 for an own leaf that has a row. The answer is the word that it found: where that is not
/// 0, it was loaded.
pub fn link_leaf(
    board: &Board,
    caller: &mut Caller,
    page: u32,
    number: u64,
    index: u8,
    code: u64,
    new: u32,
    row: Row,
) -> u64
    requires fits { IsOf board.now caller.old }
    requires may { MayLinkLeaf board.now.shape caller.old.account number index code new row }
    requires page { (visited caller.old.account.tree.reached number).page ≡ page }
    requires small { index < 7 }
    requires free { ¬ (IsAmong caller.old.stock new) }
    ensures won { result ≡ 0 → caller.new ≡ with_account caller.old (after_linked caller.old.account new (row ∷ [])) }
    ensures lost { result ≢ 0 → (leaf : Bool)
        × (caller.new ≡ with_account caller.old (after_link caller.old.account number index code result leaf)) }
    ensures page { result ≢ 0 → IsPage board.now.shape result }
{
    claim_of::<Brand>(
        board,
        caller,
        page,
        3 + 2 * index,
        new as u64,
        number,
        index,
        code,
        row,
    )
}

/// Exchanges the next entry of a leaf for a row, where it is 0. The answer is the word that it found: where that is not
/// 0, it was loaded.
pub fn claim_entry(
    board: &Board,
    caller: &mut Caller,
    page: u32,
    number: u64,
    place: u8,
    word: u64,
    row: Row,
) -> u64
    requires fits { IsOf board.now caller.old }
    requires may { MayClaimEntry board.now.shape caller.old.account number row }
    requires page { (visited caller.old.account.tree.reached number).page ≡ page }
    requires place { 2 + length (visited caller.old.account.tree.reached number).slots ≡ place }
    requires word { entry_word row ≡ word }
    ensures won { result ≡ 0 → caller.new ≡ with_account caller.old (after_entry caller.old.account number row) }
    ensures lost { result ≢ 0 → caller.new ≡ with_account caller.old (after_slot caller.old.account number result) }
{
    claim_of::<Brand>(board, caller, page, place, word, number, 0, 0, row)
}

/// Exchanges the next code word of an inner page for a code, where it is 0. The answer is the word that it found. What
/// then stands there was loaded.
pub fn claim_code(
    board: &Board,
    caller: &mut Caller,
    page: u32,
    number: u64,
    place: u8,
    code: u64,
) -> u64
    requires fits { IsOf board.now caller.old }
    requires may { MayClaimCode board.now.shape caller.old.account number code }
    requires page { (visited caller.old.account.tree.reached number).page ≡ page }
    requires place { 2 + 2 * length (visited caller.old.account.tree.reached number).slots ≡ place }
    ensures { caller.new ≡ with_account caller.old
        (after_slot caller.old.account number (if result == 0 then code else result)) }
{
    let none = Row { block: 0, atom: 0 };
    claim_of::<Brand>(board, caller, page, place, code, number, 0, code, none)
}

/// Links an own leaf that has a row as the next page of a full one, where there is none. The answer is the word that it
/// found: where that is not 0, it was loaded.
pub fn link_next_leaf(
    board: &Board,
    caller: &mut Caller,
    page: u32,
    number: u64,
    new: u32,
    row: Row,
) -> u64
    requires fits { IsOf board.now caller.old }
    requires may { MayLinkMoreLeaf board.now.shape caller.old.account number new row }
    requires page { (visited caller.old.account.tree.reached number).page ≡ page }
    requires free { ¬ (IsAmong caller.old.stock new) }
    ensures won { result ≡ 0 → caller.new ≡ with_account caller.old (after_linked caller.old.account new (row ∷ [])) }
    ensures lost { result ≢ 0 → caller.new ≡ with_account caller.old (after_more caller.old.account number result) }
    ensures page { result ≢ 0 → IsPage board.now.shape result }
{
    claim_of::<Brand>(board, caller, page, 1, new as u64, number, 1, 0, row)
}

/// Links an own inner page that has a code as the next page of a full one, where there is none. The answer is the word
/// that it found. What then stands there was loaded, and where it is the own page, its code as well.
pub fn link_next_inner(
    board: &Board,
    caller: &mut Caller,
    page: u32,
    number: u64,
    new: u32,
    code: u64,
) -> u64
    requires fits { IsOf board.now caller.old }
    requires may { MayLinkInner board.now.shape caller.old.account number new code }
    requires page { (visited caller.old.account.tree.reached number).page ≡ page }
    requires free { ¬ (IsAmong caller.old.stock new) }
    ensures won { result ≡ 0 → caller.new ≡ with_account caller.old (after_next caller.old.account number new code) }
    ensures lost { result ≢ 0 → caller.new ≡ with_account caller.old (after_more caller.old.account number result) }
    ensures page { result ≢ 0 → IsPage board.now.shape result }
{
    let none = Row { block: 0, atom: 0 };
    claim_of::<Brand>(board, caller, page, 1, new as u64, number, 1, code, none)
}

fn load_own_code_of<C: Coded>(
    board: &Board,
    caller: &mut Caller,
    block: u64,
    head: u64,
    atom: u16,
    code: u8,
) -> u64
    requires fits { IsOf board.now caller.old }
    requires may { MayLoadOwn board.now.shape caller.old.account (record { block = block; atom = atom }) head code }
    requires place { block + block_size head ≤ total_of board.now.shape }
    requires atom { (0 < atom) × (atom ≤ atoms_in head) }
    requires row { C.loaded_row ≡ record { block = block; atom = atom } }
    requires which { C.loaded_code ≡ code }
    ensures after { caller.new ≡ with_account caller.old
        (after_code caller.old.account (record { block = block; atom = atom }) code result) }
    ensures stored { result
        ≡ code_of (words_of caller.old.shape caller.old.account.who caller.old.account.room.used block) atom code }
    ensures some { result ≢ 0 }
{
    let shared = &board.table.shared;
    let at = code_place(block, head, atom, code);
    shared.load::<LoadOwnCode<C>>(&mut caller.seat, at)
}

/// Loads a code word of an atom of an own block: it is the one that was stored, and not 0.
pub fn load_own_code(
    board: &Board,
    caller: &mut Caller,
    block: u64,
    head: u64,
    atom: u16,
    code: u8,
) -> u64
    requires fits { IsOf board.now caller.old }
    requires may { MayLoadOwn board.now.shape caller.old.account (record { block = block; atom = atom }) head code }
    requires place { block + block_size head ≤ total_of board.now.shape }
    requires atom { (0 < atom) × (atom ≤ atoms_in head) }
    ensures after { caller.new ≡ with_account caller.old
        (after_code caller.old.account (record { block = block; atom = atom }) code result) }
    ensures stored { result
        ≡ code_of (words_of caller.old.shape caller.old.account.who caller.old.account.room.used block) atom code }
    ensures some { result ≢ 0 }
{
    load_own_code_of::<Brand>(board, caller, block, head, atom, code)
}

fn begin_row_of<C: Coded>(
    board: &Board,
    caller: &mut Caller,
    block: u64,
    head: u64,
    atom: u16,
    code: u8,
) -> u64
    requires fits { IsOf board.now caller.old }
    requires may { MayLoadOwn board.now.shape caller.old.account (record { block = block; atom = atom }) head code }
    requires place { block + block_size head ≤ total_of board.now.shape }
    requires atom { (0 < atom) × (atom ≤ atoms_in head) }
    requires row { C.loaded_row ≡ record { block = block; atom = atom } }
    requires which { C.loaded_code ≡ code }
    ensures after { caller.new ≡ with_account caller.old
        (after_begun (after_code caller.old.account (record { block = block; atom = atom }) code result)
        (record { block = block; atom = atom })) }
    ensures stored { result
        ≡ code_of (words_of caller.old.shape caller.old.account.who caller.old.account.room.used block) atom code }
    ensures some { result ≢ 0 }
    ensures alone { HasRow (entry_word (record { block = block; atom = atom })) caller.old.account.tree.placed
        → In (record { block = block; atom = atom }) caller.old.account.tree.placed }
    ensures few { MayLink caller.new.account most_linked }
{
    let shared = &board.table.shared;
    let at = code_place(block, head, atom, code);
    shared.load::<BeginRow<C>>(&mut caller.seat, at)
}

/// The same, and the row is begun: it may be placed from now on. Of the rows that were placed, its entry word names it
/// alone. For it as many pages may be linked as for each row.
pub fn begin_row(
    board: &Board,
    caller: &mut Caller,
    block: u64,
    head: u64,
    atom: u16,
    code: u8,
) -> u64
    requires fits { IsOf board.now caller.old }
    requires may { MayLoadOwn board.now.shape caller.old.account (record { block = block; atom = atom }) head code }
    requires place { block + block_size head ≤ total_of board.now.shape }
    requires atom { (0 < atom) × (atom ≤ atoms_in head) }
    ensures after { caller.new ≡ with_account caller.old
        (after_begun (after_code caller.old.account (record { block = block; atom = atom }) code result)
        (record { block = block; atom = atom })) }
    ensures stored { result
        ≡ code_of (words_of caller.old.shape caller.old.account.who caller.old.account.room.used block) atom code }
    ensures some { result ≢ 0 }
    ensures alone { HasRow (entry_word (record { block = block; atom = atom })) caller.old.account.tree.placed
        → In (record { block = block; atom = atom }) caller.old.account.tree.placed }
    ensures few { MayLink caller.new.account most_linked }
{
    begin_row_of::<Brand>(board, caller, block, head, atom, code)
}

/// Loads the first word of an own sealed block: it is the one that was stored, and all of the block is in the table.
pub fn load_own_head(board: &Board, caller: &mut Caller, block: u64) -> u64
    requires fits { IsOf board.now caller.old }
    requires sealed { IsSealed caller.old.account.room.sealed block }
    requires place { block < total_of board.now.shape }
    ensures same { caller.new ≡ caller.old }
    ensures stored { result ≡ words_of caller.old.shape caller.old.account.who caller.old.account.room.used block 0 }
    ensures until { block + block_size result ≤ total_of board.now.shape }
{
    let shared = &board.table.shared;
    let at = block as usize;
    shared.load::<LoadOwnHead>(&mut caller.seat, at)
}
