// The descent: chains are read page by page, codes that cover are followed, and rows are offered.
ghost use Rattle.std.specs.Prelude.{◌≡◌, ℕ, ◌+◌, ◌<◌, ◌≤◌, Bool, true, false, List, [], ◌∷◌, ◌++◌, length, IfOk, IfErr};
ghost use Rattle.std.specs.Prelude.{IsTrue, ◌↔◌};
ghost use mathlib.Core.Option.{some};
ghost use lib.ListN.{get_elem?};
ghost use Rattle.board_core.specs.declared.account.View.{View};
ghost use Rattle.board_core.specs.Words.{Parts};
ghost use Rattle.board_core.specs.Loaded.{IsPage};
ghost use Rattle.board_core.specs.Rows.{codes_in, IsPlaced};
ghost use Rattle.board_core.specs.OldRows.{IsOldRow};
ghost use Rattle.board_core.specs.Boards.{HasBoard, SomeBoard};
ghost use Rattle.board.specs.Seated.{IsOf};
ghost use Rattle.descent.specs.Seats.{seat_of};
ghost use Rattle.descent.specs.Visits.{visited};
ghost use Rattle.descent.specs.Standing.{Stands, OnlyLoads};
ghost use Rattle.descent.specs.Walks.{IsBegun, PageRead, ChainRead, Followed, LeafAt, PageTried, ChainTried};
ghost use Rattle.descent.specs.Walks.{FollowTried};
ghost use Rattle.descent.specs.Descended.{IsDescended, HasCut};

use crate::loads::{Visit, header, link, more, slot};
use crate::rows::{Asks, RowSink, offer};
use board::{Board, Caller, begin_walk};
use htss_defs::OutOfMemory;

// What one page gave: how many rows were loaded, and whether a slot was found 0.
#[derive(Clone, Copy)]
struct Part {
    rows: u64,
    ended: bool,
}

// Reads a leaf entry by entry.
fn leaf_page<N: Asks, S: RowSink>(
    board: &Board,
    caller: &mut Caller,
    need: &N,
    at: Visit,
    depth: u8,
    sink: &mut S,
) -> Result<Part, OutOfMemory>
    requires fits { IsOf board.now caller.old }
    requires page { IsPage board.now.shape at.page }
    requires at { IsBegun (N.covers need.now) (seat_of caller.old.account).reached at.number at.page true depth }
    ensures ok { IfOk result (λ p. PageRead board.now.shape.chain (N.covers need.now) at.number true
        (seat_of caller.old.account) (seat_of caller.new.account) (S.given sink.old)
        (S.given sink.new) p.rows p.ended) }
    ensures err { IfErr result (λ _. PageTried board.now.shape.chain (N.covers need.now) at.number true
        (seat_of caller.old.account) (seat_of caller.new.account) (S.given sink.old) (S.given sink.new)) }
    ensures pages { length caller.new.account.tree.reached ≡ length caller.old.account.tree.reached }
    ensures only { OnlyLoads caller.old caller.new }
{
    for index in 0..14u8 {
        let row = slot(board, caller, at, true, index);
        if row == 0 {
            return Ok(Part {
                rows: index as u64,
                ended: true,
            });
        }
        offer(board, caller, need, at, index, row, sink)?;
    }
    Ok(Part {
        rows: 14,
        ended: false,
    })
}

// Loads the link beside the last code that was loaded, and reads the chain that it leads to. More pages than can be
// counted are never reached.
#[cycle(walk)]
fn follow<N: Asks, S: RowSink>(
    board: &Board,
    caller: &mut Caller,
    need: &N,
    at: Visit,
    index: u8,
    code: u64,
    depth: u8,
    sink: &mut S,
    count: &mut u64,
) -> Result<u64, OutOfMemory>
    requires stands { Stands board.now caller.old count.old }
    requires page { IsPage board.now.shape at.page }
    requires at { LeafAt (N.covers need.now) (seat_of caller.old.account).reached at.number at.page index depth }
    requires code { get_elem? (visited (seat_of caller.old.account).reached at.number).slots index ≡ some code }
    requires small { index < 7 }
    requires depth { depth < 5 }
    requires board { SomeBoard board.now.shape caller.old.account }
    ensures ok { IfOk result (λ n. Followed board.now.shape.chain (N.covers need.now) at.number index
        (seat_of caller.old.account) (seat_of caller.new.account) (S.given sink.old) (S.given sink.new) n) }
    ensures err { IfErr result (λ _. FollowTried board.now.shape.chain (N.covers need.now) at.number index
        (seat_of caller.old.account) (seat_of caller.new.account) (S.given sink.old) (S.given sink.new)) }
    ensures stands { Stands board.now caller.new count.new }
    ensures only { OnlyLoads caller.old caller.new }
{
    if *count == u64::MAX {
        return Err(OutOfMemory);
    }
    match link(board, caller, at, index, code, count) {
        None => Ok(0),
        Some(next) => {
            let leaf = header(board, caller, next) % 4 == 1;
            chain(board, caller, need, next, leaf, depth + 1, sink, count)
        }
    }
}

// Reads an inner page code by code, and follows those that cover.
#[cycle(walk)]
fn inner_page<N: Asks, S: RowSink>(
    board: &Board,
    caller: &mut Caller,
    need: &N,
    at: Visit,
    depth: u8,
    sink: &mut S,
    count: &mut u64,
) -> Result<Part, OutOfMemory>
    requires stands { Stands board.now caller.old count.old }
    requires page { IsPage board.now.shape at.page }
    requires at { IsBegun (N.covers need.now) (seat_of caller.old.account).reached at.number at.page false depth }
    requires depth { depth < 5 }
    ensures ok { IfOk result (λ p. PageRead board.now.shape.chain (N.covers need.now) at.number false
        (seat_of caller.old.account) (seat_of caller.new.account) (S.given sink.old)
        (S.given sink.new) p.rows p.ended) }
    ensures err { IfErr result (λ _. PageTried board.now.shape.chain (N.covers need.now) at.number false
        (seat_of caller.old.account) (seat_of caller.new.account) (S.given sink.old) (S.given sink.new)) }
    ensures stands { Stands board.now caller.new count.new }
    ensures only { OnlyLoads caller.old caller.new }
{
    let mut rows = 0;
    for index in 0..7u8 {
        let code = slot(board, caller, at, false, index);
        if code == 0 {
            return Ok(Part { rows, ended: true });
        }
        if need.covers_code(depth, code) {
            rows += follow(board, caller, need, at, index, code, depth, sink, count)?;
        }
    }
    Ok(Part { rows, ended: false })
}

// Reads one page of a chain.
#[cycle(walk)]
fn page<N: Asks, S: RowSink>(
    board: &Board,
    caller: &mut Caller,
    need: &N,
    at: Visit,
    leaf: bool,
    depth: u8,
    sink: &mut S,
    count: &mut u64,
) -> Result<Part, OutOfMemory>
    requires stands { Stands board.now caller.old count.old }
    requires page { IsPage board.now.shape at.page }
    requires at { IsBegun (N.covers need.now) (seat_of caller.old.account).reached at.number at.page leaf depth }
    requires depth { leaf ≡ false → depth < 5 }
    ensures ok { IfOk result (λ p. PageRead board.now.shape.chain (N.covers need.now) at.number leaf
        (seat_of caller.old.account) (seat_of caller.new.account) (S.given sink.old)
        (S.given sink.new) p.rows p.ended) }
    ensures err { IfErr result (λ _. PageTried board.now.shape.chain (N.covers need.now) at.number leaf
        (seat_of caller.old.account) (seat_of caller.new.account) (S.given sink.old) (S.given sink.new)) }
    ensures stands { Stands board.now caller.new count.new }
    ensures only { OnlyLoads caller.old caller.new }
{
    if leaf {
        leaf_page(board, caller, need, at, depth, sink)
    } else {
        inner_page(board, caller, need, at, depth, sink, count)
    }
}

// A full leaf above the last depth is split, so it has no next page.
fn stands_alone(leaf: bool, depth: u8) -> bool
    ensures { IsTrue result ↔ (leaf ≡ true × depth < 5) }
{
    leaf && depth < 5
}

// Reads a chain from its first page to its end. A leaf above the last depth is one page.
#[cycle(walk)]
fn chain<N: Asks, S: RowSink>(
    board: &Board,
    caller: &mut Caller,
    need: &N,
    first: Visit,
    leaf: bool,
    depth: u8,
    sink: &mut S,
    count: &mut u64,
) -> Result<u64, OutOfMemory>
    requires stands { Stands board.now caller.old count.old }
    requires page { IsPage board.now.shape first.page }
    requires at { IsBegun (N.covers need.now) (seat_of caller.old.account).reached first.number first.page leaf depth }
    requires depth { depth ≤ 5 }
    requires inner { leaf ≡ false → depth < 5 }
    ensures ok { IfOk result (λ n. ChainRead board.now.shape.chain (N.covers need.now) first.number leaf
        (seat_of caller.old.account) (seat_of caller.new.account) (S.given sink.old) (S.given sink.new) n) }
    ensures err { IfErr result (λ _. ChainTried board.now.shape.chain (N.covers need.now) first.number leaf
        (seat_of caller.old.account) (seat_of caller.new.account) (S.given sink.old) (S.given sink.new)) }
    ensures stands { Stands board.now caller.new count.new }
    ensures only { OnlyLoads caller.old caller.new }
{
    let mut rows = 0;
    let mut at = first;
    'chain: loop {
        let part = page(board, caller, need, at, leaf, depth, sink, count)?;
        rows += part.rows;
        if part.ended {
            return Ok(rows);
        }
        if stands_alone(leaf, depth) {
            return Ok(rows);
        }
        if *count == u64::MAX {
            return Err(OutOfMemory);
        }
        match more(board, caller, at, count) {
            None => return Ok(rows),
            Some(next) => at = next,
        }
    }
}

/// Gives each row whose codes all cover the need, none twice, among them each of the blocks that the events show which
/// the caller had seen at its pin. It answers how many rows it loaded. What the caller had reached before is set aside.
/// Where the sink can take no more, it has got rows that cover, none twice. A descent loads each word of the pages on
/// its way once, and at most the first word of the block and five codes for each entry that it reads. It takes what
/// memory the sink takes, and does not wait.
pub fn sweep<N: Asks, S: RowSink>(
    board: &Board,
    caller: &mut Caller,
    need: &N,
    sink: &mut S,
) -> Result<u64, OutOfMemory>
    requires fits { IsOf board.now caller.old }
    requires pinned { 0 < caller.old.account.pool.announced }
    ensures only { OnlyLoads caller.old caller.new }
    ensures means { IfOk result (λ n. (p : Parts) (vs : List View) → HasBoard board.now.shape p vs caller.new.account
        → IsDescended (codes_in board.now.shape p.regions) (IsPlaced vs)
        (IsOldRow board.now.shape p.regions p.log.slots caller.old.account.tree.front) (N.covers need.now)
        (seat_of caller.old.account).loads (seat_of caller.new.account) (S.given sink.old) (S.given sink.new) n) }
    ensures cut { IfErr result (λ _. HasCut board.now.shape (N.covers need.now) caller.old caller.new (S.given sink.old)
        (S.given sink.new)) }
{
    let _limits = board.shape();
    begin_walk(board, caller);
    let mut count = 1;
    let first = Visit { page: 1, number: 0 };
    chain(board, caller, need, first, false, 0, sink, &mut count)
}
