// A search at the front: the records that a descent has found are searched by rising number.
ghost use Rattle.std.specs.Prelude.{◌≡◌, ℕ, ◌<◌, ◌≤◌, [], ◌∷◌, length, slice_index, Err, IfOk, IfErr, OnOk};
ghost use Rattle.std.specs.List.Sorted.{IsNonDecreasing};
ghost use Rattle.htss_defs.specs.declared.history.SearchError.{SearchError};
ghost use Rattle.htss_defs.specs.HitLists.{no_hits};
ghost use Rattle.htss_defs.specs.Reply.{IsReply, found, over_budget};
ghost use Rattle.reg_model.specs.Searches.{Counts};
ghost use Rattle.board_core.specs.declared.entry.Entry.TheVariants.{Answered};
ghost use Rattle.board_core.specs.declared.entry.Reply.TheVariants.{Hits, OverBudget};
ghost use Rattle.board_core.specs.After.{after_answer};
ghost use Rattle.board_core.specs.Steps.{AreTrue};
ghost use Rattle.board.specs.Seated.{IsOf, with_account};
ghost use Rattle.searcher.specs.Records.{AreOfScreened, ReadsAllScreened, ReadsInTurn, ReadsLive, ReadsOne, ReadsOnly};
ghost use Rattle.searcher.specs.Records.{ReadsScreened};
ghost use Rattle.searcher.specs.Searched.{IsSearched, LoadsOnce};
ghost use Rattle.searcher.specs.Finding.{HasRead, LoadsPruned};
ghost use Rattle.searcher.specs.Walking.{Reads, Replies, AreFound, AllScreened, Takes, Spends, Whatever};

use crate::finding::find_rows;
use crate::given::{Rows, numbers_in_order};
use crate::live::load_live;
use board::{Answers, Board, Caller, load_front, note_answers};
use htss_defs::{HitList, Query, SearchError};
use reg_model::Search;
use std::alloc::Global;
use std::marker::Brand;

// The answers of `E` may speak of these.
fn note_with<E: Answers>(
    board: &Board,
    caller: &mut Caller,
    _query: &Query,
    _budget: u64,
    _front: u32,
    _hits: &HitList,
)
    requires fits { IsOf board.now caller.old }
    requires answers { AreTrue board.now.shape caller.old.account E.entries }
    ensures { caller.new ≡ with_account caller.old (after_answer caller.old.account E.entries) }
{
    note_answers::<E>(board, caller);
}

// Notes that these hits are the answer at the front.
fn note_hits(
    board: &Board,
    caller: &mut Caller,
    query: &Query,
    budget: u64,
    front: u32,
    hits: &HitList,
)
    requires fits { IsOf board.now caller.old }
    requires reply { Replies board.now.shape caller.old.account query.now budget front (found hits.now.hits) }
    ensures { caller.new ≡ with_account caller.old
        (after_answer caller.old.account (Answered query.now budget front (Hits hits.now.hits) ∷ [])) }
{
    note_with::<Brand>(board, caller, query, budget, front, hits);
}

// Notes that the budget is too small at the front, whatever the list has.
fn note_over(
    board: &Board,
    caller: &mut Caller,
    query: &Query,
    budget: u64,
    front: u32,
    hits: &HitList,
)
    requires fits { IsOf board.now caller.old }
    requires reply { Replies board.now.shape caller.old.account query.now budget front over_budget }
    ensures { caller.new ≡ with_account caller.old
        (after_answer caller.old.account (Answered query.now budget front OverBudget ∷ [])) }
{
    note_with::<Brand>(board, caller, query, budget, front, hits);
}

// Takes the record of a number, if one is live at the front.
fn take_one(
    alloc: Global,
    board: &Board,
    caller: &mut Caller,
    front: u32,
    number: u32,
    search: &mut Search,
    words: &mut [u64],
    hits: &mut HitList,
) -> Result<(), SearchError>
    requires fits { IsOf board.now caller.old }
    requires seen { caller.old.account.log.seen ≡ front }
    requires front { front ≤ board.now.shape.log }
    requires number { (0 < number) × (number ≤ front) }
    requires room { search.old.records < number }
    requires size { length words.old ≡ 7200 }
    ensures of { IsOf board.now caller.new }
    ensures stock { caller.new.stock ≡ caller.old.stock }
    ensures reads { Reads caller.old.account caller.new.account }
    ensures once { LoadsOnce caller.old.account caller.new.account 1 }
    ensures read { ReadsOnly board.now.shape front number caller.old.account caller.new.account }
    ensures one { ReadsOne board.now.shape number caller.old.account caller.new.account }
    ensures whole { ReadsLive board.now.shape front number caller.old.account caller.new.account }
    ensures size { length words.new ≡ 7200 }
    ensures asked { search.new.matcher ≡ search.old.matcher }
    ensures front { search.new.front ≡ search.old.front }
    ensures room { search.new.records ≤ number }
    ensures takes { OnOk result (Whatever board.now.shape caller.new.account front
        (Takes number search.old.matcher search.old.left search.old.records hits.old.hits search.new.left search.new.records hits.new.hits)) }
    ensures over { (at : ℕ) → result ≡ Err (SearchError.OverBudget at) → (at ≡ search.old.front)
        × Whatever board.now.shape caller.new.account front
        (Spends number search.old.matcher search.old.left search.old.records hits.old.hits) }
{
    let Ok(read) = load_live(alloc, board, caller, front, number, words) else {
        return Err(SearchError::OutOfMemory);
    };
    if let Some(live) = read {
        search.take(number, &live.name, &live.mol, hits)?;
    }
    Ok(())
}

// Fills an empty list with the hits among the records of these numbers, which are in order. What it has after an error
// is open.
fn fill(
    alloc: Global,
    board: &Board,
    caller: &mut Caller,
    front: u32,
    query: &Query,
    budget: u64,
    numbers: &[u32],
    rows: u64,
    hits: &mut HitList,
) -> Result<(), SearchError>
    requires fits { IsOf board.now caller.old }
    requires seen { caller.old.account.log.seen ≡ front }
    requires front { front ≤ board.now.shape.log }
    requires numbers { (i : ℕ) → i < length numbers.now → (0 < slice_index numbers.now i)
        × (slice_index numbers.now i ≤ front) }
    requires rising { IsNonDecreasing numbers.now }
    requires all { Whatever board.now.shape caller.old.account front (AllScreened query.now numbers.now) }
    requires screened { Whatever board.now.shape caller.old.account front (AreOfScreened query.now numbers.now) }
    requires empty { hits.old ≡ no_hits }
    ensures of { IsOf board.now caller.new }
    ensures stock { caller.new.stock ≡ caller.old.stock }
    ensures reads { Reads caller.old.account caller.new.account }
    ensures once { LoadsOnce caller.old.account caller.new.account (length numbers.now) }
    ensures read { ReadsScreened board.now.shape query.now front caller.old.account caller.new.account }
    ensures turn { ReadsInTurn board.now.shape caller.old.account caller.new.account }
    ensures whole { OnOk result
        (ReadsAllScreened board.now.shape query.now front caller.old.account caller.new.account) }
    ensures found { OnOk result (AreFound board.now.shape caller.new.account query.now budget front hits.new) }
    ensures rows { OnOk result (hits.new.rows ≡ rows) }
    ensures over { (at : ℕ) → result ≡ Err (SearchError.OverBudget at) → (at ≡ front)
        × Replies board.now.shape caller.new.account query.now budget front over_budget }
{
    let mut search = Search::new(front, query, budget);
    // that those between the numbers may be passed over
    search.law_of_screening();
    let mut words = [0; 7200];
    let mut last = 0;
    for index in 0..numbers.len() {
        let number = numbers[index];
        if number > last {
            take_one(
                alloc,
                board,
                caller,
                front,
                number,
                &mut search,
                &mut words,
                hits,
            )?;
            last = number;
        }
    }
    hits.set_counts(rows, search.records());
    Ok(())
}

// Answers at the front that was just loaded: descends, and searches the records that it has found. What the list has
// after an error is open.
fn answer(
    alloc: Global,
    board: &Board,
    caller: &mut Caller,
    front: u32,
    query: &Query,
    budget: u64,
    hits: &mut HitList,
) -> Result<(), SearchError>
    requires fits { IsOf board.now caller.old }
    requires seen { caller.old.account.log.seen ≡ front }
    requires unpinned { caller.old.account.pool.announced ≡ 0 }
    requires front { front ≤ board.now.shape.log }
    requires empty { hits.old ≡ no_hits }
    ensures of { IsOf board.now caller.new }
    ensures stock { caller.new.stock ≡ caller.old.stock }
    ensures reads { HasRead caller.old.account caller.new.account }
    ensures read { ReadsScreened board.now.shape query.now front caller.old.account caller.new.account }
    ensures turn { ReadsInTurn board.now.shape caller.old.account caller.new.account }
    ensures whole { OnOk result
        (ReadsAllScreened board.now.shape query.now front caller.old.account caller.new.account) }
    ensures found { OnOk result (AreFound board.now.shape caller.new.account query.now budget front hits.new) }
    ensures rows { OnOk result (LoadsPruned query.now caller.old.account caller.new.account hits.new.rows) }
    ensures over { (at : ℕ) → result ≡ Err (SearchError.OverBudget at) → (at ≡ front)
        × Replies board.now.shape caller.new.account query.now budget front over_budget
        × ((rows : ℕ) × LoadsPruned query.now caller.old.account caller.new.account rows) }
{
    let mut found = Rows {
        rows: Vec::new(alloc),
    };
    let Ok(rows) = find_rows(board, caller, query, &mut found) else {
        return Err(SearchError::OutOfMemory);
    };
    let Ok(numbers) = numbers_in_order(alloc, board, caller, front, &found.rows) else {
        return Err(SearchError::OutOfMemory);
    };
    fill(
        alloc, board, caller, front, query, budget, &numbers, rows, hits,
    )
}

/// Gives the hits of the query among the records that are live at the front, which it loads, by rising number, each
/// with the least embedding, how many records were screened, and how many rows were loaded. It answers the front. It is
/// over budget only where the work of this search exceeds the budget, and always where the screened records have more
/// atoms than that. After an error the list is empty. It descends in the class tree with the need of the query's pivot:
/// the code words that it loads are pruned (`LoadsPruned`), none is loaded twice. The names, atoms and bonds that it
/// loads are those of screened records (`ReadsScreened`), record after record by rising number and each word once
/// (`ReadsInTurn`). It doesn't wait. The answer is true of every board that has what the caller has loaded by then.
pub fn search(
    alloc: Global,
    board: &Board,
    caller: &mut Caller,
    query: &Query,
    budget: u64,
    hits: &mut HitList,
) -> Result<u32, SearchError>
    requires fits { IsOf board.now caller.old }
    requires unpinned { caller.old.account.pool.announced ≡ 0 }
    ensures of { IsOf board.now caller.new }
    ensures stock { caller.new.stock ≡ caller.old.stock }
    ensures found { IfOk result (λ f. (caller.old.account.log.seen ≤ f)
        × IsSearched caller.old.account caller.new.account f (Answered query.now budget f (Hits hits.new.hits) ∷ [])) }
    ensures records { IfOk result
        (λ f. Whatever board.now.shape caller.new.account f (λ h. Counts query.now h hits.new.records)) }
    ensures rows { IfOk result (λ f. LoadsPruned query.now caller.old.account caller.new.account hits.new.rows) }
    ensures read { IfOk result (λ f. ReadsScreened board.now.shape query.now f caller.old.account caller.new.account) }
    ensures whole { IfOk result
        (λ f. ReadsAllScreened board.now.shape query.now f caller.old.account caller.new.account) }
    ensures reply { IfOk result (λ f. Whatever board.now.shape caller.new.account f
        (λ h. IsReply query.now budget h (found hits.new.hits))) }
    ensures over { (at : ℕ) → result ≡ Err (SearchError.OverBudget at) → (caller.old.account.log.seen ≤ at)
        × IsSearched caller.old.account caller.new.account at (Answered query.now budget at OverBudget ∷ [])
        × Whatever board.now.shape caller.new.account at (λ h. IsReply query.now budget h over_budget)
        × ((rows : ℕ) × LoadsPruned query.now caller.old.account caller.new.account rows) }
    ensures turn { ReadsInTurn board.now.shape caller.old.account caller.new.account }
    ensures read_over { (at : ℕ) → result ≡ Err (SearchError.OverBudget at)
        → ReadsScreened board.now.shape query.now at caller.old.account caller.new.account }
    ensures memory { result ≡ Err SearchError.OutOfMemory → (f : ℕ) × IsSearched caller.old.account caller.new.account f
        [] }
    ensures empty { IfErr result (λ e. hits.new ≡ no_hits) }
{
    hits.clear();
    let front = load_front(board, caller);
    match answer(alloc, board, caller, front, query, budget, hits) {
        Ok(()) => {
            note_hits(board, caller, query, budget, front, hits);
            Ok(front)
        }
        Err(SearchError::OverBudget { front: at }) => {
            hits.clear();
            note_over(board, caller, query, budget, at, hits);
            Err(SearchError::OverBudget { front: at })
        }
        Err(SearchError::OutOfMemory) => {
            hits.clear();
            Err(SearchError::OutOfMemory)
        }
    }
}
