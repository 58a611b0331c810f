// The words of a block's name, atoms and bonds are loaded: all but its marks and its codes.
ghost use Rattle.std.specs.Prelude.{◌≡◌, ℕ, ◌<◌, ◌≤◌, ◌+◌, ◌-◌, ◌⊎◌, [], ◌∷◌, ◌++◌, length, slice_index};
ghost use Rattle.board_core.specs.Words.{total_of};
ghost use Rattle.board_core.specs.Blocks.{block_size};
ghost use Rattle.board_core.specs.Loaded.{KnowsBlock, KnowsHead, IsInTable, HasBlock};
ghost use Rattle.board_core.specs.Steps.{MayBeSome};
ghost use Rattle.board.specs.Seated.{IsOf};
ghost use Rattle.searcher.specs.Records.{IsOfBlock, IsTextPlace, ReadsAt, ReadsWord, places_from, places_read};
ghost use Rattle.searcher.specs.Records.{text_places};
ghost use Rattle.searcher.specs.Searched.{Loads, words_past};
ghost use Rattle.searcher.specs.Walking.{Reads, HasFacts};

use crate::sizes::{bonds_at, codes_at, size_of};
use board::{Board, Caller, load_fact, load_head};

// The words of a block from one place up to another, both past its marks. The other words are left as they were.
fn load_words(
    board: &Board,
    caller: &mut Caller,
    block: u64,
    head: u64,
    from: u32,
    until: u32,
    words: &mut [u64],
)
    requires fits { IsOf board.now caller.old }
    requires known { KnowsHead board.now.shape caller.old.account block head }
    requires may { MayBeSome board.now.shape caller.old.account }
    requires place { block + block_size head ≤ total_of board.now.shape }
    requires range { (3 ≤ from) × (from ≤ until) × (until ≤ block_size head) }
    requires room { length words.old ≡ 7200 }
    requires most { until ≤ 7200 }
    ensures of { IsOf board.now caller.new }
    ensures stock { caller.new.stock ≡ caller.old.stock }
    ensures reads { Reads caller.old.account caller.new.account }
    ensures may { MayBeSome board.now.shape caller.new.account }
    ensures size { length words.new ≡ 7200 }
    ensures words { HasFacts caller.new.account block words.new from until }
    ensures others { (i : ℕ) → (i < from) ⊎ (until ≤ i) → slice_index words.new i ≡ slice_index words.old i }
    ensures once { Loads caller.old.account caller.new.account 0 0 (until - from) [] }
    ensures of_block { ReadsAt caller.old.account caller.new.account (IsOfBlock block head) }
    ensures places { places_read caller.new.account ≡ places_read caller.old.account ++ places_from (block + from)
        (until - from) }
    ensures read { (i : ℕ) → from ≤ i → i < until → ReadsWord caller.old.account caller.new.account (block + i) }
{
    for index in from..until {
        words[index as usize] = load_fact(board, caller, block, head, index);
    }
}

// The words of a block, from 0. The places of the marks and of the codes are left as they were.
pub(crate) fn load_block(board: &Board, caller: &mut Caller, block: u64, words: &mut [u64])
    requires fits { IsOf board.now caller.old }
    requires known { KnowsBlock board.now.shape caller.old.account block }
    requires place { IsInTable board.now.shape block }
    requires room { length words.old ≡ 7200 }
    ensures of { IsOf board.now caller.new }
    ensures stock { caller.new.stock ≡ caller.old.stock }
    ensures reads { Reads caller.old.account caller.new.account }
    ensures may { MayBeSome board.now.shape caller.new.account }
    ensures size { length words.new ≡ 7200 }
    ensures whole { block_size (slice_index words.new 0) ≤ length words.new }
    ensures words { HasBlock board.now.shape caller.new.account block (slice_index words.new) }
    ensures once { (head : ℕ) × Loads caller.old.account caller.new.account 0 0 (words_past head)
        (record { place = block; word = head } ∷ []) }
    ensures of_block { (head : ℕ) × KnowsHead board.now.shape caller.new.account block head
        × ReadsAt caller.old.account caller.new.account (IsOfBlock block head)
        × ((i : ℕ) → IsTextPlace head i → ReadsWord caller.old.account caller.new.account (block + i))
        × (places_read caller.new.account ≡ places_read caller.old.account ++ text_places block head) }
{
    let head = load_head(board, caller, block);
    words[0] = head;
    load_words(board, caller, block, head, 3, codes_at(head), words);
    load_words(
        board,
        caller,
        block,
        head,
        bonds_at(head),
        size_of(head),
        words,
    );
}
