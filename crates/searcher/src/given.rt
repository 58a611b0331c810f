// The rows that a descent gives, and the numbers of the events that publish their blocks.
ghost use Rattle.std.specs.Prelude.{◌≡◌, ℕ, ◌<◌, ◌≤◌, [], length, slice_index, IfOk};
ghost use Rattle.std.specs.List.Sorted.{IsNonDecreasing};
ghost use Rattle.board_core.specs.Each.{Each};
ghost use Rattle.board_core.specs.Loaded.{IsInTable, KnowsRow};
ghost use Rattle.board.specs.Seated.{IsOf};
ghost use Rattle.searcher.specs.Records.{AreOfRows};
ghost use Rattle.searcher.specs.Searched.{Loads};
ghost use Rattle.searcher.specs.Walking.{Reads, AreEarly, AreNumbered, IsNumberOf};

use board::{Board, Caller, load_shown};
use board_core::Row;
use descent::RowSink;
use htss_defs::OutOfMemory;
use std::alloc::Global;

#[derive(Drop)]
pub(crate) struct Rows {
    pub(crate) rows: Vec<Row>,
}

impl RowSink for Rows {
    ghost given = { λ s. s.rows.items };

    fn give(&mut self, row: Row) -> Result<(), OutOfMemory> {
        self.rows.push(row)?;
        Ok(())
    }
}

// The number of the event up to the front that publishes the block, or 0.
fn number_of(board: &Board, caller: &mut Caller, front: u32, block: u64) -> u32
    requires fits { IsOf board.now caller.old }
    requires seen { caller.old.account.log.seen ≡ front }
    requires known { KnowsRow caller.old.account block }
    requires place { IsInTable board.now.shape block }
    ensures of { IsOf board.now caller.new }
    ensures stock { caller.new.stock ≡ caller.old.stock }
    ensures reads { Reads caller.old.account caller.new.account }
    ensures number { IsNumberOf board.now.shape caller.new.account front block result }
    ensures once { Loads caller.old.account caller.new.account 0 1 0 [] }
{
    let mark = load_shown(board, caller, block);
    if mark > front as u64 {
        return 0;
    }
    mark as u32
}

// The numbers of the events up to the front that publish the blocks of these rows, in any order.
fn numbers_of(
    alloc: Global,
    board: &Board,
    caller: &mut Caller,
    front: u32,
    rows: &[Row],
) -> Result<Vec<u32>, OutOfMemory>
    requires fits { IsOf board.now caller.old }
    requires seen { caller.old.account.log.seen ≡ front }
    requires known { Each (λ r. KnowsRow caller.old.account r.block × IsInTable board.now.shape r.block) rows.now }
    ensures of { IsOf board.now caller.new }
    ensures stock { caller.new.stock ≡ caller.old.stock }
    ensures reads { Reads caller.old.account caller.new.account }
    ensures once { (marks : ℕ) × (marks ≤ length rows.now) × Loads caller.old.account caller.new.account 0 marks 0 [] }
    ensures early { IfOk result (λ numbers. AreEarly front numbers.items × (length numbers.items ≤ length rows.now)) }
    ensures all { IfOk result (λ numbers. Each
        (λ r. AreNumbered board.now.shape caller.new.account front r.block numbers.items) rows.now) }
    ensures of_rows { IfOk result (λ numbers. AreOfRows board.now.shape caller.new.account rows.now numbers.items) }
{
    let mut numbers = Vec::new(alloc);
    for index in 0..rows.len() {
        let number = number_of(board, caller, front, rows[index].block);
        if number > 0 {
            numbers.push(number)?;
        }
    }
    Ok(numbers)
}

// The same in order.
pub(crate) fn numbers_in_order(
    alloc: Global,
    board: &Board,
    caller: &mut Caller,
    front: u32,
    rows: &[Row],
) -> Result<Vec<u32>, OutOfMemory>
    requires fits { IsOf board.now caller.old }
    requires seen { caller.old.account.log.seen ≡ front }
    requires known { Each (λ r. KnowsRow caller.old.account r.block × IsInTable board.now.shape r.block) rows.now }
    ensures of { IsOf board.now caller.new }
    ensures stock { caller.new.stock ≡ caller.old.stock }
    ensures reads { Reads caller.old.account caller.new.account }
    ensures once { (marks : ℕ) × (marks ≤ length rows.now) × Loads caller.old.account caller.new.account 0 marks 0 [] }
    ensures early { IfOk result (λ numbers. AreEarly front numbers.items × (length numbers.items ≤ length rows.now)) }
    ensures all { IfOk result (λ numbers. Each
        (λ r. AreNumbered board.now.shape caller.new.account front r.block numbers.items) rows.now) }
    ensures of_rows { IfOk result (λ numbers. AreOfRows board.now.shape caller.new.account rows.now numbers.items) }
    ensures rising { IfOk result (λ numbers. IsNonDecreasing numbers.items) }
{
    let mut numbers = numbers_of(alloc, board, caller, front, rows)?;
    numbers.sort_unstable();
    Ok(numbers)
}
