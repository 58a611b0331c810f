// A board is closed, with what its callers know.
ghost use Rattle.std.specs.Prelude.{◌≡◌, ◌+◌, ◌<◌, ◌≤◌, ◌^◌, List, [], ◌∷◌, length, map, IfOk};
ghost use Rattle.std.specs.Mem.Slots.{slots_items, slots_len, IsFull};
ghost use Rattle.htss_defs.specs.History.{HasEvent};
ghost use Rattle.board_core.specs.LogWord.{kind_in, loader_in, target_in};
ghost use Rattle.board_core.specs.Blocks.{block_size, first_of};
ghost use Rattle.board_core.specs.Each.{Each};
ghost use Rattle.board_core.specs.Loaded.{IsPage};
ghost use Rattle.board_core.specs.Accounts.{accounts_in, keeping, view};
ghost use Rattle.board.specs.Seated.{IsOf, IsAtRest, account_of};
ghost use Rattle.board.specs.Closed.{IsSettled, IsShown, words_from, state_in, pages_in};

use crate::places::{log_place, page_place, state_place, words_in};
use crate::plays::Kept;
use crate::{Board, Caller};
use atomic_table::{Closed, Seat};
use block_words::{read_mol, read_name};
use board_core::View;
use htss_defs::{Event, OutOfMemory, Shape};
use std::alloc::Global;
use std::marker::Model;
use std::snapshot::Snapshot;

/// A board that was closed. Contracts see its shape, the history, the states of its pages, and the accounts of its
/// callers.
pub struct Final {
    closed: Closed<(), Global>,
    shape: Shape,
    last: Snapshot<Seat<(), View>>,
}

impl Model for Final {
    ghost use Rattle.std.specs.Prelude.{◌≡◌};
    ghost use Rattle.std.specs.Mem.Slots.{slots_items, slots_len, IsFull};
    ghost use Rattle.htss_defs.specs.Shapes.{IsShape};
    ghost use Rattle.board_core.specs.Words.{total_of};
    ghost use Rattle.board.specs.Closed.{Closing, Ends, closing};

    ghost Value = { Closing };

    ghost view = { λ f. closing f.shape (slots_items f.closed.words) f.last.value.me.0 };

    ghost invariant = { λ f. IsFull f.closed.words × (slots_len f.closed.words ≡ total_of f.shape)
        × (slots_len f.closed.slots ≡ 0) × IsShape f.shape
        × Ends f.shape (slots_items f.closed.words) f.last.value.me.0 };
}

// The account of the other caller is kept.
fn keep(board: &Board, seat: &mut Seat<(), View>, other: Caller)
    requires table { seat.old.table_id ≡ board.now.table }
    requires other { IsOf board.now other }
    ensures table { seat.new.table_id ≡ board.now.table }
    ensures view { seat.new.me.0 ≡ keeping seat.old.me.0 (view other.shape other.account) }
{
    board.table.shared.join_seat::<Kept>(seat, other.seat);
}

// The board is closed with this seat.
fn close(board: Board, seat: Seat<(), View>) -> Final
    requires { seat.table_id ≡ board.table }
    ensures shape { result.shape ≡ board.shape }
    ensures accounts { result.accounts ≡ accounts_in seat.me.0 }
{
    let last = Snapshot::of(&seat);
    let Board { table, shape } = board;
    Final {
        closed: table.close_with(seat),
        shape,
        last,
    }
}

/// Closes the board, with what its callers know: all of them are handed in, unpinned and without the lock.
pub fn gather(board: Board, mut callers: Vec<Caller>) -> Final
    requires count { length callers.items ≡ board.shape.loaders + board.shape.searchers }
    requires callers { Each (IsAtRest board) callers.items }
    ensures shape { result.shape ≡ board.shape }
    ensures accounts { result.accounts ≡ map account_of callers.items }
{
    let _within_limits = board.shape();
    let Caller { mut seat, .. } = callers.remove(0);
    while !callers.is_empty() {
        let other = callers.remove(0);
        keep(&board, &mut seat, other);
    }
    close(board, seat)
}

impl Final {
    /// The history is legal and fits the log, and each account is true. The history is shown by words such as each
    /// account has loaded.
    pub fn is_settled(&self)
        ensures settled { IsSettled self.now }
        ensures shown { IsShown self.now }
    {
        let _closed = &self.closed;
    }

    /// The events of all fronts, in order.
    pub fn history(&self, alloc: Global) -> Result<Vec<Event>, OutOfMemory>
        ensures { IfOk result (λ events. events.items ≡ self.now.history) }
    {
        let mut events = Vec::new(alloc);
        let front = self.closed.word(0) as usize;
        for i in 0..front {
            let event = self.event(alloc, i)?;
            events.push(event)?;
        }
        Ok(events)
    }

    /// The shape that the board was opened with.
    pub fn shape(&self) -> Shape
        ensures { result ≡ self.now.shape }
    {
        self.shape
    }

    /// The state of a page, by its number from 1: 0 of a free one, 1 of a busy one, else one more than the stamp of a
    /// retired one.
    pub fn page_state(&self, page: u32) -> u64
        requires { IsPage self.now.shape page }
        ensures { result ≡ state_in self.now.states page }
    {
        self.closed.word(state_place(self.shape, page))
    }

    /// One of the sixteen words of a page, by the page's number from 1 and the word's place in it from 0.
    pub fn page_word(&self, page: u32, place: u8) -> u64
        requires page { IsPage self.now.shape page }
        requires place { place < 16 }
        ensures { result ≡ pages_in self.now.pages page place }
    {
        self.closed.word(page_place(self.shape, page, place))
    }

    // The event of the log word at this place of the log, counted from 0.
    fn event(&self, alloc: Global, index: usize) -> Result<Event, OutOfMemory>
        requires { index < length self.now.history }
        ensures { IfOk result (λ event. HasEvent self.now.history (index + 1) event) }
    {
        let first = log_place(self.shape);
        let word = self.closed.word(first + index);
        let caller = loader_of(word);
        let target = target_of(word);
        if kind_of(word) == 2 {
            let number = target as u32;
            return Ok(Event::Withdraw { caller, number });
        }
        let words = block_at(alloc, &self.closed, target as usize)?;
        let name = read_name(&words);
        let mol = read_mol(alloc, &words)?;
        Ok(Event::Publish { caller, name, mol })
    }
}

// The kind of event that a log word shows: 2 of a withdrawal.
fn kind_of(word: u64) -> u64
    ensures { result ≡ kind_in word }
{
    word >> 48
}

// The loader whose event a log word shows.
fn loader_of(word: u64) -> u8
    ensures { result ≡ loader_in word }
{
    ((word >> 40) % (1 << 8)) as u8
}

// The place of the block that a log word publishes, or the number that it withdraws.
fn target_of(word: u64) -> u64
    ensures { result ≡ target_in word }
{
    word % (1 << 40)
}

// The words of the block at this place.
fn block_at(
    alloc: Global,
    closed: &Closed<(), Global>,
    place: usize,
) -> Result<Vec<u64>, OutOfMemory>
    requires full { IsFull closed.now.words }
    requires place { place < 2 ^ 40 }
    requires within { place < slots_len closed.now.words }
    requires whole { place + block_size (words_from (slots_items closed.now.words) place 0)
        ≤ slots_len closed.now.words }
    ensures { IfOk result (λ words. words.items
        ≡ first_of (words_from (slots_items closed.now.words) place)
        (block_size (words_from (slots_items closed.now.words) place 0))) }
{
    let size = words_in(closed.word(place));
    let mut words = Vec::with_capacity(alloc, size)?;
    for i in 0..size {
        words.push(closed.word(place + i))?;
    }
    Ok(words)
}

impl Drop for Final {
    fn drop(self) {
        let Final {
            closed,
            shape: _,
            last: _,
        } = self;
        closed.free();
    }
}
