// A board is opened, with all its callers.
ghost use Rattle.std.specs.Prelude.{◌≡◌, ◌+◌, ◌<◌, IfOk, IfErr, length};
ghost use Rattle.htss_defs.specs.Shapes.{IsShape};
ghost use Rattle.board_core.specs.Words.{opening_words};
ghost use Rattle.board_core.specs.Accounts.{view, account};
ghost use Rattle.board_core.specs.declared.account.Who.TheVariants.{Opener};
ghost use Rattle.board.specs.Seated.{IsNew, AreNew};
ghost use Rattle.board.specs.Refused.{IsCause};

use crate::plays::Next;
use crate::seats::{TAILS, Tail};
use crate::{Board, Caller};
use arrayvec::ArrayVec;
use atomic_table::{Seat, Table};
use board_core::View;
use htss_defs::{Field, Shape};
use std::alloc::{AllocError, Global};

/// Why no board was opened: the first part of the shape that is out of its limits, or memory ran out.
#[derive(Clone, Copy, Debug, PartialEq, Eq)]
pub enum OpenError {
    Shape(Field),
    OutOfMemory,
}

// The words of a new board.
fn first_words(alloc: Global, shape: Shape) -> Result<Vec<u64>, AllocError>
    requires { IsShape shape }
    ensures { IfOk result (λ words. words.items ≡ opening_words shape) }
{
    let states = 3 + shape.loaders as usize + shape.searchers as usize;
    let pages = states + shape.pages as usize;
    let log = pages + 16 * shape.pages as usize;
    let regions = log + shape.log as usize;
    let total = regions + shape.loaders as usize * shape.room as usize;
    let mut words = vec![in alloc; 0u64; total]?;
    words[2] = 1;
    words[states] = 1;
    words[pages] = 2;
    Ok(words)
}

// The opener's next caller, after so many.
fn make_caller(board: &Board, opener: &mut Seat<(), View>, made: u8) -> Caller
    requires table { opener.old.table_id ≡ board.now.table }
    requires opener { opener.old.me.0 ≡ view board.now.shape (account (Opener made) 0) }
    requires room { made < board.now.shape.loaders + board.now.shape.searchers }
    ensures table { opener.new.table_id ≡ board.now.table }
    ensures opener { opener.new.me.0 ≡ view board.now.shape (account (Opener (made + 1)) 0) }
    ensures new { IsNew board.now made result }
{
    let loaders = board.shape.loaders;
    let seat = board.table.shared.split_seat::<Next>(opener);
    let loader = made < loaders;
    let number = if loader { made + 1 } else { made + 1 - loaders };
    Caller {
        seat,
        seen: 0,
        used: 0,
        stock: ArrayVec::new(),
        tails: [Tail { first: 0, last: 0 }; TAILS],
        next: 1,
        loader,
        number,
    }
}

// All callers of a board, in their order.
fn make_callers(
    alloc: Global,
    board: &Board,
    mut opener: Seat<(), View>,
    count: u8,
) -> Result<Vec<Caller>, AllocError>
    requires count { count ≡ board.now.shape.loaders + board.now.shape.searchers }
    requires table { opener.table_id ≡ board.now.table }
    requires opener { opener.me.0 ≡ view board.now.shape (account (Opener 0) 0) }
    ensures count { IfOk result (λ callers. length callers.items ≡ count) }
    ensures new { IfOk result (λ callers. AreNew board.now callers.items) }
{
    let mut callers = Vec::new(alloc);
    for made in 0..count {
        callers.push(make_caller(board, &mut opener, made))?;
    }
    Ok(callers)
}

// A board of a shape that is within its limits.
fn open_within(alloc: Global, shape: Shape) -> Result<(Board, Vec<Caller>), AllocError>
    requires { IsShape shape }
    ensures shape { IfOk result (λ r. r.0.shape ≡ shape) }
    ensures count { IfOk result (λ r. length r.1.items ≡ shape.loaders + shape.searchers) }
    ensures callers { IfOk result (λ r. AreNew r.0 r.1.items) }
{
    let count = shape.loaders + shape.searchers;
    let words = first_words(alloc, shape)?;
    let (table, opener) = Table::of_words(alloc, words.as_slice(), &shape)?;
    let board = Board { table, shape };
    let callers = make_callers(alloc, &board, opener, count)?;
    Ok((board, callers))
}

/// Opens a board of this shape, with its callers: the loaders in order, then the searchers. None has made a step.
pub fn open_board(alloc: Global, shape: Shape) -> Result<(Board, Vec<Caller>), OpenError>
    ensures shape { IfOk result (λ r. r.0.shape ≡ shape) }
    ensures limits { IfOk result (λ r. IsShape shape) }
    ensures count { IfOk result (λ r. length r.1.items ≡ shape.loaders + shape.searchers) }
    ensures callers { IfOk result (λ r. AreNew r.0 r.1.items) }
    ensures cause { IfErr result (λ e. IsCause shape e) }
{
    if let Some(field) = shape.first_outside() {
        return Err(OpenError::Shape(field));
    }
    match open_within(alloc, shape) {
        Ok(opened) => Ok(opened),
        Err(_) => Err(OpenError::OutOfMemory),
    }
}
