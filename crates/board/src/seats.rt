// The board, its callers and their notes.
ghost use Rattle.std.specs.Prelude.{◌≡◌, length};
ghost use Rattle.htss_defs.specs.Shapes.{IsShape};
ghost use Rattle.board.specs.Seated.{number_of, is_loader};

use arrayvec::ArrayVec;
use atomic_table::{Seat, Table};
use board_core::{Ruled, View};
use htss_defs::Shape;
use std::alloc::Global;
use std::marker::Model;

/// The words that all callers share. Contracts see which table it is, and its shape.
#[derive(Drop)]
pub struct Board {
    pub(crate) table: Table<(), View, Shape, Ruled, Global>,
    pub(crate) shape: Shape,
}

impl Model for Board {
    ghost use Rattle.std.specs.Prelude.{◌≡◌};
    ghost use Rattle.htss_defs.specs.Shapes.{IsShape};
    ghost use Rattle.board.specs.Seated.{Place};
    ghost use Rattle.board_core.specs.Words.{total_of};

    ghost Value = { Place };

    ghost view = { λ b. record { table = b.table.shared.table_id; shape = b.shape } };

    ghost invariant = { λ b. (b.table.shared.key ≡ b.shape) × (b.table.shared.table_id.words ≡ total_of b.shape)
        × IsShape b.shape × (b.table.shared.table_id.slots ≡ 0) };
}

impl Board {
    /// The shape that the board was opened with.
    pub fn shape(&self) -> Shape
        ensures value { result ≡ self.now.shape }
        ensures limits { IsShape self.now.shape }
    {
        self.shape
    }
}

/// So many own pages a caller keeps for later.
pub const STOCK: usize = 32;

// So many chains of leaves a caller keeps in mind.
pub(crate) const TAILS: usize = 4096;

/// Two leaves of one chain: its first one, or page 0 where there is none, and the last one that was come to.
#[derive(Clone, Copy)]
pub struct Tail {
    pub first: u32,
    pub last: u32,
}

/// A caller of a board: a loader or a searcher. Contracts see its board, the shape, its account, the own pages that it
/// keeps for later, and the page at which its next look for a page begins.
#[derive(Drop)]
pub struct Caller {
    pub(crate) seat: Seat<(), View>,
    pub(crate) seen: u32,
    // the words of its region that it has stored
    pub(crate) used: u32,
    pub(crate) stock: ArrayVec<u32, STOCK>,
    pub(crate) tails: [Tail; TAILS],
    pub(crate) next: u32,
    pub(crate) loader: bool,
    pub(crate) number: u8,
}

impl Model for Caller {
    ghost use Rattle.std.specs.Prelude.{◌≡◌, [], length};
    ghost use Rattle.board_core.specs.SeatRule.{WhoFits};
    ghost use Rattle.board_core.specs.Loaded.{IsPage};
    ghost use Rattle.board.specs.Seated.{Seated, IsStock, who_of};
    ghost use Rattle.board.specs.Tails.{AreTails};

    ghost Value = { Seated };

    ghost view = { λ c. record {
      table = c.seat.table_id;
      shape = c.seat.me.0.shape;
      account = c.seat.me.0.me;
      stock = c.stock.items;
      next = c.next;
    } };

    ghost invariant = { λ c. (c.seen ≡ c.seat.me.0.me.log.seen) × (c.seat.me.0.me.who ≡ who_of c.loader c.number)
        × (c.seat.me.0.kept ≡ []) × (c.seat.me.1 ≡ []) × (c.used ≡ length c.seat.me.0.me.room.used)
        × WhoFits c.seat.me.0.shape c.seat.me.0.me.who × IsStock c.seat.me.0.shape c.seat.me.0.me.pool.own c.stock.items
        × IsPage c.seat.me.0.shape c.next × AreTails c.seat.me.0.shape c.seat.me.0.me.tree.lasting c.tails };
}

impl Caller {
    /// The greatest front that the caller loaded, heard or made.
    pub fn seen(&self) -> u32
        ensures { result ≡ self.now.account.log.seen }
    {
        self.seen
    }

    /// How many words of its region it has stored. A searcher has none.
    pub fn used(&self) -> u32
        ensures value { result ≡ length self.now.account.room.used }
    {
        self.used
    }

    /// Whether it is a loader. The others are searchers.
    pub fn is_loader(&self) -> bool
        ensures { result ≡ is_loader self.now.account.who }
    {
        self.loader
    }

    /// Its number among its kind, from 1.
    pub fn number(&self) -> u8
        ensures { result ≡ number_of self.now }
    {
        self.number
    }
}

/// What a caller had seen, for another to hear. Contracts see its board, and the front.
#[derive(Drop)]
pub struct Note {
    pub(crate) seat: Seat<(), View>,
    pub(crate) seen: u32,
}

impl Model for Note {
    ghost use Rattle.std.specs.Prelude.{◌≡◌, []};
    ghost use Rattle.board.specs.Seated.{Told, IsNoteOf};

    ghost Value = { Told };

    ghost view = { λ n. record { table = n.seat.table_id; seen = n.seen } };

    ghost invariant = { λ n. IsNoteOf n.seat.me.0 n.seen × (n.seat.me.1 ≡ []) };
}
