//! Where files are read and text is written: the traits, their forms in memory, and the real ones.
#![tactic(auto)]

mod dir_shelf;
mod mem_shelf;
mod mem_sink;
mod named_bytes;
mod out_sink;
mod reads;
mod shelf;
mod sink;
mod sure_shelf;
mod sure_sink;
mod whole;

pub use dir_shelf::DirShelf;
pub use mem_shelf::MemShelf;
pub use mem_sink::MemSink;
pub use named_bytes::NamedBytes;
pub use out_sink::OutSink;
pub use shelf::{Shelf, ShelfError};
pub use sink::{Failed, Sink};
pub use sure_shelf::SureShelf;
pub use sure_sink::SureSink;
pub use whole::{PIECE_SIZE, ReadStop, read_piece, read_whole, write_whole};
