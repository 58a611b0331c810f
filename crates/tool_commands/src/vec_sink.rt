// A sink in memory that grows as it is written to.
ghost use Rattle.std.specs.Prelude.{◌≡◌, ◌≤◌, [], IfOk, vec_capacity};

use htss_defs::OutOfMemory;
use outside::{Failed, Sink};
use std::alloc::Global;

/// All bytes that were written. A write fails only where memory runs out.
#[derive(Drop)]
pub struct VecSink {
    pub bytes: Vec<u8>,
    faults: u64,
}

impl VecSink {
    /// A sink that takes so many bytes before it asks for memory again.
    pub fn with_room(alloc: Global, room: usize) -> Result<VecSink, OutOfMemory>
        ensures empty { IfOk result (λ sink. sink.bytes.items ≡ []) }
        ensures room { IfOk result (λ sink. room ≤ vec_capacity sink.bytes) }
    {
        Ok(VecSink {
            bytes: Vec::with_capacity(alloc, room)?,
            faults: 0,
        })
    }
}

impl Sink for VecSink {
    ghost use Rattle.std.specs.Prelude.{Some};

    ghost written = { λ s. Some s.bytes.items };

    ghost faults = { λ s. s.faults };

    fn write(&mut self, piece: &[u8]) -> Result<usize, Failed> {
        match self.bytes.extend_from_slice(piece) {
            Ok(()) => Ok(piece.len()),
            Err(_) => {
                self.faults = self.faults.saturating_add(1);
                Err(Failed)
            }
        }
    }
}
