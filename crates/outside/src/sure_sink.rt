ghost use Rattle.std.specs.Prelude.{◌≡◌, [], None, Ok, IfOk, OnErr, take, length};
ghost use Rattle.std.specs.Io.{WritesAtMost};
ghost use Rattle.std.specs.Io.KnownBytes.{append_known};
ghost use Rattle.outside.specs.Written.{WriteCauses};

use crate::{Failed, Sink};

/// A sink that takes every piece whole and passes over it. It never fails, takes no memory, and tells nothing.
#[derive(Clone, Copy, Debug, PartialEq, Eq)]
pub struct SureSink;

impl SureSink {
    /// Such a sink.
    pub fn new() -> SureSink
        ensures { result ≡ record {} }
    {
        SureSink
    }
}

impl Sink for SureSink {
    ghost written = { λ _. None };

    ghost faults = { λ _. 0 };

    fn write(&mut self, piece: &[u8]) -> Result<usize, Failed>
        ensures bound { WritesAtMost result piece.now }
        ensures ok { IfOk result (λ n. None ≡ append_known None (take n piece.now)) }
        ensures err { OnErr result (None ≡ append_known None []) }
        ensures cause { WriteCauses 0 0 piece.now result }
        ensures whole { result ≡ Ok (length piece.now) }
    {
        Ok(piece.len())
    }
}
