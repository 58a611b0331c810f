ghost use Rattle.std.specs.Prelude.{◌≡◌, ℕ, List, Option, IfOk, OnErr, take};
ghost use Rattle.std.specs.Io.{WritesAtMost};
ghost use Rattle.std.specs.Io.KnownBytes.{append_known};
ghost use Rattle.outside.specs.Written.{WriteCauses};

/// A write failed.
#[derive(Clone, Copy, Debug, PartialEq, Eq)]
pub struct Failed;

/// Where text is written.
pub trait Sink {
    /// The bytes written, where the sink tells them.
    ghost written: { Self → Option (List ℕ) };

    /// How often a write failed, or took nothing of a piece that has bytes, up to 2^64 - 1.
    ghost faults: { Self → ℕ };

    /// Appends the first bytes of the piece, and answers how many. A write that fails appends none.
    fn write(&mut self, piece: &[u8]) -> Result<usize, Failed>
        ensures bound { WritesAtMost result piece.now }
        ensures ok { IfOk result
            (λ n. written self.new ≡ append_known (written self.old) (take n piece.now)) }
        ensures err { OnErr result (written self.new ≡ written self.old) }
        ensures cause { WriteCauses (faults self.old) (faults self.new) piece.now result };
}
