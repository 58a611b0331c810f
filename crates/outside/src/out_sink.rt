// Standard output.
ghost use Rattle.std.specs.Prelude.{◌≡◌, [], None, IfOk, OnErr, take};
ghost use Rattle.std.specs.Io.{WritesAtMost};
ghost use Rattle.std.specs.Io.KnownBytes.{append_known};
ghost use Rattle.outside.specs.Counts.{write_faults_after};
ghost use Rattle.outside.specs.Written.{WriteCauses};

use crate::{Failed, Sink};

/// Standard output. It tells nothing of what was written.
#[derive(Drop)]
pub struct OutSink<'a, P: Print> {
    out: &'a P,
    faults: u64,
}

impl<'a, P: Print> OutSink<'a, P> {
    /// The standard output of this runtime.
    pub fn new(out: &'a P) -> OutSink<'a, P>
        ensures { result.faults ≡ 0 }
    {
        OutSink { out, faults: 0 }
    }
}

impl<'a, P: Print> Sink for OutSink<'a, P> {
    ghost written = { λ _. None };

    ghost faults = { λ s. s.faults };

    fn write(&mut self, piece: &[u8]) -> Result<usize, Failed>
        ensures bound { WritesAtMost result piece.now }
        ensures ok { IfOk result (λ n. None ≡ append_known None (take n piece.now)) }
        ensures err { OnErr result (None ≡ append_known None []) }
        ensures cause { WriteCauses self.old.faults self.new.faults piece.now result }
        ensures faults { self.new.faults ≡ write_faults_after result piece.now self.old.faults }
    {
        let Ok(count) = self.out.write_some(piece) else {
            self.faults = self.faults.saturating_add(1);
            return Err(Failed);
        };
        if count == 0 && !piece.is_empty() {
            self.faults = self.faults.saturating_add(1);
        }
        Ok(count)
    }
}
