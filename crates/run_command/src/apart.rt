// A gate that keeps workers apart in memory.
ghost use Rattle.std.specs.Prelude.{None};

use script_run::{Gate, Place};

/// A gate that lets each worker pass. It is as large as two lines of a cache: a caller changes with each of its steps,
/// and those of two workers then never lie on one line.
#[derive(Drop)]
pub struct Apart {
    pub between: [u64; 16],
}

impl Gate for Apart {
    ghost passed = { λ _. None };

    fn at(&mut self, _place: Place) {}
}
