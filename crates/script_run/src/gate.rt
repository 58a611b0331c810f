// What a worker is, and what is called as it goes from job to job.
ghost use Rattle.std.specs.Prelude.{◌≡◌, List, [], ◌∷◌, Option, None};
ghost use Rattle.script_run.specs.Passed.{passed_more};

use board::Caller;

/// Where a worker stands: before a job, or after its answer.
#[derive(Clone, Copy, Debug, PartialEq, Eq)]
pub enum Place {
    Before { loader: bool, worker: u8, line: u32 },
    After { loader: bool, worker: u8, line: u32 },
}

/// What is called before each job and after each answer.
pub trait Gate {
    ghost use Rattle.script_run.specs.declared.gate.Place.{Place};

    /// The places that it was told so far, where it tells them.
    ghost passed: { Self → Option (List Place) };

    /// The worker stands at this place.
    fn at(&mut self, place: Place)
        ensures { passed self.new ≡ passed_more (passed self.old) (place ∷ []) };
}

/// A gate that lets each worker pass.
#[derive(Drop)]
pub struct NoGate;

impl Gate for NoGate {
    ghost passed = { λ _. None };

    fn at(&mut self, _place: Place) {}
}

/// A caller of a board, and its gate.
#[derive(Drop)]
pub struct Worker<G> {
    pub caller: Caller,
    pub gate: G,
}
