// What is made of the lines of a section.
ghost use Rattle.std.specs.Prelude.{◌≡◌, ℕ, ◌≤◌, List, Option, None, Some, OnOk, IfOk, IfErr};
ghost use Rattle.mol_section.specs.SectionLines.{Kind, header, counts, passed_over, line_at, counts_refusal};
ghost use Rattle.mol_section.specs.Walk.{Parts, Takes, Stops, IsHere, IsStopAt, IsCounted, kind_of, no_parts};
ghost use Rattle.mol_section.specs.declared.draft.Stop.TheVariants.{Memory};

use crate::counts::Counts;
use htss_defs::Adjacency;
use std::alloc::{AllocError, AllocFailed, Global};

/// Why a section has no record and no query: memory ran out, or a line is refused, counted from 0.
#[derive(Clone, Copy, Debug)]
pub enum Stop {
    Memory,
    Refused { line: u64, code: u8 },
}

impl From<AllocError> for Stop {
    ghost from_gives = { λ _ stop. stop ≡ Memory };

    fn from(_: AllocError) -> Self {
        Stop::Memory
    }
}

impl<T: Drop> From<AllocFailed<T>> for Stop {
    ghost from_gives = { λ _ stop. stop ≡ Memory };

    fn from(_: AllocFailed<T>) -> Self {
        Stop::Memory
    }
}

/// A line of which something is made, by what it is.
#[derive(Clone, Copy, Debug)]
pub enum Part {
    Atom,
    Bond,
    List,
    Property,
    End,
}

/// What is made of the lines of a section: a record's draft, or a query's.
pub trait Draft: Drop {
    /// The refusal of a line of the section by its place and its kind, but for its length.
    ghost refusals: { List (List ℕ) → ℕ → Kind → Option ℕ };

    /// What is kept is what these lines say.
    ghost holds: { Self → Parts → Type 0 };

    /// Of a section with these counts, whose counts line has this number.
    fn start(alloc: Global, sizes: Counts, at: u64) -> Result<Self, Stop>
        requires few { sizes.atoms ≤ 999 }
        ensures started { IfOk result (λ draft. (lines : List (List ℕ)) (n : ℕ) → IsCounted lines n sizes
            → (refusals lines n counts ≡ None) × holds draft (no_parts sizes.atoms)) }
        ensures stop { IfErr result (λ stop. (lines : List (List ℕ)) (n : ℕ) → IsCounted lines n sizes
            → IsStopAt (refusals lines n counts) at stop) };

    /// Takes a line, which has this number. The graph has the bonds before it, and gets this one.
    fn take(&mut self, part: Part, line: &[u8], at: u64, graph: &mut Adjacency) -> Result<(), Stop>
        requires due { (lines : List (List ℕ)) × (n : ℕ) × (parts : Parts)
            × holds self.old parts × IsHere part lines n line.now parts graph.old }
        ensures taken { OnOk result
            (Takes refusals (holds self.old) (holds self.new) part line.now graph.old graph.new) }
        ensures stop { IfErr result (Stops refusals (holds self.old) part line.now graph.old at) };

    ghost plain: { (lines : List (List ℕ)) (n : ℕ)
        → (refusals lines n header ≡ None) × (refusals lines n passed_over ≡ None) };

    ghost counted: { (lines : List (List ℕ)) (n code : ℕ)
        → counts_refusal (line_at lines n) ≡ Some code → refusals lines n counts ≡ Some code };
}
