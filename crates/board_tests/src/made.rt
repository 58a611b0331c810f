// What several modules of tests begin with: molecules, names, and boards that were just opened.
ghost use Rattle.std.specs.Prelude.{◌≡◌, ◌+◌, [], ◌∷◌, IfOk};
ghost use Rattle.htss_defs.specs.Marked.{IsMarked};
ghost use Rattle.board.specs.Seated.{IsAtRest};
ghost use Rattle.board_tests.specs.Loading.{CanLoad};
ghost use Rattle.board_jobs.specs.Calls.{IsAtWork};
ghost use Rattle.script_run.specs.Working.{AreCallers};

use board::{Board, Caller, open_board};
use htss_defs::{Atom, Bond, Mol, Name, Shape};
use ring_bonds::mark_rings;
use std::alloc::Global;
use std::test::Fail;

pub(crate) const CARBON: Atom = Atom {
    element: 6,
    charge: 0,
    mass: 0,
};

// A molecule with marked rings.
pub(crate) fn molecule(alloc: Global, atoms: &[Atom], bonds: &[Bond]) -> Result<Mol, Fail>
    ensures { IfOk result (λ mol. IsMarked mol) }
{
    let atoms = Vec::from_slice(alloc, atoms)?;
    let bonds = Vec::from_slice(alloc, bonds)?;
    let mut mol = Mol::new(atoms, bonds).ok_or("no molecule")?;
    mark_rings(&mut mol);
    Ok(mol)
}

pub(crate) fn named(bytes: &[u8]) -> Result<Name, Fail> {
    Ok(Name::new(bytes).ok_or("no name")?)
}

// A new board, its loader and its searcher.
pub(crate) fn open_two(alloc: Global, room: u32, log: u32) -> Result<(Board, Caller, Caller), Fail>
    ensures loader { IfOk result (λ r. IsAtRest r.0 r.1 × CanLoad r.1) }
    ensures searcher { IfOk result (λ r. IsAtRest r.0 r.2) }
    ensures work { IfOk result (λ r. IsAtWork r.0 r.1 × IsAtWork r.0 r.2) }
    ensures all { IfOk result (λ r. AreCallers r.0 (r.1 ∷ r.2 ∷ [])) }
    ensures count { IfOk result (λ r. r.0.shape.loaders + r.0.shape.searchers ≡ 2) }
{
    let shape = Shape {
        loaders: 1,
        searchers: 1,
        pages: 16,
        room,
        log,
        chain: 2,
    };
    let (board, mut callers) = open_board(alloc, shape)?;
    let loader = callers.remove(0);
    let searcher = callers.remove(0);
    Ok((board, loader, searcher))
}

// A new board, its two loaders and its searcher.
pub(crate) fn open_three(alloc: Global) -> Result<(Board, Caller, Caller, Caller), Fail>
    ensures first { IfOk result (λ r. IsAtRest r.0 r.1 × CanLoad r.1) }
    ensures second { IfOk result (λ r. IsAtRest r.0 r.2 × CanLoad r.2) }
    ensures searcher { IfOk result (λ r. IsAtRest r.0 r.3) }
{
    let shape = Shape {
        loaders: 2,
        searchers: 1,
        pages: 16,
        room: 45,
        log: 4,
        chain: 2,
    };
    let (board, mut callers) = open_board(alloc, shape)?;
    let first = callers.remove(0);
    let second = callers.remove(0);
    let searcher = callers.remove(0);
    Ok((board, first, second, searcher))
}
