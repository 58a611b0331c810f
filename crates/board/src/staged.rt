// A record that a loader has staged.
ghost use Rattle.std.specs.Prelude.{◌≡◌};

use htss_defs::{Mol, Name};
use std::marker::Model;
use std::snapshot::Snapshot;

/// A record that a loader has staged: its block is sealed, and no event shows it yet. One that is dropped is shown by
/// no event. Contracts see where its block begins in the table, its name and its molecule.
#[derive(Drop)]
pub struct Staged {
    block: u64,
    name: Snapshot<Name>,
    mol: Snapshot<Mol>,
}

impl Model for Staged {
    ghost use Rattle.board.specs.Staging.{Staging};

    ghost Value = { Staging };

    ghost view = { λ s. record { block = s.block; name = s.name.value; mol = s.mol.value } };
}

impl Staged {
    /// The record of this name and molecule, in the block at this place of the table.
    pub fn new(block: u64, name: &Name, mol: &Mol) -> Staged
        ensures { result ≡ record { block = block; name = name.now; mol = mol.now } }
    {
        Staged {
            block,
            name: Snapshot::of(name),
            mol: Snapshot::of(mol),
        }
    }

    /// Where the block begins: the place of its first word in the table, from 0.
    pub fn block(&self) -> u64
        ensures { result ≡ self.now.block }
    {
        self.block
    }
}
