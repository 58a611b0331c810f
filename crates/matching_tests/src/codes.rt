// The codes of the atoms of molecules.
ghost use Rattle.std.specs.Prelude.{◌≡◌, IfOk, length};
ghost use Rattle.htss_defs.specs.Marked.{IsMarked};

use crate::made::{ETHANOL, Sketch, molecule_of};
use env_code::{Coder, codes_of};
use htss_defs::{Atom, Bond, Mol};
use ring_bonds::mark_rings;
use std::alloc::Global;
use std::test::Fail;

const METHANE: Sketch = Sketch {
    elements: &[6],
    bonds: &[],
};

// Three carbons in a ring; a nitrogen, a sulfur with a hydrogen, and a chlorine on them.
const TAILED_RING: Sketch = Sketch {
    elements: &[6, 6, 6, 7, 16, 17, 1],
    bonds: &[
        (1, 2, 4),
        (2, 3, 4),
        (1, 3, 4),
        (3, 4, 3),
        (1, 5, 2),
        (2, 6, 1),
        (5, 7, 1),
    ],
};

const TWO_OXYGENS: Sketch = Sketch {
    elements: &[8, 8],
    bonds: &[],
};

const CHAIN_OF_SEVEN: Sketch = Sketch {
    elements: &[6, 6, 6, 6, 6, 6, 6],
    bonds: &[
        (1, 2, 1),
        (2, 3, 1),
        (3, 4, 1),
        (4, 5, 1),
        (5, 6, 1),
        (6, 7, 1),
    ],
};

// The five words of the atom at a place.
struct Case {
    sketch: &'static Sketch,
    atom: u16,
    words: [u64; 5],
}

const CASES: &[Case] = &[
    Case {
        sketch: &METHANE,
        atom: 1,
        words: [0x6, 0x10101, 0x10101, 0x10101, 0x10101],
    },
    Case {
        sketch: &ETHANOL,
        atom: 1,
        words: [0x106, 0x20202, 0x1_0002_0303, 0x1_0002_0303, 0x1_0002_0303],
    },
    Case {
        sketch: &ETHANOL,
        atom: 2,
        words: [
            0x206,
            0x1_0002_0303,
            0x1_0002_0303,
            0x1_0002_0303,
            0x1_0002_0303,
        ],
    },
    Case {
        sketch: &ETHANOL,
        atom: 3,
        words: [
            0x108,
            0x1_0001_0202,
            0x1_0002_0303,
            0x1_0002_0303,
            0x1_0002_0303,
        ],
    },
    Case {
        sketch: &TAILED_RING,
        atom: 1,
        words: [
            0x0000_0202_0001_0306,
            0x0300_0100_0003_0404,
            0x0301_0100_0103_0607,
            0x0301_0100_0103_0607,
            0x0301_0100_0103_0607,
        ],
    },
    Case {
        sketch: &TAILED_RING,
        atom: 4,
        words: [
            0x0000_0000_0100_0107,
            0x0100_0000_0101_0202,
            0x0300_0000_0103_0404,
            0x0301_0100_0103_0606,
            0x0301_0100_0103_0607,
        ],
    },
    Case {
        sketch: &TAILED_RING,
        atom: 7,
        words: [
            0x0000_0000_0000_0101,
            0x0000_0100_0000_0102,
            0x0100_0100_0001_0203,
            0x0300_0100_0003_0405,
            0x0301_0100_0103_0607,
        ],
    },
    Case {
        sketch: &TWO_OXYGENS,
        atom: 2,
        words: [
            0x8,
            0x1_0000_0101,
            0x1_0000_0101,
            0x1_0000_0101,
            0x1_0000_0101,
        ],
    },
    Case {
        sketch: &CHAIN_OF_SEVEN,
        atom: 1,
        words: [0x106, 0x20202, 0x30303, 0x40404, 0x50505],
    },
    Case {
        sketch: &CHAIN_OF_SEVEN,
        atom: 4,
        words: [0x206, 0x30303, 0x50505, 0x70707, 0x70707],
    },
];

// Whether the atom has these codes.
fn has_codes(alloc: Global, case: &Case) -> Result<bool, Fail> {
    let mol = molecule_of(alloc, case.sketch)?;
    if case.atom == 0 || case.atom as usize > mol.atoms().len() {
        return Ok(false);
    }
    Ok(codes_of(&mol, case.atom).words == case.words)
}

#[test]
fn codes_atoms(rt: HostRuntime) -> Result<(), Fail> {
    for case in CASES {
        assert!(rt; has_codes(rt.alloc(), case)?, "atom {}", case.atom);
    }
    Ok(())
}

// One carbon with 300 hydrogens.
fn crowded(alloc: Global) -> Result<Mol, Fail>
    ensures { IfOk result (λ mol. IsMarked mol) }
{
    let hydrogen = Atom {
        element: 1,
        charge: 0,
        mass: 0,
    };
    let mut atoms = vec![in alloc; hydrogen; 301]?;
    atoms[0].element = 6;
    let mut bonds = Vec::new(alloc);
    for second in 2..302 {
        bonds.push(Bond {
            first: 1,
            second,
            kind: 1,
            ring: false,
        })?;
    }
    let mut mol = Mol::new(atoms, bonds).ok_or("no molecule")?;
    mark_rings(&mut mol);
    Ok(mol)
}

// Whether counts stop at 255: the molecule is coded atom by atom.
fn stops_at_255(alloc: Global) -> Result<bool, Fail> {
    let mol = crowded(alloc)?;
    if mol.atoms().len() != 301 {
        return Ok(false);
    }
    let mut coder = Coder::new();
    coder.load(&mol);
    let all = 0x0100_0000_0001_01ff;
    let mut same = coder.codes(&mol, 1).words == [0xff06, all, all, all, all];
    for hydrogen in 2..302 {
        let words = coder.codes(&mol, hydrogen).words;
        same = same && words == [0x0101, 0x0100_0000_0001_0102, all, all, all];
    }
    Ok(same)
}

#[test]
fn stops_counts_at_255(rt: HostRuntime) -> Result<(), Fail> {
    assert!(rt; stops_at_255(rt.alloc())?);
    Ok(())
}
