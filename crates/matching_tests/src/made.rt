// The molecules and the queries of the tests.
ghost use Rattle.std.specs.Prelude.{IfOk};
ghost use Rattle.htss_defs.specs.Marked.{IsMarked};

use htss_defs::{Atom, AtomTest, Bond, Mol, Query, QueryAtom, QueryBond};
use ring_bonds::{mark_rings, marked_query};
use std::alloc::Global;
use std::test::Fail;

// A molecule by its elements, and its bonds by their places and type.
pub struct Sketch {
    pub elements: &'static [u8],
    pub bonds: &'static [(u16, u16, u8)],
}

pub const ETHANOL: Sketch = Sketch {
    elements: &[6, 6, 8],
    bonds: &[(1, 2, 1), (2, 3, 1)],
};

pub const ETHER: Sketch = Sketch {
    elements: &[6, 8, 6],
    bonds: &[(1, 2, 1), (2, 3, 1)],
};

pub const PROPANE: Sketch = Sketch {
    elements: &[6, 6, 6],
    bonds: &[(1, 2, 1), (2, 3, 1)],
};

// A query by its tests, and its bonds by their places, type and topology.
pub struct Asked {
    pub tests: &'static [AtomTest],
    pub bonds: &'static [(u16, u16, u8, u8)],
}

pub const CARBON_OXYGEN: Asked = Asked {
    tests: &[AtomTest::Element(6), AtomTest::Element(8)],
    bonds: &[(1, 2, 1, 0)],
};

/// The molecule of a sketch, with its ring bonds marked; an error where it is none.
pub fn molecule_of(alloc: Global, sketch: &Sketch) -> Result<Mol, Fail>
    ensures { IfOk result (λ mol. IsMarked mol) }
{
    let mut atoms = Vec::new(alloc);
    for element in sketch.elements {
        atoms.push(Atom {
            element: *element,
            charge: 0,
            mass: 0,
        })?;
    }
    let mut bonds = Vec::new(alloc);
    for (first, second, kind) in sketch.bonds {
        bonds.push(Bond {
            first: *first,
            second: *second,
            kind: *kind,
            ring: false,
        })?;
    }
    let mut mol = Mol::new(atoms, bonds).ok_or("no molecule")?;
    mark_rings(&mut mol);
    Ok(mol)
}

/// The query that is asked, with its ring bonds marked; an error where it is none.
pub fn query_of(alloc: Global, asked: &Asked) -> Result<Query, Fail> {
    let mut atoms = Vec::new(alloc);
    for test in asked.tests {
        atoms.push(QueryAtom {
            test: *test,
            charge: 0,
            mass: 0,
        })?;
    }
    let mut bonds = Vec::new(alloc);
    for (first, second, kind, topology) in asked.bonds {
        bonds.push(QueryBond {
            first: *first,
            second: *second,
            kind: *kind,
            topology: *topology,
            ring: false,
        })?;
    }
    Ok(marked_query(atoms, bonds).ok_or("no query")?)
}
