// Which bonds of molecules, queries and graphs are ring bonds.
use htss_defs::{Adjacency, Atom, AtomTest, Bond, Ends, Mol, Query, QueryAtom, QueryBond};
use ring_bonds::{RingMarker, mark_rings, marked_query, ring_flags};
use std::alloc::{AllocError, Global};
use std::test::Fail;

// The number of atoms, and for each bond its places and whether it is a ring bond.
struct Sketch {
    atoms: usize,
    bonds: &'static [(u16, u16, bool)],
}

// A ring of three with a tail; two rings that are joined; a chain; a chain beside a ring; naphthalene.
const SKETCHES: &[Sketch] = &[
    Sketch {
        atoms: 4,
        bonds: &[(1, 2, true), (2, 3, true), (1, 3, true), (3, 4, false)],
    },
    Sketch {
        atoms: 6,
        bonds: &[
            (1, 2, true),
            (2, 3, true),
            (3, 1, true),
            (3, 4, false),
            (4, 5, true),
            (5, 6, true),
            (6, 4, true),
        ],
    },
    CHAIN,
    Sketch {
        atoms: 6,
        bonds: &[(2, 5, false), (1, 3, true), (6, 3, true), (6, 1, true)],
    },
    Sketch {
        atoms: 10,
        bonds: &[
            (1, 2, true),
            (2, 3, true),
            (3, 4, true),
            (4, 5, true),
            (5, 6, true),
            (6, 1, true),
            (5, 7, true),
            (7, 8, true),
            (8, 9, true),
            (9, 10, true),
            (10, 6, true),
        ],
    },
];

const CHAIN: Sketch = Sketch {
    atoms: 4,
    bonds: &[(3, 4, false), (2, 3, false), (1, 2, false)],
};

// The bonds of a molecule, with the flags of the sketch or, where they are to be wrong, with the others.
fn bonds_of(alloc: Global, sketch: &Sketch, wrong: bool) -> Result<Vec<Bond>, AllocError> {
    let mut bonds = Vec::new(alloc);
    for (first, second, ring) in sketch.bonds {
        bonds.push(Bond {
            first: *first,
            second: *second,
            kind: 2,
            ring: *ring != wrong,
        })?;
    }
    Ok(bonds)
}

// The same for the bonds of a query.
fn query_bonds_of(
    alloc: Global,
    sketch: &Sketch,
    topology: u8,
    wrong: bool,
) -> Result<Vec<QueryBond>, AllocError> {
    let mut bonds = Vec::new(alloc);
    for (first, second, ring) in sketch.bonds {
        bonds.push(QueryBond {
            first: *first,
            second: *second,
            kind: 5,
            topology,
            ring: *ring != wrong,
        })?;
    }
    Ok(bonds)
}

// The molecule of the sketch. Its flags are wrong.
fn molecule_of(alloc: Global, sketch: &Sketch) -> Result<Mol, Fail> {
    let carbon = Atom {
        element: 6,
        charge: 0,
        mass: 0,
    };
    let atoms = vec![in alloc; carbon; sketch.atoms]?;
    let bonds = bonds_of(alloc, sketch, true)?;
    Ok(Mol::new(atoms, bonds).ok_or("no molecule")?)
}

// Whether the molecule of the sketch has its flags once it is marked. Flags that were set before do not matter.
fn marks_molecule(alloc: Global, sketch: &Sketch) -> Result<bool, Fail> {
    let mut mol = molecule_of(alloc, sketch)?;
    mark_rings(&mut mol);
    let want = bonds_of(alloc, sketch, false)?;
    Ok(mol.bonds() == want.as_slice())
}

// Whether it has them too where the marker has marked other molecules before.
fn marks_next(alloc: Global, sketch: &Sketch, marker: &mut RingMarker) -> Result<bool, Fail> {
    let mut mol = molecule_of(alloc, sketch)?;
    let mut graph = Adjacency::new();
    mol.link(&mut graph);
    marker.mark(&mut mol, &graph);
    let want = bonds_of(alloc, sketch, false)?;
    Ok(mol.bonds() == want.as_slice())
}

// The query of the sketch, made of bonds whose flags are wrong.
fn query_of(alloc: Global, sketch: &Sketch, topology: u8) -> Result<Option<Query>, AllocError> {
    let any = QueryAtom {
        test: AtomTest::Any,
        charge: 0,
        mass: 0,
    };
    let atoms = vec![in alloc; any; sketch.atoms]?;
    let bonds = query_bonds_of(alloc, sketch, topology, true)?;
    Ok(marked_query(atoms, bonds))
}

// Whether the query of the sketch has its flags.
fn marks_query(alloc: Global, sketch: &Sketch) -> Result<bool, Fail> {
    let query = query_of(alloc, sketch, 2)?.ok_or("no query")?;
    let want = query_bonds_of(alloc, sketch, 2, false)?;
    Ok(query.bonds() == want.as_slice())
}

#[test]
fn marks_ring_bonds(rt: HostRuntime) -> Result<(), Fail> {
    let mut marker = RingMarker::new();
    for sketch in SKETCHES {
        let molecule = marks_molecule(rt.alloc(), sketch)?;
        let next = marks_next(rt.alloc(), sketch, &mut marker)?;
        let query = marks_query(rt.alloc(), sketch)?;
        assert!(rt; molecule && next && query, "{} atoms", sketch.atoms);
    }
    Ok(())
}

// The topology of the bonds, and the sketch: no such topology; no atoms; too many; a place that is no atom's; a pair of
// places twice.
const REFUSED: &[(u8, Sketch)] = &[
    (3, CHAIN),
    (
        0,
        Sketch {
            atoms: 0,
            bonds: &[],
        },
    ),
    (
        0,
        Sketch {
            atoms: 65,
            bonds: &[],
        },
    ),
    (
        0,
        Sketch {
            atoms: 2,
            bonds: &[(1, 3, false)],
        },
    ),
    (
        0,
        Sketch {
            atoms: 2,
            bonds: &[(1, 2, false), (2, 1, false)],
        },
    ),
];

#[test]
fn refuses_queries(rt: HostRuntime) -> Result<(), Fail> {
    for (topology, sketch) in REFUSED {
        assert!(rt; query_of(rt.alloc(), sketch, *topology)?.is_none());
    }
    Ok(())
}

// Two bonds between the same places are a ring of two.
#[test]
fn flags_double_bonds(rt: HostRuntime) {
    let mut graph = Adjacency::new();
    graph.restart(3);
    graph.add(Ends {
        first: 1,
        second: 2,
    });
    graph.add(Ends {
        first: 2,
        second: 1,
    });
    graph.add(Ends {
        first: 3,
        second: 2,
    });
    let flags = ring_flags(&graph);
    assert_eq!(rt; &flags[..4], [true, true, false, false].as_slice());
}
