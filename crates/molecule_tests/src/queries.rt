// What a query asks for, or which of its lines is refused.
use htss_defs::{AtomTest, ElementSet, OutOfMemory, QueryAtom, QueryBond};
use query_mol::{QueryRefusal, read_query};
use std::alloc::Global;
use std::test::Fail;

// The text of a query of one atom and no list, as far as the symbol of the atom.
const ATOM: &str = "\n\n\n  1  0  0  0  0  0  0  0  0  0999 V2000\n    0.0000    0.0000    0.0000 ";

// The same, with one list.
const LISTED: &str =
    "\n\n\n  1  0  1  0  0  0  0  0  0  0999 V2000\n    0.0000    0.0000    0.0000 ";

// The text of a query of two carbons and one bond, as far as the line of the bond.
const BOND: &str =
    "\n\n\n  2  1  0  0  0  0  0  0  0  0999 V2000\n    0.0000    0.0000    0.0000 C   0  0\n    0.0000    0.0000    0.0000 C   0  0\n";

// The text of a query of three carbons in a row.
const ROW: &str =
    "\n\n\n  3  2  0  0  0  0  0  0  0  0999 V2000\n    0.0000    0.0000    0.0000 C   0  0\n    0.0000    0.0000    0.0000 C   0  0\n    0.0000    0.0000    0.0000 C   0  0\n  1  2  1  0\n  2  3  1  0\nM  END\n";

// The same with a third bond, which closes the ring.
const RING: &str =
    "\n\n\n  3  3  0  0  0  0  0  0  0  0999 V2000\n    0.0000    0.0000    0.0000 C   0  0\n    0.0000    0.0000    0.0000 C   0  0\n    0.0000    0.0000    0.0000 C   0  0\n  1  2  1  0\n  2  3  1  0\n  3  1  1  0\nM  END\n";

// An atom by its test, charge and mass.
macro_rules! atom {
    ($test:expr, $charge:expr, $mass:expr) => {
        QueryAtom {
            test: $test,
            charge: $charge,
            mass: $mass,
        }
    };
}

// A bond by its places, type, topology and flag.
macro_rules! bond {
    ($first:expr, $second:expr, $kind:expr, $topology:expr, $ring:expr) => {
        QueryBond {
            first: $first,
            second: $second,
            kind: $kind,
            topology: $topology,
            ring: $ring,
        }
    };
}

const CARBON: QueryAtom = atom!(AtomTest::Element(6), 0, 0);

const CARBON_ONLY: ElementSet = ElementSet(64);

const NITROGEN_OR_OXYGEN: ElementSet = ElementSet(384);

// The parts of a text, and the atoms and the bonds that it asks for.
const READ: &[(&[&str], &[QueryAtom], &[QueryBond])] = &[
    (
        &[ATOM, "*   0  0\nM  END\n"],
        &[atom!(AtomTest::Any, 0, 0)],
        &[],
    ),
    (
        &[ATOM, "A   0  0\nM  END\n"],
        &[atom!(AtomTest::NotHydrogen, 0, 0)],
        &[],
    ),
    (
        &[ATOM, "Q   0  0\nM  END"],
        &[atom!(AtomTest::NotCarbonHydrogen, 0, 0)],
        &[],
    ),
    (
        &[ATOM, "Og  0  0\nM  END\n"],
        &[atom!(AtomTest::Element(118), 0, 0)],
        &[],
    ),
    (
        &[ATOM, "H\nM  END\n"],
        &[atom!(AtomTest::Element(1), 0, 0)],
        &[],
    ),
    (
        &[ATOM, "D   0  0\nM  END\n"],
        &[atom!(AtomTest::Element(1), 0, 2)],
        &[],
    ),
    (
        &[ATOM, "H   0  0\nM  ISO  1   1   2\nM  END\n"],
        &[atom!(AtomTest::Element(1), 0, 2)],
        &[],
    ),
    (
        &[ATOM, "H   0  0\nM  ISO  1   1   3\nM  END\n"],
        &[atom!(AtomTest::Element(1), 0, 3)],
        &[],
    ),
    (
        &[ATOM, "N   0  3\nM  END\n"],
        &[atom!(AtomTest::Element(7), 1, 0)],
        &[],
    ),
    (
        &[ATOM, "N   0  3\nM  CHG  1   1   0\nM  END\n"],
        &[atom!(AtomTest::Element(7), 0, 0)],
        &[],
    ),
    (
        &[ATOM, "O   0  0\nM  CHG  1   1  -1\nM  END\n"],
        &[atom!(AtomTest::Element(8), -1, 0)],
        &[],
    ),
    (
        &[ATOM, "O   0  5\nM  RAD  1   1   2\nM  END\n"],
        &[atom!(AtomTest::Element(8), 0, 0)],
        &[],
    ),
    (
        &[LISTED, "L   0  0\n  1 F    1   6\nM  END\n"],
        &[atom!(AtomTest::OneOf(CARBON_ONLY), 0, 0)],
        &[],
    ),
    (
        &[LISTED, "L   0  0\n  1 T    2   7   8\nM  END\n"],
        &[atom!(AtomTest::NoneOf(NITROGEN_OR_OXYGEN), 0, 0)],
        &[],
    ),
    (
        &[
            LISTED,
            "L   0  0\n  1 F    1   6\nM  ALS   1  2 F N   O   \nM  END\n",
        ],
        &[atom!(AtomTest::OneOf(NITROGEN_OR_OXYGEN), 0, 0)],
        &[],
    ),
    (
        &[
            LISTED,
            "L   0  0\n  1 F    1   6\nM  ALS   1  2 T N   O   \nM  END\n",
        ],
        &[atom!(AtomTest::NoneOf(NITROGEN_OR_OXYGEN), 0, 0)],
        &[],
    ),
    (
        &[
            ATOM,
            "L   0  0\nM  ALS   1  2 T N   O   \nM  ALS   1  1 F C   \nM  END\n",
        ],
        &[atom!(AtomTest::OneOf(CARBON_ONLY), 0, 0)],
        &[],
    ),
    (
        &[ATOM, "D   0  0\nM  ALS   1  1 F C   \nM  END\n"],
        &[atom!(AtomTest::OneOf(CARBON_ONLY), 0, 2)],
        &[],
    ),
    (
        &[ATOM, "C   0  0\nA    1\nM  ALS   1\nM  END\n$$$$\n"],
        &[atom!(AtomTest::Element(6), 0, 0)],
        &[],
    ),
    (
        &[BOND, "  1  2  1  0\nM  END\n"],
        &[CARBON, CARBON],
        &[bond!(1, 2, 1, 0, false)],
    ),
    (
        &[BOND, "  1  2  2  0     0\nM  END\n"],
        &[CARBON, CARBON],
        &[bond!(1, 2, 2, 0, false)],
    ),
    (
        &[BOND, "  1  2  3  0     1\nM  END\n"],
        &[CARBON, CARBON],
        &[bond!(1, 2, 3, 1, false)],
    ),
    (
        &[BOND, "  1  2  4  0     2\nM  END\n"],
        &[CARBON, CARBON],
        &[bond!(1, 2, 4, 2, false)],
    ),
    (
        &[BOND, "  1  2  5\nM  END\n"],
        &[CARBON, CARBON],
        &[bond!(1, 2, 5, 0, false)],
    ),
    (
        &[BOND, "  1  2  6  0     1\nM  END\n"],
        &[CARBON, CARBON],
        &[bond!(1, 2, 6, 1, false)],
    ),
    (
        &[BOND, "  1  2  7  0     2\nM  END\n"],
        &[CARBON, CARBON],
        &[bond!(1, 2, 7, 2, false)],
    ),
    (
        &[BOND, "  1  2  8  0     0  0\nM  END\n"],
        &[CARBON, CARBON],
        &[bond!(1, 2, 8, 0, false)],
    ),
    (
        &[BOND, "  1  2  1  0     0\nM  END\n"],
        &[CARBON, CARBON],
        &[bond!(1, 2, 1, 0, false)],
    ),
    (
        &[BOND, "  1  2  1  0   001\nM  END\n"],
        &[CARBON, CARBON],
        &[bond!(1, 2, 1, 1, false)],
    ),
    (
        &[BOND, "  1  2  1  0  x2\nM  END\n"],
        &[CARBON, CARBON],
        &[bond!(1, 2, 1, 2, false)],
    ),
    (
        &[ROW],
        &[CARBON, CARBON, CARBON],
        &[bond!(1, 2, 1, 0, false), bond!(2, 3, 1, 0, false)],
    ),
    (
        &[RING],
        &[CARBON, CARBON, CARBON],
        &[
            bond!(1, 2, 1, 0, true),
            bond!(2, 3, 1, 0, true),
            bond!(3, 1, 1, 0, true),
        ],
    ),
];

// Whether this is read of the text.
fn is_read(
    alloc: Global,
    text: &str,
    atoms: &[QueryAtom],
    bonds: &[QueryBond],
) -> Result<bool, OutOfMemory> {
    match read_query(alloc, text.as_bytes())? {
        Ok(query) => Ok(query.atoms() == atoms && query.bonds() == bonds),
        Err(_) => Ok(false),
    }
}

#[test]
fn reads_queries(rt: HostRuntime) -> Result<(), Fail> {
    for (parts, atoms, bonds) in READ {
        let text = parts.concat(rt.alloc())?;
        assert!(rt; is_read(rt.alloc(), text.as_str(), atoms, bonds)?, "{text}");
    }
    Ok(())
}

// The parts of a text, and the line and the code of its refusal.
const REFUSED: &[(&[&str], u64, u8)] = &[
    (&[ATOM, "L   0  0\nM  END\n"], 6, 21),
    (&[LISTED, "L   0  0\n  1 X    1   6\nM  END\n"], 6, 21),
    (&[LISTED, "L   0  0\n  2 F    1   6\nM  END\n"], 6, 21),
    (&[LISTED, "L   0  0\n  1 F    1 119\nM  END\n"], 6, 21),
    (
        &[
            LISTED,
            "L   0  0\n  1 F    6   1   2   3   4   5   6\nM  END\n",
        ],
        6,
        21,
    ),
    (&[ATOM, "L   0  0\nM  ALS   1  2 F N   \nM  END\n"], 6, 21),
    (&[ATOM, "L   0  0\nM  ALS   1  1 F D   \nM  END\n"], 6, 21),
    (
        &[
            LISTED,
            "L   0  0\n  1 F    1   6\nM  ALS   1  0 F \nM  END\n",
        ],
        7,
        21,
    ),
    (&[ATOM, "    0  0\nM  END\n"], 5, 4),
    (&[ATOM, "Xx  0  0\nM  END\n"], 5, 5),
    (&[ATOM, "C   0  8\nM  END\n"], 5, 6),
    (&[ATOM, "C   0  0\nM  CHG  1   2   1\nM  END\n"], 6, 11),
    (&[ATOM, "C   0  0\n$$$$\nM  END\n"], 6, 12),
    (&[BOND, "  1  2\nM  END\n"], 7, 7),
    (&[BOND, "  1  3  1  0\nM  END\n"], 7, 8),
    (&[BOND, "  1  1  9  0     3\nM  END\n"], 7, 8),
    (&[BOND, "  1  2  0  0\nM  END\n"], 7, 9),
    (&[BOND, "  1  2  9  0\nM  END\n"], 7, 9),
    (&[BOND, "  1  2  9  0     3\nM  END\n"], 7, 9),
    (&[BOND, "  1  2  1  0     3\nM  END\n"], 7, 22),
    (&[BOND, "  1  2  1  0     x\nM  END\n"], 7, 22),
    (&[""], 1, 12),
    (&["\n\n\n 65  0  0  0  0  0  0  0  0  0999 V2000\n"], 4, 20),
    (&["\n\n\n  0  0  0  0  0  0  0  0  0  0999 V2000\n"], 4, 14),
    (&["\n\n\n 65  0  0  0  0  0  0  0  0  0999 V3000\n"], 4, 2),
    (
        &["\n\n\n 64  0  0  0  0  0  0  0  0  0999 V2000\nC\n"],
        5,
        4,
    ),
];

#[test]
fn refuses_queries(rt: HostRuntime) -> Result<(), Fail> {
    for (parts, line, code) in REFUSED {
        let text = parts.concat(rt.alloc())?;
        let refusal = read_query(rt.alloc(), text.as_bytes())?.err();
        let want = QueryRefusal {
            line: *line,
            code: *code,
        };
        assert!(rt; refusal == Some(want), "{text}");
    }
    Ok(())
}
