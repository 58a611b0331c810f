// What a section says, or which of its lines is refused.
use htss_defs::{Atom, Bond, NamedMol, OutOfMemory};
use mol_section::{SectionOutcome, read_section};
use std::alloc::{AllocError, Global};
use std::test::Fail;

const PAIR: &str =
    "pair\n\n\n  2  1  0  0  0  0  0  0  0  0999 V2000\n    0.0000    0.0000    0.0000 N   0  0\n    1.0000    0.0000    0.0000 O   0  0\n  1  2  1  0\nM  END\n";

// The pair, with one text in place of another where it stands first. Each `@` of it stands for 4,096 letters.
fn changed(alloc: Global, old: &str, new: &str) -> Result<String, AllocError> {
    let letters = "x".repeat(alloc, 4096)?;
    let text = PAIR.replacen(alloc, old, new, 1)?;
    Ok(text.replace(alloc, "@", letters.as_str())?)
}

// The record of a section whose first line has this number, or the line and the code of the refusal.
fn outcome(
    alloc: Global,
    text: &str,
    first: u32,
) -> Result<Result<NamedMol, (u64, u8)>, OutOfMemory> {
    match read_section(alloc, text.as_bytes(), first as u64)? {
        SectionOutcome::Accepted { name, mol } => Ok(Ok(NamedMol { name, mol })),
        SectionOutcome::Refused { line, code } => Ok(Err((line, code))),
    }
}

// The pair with two bonds on its counts line, and one bond.
const LACKING: &str =
    "pair\n\n\n  2  2  0  0  0  0  0  0  0  0999 V2000\n    0.0000    0.0000    0.0000 N   0  0\n    1.0000    0.0000    0.0000 O   0  0\n  1  2  1  0\nM  END\n";

// The pair with its one pair of places twice.
const TWICE: &str =
    "pair\n\n\n  2  2  0  0  0  0  0  0  0  0999 V2000\n    0.0000    0.0000    0.0000 N   0  0\n    1.0000    0.0000    0.0000 O   0  0\n  1  2  1  0\n  1  2  1  0\nM  END\n";

// The same, the second time in the other order.
const TURNED: &str =
    "pair\n\n\n  2  2  0  0  0  0  0  0  0  0999 V2000\n    0.0000    0.0000    0.0000 N   0  0\n    1.0000    0.0000    0.0000 O   0  0\n  1  2  1  0\n  2  1  2  0\nM  END\n";

// What is changed in the pair, and the number of its first line; then the line and the code of the refusal, if it is
// refused.
const CHANGES: &[(&str, &str, u32, Option<(u64, u8)>)] = &[
    ("pair", "", 1, None),
    ("  2  1  0", " x2  1  0", 1, Some((4, 1))),
    ("  2  1  0", "  2  1  x", 1, Some((4, 1))),
    ("V2000", "V3000", 1, Some((4, 2))),
    (" V2000", "", 1, None),
    (
        "  0  0  0  0  0  0  0  0999",
        "  0  0  0  1  0  0  0  0999",
        1,
        Some((4, 3)),
    ),
    ("  2  1  0", "  0  1  0", 1, Some((4, 14))),
    ("  2  1  0", "  3  1  0", 1, Some((7, 4))),
    ("  2  1  0", "  2  1  1", 1, Some((9, 12))),
    ("N   0  0\n", "\n", 1, Some((5, 4))),
    ("N   0  0", "Nn  0  0", 1, Some((5, 5))),
    ("N   0  0", "n   0  0", 1, Some((5, 5))),
    ("O   0  0", "O   0  8", 1, Some((6, 6))),
    ("O   0  0", "O   0  7", 1, None),
    ("  1  2  1", "  1  x  1", 1, Some((7, 7))),
    ("  1  2  1", "  1     1", 1, Some((7, 7))),
    ("  1  2  1", "  0  2  1", 1, Some((7, 8))),
    ("  1  2  1", "  1  3  1", 1, Some((7, 8))),
    ("  1  2  1", "  1  1  1", 1, Some((7, 8))),
    ("  1  2  1", "  1  2  5", 1, Some((7, 9))),
    ("  1  2  1", "  1  2  0", 1, Some((7, 9))),
    ("  1  2  1", "  1  2  4", 1, None),
    (PAIR, TWICE, 1, Some((8, 10))),
    (PAIR, TURNED, 1, Some((8, 10))),
    ("M  END\n", "", 1, Some((8, 12))),
    ("M  END\n", "M  END", 1, None),
    ("M  END\n", "M  CHG  9   1   1\nM  END\n", 1, Some((8, 11))),
    ("M  END\n", "M  CHG  1   3   1\nM  END\n", 1, Some((8, 11))),
    ("M  END\n", "M  CHG  1   0   1\nM  END\n", 1, Some((8, 11))),
    ("M  END\n", "M  CHG  1   1  16\nM  END\n", 1, Some((8, 11))),
    ("M  END\n", "M  CHG  1   1\nM  END\n", 1, Some((8, 11))),
    ("M  END\n", "M  CHG\nM  END\n", 1, Some((8, 11))),
    ("M  END\n", "M  CHG  1   1 -15\nM  END\n", 1, None),
    ("M  END\n", "M  ISO  1   1  -1\nM  END\n", 1, Some((8, 11))),
    ("M  END\n", "M  ISO  1   1 999\nM  END\n", 1, None),
    ("M  END\n", "A    1\nM  END\n", 1, Some((10, 12))),
    ("M  END\n", "A    1\nM  END\nM  END\n", 1, None),
    ("M  END\n", "G    1  2\nM  CHG  9\nM  END\n", 1, None),
    ("M  END\n", "M  END\nM  CHG  9\n", 1, None),
    (PAIR, "", 1, Some((1, 12))),
    (PAIR, "a\nb\n", 1, Some((3, 12))),
    // a line of 4,097 letters is too long, one of 4,096 is not
    ("M  END\n", "@x\nM  END\n", 1, Some((8, 13))),
    ("M  END\n", "@\r\nM  END\n@x\n", 1, None),
    (PAIR, "@x\n", 1, Some((1, 13))),
    (PAIR, LACKING, 100, Some((107, 7))),
];

#[test]
fn refuses_lines(rt: HostRuntime) -> Result<(), Fail> {
    for (old, new, first, want) in CHANGES {
        let text = changed(rt.alloc(), old, new)?;
        let refusal = outcome(rt.alloc(), text.as_str(), *first)?.err();
        assert_eq!(rt; refusal, *want, "{new}");
    }
    Ok(())
}

// A section that is accepted: its name, its first atom from the symbol on, and the lines after its bond; then the name
// and the atoms that are read.
struct Reading {
    written: &'static str,
    symbol: &'static str,
    lines: &'static str,
    name: &'static str,
    atoms: [Atom; 2],
}

const NITROGEN: Atom = Atom {
    element: 7,
    charge: 0,
    mass: 0,
};

const AMMONIUM: Atom = Atom {
    element: 7,
    charge: 1,
    mass: 0,
};

const OXYGEN: Atom = Atom {
    element: 8,
    charge: 0,
    mass: 0,
};

const OXIDE: Atom = Atom {
    element: 8,
    charge: -1,
    mass: 0,
};

const OXYGEN_18: Atom = Atom {
    element: 8,
    charge: 0,
    mass: 18,
};

const HYDROGEN: Atom = Atom {
    element: 1,
    charge: 0,
    mass: 0,
};

const DEUTERIUM: Atom = Atom {
    element: 1,
    charge: 0,
    mass: 2,
};

const TRITIUM: Atom = Atom {
    element: 1,
    charge: 0,
    mass: 3,
};

const HYDROGEN_4: Atom = Atom {
    element: 1,
    charge: 0,
    mass: 4,
};

const OGANESSON: Atom = Atom {
    element: 118,
    charge: -1,
    mass: 0,
};

const LONG_NAME: &str =
    "abcdefghijabcdefghijabcdefghijabcdefghijabcdefghijabcdefghijabcdefghijabcdefghijklmnopqrst";

const CUT_NAME: &str =
    "abcdefghijabcdefghijabcdefghijabcdefghijabcdefghijabcdefghijabcdefghijabcdefghij";

const READINGS: &[Reading] = &[
    Reading {
        written: "pair",
        symbol: "N   0  3",
        lines: "M  END",
        name: "pair",
        atoms: [AMMONIUM, OXYGEN],
    },
    Reading {
        written: "pair",
        symbol: "N   0  3",
        lines: "M  CHG  1   2  -1\nM  END",
        name: "pair",
        atoms: [NITROGEN, OXIDE],
    },
    Reading {
        written: "pair",
        symbol: "N   0  3",
        lines: "M  RAD  1   2   2\nM  END",
        name: "pair",
        atoms: [NITROGEN, OXYGEN],
    },
    Reading {
        written: "pair",
        symbol: "N   0  3",
        lines: "M  ISO  1   2  18\nM  END",
        name: "pair",
        atoms: [AMMONIUM, OXYGEN_18],
    },
    Reading {
        written: "pair",
        symbol: "N   0  0",
        lines: "M  CHG  1   1   1\nM  CHG  1   2  -1\nM  END",
        name: "pair",
        atoms: [AMMONIUM, OXIDE],
    },
    Reading {
        written: "pair",
        symbol: "N   0  0",
        lines: "M  CHG  2   1  +2   1   1  ignored\nM  END",
        name: "pair",
        atoms: [AMMONIUM, OXYGEN],
    },
    Reading {
        written: "pair",
        symbol: "D   0  0",
        lines: "M  END",
        name: "pair",
        atoms: [DEUTERIUM, OXYGEN],
    },
    Reading {
        written: "pair",
        symbol: "T   0  0",
        lines: "M  END",
        name: "pair",
        atoms: [TRITIUM, OXYGEN],
    },
    Reading {
        written: "pair",
        symbol: "D   0  0",
        lines: "M  ISO  1   1   0\nM  END",
        name: "pair",
        atoms: [HYDROGEN, OXYGEN],
    },
    Reading {
        written: "pair",
        symbol: "D   0  0",
        lines: "M  ISO  2   1   0   1   4\nM  END",
        name: "pair",
        atoms: [HYDROGEN_4, OXYGEN],
    },
    Reading {
        written: "pair",
        symbol: " Og 0  5",
        lines: "M  END",
        name: "pair",
        atoms: [OGANESSON, OXYGEN],
    },
    Reading {
        written: "  a b ",
        symbol: "N   0  0",
        lines: "M  END",
        name: "a b",
        atoms: [NITROGEN, OXYGEN],
    },
    Reading {
        written: "",
        symbol: "N   0  0",
        lines: "M  END",
        name: "",
        atoms: [NITROGEN, OXYGEN],
    },
    Reading {
        written: "\u{e9}t\t",
        symbol: "N   0  0",
        lines: "M  END",
        name: "??t?",
        atoms: [NITROGEN, OXYGEN],
    },
    Reading {
        written: LONG_NAME,
        symbol: "N   0  0",
        lines: "M  END",
        name: CUT_NAME,
        atoms: [NITROGEN, OXYGEN],
    },
];

// The pair with this name, first atom and last lines, and this at the end of each line.
fn text_of(alloc: Global, reading: &Reading, ending: &str) -> Result<String, AllocError> {
    let text = PAIR.replacen(alloc, "pair", reading.written, 1)?;
    let text = text.replacen(alloc, "N   0  0", reading.symbol, 1)?;
    let text = text.replacen(alloc, "M  END", reading.lines, 1)?;
    Ok(text.replace(alloc, "\n", ending)?)
}

const SINGLE: Bond = Bond {
    first: 1,
    second: 2,
    kind: 1,
    ring: false,
};

// Whether the section is read so, with this at the end of each line.
fn is_read(alloc: Global, reading: &Reading, ending: &str) -> Result<bool, Fail> {
    let text = text_of(alloc, reading, ending)?;
    let read = outcome(alloc, text.as_str(), 1)?
        .ok()
        .ok_or("it is refused")?;
    Ok(
        read.name.bytes() == reading.name.as_bytes()
            && read.mol.atoms() == reading.atoms.as_slice()
            && read.mol.bonds() == [SINGLE].as_slice(),
    )
}

#[test]
fn reads_sections(rt: HostRuntime) -> Result<(), Fail> {
    for reading in READINGS {
        let plain = is_read(rt.alloc(), reading, "\n")?;
        let with_cr = is_read(rt.alloc(), reading, "\r\n")?;
        assert!(rt; plain && with_cr, "{}", reading.symbol);
    }
    Ok(())
}
