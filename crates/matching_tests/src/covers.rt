// What atoms of queries need, and which atoms of molecules cover it.
ghost use Rattle.std.specs.Prelude.{◌≡◌, length};
ghost use Rattle.htss_defs.specs.Marked.{IsMarked};
ghost use Rattle.env_code.specs.Coders.{IsCoder};

use crate::made::{Asked, CARBON_OXYGEN, ETHANOL, molecule_of, query_of};
use env_code::{Coder, codes_of};
use env_cover::{Needs, allows_some, covers, covers_atom, has_cover, need_of, pivot};
use htss_defs::{AtomTest, Codes, ElementSet, Mol, Need};
use std::alloc::Global;
use std::test::Fail;

const FLUORINE_OR_CHLORINE: AtomTest = AtomTest::OneOf(ElementSet(1 << 9 | 1 << 17));

const CARBON_OR_NITROGEN: AtomTest = AtomTest::OneOf(ElementSet(1 << 6 | 1 << 7));

const NO_CARBON: AtomTest = AtomTest::NoneOf(ElementSet(1 << 6));

const CARBONYL_WITH_HALOGEN: Asked = Asked {
    tests: &[
        AtomTest::NotHydrogen,
        AtomTest::Element(8),
        FLUORINE_OR_CHLORINE,
    ],
    bonds: &[(1, 2, 2, 0), (1, 3, 5, 1)],
};

// Only the first is surely a carbon.
const MAYBE_CARBONS: Asked = Asked {
    tests: &[
        AtomTest::Element(6),
        CARBON_OR_NITROGEN,
        AtomTest::NotHydrogen,
        AtomTest::Any,
    ],
    bonds: &[(1, 2, 1, 0), (2, 3, 1, 0), (3, 4, 8, 0)],
};

const STAR: Asked = Asked {
    tests: &[
        AtomTest::Element(16),
        NO_CARBON,
        AtomTest::NotCarbonHydrogen,
        AtomTest::Element(1),
    ],
    bonds: &[(1, 2, 3, 0), (1, 3, 4, 0), (1, 4, 1, 0)],
};

const RING: Asked = Asked {
    tests: &[
        AtomTest::Element(6),
        AtomTest::Element(6),
        AtomTest::Element(6),
    ],
    bonds: &[(1, 2, 1, 0), (2, 3, 1, 0), (3, 1, 1, 0)],
};

// An oxygen, and two carbons that are bonded.
const TWO_PARTS: Asked = Asked {
    tests: &[
        AtomTest::Element(8),
        AtomTest::Element(6),
        AtomTest::Element(6),
    ],
    bonds: &[(2, 3, 1, 0)],
};

// The five words of the need of an atom.
struct NeedCase {
    asked: &'static Asked,
    atom: u16,
    words: [u64; 5],
}

const ALL_OF_CARBONYL: u64 = 0x0001_0001_0000_0303;

const ALL_OF_STAR: u64 = 0x0100_0100_0000_0304;

const NEEDS: &[NeedCase] = &[
    NeedCase {
        asked: &CARBON_OXYGEN,
        atom: 1,
        words: [
            0x100,
            0x1_0001_0202,
            0x1_0001_0202,
            0x1_0001_0202,
            0x1_0001_0202,
        ],
    },
    NeedCase {
        asked: &CARBONYL_WITH_HALOGEN,
        atom: 1,
        words: [
            0x0000_0100_0001_0200,
            ALL_OF_CARBONYL,
            ALL_OF_CARBONYL,
            ALL_OF_CARBONYL,
            ALL_OF_CARBONYL,
        ],
    },
    NeedCase {
        asked: &CARBONYL_WITH_HALOGEN,
        atom: 2,
        words: [
            0x0000_0000_0001_0100,
            0x0000_0001_0000_0202,
            ALL_OF_CARBONYL,
            ALL_OF_CARBONYL,
            ALL_OF_CARBONYL,
        ],
    },
    NeedCase {
        asked: &CARBONYL_WITH_HALOGEN,
        atom: 3,
        words: [
            0x0000_0100_0000_0100,
            0x0001_0000_0000_0202,
            ALL_OF_CARBONYL,
            ALL_OF_CARBONYL,
            ALL_OF_CARBONYL,
        ],
    },
    NeedCase {
        asked: &MAYBE_CARBONS,
        atom: 1,
        words: [0x100, 0x1_0202, 0x1_0303, 0x1_0304, 0x1_0304],
    },
    NeedCase {
        asked: &STAR,
        atom: 1,
        words: [
            0x0000_0001_0100_0300,
            ALL_OF_STAR,
            ALL_OF_STAR,
            ALL_OF_STAR,
            ALL_OF_STAR,
        ],
    },
    NeedCase {
        asked: &STAR,
        atom: 4,
        words: [
            0x0000_0000_0000_0100,
            0x0100_0100_0000_0102,
            ALL_OF_STAR,
            ALL_OF_STAR,
            ALL_OF_STAR,
        ],
    },
    NeedCase {
        asked: &RING,
        atom: 3,
        words: [
            0x0000_0200_0000_0200,
            0x3_0303,
            0x3_0303,
            0x3_0303,
            0x3_0303,
        ],
    },
];

// Whether the atom has this need, and its own test.
fn has_need(alloc: Global, case: &NeedCase) -> Result<bool, Fail> {
    let query = query_of(alloc, case.asked)?;
    if case.atom == 0 || case.atom as usize > query.atoms().len() {
        return Ok(false);
    }
    let need = need_of(&query, case.atom);
    let test = query.atoms()[case.atom as usize - 1].test;
    Ok(need.words == case.words && need.test == test)
}

#[test]
fn needs_of_atoms(rt: HostRuntime) -> Result<(), Fail> {
    for case in NEEDS {
        assert!(rt; has_need(rt.alloc(), case)?, "atom {}", case.atom);
    }
    Ok(())
}

// A query, its pivot, and whether an atom of ethanol covers it. Ethanol has no sulphur, and its carbons are in no ring;
// it has two carbons that are bonded.
const PIVOTS: &[(Asked, u16, bool)] = &[
    (CARBON_OXYGEN, 1, true),
    (STAR, 1, false),
    (RING, 1, false),
    (TWO_PARTS, 2, true),
];

// Whether this is the pivot, and whether it is covered in ethanol or not, as is wanted.
fn has_pivot(alloc: Global, asked: &Asked, place: u16, covered: bool) -> Result<bool, Fail> {
    let mol = molecule_of(alloc, &ETHANOL)?;
    let query = query_of(alloc, asked)?;
    let need = need_of(&query, pivot(&query));
    Ok(
        pivot(&query) == place
            && Needs::new(&query).pivot() == place
            && has_cover(&mut Coder::new(), &need, &mol) == covered,
    )
}

#[test]
fn pivots(rt: HostRuntime) -> Result<(), Fail> {
    for (asked, place, covered) in PIVOTS {
        assert!(rt; has_pivot(rt.alloc(), asked, *place, *covered)?, "{place}");
    }
    Ok(())
}

// Whether, of the three atoms of a molecule, those that are wanted cover the need, and no other.
fn are_covering(need: &Need, coder: &mut Coder, mol: &Mol, want: &[bool; 3]) -> bool
    requires marked { IsMarked mol.now }
    requires loaded { IsCoder mol.now coder.old }
    requires three { length mol.now.atoms ≡ 3 }
    ensures { IsCoder mol.now coder.new }
{
    let mut same = allows_some(need, mol);
    for atom in 1..4 {
        let covering = want[atom as usize - 1];
        let codes = codes_of(mol, atom);
        same = same && covers(need, &codes) == covering;
        same = covers_atom(need, coder, mol, atom) == covering && same;
    }
    same
}

// Whether in ethanol the second atom alone covers the carbon of C-O, and the third its oxygen.
fn covers_both(alloc: Global) -> Result<bool, Fail> {
    let mol = molecule_of(alloc, &ETHANOL)?;
    let query = query_of(alloc, &CARBON_OXYGEN)?;
    if mol.atoms().len() != 3 || query.atoms().len() != 2 {
        return Ok(false);
    }
    let mut coder = Coder::new();
    coder.load(&mol);
    let carbon = are_covering(&need_of(&query, 1), &mut coder, &mol, &[false, true, false]);
    let oxygen = are_covering(&need_of(&query, 2), &mut coder, &mol, &[false, false, true]);
    Ok(carbon && oxygen)
}

#[test]
fn covers_in_ethanol(rt: HostRuntime) -> Result<(), Fail> {
    assert!(rt; covers_both(rt.alloc())?);
    Ok(())
}

const ANY: AtomTest = AtomTest::Any;

const LISTED: AtomTest = AtomTest::OneOf(ElementSet(u128::MAX));

const EXCLUDED: AtomTest = AtomTest::NoneOf(ElementSet(u128::MAX));

// A test, a word of a need and one of codes, and whether the code covers the need.
const LANES: &[(AtomTest, u64, u64, bool)] = &[
    (ANY, 0, 0, true),
    (ANY, 0x0200_0000_0000_0000, 0x0200_0000_0000_0000, true),
    (ANY, 0x0200_0000_0000_0000, 0x01ff_ffff_ffff_ffff, false),
    (ANY, 0x0000_0000_0000_0100, 0xff00_0000_0000_00ff, false),
    (ANY, 0x0101_0101_0101_0101, 0xff01_ff01_ff01_ff01, true),
    (ANY, 0xff, 0xfe, false),
    (LISTED, 0, 0x7f, true),
    (LISTED, 0, 0x80, false),
    (EXCLUDED, 0, 0x7f, false),
    (EXCLUDED, 0, 0x80, true),
];

// Whether the code covers the need, in the first words and, where the test allows each, in the last.
fn cover_of(test: AtomTest, needed: u64, code: u64) -> (bool, bool) {
    let need = Need {
        test,
        words: [needed, 0, 0, 0, 0],
    };
    let codes = Codes {
        words: [code, 0, 0, 0, 0],
    };
    let first = covers(&need, &codes);
    let need = Need {
        test: AtomTest::Any,
        words: [0, 0, 0, 0, needed],
    };
    let codes = Codes {
        words: [0, 0, 0, 0, code],
    };
    (first, covers(&need, &codes))
}

// Lanes are compared one by one, and values of lane 0 past the elements are in no list.
#[test]
fn covers_lane_by_lane(rt: HostRuntime) {
    for (test, needed, code, want) in LANES {
        let last = *want || *needed == 0;
        assert!(rt; cover_of(*test, *needed, *code) == (*want, last), "{code}");
    }
}
