// When an atom or a bond of a molecule passes the test of one of a query.
ghost use Rattle.std.specs.Prelude.{◌≡◌, ℕ, ◌<◌};
ghost use Rattle.htss_defs.specs.Passes.{allows, atom_passes, kind_passes};

use crate::{Atom, AtomTest, QueryAtom};

/// Whether the test allows the element.
pub fn allows(test: AtomTest, element: u8) -> bool
    requires { element < 128 }
    ensures { result ≡ allows test element }
{
    match test {
        AtomTest::Element(e) => element == e,
        AtomTest::Any => true,
        AtomTest::NotHydrogen => element != 1,
        AtomTest::NotCarbonHydrogen => element != 1 && element != 6,
        AtomTest::OneOf(set) => (set.0 >> element) & 1 == 1,
        AtomTest::NoneOf(set) => element != 1 && (set.0 >> element) & 1 != 1,
    }
}

/// Whether an atom of a molecule passes an atom of a query.
pub fn atom_passes(asked: QueryAtom, atom: Atom) -> bool
    requires { atom.element < 128 }
    ensures { result ≡ atom_passes asked atom }
{
    allows(asked.test, atom.element)
        && (asked.charge == 0 || asked.charge == atom.charge)
        && (asked.mass == 0 || asked.mass == atom.mass)
}

/// Whether a bond type that is asked allows the type of a bond of a molecule.
pub fn kind_passes(asked: u8, kind: u8) -> bool
    ensures { result ≡ kind_passes asked kind }
{
    match asked {
        5 => kind == 1 || kind == 2,
        6 => kind == 1 || kind == 4,
        7 => kind == 2 || kind == 4,
        8 => true,
        _ => kind == asked,
    }
}
