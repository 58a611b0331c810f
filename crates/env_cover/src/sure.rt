// What is sure of whatever stands for an atom or a bond of a query.
ghost use Rattle.std.specs.Prelude.{◌≡◌};
ghost use Rattle.htss_defs.specs.Needs.{surely_of_kind};
ghost use Rattle.env_cover.specs.Sure.{sure_bond};

use env_code::is_of_kind;
use htss_defs::{AtomTest, Bond, QueryBond, allows};

/// Whether each element that the test allows is one that the lane, of 1 to 6, counts.
pub fn surely_of_kind(test: AtomTest, lane: u8) -> bool
    ensures { result ≡ surely_of_kind test lane }
{
    for element in 1..119 {
        if allows(test, element) && !is_of_kind(lane, element) {
            return false;
        }
    }
    true
}

/// The bond as it counts: of its type where that is exact, and in a ring where that is asked or holds in the query.
pub fn sure_bond(asked: QueryBond) -> Bond
    ensures { result ≡ sure_bond asked }
{
    Bond {
        first: asked.first,
        second: asked.second,
        kind: asked.kind,
        ring: asked.topology == 1 || asked.ring,
    }
}
