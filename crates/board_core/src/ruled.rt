// The rule of the board's words.
use crate::account::View;
use atomic_table::TableRule;
use htss_defs::Shape;

/// The rule of the board.
pub struct Ruled;

impl TableRule<(), View, Shape> for Ruled {
    ghost use Rattle.board_core.specs.Holds.{Holds};
    ghost use Rattle.board_core.specs.Accounts.{opener};

    ghost holds = { Holds };

    ghost first = { opener };
}
