ghost use Rattle.std.specs.Prelude.{◌≡◌};
ghost use Rattle.htss_defs.specs.Codes.{is_of_kind};

const HYDROGEN: u8 = 1;

const CARBON: u8 = 6;

const NITROGEN: u8 = 7;

const OXYGEN: u8 = 8;

const FLUORINE: u8 = 9;

const SULFUR: u8 = 16;

const CHLORINE: u8 = 17;

const BROMINE: u8 = 35;

const IODINE: u8 = 53;

/// Whether the element is one that a lane from 1 to 6 counts: all but hydrogen, carbon, nitrogen,
/// oxygen, sulfur, and the halogens F, Cl, Br and I.
pub fn is_of_kind(lane: u8, element: u8) -> bool
    ensures { result ≡ is_of_kind lane element }
{
    match lane {
        1 => element != HYDROGEN,
        2 => element == CARBON,
        3 => element == NITROGEN,
        4 => element == OXYGEN,
        5 => element == SULFUR,
        _ => {
            element == FLUORINE || element == CHLORINE || element == BROMINE || element == IODINE
        }
    }
}
