// What the symbol and the charge code of an atom say.
ghost use Rattle.std.specs.Prelude.{◌≡◌, ℕ, ◌≤◌, ◌<◌, ◌≤ℤ◌, pos, negsuc, length};
ghost use Rattle.std.specs.Prelude.{Some, IfSome, IsTrue};
ghost use Rattle.std.specs.Str.{bytes_eq};
ghost use Rattle.mol_section.specs.Fields.{trim_ends};
ghost use Rattle.mol_section.specs.SectionLines.{symbol_value, charge_value};
ghost use Rattle.mol_section.specs.AtomLines.{element_place, charge_of_code};

use crate::fields::{count_of, trim};
use htss_defs::SYMBOLS;

/// The element and the mass of a symbol.
#[tactic(auto, unfolding(crate::specs::SectionLines::symbol_value))]
pub fn symbol_value(symbol: &[u8]) -> Option<(u8, u16)>
    ensures value { result ≡ symbol_value symbol.now }
    ensures element { IfSome result (λ x. (1 ≤ x.0) × (x.0 ≤ 118)) }
    ensures mass { IfSome result (λ x. x.1 ≤ 999) }
{
    if symbol == b"D".as_slice() {
        return Some((1, 2));
    }
    if symbol == b"T".as_slice() {
        return Some((1, 3));
    }
    match element_place(symbol) {
        None => None,
        Some(i) => Some((i as u8 + 1, 0)),
    }
}

// The place of a symbol: the frequent ones are found without a search.
fn element_place(symbol: &[u8]) -> Option<usize>
    ensures place { result ≡ element_place symbol.now }
    ensures within { IfSome result (λ i. i < 118) }
{
    let place = likely_place(symbol);
    if is_at(symbol, place) {
        return Some(place);
    }
    symbol_place(symbol)
}

// The place of the symbol in the table, by a search.
#[tactic(auto, unfolding(crate::specs::AtomLines::element_place))]
fn symbol_place(symbol: &[u8]) -> Option<usize>
    ensures place { result ≡ element_place symbol.now }
    ensures within { IfSome result (λ i. i < 118) }
{
    SYMBOLS
        .iter()
        .position(|row| trim(row.as_slice()) == symbol)
}

// The place of a frequent symbol, or some place.
fn likely_place(symbol: &[u8]) -> usize
    ensures { result < 118 }
{
    match symbol {
        [b'C'] => 5,
        [b'N'] => 6,
        [b'O'] => 7,
        [b'F'] => 8,
        [b'P'] => 14,
        [b'S'] => 15,
        [b'C', b'l'] => 16,
        [b'B', b'r'] => 34,
        [b'I'] => 52,
        _ => 0,
    }
}

// Whether the symbol is the one at this place of the table.
fn is_at(symbol: &[u8], place: usize) -> bool
    requires { place < 118 }
    ensures { IsTrue result → element_place symbol.now ≡ Some place }
{
    trim(SYMBOLS[place].as_slice()) == symbol
}

/// The charge of a charge code.
#[tactic(auto, unfolding(crate::specs::Fields::count_of, crate::specs::SectionLines::charge_value))]
pub fn charge_value(text: &[u8]) -> Option<i8>
    requires { length text.now ≤ 3 }
    ensures charge { result ≡ charge_value text.now }
    ensures low { IfSome result (λ charge. negsuc 14 ≤ℤ charge) }
    ensures high { IfSome result (λ charge. charge ≤ℤ pos 15) }
{
    match count_of(text) {
        None => None,
        Some(code) => charge_of(code),
    }
}

// The charge of a charge code that is a number.
#[tactic(auto, unfolding(crate::specs::AtomLines::charge_of_code))]
fn charge_of(code: u16) -> Option<i8>
    ensures charge { result ≡ charge_of_code code }
    ensures low { IfSome result (λ charge. negsuc 14 ≤ℤ charge) }
    ensures high { IfSome result (λ charge. charge ≤ℤ pos 15) }
{
    match code {
        0 | 4 => Some(0),
        1 => Some(3),
        2 => Some(2),
        3 => Some(1),
        5 => Some(-1),
        6 => Some(-2),
        7 => Some(-3),
        _ => None,
    }
}
