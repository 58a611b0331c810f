// What an atom line of a query says.
ghost use Rattle.std.specs.Prelude.{◌≡◌, ℕ, ◌≤◌, ◌||◌, is_some, false, Some, IfOk, IfErr, IfSome};
ghost use Rattle.htss_defs.specs.QueryGraph.{IsAtomTest};
ghost use Rattle.mol_section.specs.SectionLines.{symbol_value};
ghost use Rattle.query_mol.specs.QueryLines.{is_query_symbol, query_atom_refusal};
ghost use Rattle.query_mol.specs.LineFacts.{SaysQueryAtom, told_symbol, value_or_none};

use htss_defs::{Atom, AtomTest};
use mol_section::{charge_value, field, symbol_value};

/// What an atom line says: the test, or none where a list is to give it, and the atom, whose element is 0 where the
/// symbol is none of the table.
#[derive(Clone, Copy, Debug)]
pub struct AtomLine {
    pub test: Option<AtomTest>,
    pub atom: Atom,
}

/// What an atom line says, or the code of its refusal.
pub fn atom_of(line: &[u8]) -> Result<AtomLine, u8>
    ensures refused { IfErr result (λ code. query_atom_refusal line.now ≡ Some code) }
    ensures accepted { IfOk result (λ says. SaysQueryAtom line.now says) }
{
    let symbol = field(line, 32, 34);
    if symbol.is_empty() {
        return Err(4);
    }
    let Some(says) = symbol_of(symbol) else {
        return Err(5);
    };
    let Some(charge) = charge_value(field(line, 37, 39)) else {
        return Err(6);
    };
    Ok(AtomLine {
        test: says.test,
        atom: Atom {
            element: says.element,
            charge,
            mass: says.mass,
        },
    })
}

// What a symbol says: its test, where it gives one by itself, its element, 0 where the table has none, and its mass.
#[derive(Clone, Copy)]
struct Symbol {
    test: Option<AtomTest>,
    element: u8,
    mass: u16,
}

fn symbol_of(symbol: &[u8]) -> Option<Symbol>
    ensures known { is_some result ≡ (is_query_symbol symbol.now || is_some (symbol_value symbol.now)) }
    ensures test { IfSome result (λ says. says.test ≡ told_symbol symbol.now) }
    ensures element { IfSome result (λ says. says.element ≡ (value_or_none symbol.now).0) }
    ensures high { IfSome result (λ says. says.element ≤ 118) }
    ensures mass { IfSome result (λ says. says.mass ≡ (value_or_none symbol.now).1) }
    ensures light { IfSome result (λ says. says.mass ≤ 999) }
    ensures valid { IfSome result (λ says. IfSome says.test IsAtomTest) }
{
    match symbol_value(symbol) {
        Some((element, mass)) => Some(Symbol {
            test: told_symbol(symbol, element),
            element,
            mass,
        }),
        None => {
            if is_query_symbol(symbol) {
                Some(Symbol {
                    test: told_symbol(symbol, 0),
                    element: 0,
                    mass: 0,
                })
            } else {
                None
            }
        }
    }
}

fn is_query_symbol(symbol: &[u8]) -> bool
    ensures { result ≡ is_query_symbol symbol.now }
{
    symbol == b"A".as_slice()
        || symbol == b"Q".as_slice()
        || symbol == b"*".as_slice()
        || symbol == b"L".as_slice()
}

// The test of a symbol whose element this is, where the table has it.
#[tactic(auto, unfolding(crate::specs::LineFacts::told_symbol))]
fn told_symbol(symbol: &[u8], element: u8) -> Option<AtomTest>
    requires element { element ≡ (value_or_none symbol.now).0 }
    requires high { element ≤ 118 }
    requires low { is_query_symbol symbol.now ≡ false → 1 ≤ element }
    ensures test { result ≡ told_symbol symbol.now }
    ensures valid { IfSome result IsAtomTest }
{
    if symbol == b"L".as_slice() {
        None
    } else if symbol == b"A".as_slice() {
        Some(AtomTest::NotHydrogen)
    } else if symbol == b"Q".as_slice() {
        Some(AtomTest::NotCarbonHydrogen)
    } else if symbol == b"*".as_slice() {
        Some(AtomTest::Any)
    } else {
        Some(AtomTest::Element(element))
    }
}
