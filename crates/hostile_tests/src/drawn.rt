// Records and queries that are drawn, as the text of molfiles.
ghost use Rattle.std.specs.Prelude.{◌<◌};

use rand_core::utils::NextWord;
use rand_pcg::Pcg32;
use std::alloc::Global;
use std::test::Fail;

// A number below this one, which is not 0.
pub(crate) fn drawn(draws: &mut Pcg32, below: u16) -> u16
    requires { 0 < below }
{
    (draws.next_word() % below as u32) as u16
}

// One of these.
fn one_of(draws: &mut Pcg32, list: &[&'static str]) -> &'static str {
    match list.get((draws.next_word() % 64) as usize % list.len().max(1)) {
        Some(one) => one,
        None => "",
    }
}

const ELEMENTS: &[&str] = &["C", "C", "C", "N", "O", "S", "Cl"];

const SYMBOLS: &[&str] = &["C", "C", "N", "O", "*", "A", "Q"];

// A bond of a drawn molfile: two places, a type and a topology.
#[derive(Clone, Copy, Drop)]
struct Line {
    first: u16,
    second: u16,
    kind: u16,
    topology: u16,
}

// A bond of each atom but the first to an earlier one, and with more than three atoms mostly one more, which closes a
// ring.
fn drawn_bonds(
    alloc: Global,
    draws: &mut Pcg32,
    atoms: u16,
    kinds: u16,
    topologies: u16,
) -> Result<Vec<Line>, Fail>
    requires kinds { 0 < kinds }
    requires topologies { 0 < topologies }
{
    let mut bonds = Vec::new(alloc);
    for place in 1..atoms {
        bonds.push(Line {
            first: drawn(draws, place).saturating_add(1),
            second: place.saturating_add(1),
            kind: drawn(draws, kinds).saturating_add(1),
            topology: drawn(draws, topologies),
        })?;
    }
    let free = !bonds
        .iter()
        .any(|bond| bond.first == 1 && bond.second == atoms);
    if atoms > 3 && free && drawn(draws, 3) > 0 {
        bonds.push(Line {
            first: 1,
            second: atoms,
            kind: drawn(draws, kinds).saturating_add(1),
            topology: drawn(draws, topologies),
        })?;
    }
    Ok(bonds)
}

// The text of a molfile of so many atoms, of one of these symbols each.
fn molfile(
    alloc: Global,
    draws: &mut Pcg32,
    name: &str,
    atoms: u16,
    symbols: &[&'static str],
    bonds: &[Line],
) -> Result<String, Fail> {
    let count = bonds.len();
    let mut text = format!(in alloc;
        "{name}\n\n\n{atoms:>3}{count:>3}  0  0  0  0  0  0  0  0999 V2000\n"
    )?;
    for _ in 0..atoms {
        let symbol = one_of(draws, symbols);
        text.push_str(&format!(in alloc; "    0.0000    0.0000    0.0000 {symbol:<3} 0  0\n")?)?;
    }
    for bond in bonds {
        let Line {
            first,
            second,
            kind,
            topology,
        } = *bond;
        text.push_str(&format!(in alloc; "{first:>3}{second:>3}{kind:>3}  0  0{topology:>3}\n")?)?;
    }
    text.push_str("M  END\n")?;
    Ok(text)
}

// A record of one to nine atoms.
pub(crate) fn drawn_record(alloc: Global, draws: &mut Pcg32, name: &str) -> Result<String, Fail> {
    let atoms = drawn(draws, 9).saturating_add(1);
    let bonds = drawn_bonds(alloc, draws, atoms, 3, 1)?;
    let mut text = molfile(alloc, draws, name, atoms, ELEMENTS, bonds.as_slice())?;
    text.push_str("$$$$\n")?;
    Ok(text)
}

// A query of one to four atoms.
pub(crate) fn drawn_query(alloc: Global, draws: &mut Pcg32) -> Result<String, Fail> {
    let atoms = drawn(draws, 4).saturating_add(1);
    let bonds = drawn_bonds(alloc, draws, atoms, 8, 3)?;
    molfile(alloc, draws, "q", atoms, SYMBOLS, bonds.as_slice())
}
