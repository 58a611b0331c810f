// The records of the tests, and where they come from.
ghost use Rattle.std.specs.Prelude.{◌<◌, IfSome};
ghost use Rattle.htss_defs.specs.Marked.{IsMarked};

use htss_defs::{Atom, Bond, Mol, Name};
use rand_core::utils::NextWord;
use rand_pcg::Pcg32;
use ring_bonds::mark_rings;
use std::alloc::Global;
use std::test::Fail;

// A record: its name, its atoms and its bonds.
#[derive(Drop)]
pub(crate) struct Sketch {
    pub(crate) name: u32,
    pub(crate) elements: Vec<u8>,
    pub(crate) bonds: Vec<Bond>,
}

pub(crate) fn bond(first: u16, second: u16, kind: u8) -> Bond {
    Bond {
        first,
        second,
        kind,
        ring: false,
    }
}

// The molecule of a sketch, with its ring bonds marked.
pub(crate) fn molecule_of(alloc: Global, sketch: &Sketch) -> Option<Mol>
    ensures { IfSome result (λ mol. IsMarked mol) }
{
    let mut atoms = Vec::new(alloc);
    for element in &sketch.elements {
        atoms
            .push(Atom {
                element: *element,
                charge: 0,
                mass: 0,
            })
            .ok()?;
    }
    let mut mol = Mol::new(atoms, sketch.bonds.clone().ok()?)?;
    mark_rings(&mut mol);
    Some(mol)
}

pub(crate) fn name_of(alloc: Global, sketch: &Sketch) -> Option<Name> {
    let text = format!(in alloc; "{}", sketch.name).ok()?;
    Name::new(text.as_bytes())
}

const ELEMENTS: [u8; 8] = [6, 6, 6, 6, 7, 7, 8, 1];

// A number below this one, which is not 0.
fn drawn(draws: &mut Pcg32, below: u16) -> u16
    requires { 0 < below }
{
    (draws.next_word() % below as u32) as u16
}

fn drawn_element(draws: &mut Pcg32) -> u8 {
    match ELEMENTS.get(drawn(draws, 8) as usize) {
        Some(element) => *element,
        None => 6,
    }
}

// A tree of one to five atoms, each bonded to an earlier one.
fn drawn_sketch(alloc: Global, draws: &mut Pcg32, name: u32) -> Result<Sketch, Fail> {
    let mut elements = vec![in alloc; drawn_element(draws)]?;
    let mut bonds = Vec::new(alloc);
    for place in 0..drawn(draws, 5) {
        elements.push(drawn_element(draws))?;
        let other = drawn(draws, place.saturating_add(1));
        let kind = 1 + (draws.next_word() % 3) as u8;
        if let (Some(first), Some(second)) = (other.checked_add(1), place.checked_add(2)) {
            bonds.push(bond(first, second, kind))?;
        }
    }
    Ok(Sketch {
        name,
        elements,
        bonds,
    })
}

// So many records, drawn from this seed.
pub(crate) fn drawn_sketches(alloc: Global, seed: u64, count: u32) -> Result<Vec<Sketch>, Fail> {
    let mut draws = Pcg32::new(seed, 54);
    let mut sketches = Vec::new(alloc);
    for name in 0..count {
        sketches.push(drawn_sketch(alloc, &mut draws, name)?)?;
    }
    Ok(sketches)
}

// The last two atoms of fifteen records. In each the four atoms before are a chain of carbons, and these two stand on
// its end, so the first atoms of all fifteen have four codes in common and differ in the fifth.
const ENDS: [(u8, u8); 15] = [
    (1, 1),
    (1, 7),
    (1, 8),
    (1, 16),
    (1, 9),
    (1, 15),
    (7, 7),
    (7, 8),
    (7, 16),
    (7, 9),
    (7, 15),
    (8, 8),
    (8, 16),
    (8, 9),
    (8, 15),
];

fn forked(alloc: Global, name: u32, ends: (u8, u8)) -> Result<Sketch, Fail> {
    let (one, other) = ends;
    Ok(Sketch {
        name,
        elements: vec![in alloc; 6, 6, 6, 6, one, other]?,
        bonds: vec![in alloc;
            bond(1, 2, 1),
            bond(2, 3, 1),
            bond(3, 4, 1),
            bond(4, 5, 1),
            bond(4, 6, 1),
        ]?,
    })
}

// The fifteen records, so many times.
pub(crate) fn forked_sketches(alloc: Global, times: u32) -> Result<Vec<Sketch>, Fail> {
    let mut sketches = Vec::new(alloc);
    let mut name = 0u32;
    for _ in 0..times {
        for ends in ENDS {
            sketches.push(forked(alloc, name, ends)?)?;
            name = name.wrapping_add(1);
        }
    }
    Ok(sketches)
}

// So many records of one carbon.
pub(crate) fn carbons(alloc: Global, count: u32) -> Result<Vec<Sketch>, Fail> {
    let mut sketches = Vec::new(alloc);
    for name in 0..count {
        sketches.push(Sketch {
            name,
            elements: vec![in alloc; 6]?,
            bonds: Vec::new(alloc),
        })?;
    }
    Ok(sketches)
}
