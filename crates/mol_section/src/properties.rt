// What a property line does to the atoms.
ghost use Rattle.std.specs.Prelude.{◌≡◌, ℕ, ◌≤◌, ◌≤ℤ◌, pos, negsuc, true, not, ◌||◌, if◌then◌else◌};
ghost use Rattle.std.specs.Prelude.{Some, None, is_some, All, length, map, fold, IfSome, IfNone};
ghost use Rattle.std.specs.Option.{option_map};
ghost use Rattle.mol_section.specs.Fields.{words_of};
ghost use Rattle.mol_section.specs.SectionLines.{property_refusal, line_entries};
ghost use Rattle.mol_section.specs.SectionLines.{listed_charge, listed_mass, listed_entries};
ghost use Rattle.mol_section.specs.SectionLines.{lists_charges, lists_masses};
ghost use Rattle.mol_section.specs.AtomLines.{IsAtomFrom};
ghost use Rattle.mol_section.specs.PropertyLines.{count_at, place_at, entry_at};
ghost use Rattle.mol_section.specs.PropertyLines.{put_charge, put_mass, no_charge, sets_aside};
ghost use Rattle.mol_section.specs.PropertyLines.{set_aside, put_charges, put_masses, with_property};

use crate::bonds::is_place;
use crate::fields::{next_word, number_of, signed_of};
use htss_defs::Atom;

/// Changes the atoms as a property line says, and answers whether the charges of the atom block are
/// set aside, as they may be before. `None`: the line is refused.
pub fn take_property(line: &[u8], atoms: &mut [Atom], aside: bool) -> Option<bool>
    requires few { length atoms.old ≤ 999 }
    ensures refused { IfNone result (property_refusal (length atoms.old) line.now ≡ Some 11) }
    ensures accepted { IfSome result (λ _. property_refusal (length atoms.old) line.now ≡ None) }
    ensures aside { IfSome result (λ now. now ≡ (aside || sets_aside line.now)) }
    ensures atoms { IfSome result (λ _. atoms.new ≡ with_property aside line.now atoms.old) }
    ensures valid { (least : ℕ) → All (IsAtomFrom least) atoms.old → All (IsAtomFrom least) atoms.new }
{
    let now = take_aside(line, atoms, aside);
    if take_charges(line, atoms) && take_masses(line, atoms) {
        Some(now)
    } else {
        None
    }
}

// Sets the charges of the atom block aside where the line is the first that does, and answers whether they are.
#[tactic(auto, unfolding(crate::specs::PropertyLines::set_aside))]
fn take_aside(line: &[u8], atoms: &mut [Atom], aside: bool) -> bool
    ensures aside { result ≡ (aside || sets_aside line.now) }
    ensures atoms { atoms.new ≡ set_aside aside line.now atoms.old }
    ensures valid { (least : ℕ) → All (IsAtomFrom least) atoms.old → All (IsAtomFrom least) atoms.new }
{
    if aside {
        return true;
    }
    if line.starts_with(b"M  CHG") || line.starts_with(b"M  RAD") {
        clear_charges(atoms);
        return true;
    }
    false
}

// Sets all charges to 0.
fn clear_charges(atoms: &mut [Atom])
    ensures atoms { atoms.new ≡ map no_charge atoms.old }
    ensures valid { (least : ℕ) → All (IsAtomFrom least) atoms.old → All (IsAtomFrom least) atoms.new }
{
    for i in 0..atoms.len() {
        atoms[i] = with_charge(atoms[i], 0);
    }
}

// Puts the charges that the line lists, if it does, and answers whether they are in the grammar.
#[tactic(auto, unfolding(crate::specs::PropertyLines::put_charges))]
fn take_charges(line: &[u8], atoms: &mut [Atom]) -> bool
    requires few { length atoms.old ≤ 999 }
    ensures passes { result ≡ (not (lists_charges line.now)
        || is_some (line_entries listed_charge (length atoms.old) line.now)) }
    ensures atoms { result ≡ true → atoms.new ≡ put_charges line.now atoms.old }
    ensures valid { (least : ℕ) → All (IsAtomFrom least) atoms.old → All (IsAtomFrom least) atoms.new }
{
    if line.starts_with(b"M  CHG") {
        list_charges(&line[6..], atoms)
    } else {
        true
    }
}

// Puts the charges of a list of entries.
fn list_charges(text: &[u8], atoms: &mut [Atom]) -> bool
    requires few { length atoms.old ≤ 999 }
    ensures read { (if result then Some atoms.new else None)
        ≡ option_map (fold put_charge atoms.old)
        (listed_entries listed_charge (length atoms.old) (words_of text.now)) }
    ensures valid { (least : ℕ) → All (IsAtomFrom least) atoms.old → All (IsAtomFrom least) atoms.new }
{
    let Some((count, rest)) = entry_count(text) else {
        return false;
    };
    let size = atoms.len() as u16;
    let mut rest = rest;
    for _ in 0..count {
        let Some(entry) = charge_at(rest, size) else {
            return false;
        };
        let at = entry.place as usize - 1;
        atoms[at] = with_charge(atoms[at], entry.charge);
        rest = entry.rest;
    }
    true
}

// The number of entries, and what stands after it.
#[tactic(auto, unfolding(crate::specs::PropertyLines::count_at))]
fn entry_count(text: &[u8]) -> Option<(u16, &[u8])>
    ensures { option_map (λ x. (x.0, words_of x.1.now)) result ≡ count_at (words_of text.now) }
{
    let (word, rest) = next_word(text)?;
    let count = number_of(word)?;
    if count <= 8 {
        Some((count, rest))
    } else {
        None
    }
}

// A charge of a place, and what stands after it.
#[derive(Clone, Copy)]
struct Charged<'a> {
    place: u16,
    charge: i8,
    rest: &'a [u8],
}

// The place and the charge at the front, and what stands after them.
#[tactic(auto, unfolding(crate::specs::PropertyLines::entry_at, crate::specs::PropertyLines::value_at))]
fn charge_at(text: &[u8], atoms: u16) -> Option<Charged<'_>>
    ensures entry { option_map (λ x. (x.place, x.charge, words_of x.rest.now)) result
        ≡ entry_at listed_charge atoms (words_of text.now) }
    ensures place { IfSome result (λ x. (1 ≤ x.place) × (x.place ≤ atoms)) }
    ensures charge { IfSome result (λ x. (negsuc 14 ≤ℤ x.charge) × (x.charge ≤ℤ pos 15)) }
{
    let (place, rest) = place_at(text, atoms)?;
    let (word, rest) = next_word(rest)?;
    let charge = listed_charge(word)?;
    Some(Charged {
        place,
        charge,
        rest,
    })
}

// A place among so many atoms, and what stands after it.
#[tactic(auto, unfolding(crate::specs::PropertyLines::place_at))]
fn place_at(text: &[u8], atoms: u16) -> Option<(u16, &[u8])>
    ensures read { option_map (λ x. (x.0, words_of x.1.now)) result
        ≡ place_at atoms (words_of text.now) }
    ensures place { IfSome result (λ x. (1 ≤ x.0) × (x.0 ≤ atoms)) }
{
    let (word, rest) = next_word(text)?;
    let place = number_of(word)?;
    if is_place(atoms, place) {
        Some((place, rest))
    } else {
        None
    }
}

// The charge that a word says, from -15 to 15.
#[tactic(auto, unfolding(crate::specs::SectionLines::listed_charge))]
fn listed_charge(word: &[u8]) -> Option<i8>
    ensures value { result ≡ listed_charge word.now }
    ensures range { IfSome result (λ charge. (negsuc 14 ≤ℤ charge) × (charge ≤ℤ pos 15)) }
{
    let charge = signed_of(word)?;
    if -15 <= charge && charge <= 15 {
        Some(charge as i8)
    } else {
        None
    }
}

// Puts the masses that the line lists, if it does, and answers whether they are in the grammar.
#[tactic(auto, unfolding(crate::specs::PropertyLines::put_masses))]
fn take_masses(line: &[u8], atoms: &mut [Atom]) -> bool
    requires few { length atoms.old ≤ 999 }
    ensures passes { result ≡ (not (lists_masses line.now)
        || is_some (line_entries listed_mass (length atoms.old) line.now)) }
    ensures atoms { result ≡ true → atoms.new ≡ put_masses line.now atoms.old }
    ensures valid { (least : ℕ) → All (IsAtomFrom least) atoms.old → All (IsAtomFrom least) atoms.new }
{
    if line.starts_with(b"M  ISO") {
        list_masses(&line[6..], atoms)
    } else {
        true
    }
}

// Puts the masses of a list of entries.
fn list_masses(text: &[u8], atoms: &mut [Atom]) -> bool
    requires few { length atoms.old ≤ 999 }
    ensures read { (if result then Some atoms.new else None)
        ≡ option_map (fold put_mass atoms.old)
        (listed_entries listed_mass (length atoms.old) (words_of text.now)) }
    ensures valid { (least : ℕ) → All (IsAtomFrom least) atoms.old → All (IsAtomFrom least) atoms.new }
{
    let Some((count, rest)) = entry_count(text) else {
        return false;
    };
    let size = atoms.len() as u16;
    let mut rest = rest;
    for _ in 0..count {
        let Some(entry) = mass_at(rest, size) else {
            return false;
        };
        let at = entry.place as usize - 1;
        atoms[at] = with_mass(atoms[at], entry.mass);
        rest = entry.rest;
    }
    true
}

// A mass of a place, and what stands after it.
#[derive(Clone, Copy)]
struct Weighed<'a> {
    place: u16,
    mass: u16,
    rest: &'a [u8],
}

// The place and the mass at the front, and what stands after them.
#[tactic(auto, unfolding(crate::specs::PropertyLines::entry_at, crate::specs::PropertyLines::value_at, crate::specs::SectionLines::listed_mass))]
fn mass_at(text: &[u8], atoms: u16) -> Option<Weighed<'_>>
    ensures entry { option_map (λ x. (x.place, x.mass, words_of x.rest.now)) result
        ≡ entry_at listed_mass atoms (words_of text.now) }
    ensures place { IfSome result (λ x. (1 ≤ x.place) × (x.place ≤ atoms)) }
    ensures mass { IfSome result (λ x. x.mass ≤ 999) }
{
    let (place, rest) = place_at(text, atoms)?;
    let (word, rest) = next_word(rest)?;
    let mass = number_of(word)?;
    Some(Weighed { place, mass, rest })
}

// The atom with this charge.
fn with_charge(atom: Atom, charge: i8) -> Atom
    ensures { result ≡ record atom { charge = charge } }
{
    Atom {
        element: atom.element,
        charge,
        mass: atom.mass,
    }
}

// The atom with this mass.
fn with_mass(atom: Atom, mass: u16) -> Atom
    ensures { result ≡ record atom { mass = mass } }
{
    Atom {
        element: atom.element,
        charge: atom.charge,
        mass,
    }
}
