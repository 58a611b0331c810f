// Atom lists, read by words.
ghost use Rattle.std.specs.Prelude.{◌≡◌, ℕ, ◌^◌, ◌≤◌, drop, bit_or, Some, None, true, false, IfSome};
ghost use Rattle.std.specs.Option.{option_map};
ghost use Rattle.mol_section.specs.Fields.{words_of};
ghost use Rattle.query_mol.specs.QueryLines.{element_number, element_symbol, elements_of};
ghost use Rattle.query_mol.specs.QueryLines.{excludes_value, place_word, count_word};
ghost use Rattle.query_mol.specs.QueryLines.{old_list_of, new_list_of};
ghost use Rattle.query_mol.specs.QueryRecord.{set_of};
ghost use Rattle.query_mol.specs.ListWords.{three, element_value, with_element, listed_of};

use htss_defs::ElementSet;
use mol_section::{is_place, next_word, number_of, symbol_value};

/// An atom list: the atom at this place has one of the elements, or, where it excludes, none of them.
#[derive(Clone, Copy, Debug)]
pub struct Listed {
    pub place: u16,
    pub excludes: bool,
    pub elements: ElementSet,
}

/// The list of an old list line.
pub fn old_list_of(line: &[u8], atoms: u16) -> Option<Listed>
    ensures list { result ≡ option_map listed_of (old_list_of atoms line.now) }
    ensures low { IfSome result (λ one. 1 ≤ one.place) }
    ensures high { IfSome result (λ one. one.place ≤ atoms) }
{
    let words = three_words(line)?;
    let place = place_word(words.first, atoms)?;
    let excludes = excludes_value(words.second)?;
    let count = count_word(words.third, 5)?;
    let elements = elements_of(words.rest, count, false)?;
    Some(Listed {
        place,
        excludes,
        elements,
    })
}

/// The list of a line `M  ALS`.
pub fn new_list_of(line: &[u8], atoms: u16) -> Option<Listed>
    ensures list { result ≡ option_map listed_of (new_list_of atoms line.now) }
    ensures low { IfSome result (λ one. 1 ≤ one.place) }
    ensures high { IfSome result (λ one. one.place ≤ atoms) }
{
    let words = three_words(after_lead(line))?;
    let place = place_word(words.first, atoms)?;
    let count = count_word(words.second, 16)?;
    let excludes = excludes_value(words.third)?;
    let elements = elements_of(words.rest, count, true)?;
    Some(Listed {
        place,
        excludes,
        elements,
    })
}

// What stands after the first six bytes.
fn after_lead(line: &[u8]) -> &[u8]
    ensures { result.now ≡ drop 6 line.now }
{
    if line.len() < 6 { &[] } else { &line[6..] }
}

// The first three words, and what stands after them.
#[derive(Clone, Copy)]
struct Words<'a> {
    first: &'a [u8],
    second: &'a [u8],
    third: &'a [u8],
    rest: &'a [u8],
}

#[tactic(auto, unfolding(crate::specs::ListWords::three))]
fn three_words(text: &[u8]) -> Option<Words<'_>>
    ensures { option_map (λ w. (w.first.now, w.second.now, w.third.now, words_of w.rest.now)) result
        ≡ three (words_of text.now) }
{
    let (first, rest) = next_word(text)?;
    let (second, rest) = next_word(rest)?;
    let (third, rest) = next_word(rest)?;
    Some(Words {
        first,
        second,
        third,
        rest,
    })
}

fn place_word(word: &[u8], atoms: u16) -> Option<u16>
    ensures place { result ≡ place_word atoms word.now }
    ensures within { IfSome result (λ p. (1 ≤ p) × (p ≤ atoms)) }
{
    let place = number_of(word)?;
    if is_place(atoms, place) {
        Some(place)
    } else {
        None
    }
}

fn excludes_value(word: &[u8]) -> Option<bool>
    ensures { result ≡ excludes_value word.now }
{
    if word == b"T".as_slice() {
        Some(true)
    } else if word == b"F".as_slice() {
        Some(false)
    } else {
        None
    }
}

fn count_word(word: &[u8], most: u16) -> Option<u16>
    ensures { result ≡ count_word most word.now }
{
    let count = number_of(word)?;
    if 1 <= count && count <= most {
        Some(count)
    } else {
        None
    }
}

// The set of the elements that so many words name.
fn elements_of(text: &[u8], count: u16, by_symbol: bool) -> Option<ElementSet>
    ensures { option_map (λ s. s.0) result
        ≡ option_map set_of (elements_of (element_value by_symbol) count (words_of text.now)) }
{
    let mut rest = text;
    let mut set = 0;
    for _ in 0..count {
        let (word, after) = next_word(rest)?;
        let element = element_value(word, by_symbol)?;
        set = with_element(set, element);
        rest = after;
    }
    Some(ElementSet(set))
}

fn with_element(set: u128, element: u8) -> u128
    requires { element ≤ 118 }
    ensures { result ≡ with_element set element }
{
    set | (1 << element)
}

// The element of an atomic number, or of a symbol.
#[tactic(auto, unfolding(crate::specs::ListWords::element_value))]
fn element_value(word: &[u8], by_symbol: bool) -> Option<u8>
    ensures value { result ≡ element_value by_symbol word.now }
    ensures range { IfSome result (λ e. e ≤ 118) }
{
    if by_symbol {
        element_symbol(word)
    } else {
        element_number(word)
    }
}

fn element_number(word: &[u8]) -> Option<u8>
    ensures value { result ≡ element_number word.now }
    ensures range { IfSome result (λ e. e ≤ 118) }
{
    let number = number_of(word)?;
    if 1 <= number && number <= 118 {
        Some(number as u8)
    } else {
        None
    }
}

// The element of a symbol of the table, where D and T stand for isotopes and are none.
fn element_symbol(word: &[u8]) -> Option<u8>
    ensures value { result ≡ element_symbol word.now }
    ensures range { IfSome result (λ e. e ≤ 118) }
{
    let (element, mass) = symbol_value(word)?;
    if mass == 0 { Some(element) } else { None }
}
