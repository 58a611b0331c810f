// Files, names, maps and refusals at the front of a text.
ghost use Rattle.std.specs.Prelude.{◌≡◌, ◌≢◌, ℕ, ◌<◌, [], ◌∷◌, length, slice_index, IfOk, IfSome, IfNone, option_map};
ghost use Rattle.std.specs.Str.{IsUtf8};
ghost use Rattle.htss_defs.specs.FileName.{IsFileName};
ghost use Rattle.report_lines.specs.Reader.{coded_at, file_at, is_file_name, is_only, name_at, named, parts_of};
ghost use Rattle.report_lines.specs.Reader.{place_of, places_of, refusal_at};

use crate::numbers::number_of;
use crate::words::{after_label, next_number, next_word};
use arrayvec::ArrayVec;
use hit_report::code_word;
use htss_defs::{FileName, Name, OutOfMemory, Places};
use std::alloc::Global;

// The most bytes of the name of a file, and the most places of a map.
const LONGEST_FILE: usize = 4096;

const MOST_PLACES: usize = 64;

/// The word after a space, where it is the name of a file, and what follows.
#[tactic(auto, unfolding(crate::specs::Reader::file_at))]
pub fn next_file(text: &[u8]) -> Option<(&[u8], &[u8])>
    ensures value { option_map (λ x. (x.0.now, x.1.now)) result ≡ file_at text.now }
    ensures valid { IfSome result (λ x. IsFileName x.0.now) }
{
    let (word, rest) = next_word(text)?;
    if is_file_name(word) {
        Some((word, rest))
    } else {
        None
    }
}

#[tactic(auto, unfolding(crate::specs::Reader::is_file_name))]
fn is_file_name(word: &[u8]) -> bool
    ensures { result ≡ is_file_name word.now }
{
    1 <= word.len() && word.len() <= LONGEST_FILE
}

/// The name of a file that the word is. It is an `Err` where memory runs out.
pub fn file_name(alloc: Global, word: &[u8]) -> Result<FileName, OutOfMemory>
    requires { IsFileName word.now }
    ensures { IfOk result (λ name. name ≡ word.now) }
{
    let text = String::from_str(alloc, text_of(word))?;
    Ok(FileName::new(text).unwrap())
}

// The text of these bytes.
fn text_of(bytes: &[u8]) -> &str
    requires { IsUtf8 bytes.now }
    ensures { result.now ≡ bytes.now }
{
    std::str::from_utf8(bytes).unwrap()
}

/// The name after a space, or the empty name of an empty text.
#[tactic(auto, unfolding(crate::specs::Reader::name_at))]
pub fn last_name(text: &[u8]) -> Option<Name>
    ensures { result ≡ name_at text.now }
{
    match text {
        [] => name_of(&[]),
        [32, name @ ..] if !name.is_empty() => name_of(name),
        _ => None,
    }
}

// The name of these bytes.
fn name_of(bytes: &[u8]) -> Option<Name>
    ensures { result ≡ named bytes.now }
{
    Name::new(bytes)
}

/// The places between commas, 1 to 64 of them.
#[tactic(auto, unfolding(crate::specs::Reader::places_of))]
pub fn places_of(word: &[u8]) -> Option<Places>
    ensures { result ≡ places_of word.now }
{
    let mut places = ArrayVec::new();
    let mut left = word;
    for _ in 0..MOST_PLACES {
        let (part, rest) = cut_part(left);
        places.push(place_of(part)?);
        let Some(rest) = rest else {
            return Some(Places::new(places));
        };
        left = rest;
    }
    None
}

// The bytes before the first comma, and what follows it, if there is one.
fn cut_part(text: &[u8]) -> (&[u8], Option<&[u8]>)
    ensures more { IfSome result.1 (λ rest.
        parts_of text.now ≡ result.0.now ∷ parts_of rest.now) }
    ensures last { IfNone result.1 (parts_of text.now ≡ result.0.now ∷ []) }
{
    match comma_place(text) {
        None => (text, None),
        Some(comma) => (&text[..comma], Some(&text[comma + 1..])),
    }
}

// The place of the first comma.
fn comma_place(text: &[u8]) -> Option<usize>
    ensures within { IfSome result (λ i. i < length text.now) }
    ensures found { IfSome result (λ i. slice_index text.now i ≡ 44) }
    ensures first { IfSome result (λ i. (k : ℕ) → k < i → slice_index text.now k ≢ 44) }
    ensures missing { IfNone result
        ((k : ℕ) → k < length text.now → slice_index text.now k ≢ 44) }
{
    text.iter().position(|byte| *byte == b',')
}

// The place that is written, 1 to 65,535.
#[tactic(auto, unfolding(crate::specs::Reader::place_of))]
fn place_of(part: &[u8]) -> Option<u16>
    ensures { result ≡ place_of part.now }
{
    let place = number_of(part, u64::from(u16::MAX))?;
    if place == 0 { None } else { Some(place as u16) }
}

/// The line and the code of a refusal, where the code's word follows and then nothing.
#[tactic(auto, unfolding(crate::specs::Reader::refusal_at))]
pub fn last_refusal(text: &[u8]) -> Option<(u64, u8)>
    ensures { result ≡ refusal_at text.now }
{
    let (line, rest) = next_number(text, u64::MAX)?;
    let (code, rest) = next_number(rest, u64::from(u8::MAX))?;
    let code = coded(code as u8, rest)?;
    Some((line, code))
}

// The code, where its word follows and then nothing.
#[tactic(auto, unfolding(crate::specs::Reader::coded_at))]
fn coded(code: u8, text: &[u8]) -> Option<u8>
    ensures { result ≡ coded_at code text.now }
{
    if is_only(code_word(code), text) {
        Some(code)
    } else {
        None
    }
}

// Whether the text is a space and this word, which is not empty.
#[tactic(auto, unfolding(crate::specs::Reader::is_only))]
fn is_only(word: &[u8], text: &[u8]) -> bool
    ensures { result ≡ is_only word.now text.now }
{
    !word.is_empty() && matches!(after_label(text, word), Some([]))
}
