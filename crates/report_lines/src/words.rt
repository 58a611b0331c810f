// Words, labels and numbers at the front of a text, each after a space.
ghost use Rattle.std.specs.Prelude.{◌≡◌, ℕ, ◌-◌, ◌^◌, ◌<◌, ◌≤◌, length, slice_index, true, false, option_map, IfSome};
ghost use Rattle.std.specs.Prelude.{IfNone};
ghost use Rattle.report_lines.specs.Reader.{is_visible, label_at, labelled_at, last_number, number_at, word_at};
ghost use Rattle.report_lines.specs.Reader.{word_back, word_front};

use crate::numbers::number_of;

/// The visible bytes at the front, and what follows them.
pub fn cut_word(text: &[u8]) -> (&[u8], &[u8])
    ensures word { result.0.now ≡ word_front text.now }
    ensures rest { result.1.now ≡ word_back text.now }
{
    match word_end(text) {
        None => (text, &[]),
        Some(end) => text.split_at(end),
    }
}

// The place of the first byte that is not visible.
fn word_end(text: &[u8]) -> Option<usize>
    ensures within { IfSome result (λ i. i < length text.now) }
    ensures found { IfSome result (λ i. is_visible (slice_index text.now i) ≡ false) }
    ensures first { IfSome result (λ i. (k : ℕ) → k < i → is_visible (slice_index text.now k) ≡ true) }
    ensures missing { IfNone result
        ((k : ℕ) → k < length text.now → is_visible (slice_index text.now k) ≡ true) }
{
    text.iter().position(|byte| !is_visible(*byte))
}

fn is_visible(byte: u8) -> bool
    ensures { result ≡ is_visible byte }
{
    33 <= byte && byte <= 126
}

/// The word after a space, and what follows.
#[tactic(auto, unfolding(crate::specs::Reader::word_at))]
pub fn next_word(text: &[u8]) -> Option<(&[u8], &[u8])>
    ensures { option_map (λ x. (x.0.now, x.1.now)) result ≡ word_at text.now }
{
    match text {
        [32, rest @ ..] => Some(cut_word(rest)),
        _ => None,
    }
}

/// What follows a space and this word.
#[tactic(auto, unfolding(crate::specs::Reader::label_at))]
pub fn after_label<'a>(text: &'a [u8], label: &[u8]) -> Option<&'a [u8]>
    ensures { option_map (λ x. x.now) result ≡ label_at label.now text.now }
{
    let (word, rest) = next_word(text)?;
    if word == label { Some(rest) } else { None }
}

/// The number after a space, where it is at most `most`, and what follows.
#[tactic(auto, unfolding(crate::specs::Reader::number_at))]
pub fn next_number(text: &[u8], most: u64) -> Option<(u64, &[u8])>
    ensures value { option_map (λ x. (x.0, x.1.now)) result ≡ number_at most text.now }
    ensures range { IfSome result (λ x. x.0 ≤ most) }
{
    let (word, rest) = next_word(text)?;
    let number = number_of(word, most)?;
    Some((number, rest))
}

/// The number after a space, and what follows.
pub fn next_u32(text: &[u8]) -> Option<(u32, &[u8])>
    ensures { option_map (λ x. (x.0, x.1.now)) result ≡ number_at (2 ^ 32 - 1) text.now }
{
    let (number, rest) = next_number(text, u64::from(u32::MAX))?;
    Some((number as u32, rest))
}

/// The number after a space and this word, where it is at most `most`, and what follows.
#[tactic(auto, unfolding(crate::specs::Reader::labelled_at))]
pub fn next_labelled<'a>(text: &'a [u8], label: &[u8], most: u64) -> Option<(u64, &'a [u8])>
    ensures value { option_map (λ x. (x.0, x.1.now)) result ≡ labelled_at label.now most text.now }
    ensures range { IfSome result (λ x. x.0 ≤ most) }
{
    let rest = after_label(text, label)?;
    next_number(rest, most)
}

/// The number after a space, where nothing follows.
#[tactic(auto, unfolding(crate::specs::Reader::last_number))]
pub fn last_number(text: &[u8], most: u64) -> Option<u64>
    ensures value { result ≡ last_number most text.now }
    ensures range { IfSome result (λ n. n ≤ most) }
{
    let (number, rest) = next_number(text, most)?;
    match rest {
        [] => Some(number),
        _ => None,
    }
}

/// The number after a space, where nothing follows.
pub fn last_u32(text: &[u8]) -> Option<u32>
    ensures { result ≡ last_number (2 ^ 32 - 1) text.now }
{
    let number = last_number(text, u64::from(u32::MAX))?;
    Some(number as u32)
}
