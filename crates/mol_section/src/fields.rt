// The fields and words of a line.
ghost use Rattle.std.specs.Prelude.{◌≡◌, ◌≢◌, ℕ, ◌+◌, ◌-◌, ◌≤◌, ◌<◌, ◌&&◌, nat_le, [], ◌∷◌};
ghost use Rattle.std.specs.Prelude.{length, take, drop, reverse, slice_index, IfSome, IfNone};
ghost use Rattle.mol_section.specs.Fields.{trim_front, trim_ends, field, words_of};
ghost use Rattle.mol_section.specs.Fields.{count_of, number_of, signed_of};

/// The text in the columns from the first to the last, counted from 1, without spaces at both ends.
#[tactic(auto, unfolding(crate::specs::Fields::field))]
pub fn field(line: &[u8], first: usize, last: usize) -> &[u8]
    requires low { 1 ≤ first }
    requires order { first ≤ last }
    ensures text { result.now ≡ field first last line.now }
    ensures short { length result.now ≤ last + 1 - first }
{
    trim(columns(line, first, last))
}

// The columns as far as the line goes.
fn columns(line: &[u8], first: usize, last: usize) -> &[u8]
    requires low { 1 ≤ first }
    requires order { first ≤ last }
    ensures { result.now ≡ take (last + 1 - first) (drop (first - 1) line.now) }
{
    if line.len() < first {
        &[]
    } else if line.len() < last {
        &line[first - 1..]
    } else {
        &line[first - 1..last]
    }
}

/// The text without spaces at both ends.
pub fn trim(text: &[u8]) -> &[u8]
    ensures text { result.now ≡ trim_ends text.now }
    ensures short { length result.now ≤ length text.now }
{
    trim_back(trim_front(text))
}

// The text without spaces at its front.
fn trim_front(text: &[u8]) -> &[u8]
    ensures text { result.now ≡ trim_front text.now }
    ensures short { length result.now ≤ length text.now }
{
    let mut rest = text;
    while let [32, after @ ..] = rest {
        rest = after;
    }
    rest
}

// The text without spaces at its end.
fn trim_back(text: &[u8]) -> &[u8]
    ensures text { result.now ≡ reverse (trim_front (reverse text.now)) }
    ensures short { length result.now ≤ length text.now }
{
    let mut rest = text;
    while let [before @ .., 32] = rest {
        rest = before;
    }
    rest
}

// Whether it is a decimal digit.
fn is_digit(byte: u8) -> bool
    ensures { result ≡ (nat_le 48 byte && nat_le byte 57) }
{
    48 <= byte && byte <= 57
}

/// The value of a count field: a blank one is 0.
#[tactic(auto, unfolding(crate::specs::Fields::count_of))]
pub fn count_of(text: &[u8]) -> Option<u16>
    ensures value { result ≡ count_of text.now }
    ensures small { IfSome result (λ n. n ≤ 999) }
{
    match text {
        [] => Some(0),
        [a] if is_digit(*a) => Some(*a as u16 - 48),
        [a, b] if is_digit(*a) && is_digit(*b) => Some(10 * (*a as u16 - 48) + (*b as u16 - 48)),
        [a, b, c] if is_digit(*a) && is_digit(*b) && is_digit(*c) => {
            Some(100 * (*a as u16 - 48) + 10 * (*b as u16 - 48) + (*c as u16 - 48))
        }
        _ => None,
    }
}

/// The value of a number of one to three digits.
#[tactic(auto, unfolding(crate::specs::Fields::number_of))]
pub fn number_of(text: &[u8]) -> Option<u16>
    ensures value { result ≡ number_of text.now }
    ensures small { IfSome result (λ n. n ≤ 999) }
{
    if text.is_empty() {
        None
    } else {
        count_of(text)
    }
}

/// The value of such a number, with or without a sign.
#[tactic(auto, unfolding(crate::specs::Fields::signed_of))]
pub fn signed_of(text: &[u8]) -> Option<i16>
    ensures { result ≡ signed_of text.now }
{
    match text {
        [] => None,
        [43, digits @ ..] => {
            let n = number_of(digits)?;
            Some(n as i16)
        }
        [45, digits @ ..] => {
            let n = number_of(digits)?;
            Some(-(n as i16))
        }
        _ => {
            let n = number_of(text)?;
            Some(n as i16)
        }
    }
}

/// The first word, and what stands after it.
pub fn next_word(text: &[u8]) -> Option<(&[u8], &[u8])>
    ensures none { IfNone result (words_of text.now ≡ []) }
    ensures word { IfSome result (λ x. words_of text.now ≡ x.0.now ∷ words_of x.1.now) }
{
    let text = trim_front(text);
    if text.is_empty() {
        return None;
    }
    match space_place(text) {
        None => Some((text, &[])),
        Some(i) => Some(text.split_at(i)),
    }
}

// The place of the first space.
fn space_place(text: &[u8]) -> Option<usize>
    ensures within { IfSome result (λ i. i < length text.now) }
    ensures found { IfSome result (λ i. slice_index text.now i ≡ 32) }
    ensures first { IfSome result (λ i. (k : ℕ) → k < i → slice_index text.now k ≢ 32) }
    ensures missing { IfNone result
        ((k : ℕ) → k < length text.now → slice_index text.now k ≢ 32) }
{
    text.iter().position(|b| *b == 32)
}
