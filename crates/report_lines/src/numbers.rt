// Numbers as they are read.
ghost use Rattle.std.specs.Prelude.{◌≡◌, ◌≤◌, ◌↔◌, IsTrue, IfSome, decimal};
ghost use Rattle.report_lines.specs.Reader.{numeral};

use itoa::Buffer;

/// The number that the word writes in decimal digits without leading zeros, where it is at most `most`; `None` exactly
/// where there is no such number.
pub fn number_of(word: &[u8], most: u64) -> Option<u64>
    ensures value { result ≡ numeral most word.now }
    ensures range { IfSome result (λ n. n ≤ most) }
{
    let Ok(text) = str::from_utf8(word) else {
        return None;
    };
    let Ok(number) = text.parse::<u64>() else {
        return None;
    };
    if number <= most && is_written(number, word) {
        Some(number)
    } else {
        None
    }
}

// Whether the word is the decimal digits of the number.
fn is_written(number: u64, word: &[u8]) -> bool
    ensures { IsTrue result ↔ word.now ≡ decimal number }
{
    let mut digits = Buffer::new();
    digits.format(number).as_bytes() == word
}
