// Numbers of a script.
ghost use Rattle.std.specs.Prelude.{◌≡◌, ◌^◌, ◌≤◌, IsTrue, IfSome, length};
ghost use Rattle.std.specs.Str.{IsUtf8};
ghost use Rattle.std.specs.List.{list_all};
ghost use Rattle.script_text.specs.Grammar.{is_digit, is_numeral, number_below};

// The most digits of the number of a record, and of any number.
const NUMBER_DIGITS: usize = 10;

const MOST_DIGITS: usize = 20;

/// The number of a record, in 1 to 10 digits, where it is below 2^32.
pub fn record_number(word: &[u8]) -> Option<u32>
    ensures { result ≡ number_below 10 (2 ^ 32) word.now }
{
    if !is_numeral(word, NUMBER_DIGITS) {
        return None;
    }
    match text_of(word).parse() {
        Ok(number) => Some(number),
        Err(_) => None,
    }
}

/// The value of 1 to 20 digits, leading zeros allowed, where it is below 2^64.
pub fn whole_number(word: &[u8]) -> Option<u64>
    ensures { result ≡ number_below 20 (2 ^ 64) word.now }
{
    if !is_numeral(word, MOST_DIGITS) {
        return None;
    }
    match text_of(word).parse() {
        Ok(number) => Some(number),
        Err(_) => None,
    }
}

/// The text of these bytes.
pub fn text_of(bytes: &[u8]) -> &str
    requires { IsUtf8 bytes.now }
    ensures { result.now ≡ bytes.now }
{
    std::str::from_utf8(bytes).unwrap()
}

// Whether the word is 1 to so many digits.
fn is_numeral(word: &[u8], most: usize) -> bool
    ensures { result ≡ is_numeral most word.now }
{
    !word.is_empty() && word.len() <= most && are_digits(word)
}

// Whether each byte is a decimal digit.
fn are_digits(word: &[u8]) -> bool
    ensures { result ≡ list_all is_digit word.now }
{
    word.iter().all(|byte| is_digit(*byte))
}

// Whether it is a decimal digit.
fn is_digit(byte: u8) -> bool
    ensures { result ≡ is_digit byte }
{
    b'0' <= byte && byte <= b'9'
}
