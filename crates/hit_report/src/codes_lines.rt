// The line of the codes of an atom.
ghost use Rattle.std.specs.Prelude.{◌≡◌, ℕ, ◌≤◌, ◌++◌, ◌∷◌, OnOk, OnErr};
ghost use Rattle.hit_report.specs.CodesLines.{codes_line, hex_digit_before, hex_word};
ghost use Rattle.hit_report.specs.Appends.{KeepsFront};

use crate::append::{append_bytes, append_number, kept_or_cut};
use htss_defs::{Codes, OutOfMemory};

/// Appends the line of the codes of an atom, `ATOM CODE CODE CODE CODE CODE` with 16 hexadecimal digits a code. An
/// `Err` leaves the text as it was.
pub fn push_codes(text: &mut Vec<u8>, atom: u16, codes: &Codes) -> Result<(), OutOfMemory>
    ensures ok { OnOk result (text.new.items ≡ text.old.items ++ codes_line atom codes.now) }
    ensures err { OnErr result (text.new.items ≡ text.old.items) }
{
    let before = text.len();
    let appended = append_codes(text, atom, codes);
    kept_or_cut(text, before, appended)
}

#[tactic(auto, using(crate::proofs::Fronts::front_trans), unfolding(crate::specs::CodesLines::codes_line))]
fn append_codes(text: &mut Vec<u8>, atom: u16, codes: &Codes) -> Result<(), OutOfMemory>
    ensures ok { OnOk result (text.new.items ≡ text.old.items ++ codes_line atom codes.now) }
    ensures front { KeepsFront text.old.items text.new.items }
{
    append_number(text, u64::from(atom))?;
    for word in codes.words {
        append_word(text, word)?;
    }
    append_bytes(text, b"\n")
}

// A space and a word in hexadecimal digits, the highest first.
#[tactic(auto, using(crate::proofs::Fronts::front_trans), unfolding(crate::specs::CodesLines::hex_word))]
fn append_word(text: &mut Vec<u8>, word: u64) -> Result<(), OutOfMemory>
    ensures ok { OnOk result (text.new.items ≡ text.old.items ++ 32 ∷ hex_word word) }
    ensures front { KeepsFront text.old.items text.new.items }
{
    append_bytes(text, b" ")?;
    for index in 0..16 {
        append_bytes(text, &[hex_digit_before(15 - index, word)])?;
    }
    Ok(())
}

// The hexadecimal digit that stands before so many others.
#[tactic(auto, unfolding(crate::specs::CodesLines::hex_digit_before))]
fn hex_digit_before(after: u32, word: u64) -> u8
    requires { after ≤ 15 }
    ensures { result ≡ hex_digit_before after word }
{
    let digit = ((word >> (4 * after)) % 16) as u8;
    if digit < 10 {
        b'0' + digit
    } else {
        b'a' - 10 + digit
    }
}
