// What the lines are made of: bytes, numbers and names appended to a text that is lent.
ghost use Rattle.std.specs.Prelude.{◌≡◌, ℕ, ◌++◌, ◌∷◌, OnOk, OnErr, decimal, take};
ghost use Rattle.hit_report.specs.HitLines.{name_text};
ghost use Rattle.hit_report.specs.RecordLines.{spaced};
ghost use Rattle.hit_report.specs.Appends.{KeepsFront};

use htss_defs::OutOfMemory;
use itoa::Buffer;

/// Cuts the text to the length before, where it was not appended to whole.
pub fn kept_or_cut(
    text: &mut Vec<u8>,
    before: usize,
    appended: Result<(), OutOfMemory>,
) -> Result<(), OutOfMemory>
    ensures same { result ≡ appended }
    ensures ok { OnOk appended (text.new.items ≡ text.old.items) }
    ensures err { OnErr appended (text.new.items ≡ take before text.old.items) }
{
    if appended.is_err() {
        text.truncate(before);
    }
    appended
}

/// Appends bytes. Where memory runs out, the text stays as it was.
pub fn append_bytes(text: &mut Vec<u8>, bytes: &[u8]) -> Result<(), OutOfMemory>
    ensures ok { OnOk result (text.new.items ≡ text.old.items ++ bytes.now) }
    ensures front { KeepsFront text.old.items text.new.items }
    ensures err { OnErr result (text.new.items ≡ text.old.items) }
{
    text.extend_from_slice(bytes)?;
    Ok(())
}

/// Appends a number in decimal digits. Where memory runs out, the text stays as it was.
pub fn append_number(text: &mut Vec<u8>, number: u64) -> Result<(), OutOfMemory>
    ensures ok { OnOk result (text.new.items ≡ text.old.items ++ decimal number) }
    ensures front { KeepsFront text.old.items text.new.items }
    ensures err { OnErr result (text.new.items ≡ text.old.items) }
{
    let mut digits = Buffer::new();
    append_bytes(text, digits.format(number).as_bytes())
}

/// Appends a space and the name, or nothing where the name is empty. Where memory runs out, the text stays as it was.
#[tactic(auto, using(crate::proofs::Fronts::front_trans))]
pub fn append_name(text: &mut Vec<u8>, name: &[u8]) -> Result<(), OutOfMemory>
    ensures ok { OnOk result (text.new.items ≡ text.old.items ++ name_text name.now) }
    ensures front { KeepsFront text.old.items text.new.items }
    ensures err { OnErr result (text.new.items ≡ text.old.items) }
{
    if name.is_empty() {
        return Ok(());
    }
    let before = text.len();
    let appended = append_space_and(text, name);
    kept_or_cut(text, before, appended)
}

/// Appends a space and a number. Where memory runs out, the text stays as it was.
#[tactic(auto, using(crate::proofs::Fronts::front_trans))]
pub fn append_spaced(text: &mut Vec<u8>, number: u64) -> Result<(), OutOfMemory>
    ensures ok { OnOk result (text.new.items ≡ text.old.items ++ spaced number) }
    ensures front { KeepsFront text.old.items text.new.items }
    ensures err { OnErr result (text.new.items ≡ text.old.items) }
{
    let mut digits = Buffer::new();
    let before = text.len();
    let appended = append_space_and(text, digits.format(number).as_bytes());
    kept_or_cut(text, before, appended)
}

#[tactic(auto, using(crate::proofs::Fronts::front_trans))]
fn append_space_and(text: &mut Vec<u8>, bytes: &[u8]) -> Result<(), OutOfMemory>
    ensures ok { OnOk result (text.new.items ≡ text.old.items ++ 32 ∷ bytes.now) }
    ensures front { KeepsFront text.old.items text.new.items }
{
    append_bytes(text, b" ")?;
    append_bytes(text, bytes)
}
