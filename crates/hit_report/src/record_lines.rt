// Lines of records and of refusals.
ghost use Rattle.std.specs.Prelude.{◌≡◌, ℕ, ◌∷◌, ◌++◌, [], OnOk, OnErr};
ghost use Rattle.hit_report.specs.RecordLines.{code_word, ok_line, query_refused_line, records_line, refusal_text};
ghost use Rattle.hit_report.specs.RecordLines.{refused_line};
ghost use Rattle.hit_report.specs.Appends.{KeepsFront};

use crate::append::{append_bytes, append_name, append_spaced, kept_or_cut};
use htss_defs::OutOfMemory;

/// The word of a code of a refusal, 1 to 14 or 20 to 22; empty for other numbers.
pub fn code_word(code: u8) -> &'static [u8]
    ensures { result.now ≡ code_word code }
{
    match code {
        1 => b"Counts",
        2 => b"Version",
        3 => b"Stext",
        4 => b"AtomLine",
        5 => b"Symbol",
        6 => b"Charge",
        7 => b"BondLine",
        8 => b"BondAtom",
        9 => b"BondType",
        10 => b"BondTwice",
        11 => b"Property",
        12 => b"NoEnd",
        13 => b"LongLine",
        14 => b"Empty",
        20 => b"TooLarge",
        21 => b"List",
        22 => b"Topology",
        _ => b"",
    }
}

/// Appends the line of a record that was accepted, `ok PLACE ATOMS BONDS NAME`. An `Err` leaves the text as it was.
pub fn push_ok(
    text: &mut Vec<u8>,
    place: u32,
    atoms: usize,
    bonds: usize,
    name: &[u8],
) -> Result<(), OutOfMemory>
    ensures ok { OnOk result (text.new.items ≡ text.old.items ++ ok_line place atoms bonds name.now) }
    ensures err { OnErr result (text.new.items ≡ text.old.items) }
{
    let before = text.len();
    let appended = append_ok(text, place, atoms, bonds, name);
    kept_or_cut(text, before, appended)
}

/// Appends the line of a record that was refused, `refused PLACE LINE CODE WORD`. An `Err` leaves the text as it was.
pub fn push_refused(text: &mut Vec<u8>, place: u32, line: u64, code: u8) -> Result<(), OutOfMemory>
    ensures ok { OnOk result (text.new.items ≡ text.old.items ++ refused_line place line code) }
    ensures front { KeepsFront text.old.items text.new.items }
    ensures err { OnErr result (text.new.items ≡ text.old.items) }
{
    let before = text.len();
    let appended = append_refused(text, place, line, code);
    kept_or_cut(text, before, appended)
}

/// Appends the line of a query that was refused, `query refused LINE CODE WORD`. An `Err` leaves the text as it was.
pub fn push_query_refused(text: &mut Vec<u8>, line: u64, code: u8) -> Result<(), OutOfMemory>
    ensures ok { OnOk result (text.new.items ≡ text.old.items ++ query_refused_line line code) }
    ensures err { OnErr result (text.new.items ≡ text.old.items) }
{
    let before = text.len();
    let appended = append_query_refused(text, line, code);
    kept_or_cut(text, before, appended)
}

/// Appends the line of the numbers of records, `records N ok K refused J`. An `Err` leaves the text as it was.
pub fn push_records(
    text: &mut Vec<u8>,
    records: u32,
    accepted: u32,
    refused: u32,
) -> Result<(), OutOfMemory>
    ensures ok { OnOk result (text.new.items
        ≡ text.old.items ++ records_line records accepted refused) }
    ensures err { OnErr result (text.new.items ≡ text.old.items) }
{
    let before = text.len();
    let appended = append_records(text, records, accepted, refused);
    kept_or_cut(text, before, appended)
}

#[tactic(auto, using(crate::proofs::Fronts::front_trans), unfolding(crate::specs::RecordLines::ok_line))]
fn append_ok(
    text: &mut Vec<u8>,
    place: u32,
    atoms: usize,
    bonds: usize,
    name: &[u8],
) -> Result<(), OutOfMemory>
    ensures ok { OnOk result (text.new.items ≡ text.old.items ++ ok_line place atoms bonds name.now) }
    ensures front { KeepsFront text.old.items text.new.items }
{
    append_bytes(text, b"ok")?;
    append_spaced(text, u64::from(place))?;
    append_spaced(text, atoms as u64)?;
    append_spaced(text, bonds as u64)?;
    append_name(text, name)?;
    append_bytes(text, b"\n")
}

#[tactic(auto, using(crate::proofs::Fronts::front_trans), unfolding(crate::specs::RecordLines::refused_line))]
fn append_refused(text: &mut Vec<u8>, place: u32, line: u64, code: u8) -> Result<(), OutOfMemory>
    ensures ok { OnOk result (text.new.items ≡ text.old.items ++ refused_line place line code) }
    ensures front { KeepsFront text.old.items text.new.items }
{
    append_bytes(text, b"refused")?;
    append_spaced(text, u64::from(place))?;
    append_refusal(text, line, code)
}

#[tactic(auto, using(crate::proofs::Fronts::front_trans), unfolding(crate::specs::RecordLines::query_refused_line))]
fn append_query_refused(text: &mut Vec<u8>, line: u64, code: u8) -> Result<(), OutOfMemory>
    ensures ok { OnOk result (text.new.items ≡ text.old.items ++ query_refused_line line code) }
    ensures front { KeepsFront text.old.items text.new.items }
{
    append_bytes(text, b"query refused")?;
    append_refusal(text, line, code)
}

#[tactic(auto, using(crate::proofs::Fronts::front_trans), unfolding(crate::specs::RecordLines::records_line))]
fn append_records(
    text: &mut Vec<u8>,
    records: u32,
    accepted: u32,
    refused: u32,
) -> Result<(), OutOfMemory>
    ensures ok { OnOk result (text.new.items
        ≡ text.old.items ++ records_line records accepted refused) }
    ensures front { KeepsFront text.old.items text.new.items }
{
    append_bytes(text, b"records")?;
    append_spaced(text, u64::from(records))?;
    append_bytes(text, b" ok")?;
    append_spaced(text, u64::from(accepted))?;
    append_bytes(text, b" refused")?;
    append_spaced(text, u64::from(refused))?;
    append_bytes(text, b"\n")
}

/// Appends where and why something is refused, and the end of the line. An `Err` leaves the text as it was.
pub fn push_refusal(text: &mut Vec<u8>, line: u64, code: u8) -> Result<(), OutOfMemory>
    ensures ok { OnOk result (text.new.items ≡ text.old.items ++ refusal_text line code) }
    ensures front { KeepsFront text.old.items text.new.items }
    ensures err { OnErr result (text.new.items ≡ text.old.items) }
{
    let before = text.len();
    let appended = append_refusal(text, line, code);
    kept_or_cut(text, before, appended)
}

#[tactic(auto, using(crate::proofs::Fronts::front_trans), unfolding(crate::specs::RecordLines::refusal_text))]
fn append_refusal(text: &mut Vec<u8>, line: u64, code: u8) -> Result<(), OutOfMemory>
    ensures ok { OnOk result (text.new.items ≡ text.old.items ++ refusal_text line code) }
    ensures front { KeepsFront text.old.items text.new.items }
{
    append_spaced(text, line)?;
    append_spaced(text, u64::from(code))?;
    append_bytes(text, b" ")?;
    append_bytes(text, code_word(code))?;
    append_bytes(text, b"\n")
}
