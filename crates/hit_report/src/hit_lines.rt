// Lines are appended to a text that is lent; where memory runs out the text is cut to what it was.
ghost use Rattle.std.specs.Prelude.{◌≡◌, ℕ, ◌∷◌, ◌++◌, [], OnOk, OnErr, decimal};
ghost use Rattle.hit_report.specs.HitLines.{hit_line, count_line, map_text, overbudget_line};
ghost use Rattle.hit_report.specs.Appends.{KeepsFront};

use crate::append::{append_bytes, append_name, append_number, kept_or_cut};
use htss_defs::OutOfMemory;

/// Appends the line of a hit, `hit NUMBER MAP NAME`. An `Err` leaves the text as it was.
pub fn push_hit(
    text: &mut Vec<u8>,
    number: u32,
    map: &[u16],
    name: &[u8],
) -> Result<(), OutOfMemory>
    ensures ok { OnOk result (text.new.items
        ≡ text.old.items ++ hit_line (record { number = number; name = name.now; map = map.now })) }
    ensures front { KeepsFront text.old.items text.new.items }
    ensures err { OnErr result (text.new.items ≡ text.old.items) }
{
    let before = text.len();
    let appended = append_hit(text, number, map, name);
    kept_or_cut(text, before, appended)
}

/// Appends the line of the number of hits, `hits N`. An `Err` leaves the text as it was.
pub fn push_count(text: &mut Vec<u8>, count: u32) -> Result<(), OutOfMemory>
    ensures ok { OnOk result (text.new.items ≡ text.old.items ++ count_line count) }
    ensures err { OnErr result (text.new.items ≡ text.old.items) }
{
    let before = text.len();
    let appended = append_count(text, count);
    kept_or_cut(text, before, appended)
}

/// Appends the line that stands in place of hits that the budget does not allow, `overbudget N` with the budget. An
/// `Err` leaves the text as it was.
pub fn push_overbudget(text: &mut Vec<u8>, budget: u64) -> Result<(), OutOfMemory>
    ensures ok { OnOk result (text.new.items ≡ text.old.items ++ overbudget_line budget) }
    ensures front { KeepsFront text.old.items text.new.items }
    ensures err { OnErr result (text.new.items ≡ text.old.items) }
{
    let before = text.len();
    let appended = append_overbudget(text, budget);
    kept_or_cut(text, before, appended)
}

#[tactic(auto, using(crate::proofs::Fronts::front_trans), unfolding(crate::specs::HitLines::hit_line))]
fn append_hit(text: &mut Vec<u8>, number: u32, map: &[u16], name: &[u8]) -> Result<(), OutOfMemory>
    ensures ok { OnOk result (text.new.items
        ≡ text.old.items ++ hit_line (record { number = number; name = name.now; map = map.now })) }
    ensures front { KeepsFront text.old.items text.new.items }
{
    append_bytes(text, b"hit ")?;
    append_number(text, u64::from(number))?;
    append_bytes(text, b" ")?;
    append_map(text, map)?;
    append_name(text, name)?;
    append_bytes(text, b"\n")
}

#[tactic(auto, using(crate::proofs::Fronts::front_trans), unfolding(crate::specs::HitLines::count_line))]
fn append_count(text: &mut Vec<u8>, count: u32) -> Result<(), OutOfMemory>
    ensures ok { OnOk result (text.new.items ≡ text.old.items ++ count_line count) }
    ensures front { KeepsFront text.old.items text.new.items }
{
    append_bytes(text, b"hits ")?;
    append_number(text, u64::from(count))?;
    append_bytes(text, b"\n")
}

#[tactic(auto, using(crate::proofs::Fronts::front_trans), unfolding(crate::specs::HitLines::overbudget_line))]
fn append_overbudget(text: &mut Vec<u8>, budget: u64) -> Result<(), OutOfMemory>
    ensures ok { OnOk result (text.new.items ≡ text.old.items ++ overbudget_line budget) }
    ensures front { KeepsFront text.old.items text.new.items }
{
    append_bytes(text, b"overbudget ")?;
    append_number(text, budget)?;
    append_bytes(text, b"\n")
}

#[tactic(auto, using(crate::proofs::Fronts::front_trans))]
fn append_map(text: &mut Vec<u8>, map: &[u16]) -> Result<(), OutOfMemory>
    ensures ok { OnOk result (text.new.items ≡ text.old.items ++ map_text map.now) }
    ensures front { KeepsFront text.old.items text.new.items }
{
    let [first, others @ ..] = map else {
        return Ok(());
    };
    append_number(text, u64::from(*first))?;
    for place in others {
        append_next_place(text, *place)?;
    }
    Ok(())
}

#[tactic(auto, using(crate::proofs::Fronts::front_trans))]
fn append_next_place(text: &mut Vec<u8>, place: u16) -> Result<(), OutOfMemory>
    ensures ok { OnOk result (text.new.items ≡ text.old.items ++ 44 ∷ decimal place) }
    ensures front { KeepsFront text.old.items text.new.items }
{
    append_bytes(text, b",")?;
    append_number(text, u64::from(place))
}
