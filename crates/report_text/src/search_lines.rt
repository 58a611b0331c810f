// The block of a search.
ghost use Rattle.std.specs.Prelude.{◌≡◌, ◌++◌, ◌∷◌, [], OnOk, OnErr};
ghost use Rattle.hit_report.specs.Appends.{KeepsFront};
ghost use Rattle.report_text.specs.ReportText.{front_text, hits_end, hits_part, over_part, refused_part, search_part};
ghost use Rattle.report_text.specs.ReportText.{search_text};
ghost use Rattle.hit_report.specs.HitLines.{hit_line};
ghost use Rattle.std.specs.List.{flat_map};

use crate::SearchLine;
use crate::parts::{append_end, append_job, append_labelled};
use hit_report::{append_bytes, push_hit, push_overbudget, push_refusal};
use htss_defs::{FileName, Hit, OutOfMemory};

/// Appends the block of a search.
#[tactic(auto, using(hit_report::proofs::Fronts::front_trans), unfolding(crate::specs::ReportText::search_text))]
pub fn append_search(
    text: &mut Vec<u8>,
    line: u32,
    file: &FileName,
    answer: &SearchLine,
) -> Result<(), OutOfMemory>
    ensures ok { OnOk result (text.new.items ≡ text.old.items ++ search_text line file.now answer.now) }
    ensures front { KeepsFront text.old.items text.new.items }
{
    append_job(text, b"search", line, file.text().as_bytes())?;
    append_search_answer(text, answer)
}

#[tactic(auto, using(hit_report::proofs::Fronts::front_trans))]
fn append_search_answer(text: &mut Vec<u8>, answer: &SearchLine) -> Result<(), OutOfMemory>
    ensures ok { OnOk result (text.new.items ≡ text.old.items ++ search_part answer.now) }
    ensures front { KeepsFront text.old.items text.new.items }
{
    match answer {
        SearchLine::Hits {
            front,
            hits,
            rows,
            records,
        } => append_found(text, *front, hits.as_slice(), *rows, *records),
        SearchLine::OverBudget { front, budget } => append_over(text, *front, *budget),
        SearchLine::Refused { line, code } => append_query_fault(text, *line, *code),
    }
}

#[tactic(auto, using(hit_report::proofs::Fronts::front_trans), unfolding(crate::specs::ReportText::hits_part))]
fn append_found(
    text: &mut Vec<u8>,
    front: u32,
    hits: &[Hit],
    rows: u64,
    records: u32,
) -> Result<(), OutOfMemory>
    ensures ok { OnOk result (text.new.items ≡ text.old.items ++ hits_part front hits.now rows records) }
    ensures front { KeepsFront text.old.items text.new.items }
{
    append_front(text, front)?;
    append_hits(text, hits)?;
    append_hits_end(text, hits.len() as u64, rows, records)
}

#[tactic(auto, using(hit_report::proofs::Fronts::front_trans), unfolding(crate::specs::ReportText::over_part))]
fn append_over(text: &mut Vec<u8>, front: u32, budget: u64) -> Result<(), OutOfMemory>
    ensures ok { OnOk result (text.new.items ≡ text.old.items ++ over_part front budget) }
    ensures front { KeepsFront text.old.items text.new.items }
{
    append_front(text, front)?;
    push_overbudget(text, budget)
}

#[tactic(auto, using(hit_report::proofs::Fronts::front_trans), unfolding(crate::specs::ReportText::refused_part))]
fn append_query_fault(text: &mut Vec<u8>, line: u64, code: u8) -> Result<(), OutOfMemory>
    ensures ok { OnOk result (text.new.items ≡ text.old.items ++ refused_part line code) }
    ensures front { KeepsFront text.old.items text.new.items }
{
    append_bytes(text, b" refused")?;
    push_refusal(text, line, code)
}

#[tactic(auto, using(hit_report::proofs::Fronts::front_trans), unfolding(crate::specs::ReportText::front_text))]
fn append_front(text: &mut Vec<u8>, front: u32) -> Result<(), OutOfMemory>
    ensures ok { OnOk result (text.new.items ≡ text.old.items ++ front_text front) }
    ensures front { KeepsFront text.old.items text.new.items }
{
    append_labelled(text, b" front", u64::from(front))?;
    append_end(text)
}

#[tactic(auto, using(hit_report::proofs::Fronts::front_trans))]
fn append_hits(text: &mut Vec<u8>, hits: &[Hit]) -> Result<(), OutOfMemory>
    ensures ok { OnOk result (text.new.items ≡ text.old.items ++ flat_map hit_line hits.now) }
    ensures front { KeepsFront text.old.items text.new.items }
{
    for hit in hits {
        push_hit(text, hit.number, hit.map.as_slice(), hit.name.bytes())?;
    }
    Ok(())
}

#[tactic(auto, using(hit_report::proofs::Fronts::front_trans), unfolding(crate::specs::ReportText::hits_end))]
fn append_hits_end(
    text: &mut Vec<u8>,
    count: u64,
    rows: u64,
    records: u32,
) -> Result<(), OutOfMemory>
    ensures ok { OnOk result (text.new.items ≡ text.old.items ++ hits_end count rows records) }
    ensures front { KeepsFront text.old.items text.new.items }
{
    append_labelled(text, b"hits", count)?;
    append_labelled(text, b" rows", rows)?;
    append_labelled(text, b" records", u64::from(records))?;
    append_end(text)
}
