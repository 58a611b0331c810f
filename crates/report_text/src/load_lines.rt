// The block of a load.
ghost use Rattle.std.specs.Prelude.{◌≡◌, ◌++◌, ◌∷◌, [], OnOk, OnErr};
ghost use Rattle.std.specs.List.{flat_map};
ghost use Rattle.hit_report.specs.Appends.{KeepsFront};
ghost use Rattle.report_text.specs.ReportText.{data_full_line, full_line, load_line, load_text, no_page_line};
ghost use Rattle.report_text.specs.ReportText.{published_line, unpublished_part, published_count, loaded_line};

use crate::LoadLine;
use crate::parts::{append_end, append_job, append_labelled};
use hit_report::{append_bytes, append_name, append_spaced, push_refused};
use htss_defs::{FileName, OutOfMemory};

/// Appends the block of a load.
#[tactic(auto, using(hit_report::proofs::Fronts::front_trans), unfolding(crate::specs::ReportText::load_text))]
pub fn append_load(
    text: &mut Vec<u8>,
    line: u32,
    file: &FileName,
    answers: &[LoadLine],
) -> Result<(), OutOfMemory>
    ensures ok { OnOk result (text.new.items ≡ text.old.items ++ load_text line file.now answers.now) }
    ensures front { KeepsFront text.old.items text.new.items }
{
    append_job(text, b"load", line, file.text().as_bytes())?;
    append_end(text)?;
    append_answers(text, answers)?;
    append_loaded(text, published_count(answers))
}

#[tactic(auto, using(hit_report::proofs::Fronts::front_trans))]
fn append_answers(text: &mut Vec<u8>, answers: &[LoadLine]) -> Result<(), OutOfMemory>
    ensures ok { OnOk result (text.new.items ≡ text.old.items ++ flat_map load_line answers.now) }
    ensures front { KeepsFront text.old.items text.new.items }
{
    for answer in answers {
        append_answer(text, answer)?;
    }
    Ok(())
}

// How many records were published.
fn published_count(answers: &[LoadLine]) -> u64
    ensures { result ≡ published_count answers.now }
{
    answers
        .iter()
        .filter(|answer| matches!(answer, LoadLine::Published { .. }))
        .count() as u64
}

#[tactic(auto, using(hit_report::proofs::Fronts::front_trans), unfolding(crate::specs::ReportText::loaded_line))]
fn append_loaded(text: &mut Vec<u8>, count: u64) -> Result<(), OutOfMemory>
    ensures ok { OnOk result (text.new.items ≡ text.old.items ++ loaded_line count) }
    ensures front { KeepsFront text.old.items text.new.items }
{
    append_labelled(text, b"loaded", count)?;
    append_end(text)
}

#[tactic(auto, using(hit_report::proofs::Fronts::front_trans))]
fn append_answer(text: &mut Vec<u8>, answer: &LoadLine) -> Result<(), OutOfMemory>
    ensures ok { OnOk result (text.new.items ≡ text.old.items ++ load_line answer.now) }
    ensures front { KeepsFront text.old.items text.new.items }
{
    match answer {
        LoadLine::Published { number, name } => append_published(text, *number, name.bytes()),
        LoadLine::Refused { place, line, code } => push_refused(text, *place, *line, *code),
        LoadLine::DataFull { place, left, need } => append_data_full(text, *place, *left, *need),
        LoadLine::NoPage { place } => append_no_page(text, *place),
        LoadLine::ChainFull { place, pages } => append_full(text, *place, b" ChainFull", *pages),
        LoadLine::LogFull { place, front } => append_full(text, *place, b" LogFull", *front),
    }
}

#[tactic(auto, using(hit_report::proofs::Fronts::front_trans), unfolding(crate::specs::ReportText::published_line))]
fn append_published(text: &mut Vec<u8>, number: u32, name: &[u8]) -> Result<(), OutOfMemory>
    ensures ok { OnOk result (text.new.items ≡ text.old.items ++ published_line number name.now) }
    ensures front { KeepsFront text.old.items text.new.items }
{
    append_labelled(text, b"published", u64::from(number))?;
    append_name(text, name)?;
    append_end(text)
}

#[tactic(auto, using(hit_report::proofs::Fronts::front_trans), unfolding(crate::specs::ReportText::data_full_line))]
fn append_data_full(text: &mut Vec<u8>, place: u32, left: u32, need: u32) -> Result<(), OutOfMemory>
    ensures ok { OnOk result (text.new.items ≡ text.old.items ++ data_full_line place left need) }
    ensures front { KeepsFront text.old.items text.new.items }
{
    append_unpublished(text, place)?;
    append_labelled(text, b" DataFull", u64::from(left))?;
    append_spaced(text, u64::from(need))?;
    append_end(text)
}

#[tactic(auto, using(hit_report::proofs::Fronts::front_trans), unfolding(crate::specs::ReportText::no_page_line))]
fn append_no_page(text: &mut Vec<u8>, place: u32) -> Result<(), OutOfMemory>
    ensures ok { OnOk result (text.new.items ≡ text.old.items ++ no_page_line place) }
    ensures front { KeepsFront text.old.items text.new.items }
{
    append_unpublished(text, place)?;
    append_bytes(text, b" NoPage")?;
    append_end(text)
}

#[tactic(auto, using(hit_report::proofs::Fronts::front_trans), unfolding(crate::specs::ReportText::full_line))]
fn append_full(text: &mut Vec<u8>, place: u32, cause: &[u8], number: u32) -> Result<(), OutOfMemory>
    ensures ok { OnOk result (text.new.items ≡ text.old.items ++ full_line place cause.now number) }
    ensures front { KeepsFront text.old.items text.new.items }
{
    append_unpublished(text, place)?;
    append_labelled(text, cause, u64::from(number))?;
    append_end(text)
}

#[tactic(auto, using(hit_report::proofs::Fronts::front_trans), unfolding(crate::specs::ReportText::unpublished_part))]
fn append_unpublished(text: &mut Vec<u8>, place: u32) -> Result<(), OutOfMemory>
    ensures ok { OnOk result (text.new.items ≡ text.old.items ++ unpublished_part place) }
    ensures front { KeepsFront text.old.items text.new.items }
{
    append_labelled(text, b"unpublished", u64::from(place))
}
