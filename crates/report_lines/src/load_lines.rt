// The lines of a load, after their first word.
ghost use Rattle.std.specs.Prelude.{◌≡◌, IfOk};
ghost use Rattle.report_lines.specs.Reader.{answer_as, data_full_at, load_at, published_at, refused_at, unpublished_at};
ghost use Rattle.report_lines.specs.Reader.{unpublished_for};

use crate::Line;
use crate::values::{file_name, last_name, last_refusal, next_file};
use crate::words::{last_u32, next_u32, next_word};
use htss_defs::OutOfMemory;
use report_text::LoadLine;
use std::alloc::Global;

/// The first line of a load.
#[tactic(auto, unfolding(crate::specs::Reader::load_at))]
pub fn load_of(alloc: Global, text: &[u8]) -> Result<Option<Line>, OutOfMemory>
    ensures { IfOk result (λ read. read ≡ load_at text.now) }
{
    let Some((line, rest)) = next_u32(text) else {
        return Ok(None);
    };
    let Some((word, [])) = next_file(rest) else {
        return Ok(None);
    };
    let file = file_name(alloc, word)?;
    Ok(Some(Line::Load { line, file }))
}

/// What became of a record, as the first word tells.
#[tactic(auto, unfolding(crate::specs::Reader::answer_as))]
pub fn answer_of(word: &[u8], text: &[u8]) -> Option<LoadLine>
    ensures { result ≡ answer_as word.now text.now }
{
    if word == b"published".as_slice() {
        published_of(text)
    } else if word == b"refused".as_slice() {
        refused_of(text)
    } else if word == b"unpublished".as_slice() {
        unpublished_of(text)
    } else {
        None
    }
}

#[tactic(auto, unfolding(crate::specs::Reader::published_at))]
fn published_of(text: &[u8]) -> Option<LoadLine>
    ensures { result ≡ published_at text.now }
{
    let (number, rest) = next_u32(text)?;
    let name = last_name(rest)?;
    Some(LoadLine::Published { number, name })
}

#[tactic(auto, unfolding(crate::specs::Reader::refused_at))]
fn refused_of(text: &[u8]) -> Option<LoadLine>
    ensures { result ≡ refused_at text.now }
{
    let (place, rest) = next_u32(text)?;
    let (line, code) = last_refusal(rest)?;
    Some(LoadLine::Refused { place, line, code })
}

#[tactic(auto, unfolding(crate::specs::Reader::unpublished_at))]
fn unpublished_of(text: &[u8]) -> Option<LoadLine>
    ensures { result ≡ unpublished_at text.now }
{
    let (place, rest) = next_u32(text)?;
    let (cause, rest) = next_word(rest)?;
    unpublished_for(place, cause, rest)
}

// The record at this place was not published for this cause.
#[tactic(auto, unfolding(crate::specs::Reader::unpublished_for))]
fn unpublished_for(place: u32, cause: &[u8], text: &[u8]) -> Option<LoadLine>
    ensures { result ≡ unpublished_for place cause.now text.now }
{
    if cause == b"DataFull".as_slice() {
        data_full_of(place, text)
    } else if cause == b"NoPage".as_slice() {
        match text {
            [] => Some(LoadLine::NoPage { place }),
            _ => None,
        }
    } else if cause == b"ChainFull".as_slice() {
        let pages = last_u32(text)?;
        Some(LoadLine::ChainFull { place, pages })
    } else if cause == b"LogFull".as_slice() {
        let front = last_u32(text)?;
        Some(LoadLine::LogFull { place, front })
    } else {
        None
    }
}

#[tactic(auto, unfolding(crate::specs::Reader::data_full_at))]
fn data_full_of(place: u32, text: &[u8]) -> Option<LoadLine>
    ensures { result ≡ data_full_at place text.now }
{
    let (left, rest) = next_u32(text)?;
    let need = last_u32(rest)?;
    Some(LoadLine::DataFull { place, left, need })
}
