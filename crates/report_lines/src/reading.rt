// A line of a report, as it is read.
ghost use Rattle.std.specs.Prelude.{◌≢◌, ◌≡◌, ◌∷◌, ◌++◌, [], None, IfOk, IfSome};
ghost use Rattle.report_lines.specs.declared.line.Line.{Line};
ghost use Rattle.report_lines.specs.Lines.{IsLine, line_text};
ghost use Rattle.report_lines.specs.Reader.{line_as, line_at, short_as};

use crate::Line;
use crate::header::header_of;
use crate::load_lines::{answer_of, load_of};
use crate::log_lines::event_of;
use crate::search_lines::{hit_of, hits_of, search_of};
use crate::withdraw_lines::withdraw_of;
use crate::words::{cut_word, last_number, last_u32};
use htss_defs::OutOfMemory;
use std::alloc::Global;

/// The line of these bytes, which stand before its LF, or `None` exactly where no line of a report has them. It is an
/// `Err` only where memory runs out.
pub fn read_line(alloc: Global, text: &[u8]) -> Result<Option<Line>, OutOfMemory>
    ensures some { IfOk result (λ read. IfSome read (λ line. IsLine line × (line_text line ≡ text.now ++ 10 ∷ []))) }
    ensures none { IfOk result
        (λ read. read ≡ None → (line : Line) → IsLine line → line_text line ≢ text.now ++ 10 ∷ []) }
{
    line_of(alloc, text)
}

// The line that the text says.
#[tactic(auto, unfolding(crate::specs::Reader::line_at))]
fn line_of(alloc: Global, text: &[u8]) -> Result<Option<Line>, OutOfMemory>
    ensures { IfOk result (λ read. read ≡ line_at text.now) }
{
    let (word, rest) = cut_word(text);
    if word == b"load".as_slice() {
        load_of(alloc, rest)
    } else if word == b"search".as_slice() {
        search_of(alloc, rest)
    } else {
        Ok(line_as(word, rest))
    }
}

// A line that names no file.
#[tactic(auto, unfolding(crate::specs::Reader::line_as))]
fn line_as(word: &[u8], text: &[u8]) -> Option<Line>
    ensures { result ≡ line_as word.now text.now }
{
    if word == b"hit".as_slice() {
        hit_of(text)
    } else if word == b"hits".as_slice() {
        hits_of(text)
    } else if word == b"event".as_slice() {
        event_of(text)
    } else if word == b"withdraw".as_slice() {
        withdraw_of(text)
    } else if word == b"htss".as_slice() {
        header_of(text)
    } else {
        short_as(word, text)
    }
}

// A line with one number or with none, or what became of a record.
#[tactic(auto, unfolding(crate::specs::Reader::short_as))]
fn short_as(word: &[u8], text: &[u8]) -> Option<Line>
    ensures { result ≡ short_as word.now text.now }
{
    if word == b"loaded".as_slice() {
        let count = last_u32(text)?;
        Some(Line::Loaded { count })
    } else if word == b"overbudget".as_slice() {
        let budget = last_number(text, u64::MAX)?;
        Some(Line::OverBudget { budget })
    } else if word == b"log".as_slice() {
        let count = last_u32(text)?;
        Some(Line::Log { count })
    } else if word == b"end".as_slice() {
        match text {
            [] => Some(Line::End),
            _ => None,
        }
    } else {
        let answer = answer_of(word, text)?;
        Some(Line::Answer { answer })
    }
}
