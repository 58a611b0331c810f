// The lines of a search, after their first word.
ghost use Rattle.std.specs.Prelude.{◌≡◌, IfOk};
ghost use Rattle.htss_defs.specs.FileName.{IsFileName};
ghost use Rattle.report_lines.specs.Reader.{hit_at, hits_at, search_as, search_at};

use crate::Line;
use crate::values::{file_name, last_name, last_refusal, next_file, places_of};
use crate::words::{after_label, last_u32, next_labelled, next_u32, next_word};
use htss_defs::{Hit, OutOfMemory};
use std::alloc::Global;

/// The first line of a search, or the line of a search whose query is refused.
#[tactic(auto, unfolding(crate::specs::Reader::search_at))]
pub fn search_of(alloc: Global, text: &[u8]) -> Result<Option<Line>, OutOfMemory>
    ensures { IfOk result (λ read. read ≡ search_at text.now) }
{
    let Some((line, rest)) = next_u32(text) else {
        return Ok(None);
    };
    let Some((file, rest)) = next_file(rest) else {
        return Ok(None);
    };
    let Some((word, rest)) = next_word(rest) else {
        return Ok(None);
    };
    search_as(alloc, line, file, word, rest)
}

// The line of a search of this file, as the word after the file tells.
#[tactic(auto, unfolding(crate::specs::Reader::search_as))]
fn search_as(
    alloc: Global,
    line: u32,
    file: &[u8],
    word: &[u8],
    text: &[u8],
) -> Result<Option<Line>, OutOfMemory>
    requires { IsFileName file.now }
    ensures { IfOk result (λ read. read ≡ search_as line file.now word.now text.now) }
{
    if word == b"front".as_slice() {
        let Some(front) = last_u32(text) else {
            return Ok(None);
        };
        let file = file_name(alloc, file)?;
        Ok(Some(Line::Search { line, file, front }))
    } else if word == b"refused".as_slice() {
        let Some((at, code)) = last_refusal(text) else {
            return Ok(None);
        };
        let file = file_name(alloc, file)?;
        Ok(Some(Line::NotRead {
            line,
            file,
            at,
            code,
        }))
    } else {
        Ok(None)
    }
}

/// The line of a hit.
#[tactic(auto, unfolding(crate::specs::Reader::hit_at, crate::specs::Reader::map_at))]
pub fn hit_of(text: &[u8]) -> Option<Line>
    ensures { result ≡ hit_at text.now }
{
    let (number, rest) = next_u32(text)?;
    let (word, rest) = next_word(rest)?;
    let map = places_of(word)?;
    let name = last_name(rest)?;
    let hit = Hit { number, name, map };
    Some(Line::OneHit { hit })
}

/// The last line of a search that has hits or none.
#[tactic(auto, unfolding(crate::specs::Reader::hits_at))]
pub fn hits_of(text: &[u8]) -> Option<Line>
    ensures { result ≡ hits_at text.now }
{
    let (count, rest) = next_u32(text)?;
    let (rows, rest) = next_labelled(rest, b"rows", u64::MAX)?;
    let rest = after_label(rest, b"records")?;
    let records = last_u32(rest)?;
    Some(Line::HitsEnd {
        count,
        rows,
        records,
    })
}
