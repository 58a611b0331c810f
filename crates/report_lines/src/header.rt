// The first line of a report, after its first word.
ghost use Rattle.std.specs.Prelude.{◌≡◌, option_map};
ghost use Rattle.report_lines.specs.Reader.{callers_at, header_at, shape_at, sizes_at};

use crate::Line;
use crate::words::{after_label, last_number, next_labelled};
use htss_defs::Shape;

// The most callers of a kind, and the greatest size.
const MOST_CALLERS: u64 = 255;

const GREATEST_SIZE: u64 = 4294967295;

/// The first line.
#[tactic(auto, unfolding(crate::specs::Reader::header_at))]
pub fn header_of(text: &[u8]) -> Option<Line>
    ensures { result ≡ header_at text.now }
{
    let rest = after_label(text, b"1")?;
    let (shape, rest) = next_shape(rest)?;
    let rest = after_label(rest, b"budget")?;
    let budget = last_number(rest, u64::MAX)?;
    Some(Line::Header { shape, budget })
}

#[tactic(auto, unfolding(crate::specs::Reader::shape_at))]
fn next_shape(text: &[u8]) -> Option<(Shape, &[u8])>
    ensures { option_map (λ x. (x.0, x.1.now)) result ≡ shape_at text.now }
{
    let (loaders, searchers, pages, rest) = next_callers(text)?;
    let (room, log, chain, rest) = next_sizes(rest)?;
    let shape = Shape {
        loaders,
        searchers,
        pages,
        room,
        log,
        chain,
    };
    Some((shape, rest))
}

#[tactic(auto, unfolding(crate::specs::Reader::callers_at))]
fn next_callers(text: &[u8]) -> Option<(u8, u8, u32, &[u8])>
    ensures { option_map (λ x. (x.0, x.1, x.2, x.3.now)) result ≡ callers_at text.now }
{
    let (loaders, rest) = next_labelled(text, b"loaders", MOST_CALLERS)?;
    let (searchers, rest) = next_labelled(rest, b"searchers", MOST_CALLERS)?;
    let (pages, rest) = next_labelled(rest, b"pages", GREATEST_SIZE)?;
    Some((loaders as u8, searchers as u8, pages as u32, rest))
}

#[tactic(auto, unfolding(crate::specs::Reader::sizes_at))]
fn next_sizes(text: &[u8]) -> Option<(u32, u32, u32, &[u8])>
    ensures { option_map (λ x. (x.0, x.1, x.2, x.3.now)) result ≡ sizes_at text.now }
{
    let (room, rest) = next_labelled(text, b"room", GREATEST_SIZE)?;
    let (log, rest) = next_labelled(rest, b"log", GREATEST_SIZE)?;
    let (chain, rest) = next_labelled(rest, b"chain", GREATEST_SIZE)?;
    Some((room as u32, log as u32, chain as u32, rest))
}
