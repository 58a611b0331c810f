// The lines of events, after their first word.
ghost use Rattle.std.specs.Prelude.{◌≡◌};
ghost use Rattle.report_lines.specs.Reader.{event_at, logged_as, publish_at, withdrawn_at};

use crate::Line;
use crate::values::last_name;
use crate::words::{last_u32, next_number, next_u32, next_word};
use report_text::LogLine;

/// The line of an event.
#[tactic(auto, unfolding(crate::specs::Reader::event_at))]
pub fn event_of(text: &[u8]) -> Option<Line>
    ensures { result ≡ event_at text.now }
{
    let (number, rest) = next_u32(text)?;
    let (word, rest) = next_word(rest)?;
    let event = logged_as(word, rest)?;
    Some(Line::Event { number, event })
}

// What the event is, as the word tells.
#[tactic(auto, unfolding(crate::specs::Reader::logged_as))]
fn logged_as(word: &[u8], text: &[u8]) -> Option<LogLine>
    ensures { result ≡ logged_as word.now text.now }
{
    if word == b"publish".as_slice() {
        publish_of(text)
    } else if word == b"withdraw".as_slice() {
        withdrawn_of(text)
    } else {
        None
    }
}

#[tactic(auto, unfolding(crate::specs::Reader::publish_at))]
fn publish_of(text: &[u8]) -> Option<LogLine>
    ensures { result ≡ publish_at text.now }
{
    let (loader, rest) = next_number(text, u64::from(u8::MAX))?;
    let (atoms, rest) = next_number(rest, u64::from(u16::MAX))?;
    let (bonds, rest) = next_number(rest, u64::from(u16::MAX))?;
    let name = last_name(rest)?;
    Some(LogLine::Publish {
        loader: loader as u8,
        atoms: atoms as u16,
        bonds: bonds as u16,
        name,
    })
}

#[tactic(auto, unfolding(crate::specs::Reader::withdrawn_at))]
fn withdrawn_of(text: &[u8]) -> Option<LogLine>
    ensures { result ≡ withdrawn_at text.now }
{
    let (loader, rest) = next_number(text, u64::from(u8::MAX))?;
    let number = last_u32(rest)?;
    Some(LogLine::Withdraw {
        loader: loader as u8,
        number,
    })
}
