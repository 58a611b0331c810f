// The line of a withdrawal, after its first word.
ghost use Rattle.std.specs.Prelude.{◌≡◌};
ghost use Rattle.report_lines.specs.Reader.{withdraw_answer_at, withdraw_at, withdrawn_as};

use crate::Line;
use crate::words::{last_u32, next_u32, next_word};
use report_text::WithdrawLine;

/// The line of a withdrawal.
#[tactic(auto, unfolding(crate::specs::Reader::withdraw_at))]
pub fn withdraw_of(text: &[u8]) -> Option<Line>
    ensures { result ≡ withdraw_at text.now }
{
    let (line, rest) = next_u32(text)?;
    let (number, rest) = next_u32(rest)?;
    let answer = withdraw_answer(rest)?;
    Some(Line::Withdraw {
        line,
        number,
        answer,
    })
}

#[tactic(auto, unfolding(crate::specs::Reader::withdraw_answer_at))]
fn withdraw_answer(text: &[u8]) -> Option<WithdrawLine>
    ensures { result ≡ withdraw_answer_at text.now }
{
    let (word, rest) = next_word(text)?;
    let number = last_u32(rest)?;
    withdrawn_as(word, number)
}

// The answer that the word tells, with this number.
#[tactic(auto, unfolding(crate::specs::Reader::withdrawn_as))]
fn withdrawn_as(word: &[u8], number: u32) -> Option<WithdrawLine>
    ensures { result ≡ withdrawn_as word.now number }
{
    if word == b"at".as_slice() {
        Some(WithdrawLine::At { event: number })
    } else if word == b"Unknown".as_slice() {
        Some(WithdrawLine::Unknown { front: number })
    } else if word == b"Gone".as_slice() {
        Some(WithdrawLine::Gone { at: number })
    } else if word == b"LogFull".as_slice() {
        Some(WithdrawLine::LogFull { front: number })
    } else {
        None
    }
}
