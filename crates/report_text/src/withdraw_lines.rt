// The line of a withdrawal.
ghost use Rattle.std.specs.Prelude.{◌≡◌, ◌++◌, ◌∷◌, [], OnOk, OnErr};
ghost use Rattle.hit_report.specs.Appends.{KeepsFront};
ghost use Rattle.report_text.specs.ReportText.{withdraw_line, withdraw_text};

use crate::WithdrawLine;
use crate::parts::{append_end, append_labelled};
use hit_report::append_spaced;
use htss_defs::OutOfMemory;

/// Appends the line of a withdrawal.
#[tactic(auto, using(hit_report::proofs::Fronts::front_trans), unfolding(crate::specs::ReportText::withdraw_text))]
pub fn append_withdraw(
    text: &mut Vec<u8>,
    line: u32,
    number: u32,
    answer: WithdrawLine,
) -> Result<(), OutOfMemory>
    ensures ok { OnOk result (text.new.items ≡ text.old.items ++ withdraw_text line number answer) }
    ensures front { KeepsFront text.old.items text.new.items }
{
    append_labelled(text, b"withdraw", u64::from(line))?;
    append_spaced(text, u64::from(number))?;
    append_withdraw_answer(text, answer)?;
    append_end(text)
}

#[tactic(auto, using(hit_report::proofs::Fronts::front_trans))]
fn append_withdraw_answer(text: &mut Vec<u8>, answer: WithdrawLine) -> Result<(), OutOfMemory>
    ensures ok { OnOk result (text.new.items ≡ text.old.items ++ withdraw_line answer) }
    ensures front { KeepsFront text.old.items text.new.items }
{
    match answer {
        WithdrawLine::At { event } => append_labelled(text, b" at", u64::from(event)),
        WithdrawLine::Unknown { front } => append_labelled(text, b" Unknown", u64::from(front)),
        WithdrawLine::Gone { at } => append_labelled(text, b" Gone", u64::from(at)),
        WithdrawLine::LogFull { front } => append_labelled(text, b" LogFull", u64::from(front)),
    }
}
