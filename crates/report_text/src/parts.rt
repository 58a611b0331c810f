// Parts of lines, appended to a text that is lent. Where memory runs out, the text before stands, and more may follow.
ghost use Rattle.std.specs.Prelude.{◌≡◌, ◌++◌, ◌∷◌, [], OnOk, OnErr};
ghost use Rattle.hit_report.specs.Appends.{KeepsFront};
ghost use Rattle.report_text.specs.ReportText.{job_text};
ghost use Rattle.hit_report.specs.RecordLines.{spaced};

use hit_report::{append_bytes, append_spaced};
use htss_defs::OutOfMemory;

/// Appends a word, a space and a number.
#[tactic(auto, using(hit_report::proofs::Fronts::front_trans))]
pub fn append_labelled(text: &mut Vec<u8>, label: &[u8], number: u64) -> Result<(), OutOfMemory>
    ensures ok { OnOk result (text.new.items ≡ text.old.items ++ label.now ++ spaced number) }
    ensures front { KeepsFront text.old.items text.new.items }
{
    append_bytes(text, label)?;
    append_spaced(text, number)
}

/// Appends the end of a line.
#[tactic(auto, using(hit_report::proofs::Fronts::front_trans))]
pub fn append_end(text: &mut Vec<u8>) -> Result<(), OutOfMemory>
    ensures ok { OnOk result (text.new.items ≡ text.old.items ++ 10 ∷ []) }
    ensures front { KeepsFront text.old.items text.new.items }
{
    append_bytes(text, b"\n")
}

/// Appends what a job with a file begins with: a word, the script's line and the file.
#[tactic(auto, using(hit_report::proofs::Fronts::front_trans), unfolding(crate::specs::ReportText::job_text))]
pub fn append_job(
    text: &mut Vec<u8>,
    word: &[u8],
    line: u32,
    file: &[u8],
) -> Result<(), OutOfMemory>
    ensures ok { OnOk result (text.new.items ≡ text.old.items ++ job_text word.now line file.now) }
    ensures front { KeepsFront text.old.items text.new.items }
{
    append_labelled(text, word, u64::from(line))?;
    append_bytes(text, b" ")?;
    append_bytes(text, file)
}
