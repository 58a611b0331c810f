// The first line.
ghost use Rattle.std.specs.Prelude.{◌≡◌, ◌++◌, ◌∷◌, [], OnOk, OnErr};
ghost use Rattle.hit_report.specs.Appends.{KeepsFront};
ghost use Rattle.report_text.specs.ReportText.{callers_text, sizes_text, header_text};

use crate::parts::{append_end, append_labelled};
use hit_report::append_bytes;
use htss_defs::{OutOfMemory, Shape};

/// Appends the first line.
#[tactic(auto, using(hit_report::proofs::Fronts::front_trans), unfolding(crate::specs::ReportText::header_text))]
pub fn append_header(text: &mut Vec<u8>, shape: &Shape, budget: u64) -> Result<(), OutOfMemory>
    ensures ok { OnOk result (text.new.items ≡ text.old.items ++ header_text shape.now budget) }
    ensures front { KeepsFront text.old.items text.new.items }
{
    append_bytes(text, b"htss 1")?;
    append_callers(text, shape)?;
    append_sizes(text, shape)?;
    append_labelled(text, b" budget", budget)?;
    append_end(text)
}

#[tactic(auto, using(hit_report::proofs::Fronts::front_trans), unfolding(crate::specs::ReportText::callers_text))]
fn append_callers(text: &mut Vec<u8>, shape: &Shape) -> Result<(), OutOfMemory>
    ensures ok { OnOk result (text.new.items ≡ text.old.items ++ callers_text shape.now) }
    ensures front { KeepsFront text.old.items text.new.items }
{
    append_labelled(text, b" loaders", u64::from(shape.loaders))?;
    append_labelled(text, b" searchers", u64::from(shape.searchers))?;
    append_labelled(text, b" pages", u64::from(shape.pages))
}

#[tactic(auto, using(hit_report::proofs::Fronts::front_trans), unfolding(crate::specs::ReportText::sizes_text))]
fn append_sizes(text: &mut Vec<u8>, shape: &Shape) -> Result<(), OutOfMemory>
    ensures ok { OnOk result (text.new.items ≡ text.old.items ++ sizes_text shape.now) }
    ensures front { KeepsFront text.old.items text.new.items }
{
    append_labelled(text, b" room", u64::from(shape.room))?;
    append_labelled(text, b" log", u64::from(shape.log))?;
    append_labelled(text, b" chain", u64::from(shape.chain))
}
