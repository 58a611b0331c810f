// The calls that write a report and its parts. Where memory runs out the text is cut to what it was.
ghost use Rattle.std.specs.Prelude.{◌≡◌, ◌++◌, ◌∷◌, [], OnOk, OnErr};
ghost use Rattle.hit_report.specs.Appends.{KeepsFront};
ghost use Rattle.report_text.specs.ReportText.{block_text, header_text, log_text, report_text};
ghost use Rattle.std.specs.List.{flat_map};

use crate::header::append_header;
use crate::load_lines::append_load;
use crate::log_lines::append_log;
use crate::search_lines::append_search;
use crate::withdraw_lines::append_withdraw;
use crate::{Block, LogLine, Report};
use hit_report::kept_or_cut;
use htss_defs::{OutOfMemory, Shape};

/// Appends the first line of a report, with the shape of the board and the budget. An `Err` leaves the text as it was.
pub fn write_header(shape: &Shape, budget: u64, text: &mut Vec<u8>) -> Result<(), OutOfMemory>
    ensures ok { OnOk result (text.new.items ≡ text.old.items ++ header_text shape.now budget) }
    ensures err { OnErr result (text.new.items ≡ text.old.items) }
{
    let before = text.len();
    let appended = append_header(text, shape, budget);
    kept_or_cut(text, before, appended)
}

/// Appends the block of a job. An `Err` leaves the text as it was.
pub fn write_block(block: &Block, text: &mut Vec<u8>) -> Result<(), OutOfMemory>
    ensures ok { OnOk result (text.new.items ≡ text.old.items ++ block_text block.now) }
    ensures err { OnErr result (text.new.items ≡ text.old.items) }
{
    let before = text.len();
    let appended = append_block(text, block);
    kept_or_cut(text, before, appended)
}

/// Appends the log, with the number of its events, and the line `end`. An `Err` leaves the text as it was.
pub fn write_log(events: &[LogLine], text: &mut Vec<u8>) -> Result<(), OutOfMemory>
    ensures ok { OnOk result (text.new.items ≡ text.old.items ++ log_text events.now) }
    ensures err { OnErr result (text.new.items ≡ text.old.items) }
{
    let before = text.len();
    let appended = append_log(text, events);
    kept_or_cut(text, before, appended)
}

/// Appends the text of a report: its first line, its blocks and its log. An `Err` leaves the text as it was.
pub fn write_report(report: &Report, text: &mut Vec<u8>) -> Result<(), OutOfMemory>
    ensures ok { OnOk result (text.new.items ≡ text.old.items ++ report_text report.now) }
    ensures err { OnErr result (text.new.items ≡ text.old.items) }
{
    let before = text.len();
    let appended = append_report(text, report);
    kept_or_cut(text, before, appended)
}

#[tactic(auto, using(hit_report::proofs::Fronts::front_trans))]
fn append_block(text: &mut Vec<u8>, block: &Block) -> Result<(), OutOfMemory>
    ensures ok { OnOk result (text.new.items ≡ text.old.items ++ block_text block.now) }
    ensures front { KeepsFront text.old.items text.new.items }
{
    match block {
        Block::Load {
            line,
            file,
            answers,
        } => append_load(text, *line, file, answers.as_slice()),
        Block::Withdraw {
            line,
            number,
            answer,
        } => append_withdraw(text, *line, *number, *answer),
        Block::Search { line, file, answer } => append_search(text, *line, file, answer),
    }
}

#[tactic(auto, using(hit_report::proofs::Fronts::front_trans), unfolding(crate::specs::ReportText::report_text))]
fn append_report(text: &mut Vec<u8>, report: &Report) -> Result<(), OutOfMemory>
    ensures ok { OnOk result (text.new.items ≡ text.old.items ++ report_text report.now) }
    ensures front { KeepsFront text.old.items text.new.items }
{
    append_header(text, &report.shape, report.budget)?;
    append_blocks(text, report.blocks.as_slice())?;
    append_log(text, report.events.as_slice())
}

#[tactic(auto, using(hit_report::proofs::Fronts::front_trans))]
fn append_blocks(text: &mut Vec<u8>, blocks: &[Block]) -> Result<(), OutOfMemory>
    ensures ok { OnOk result (text.new.items ≡ text.old.items ++ flat_map block_text blocks.now) }
    ensures front { KeepsFront text.old.items text.new.items }
{
    for block in blocks {
        append_block(text, block)?;
    }
    Ok(())
}
