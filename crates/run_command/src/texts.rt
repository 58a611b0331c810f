// What a run appends to its text.
ghost use Rattle.std.specs.Prelude.{◌≡◌, ◌++◌, map, IfOk, OnOk, OnErr};
ghost use Rattle.std.specs.List.{flat_map};
ghost use Rattle.hit_report.specs.Appends.{KeepsFront};
ghost use Rattle.report_text.specs.ReportText.{block_text, log_text};
ghost use Rattle.report_rules.specs.Reports.{log_line};
ghost use Rattle.report_text.specs.declared.report.Block.{Block};
ghost use Rattle.run_command.specs.Runs.{with_header};

use board::Final;
use hit_report::kept_or_cut;
use htss_defs::{Event, Name, OutOfMemory, Shape};
use report_text::{Block, LogLine, write_block, write_header, write_log};
use std::alloc::Global;

/// Appends the first line where there is no text yet.
pub fn append_header(text: &mut Vec<u8>, shape: &Shape, budget: u64) -> Result<(), OutOfMemory>
    ensures ok { OnOk result (text.new.items ≡ with_header text.old.items shape.now budget) }
    ensures err { OnErr result (text.new.items ≡ text.old.items) }
{
    if text.is_empty() {
        write_header(shape, budget, text)
    } else {
        Ok(())
    }
}

/// Appends the blocks. An `Err` leaves the text as it was.
pub fn append_blocks(text: &mut Vec<u8>, blocks: &[Block]) -> Result<(), OutOfMemory>
    ensures ok { OnOk result (text.new.items ≡ text.old.items ++ flat_map block_text blocks.now) }
    ensures err { OnErr result (text.new.items ≡ text.old.items) }
{
    let before = text.len();
    let appended = append_each(text, blocks);
    kept_or_cut(text, before, appended)
}

fn append_each(text: &mut Vec<u8>, blocks: &[Block]) -> Result<(), OutOfMemory>
    ensures ok { OnOk result (text.new.items ≡ text.old.items ++ flat_map block_text blocks.now) }
    ensures front { KeepsFront text.old.items text.new.items }
{
    for block in blocks {
        write_block(block, text)?;
    }
    Ok(())
}

/// Appends the log of a board that was closed. An `Err` leaves the text as it was.
pub fn append_history(alloc: Global, text: &mut Vec<u8>, last: &Final) -> Result<(), OutOfMemory>
    ensures ok { OnOk result (text.new.items ≡ text.old.items ++ log_text (map log_line last.now.history)) }
    ensures err { OnErr result (text.new.items ≡ text.old.items) }
{
    let events = last.history(alloc)?;
    append_events(alloc, text, &events)
}

// Appends the log of these events. An `Err` leaves the text as it was.
fn append_events(alloc: Global, text: &mut Vec<u8>, events: &[Event]) -> Result<(), OutOfMemory>
    ensures ok { OnOk result (text.new.items ≡ text.old.items ++ log_text (map log_line events.now)) }
    ensures err { OnErr result (text.new.items ≡ text.old.items) }
{
    let lines = log_lines(alloc, events)?;
    write_log(&lines, text)
}

fn log_lines(alloc: Global, events: &[Event]) -> Result<Vec<LogLine>, OutOfMemory>
    ensures { IfOk result (λ lines. lines.items ≡ map log_line events.now) }
{
    let mut lines = Vec::with_capacity(alloc, events.len())?;
    for event in events {
        lines.push(log_line(event))?;
    }
    Ok(lines)
}

// The line of the log that tells the event.
fn log_line(event: &Event) -> LogLine
    ensures { result ≡ log_line event.now }
{
    match event {
        Event::Publish { caller, name, mol } => LogLine::Publish {
            loader: *caller,
            atoms: mol.atoms().len() as u16,
            bonds: mol.bonds().len() as u16,
            name: Name::new(name.bytes()).unwrap(),
        },
        Event::Withdraw { caller, number } => LogLine::Withdraw {
            loader: *caller,
            number: *number,
        },
    }
}
