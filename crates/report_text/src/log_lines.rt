// The log, and the last line.
ghost use Rattle.std.specs.Prelude.{◌≡◌, ◌++◌, ◌∷◌, [], OnOk, OnErr};
ghost use Rattle.hit_report.specs.Appends.{KeepsFront};
ghost use Rattle.report_text.specs.ReportText.{event_line, events_from, log_count_line, log_text, publish_part};
ghost use Rattle.report_text.specs.ReportText.{withdraw_part, event_part};

use crate::LogLine;
use crate::parts::{append_end, append_labelled};
use hit_report::{append_bytes, append_name, append_spaced};
use htss_defs::OutOfMemory;

/// Appends the log, and the last line.
#[tactic(auto, using(hit_report::proofs::Fronts::front_trans), unfolding(crate::specs::ReportText::log_text))]
pub fn append_log(text: &mut Vec<u8>, events: &[LogLine]) -> Result<(), OutOfMemory>
    ensures ok { OnOk result (text.new.items ≡ text.old.items ++ log_text events.now) }
    ensures front { KeepsFront text.old.items text.new.items }
{
    append_log_count(text, events.len() as u64)?;
    append_events(text, events)?;
    append_bytes(text, b"end\n")
}

#[tactic(auto, using(hit_report::proofs::Fronts::front_trans), unfolding(crate::specs::ReportText::log_count_line))]
fn append_log_count(text: &mut Vec<u8>, count: u64) -> Result<(), OutOfMemory>
    ensures ok { OnOk result (text.new.items ≡ text.old.items ++ log_count_line count) }
    ensures front { KeepsFront text.old.items text.new.items }
{
    append_labelled(text, b"log", count)?;
    append_end(text)
}

// The events, numbered from 1.
#[tactic(auto, using(hit_report::proofs::Fronts::front_trans))]
fn append_events(text: &mut Vec<u8>, events: &[LogLine]) -> Result<(), OutOfMemory>
    ensures ok { OnOk result (text.new.items ≡ text.old.items ++ events_from 1 events.now) }
    ensures front { KeepsFront text.old.items text.new.items }
{
    let mut number = 1;
    let mut left = events;
    while let [first, others @ ..] = left {
        append_event(text, number, first)?;
        number += 1;
        left = others;
    }
    Ok(())
}

#[tactic(auto, using(hit_report::proofs::Fronts::front_trans), unfolding(crate::specs::ReportText::event_line))]
fn append_event(text: &mut Vec<u8>, number: u64, event: &LogLine) -> Result<(), OutOfMemory>
    ensures ok { OnOk result (text.new.items ≡ text.old.items ++ event_line number event.now) }
    ensures front { KeepsFront text.old.items text.new.items }
{
    append_labelled(text, b"event", number)?;
    append_event_part(text, event)?;
    append_end(text)
}

#[tactic(auto, using(hit_report::proofs::Fronts::front_trans))]
fn append_event_part(text: &mut Vec<u8>, event: &LogLine) -> Result<(), OutOfMemory>
    ensures ok { OnOk result (text.new.items ≡ text.old.items ++ event_part event.now) }
    ensures front { KeepsFront text.old.items text.new.items }
{
    match event {
        LogLine::Publish {
            loader,
            atoms,
            bonds,
            name,
        } => append_publish(text, *loader, *atoms, *bonds, name.bytes()),
        LogLine::Withdraw { loader, number } => append_withdrawn(text, *loader, *number),
    }
}

#[tactic(auto, using(hit_report::proofs::Fronts::front_trans), unfolding(crate::specs::ReportText::publish_part))]
fn append_publish(
    text: &mut Vec<u8>,
    loader: u8,
    atoms: u16,
    bonds: u16,
    name: &[u8],
) -> Result<(), OutOfMemory>
    ensures ok { OnOk result (text.new.items ≡ text.old.items ++ publish_part loader atoms bonds name.now) }
    ensures front { KeepsFront text.old.items text.new.items }
{
    append_labelled(text, b" publish", u64::from(loader))?;
    append_spaced(text, u64::from(atoms))?;
    append_spaced(text, u64::from(bonds))?;
    append_name(text, name)
}

#[tactic(auto, using(hit_report::proofs::Fronts::front_trans), unfolding(crate::specs::ReportText::withdraw_part))]
fn append_withdrawn(text: &mut Vec<u8>, loader: u8, number: u32) -> Result<(), OutOfMemory>
    ensures ok { OnOk result (text.new.items ≡ text.old.items ++ withdraw_part loader number) }
    ensures front { KeepsFront text.old.items text.new.items }
{
    append_labelled(text, b" withdraw", u64::from(loader))?;
    append_spaced(text, u64::from(number))
}
