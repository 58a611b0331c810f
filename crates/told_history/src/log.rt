// Whether a log is legal.
ghost use Rattle.std.specs.Prelude.{◌≡◌, ◌↔◌, ℕ, ◌+◌, ◌<◌, ◌≤◌, ◌^◌, List, IsTrue, IfOk, IfErr, OnOk, length};
ghost use Rattle.htss_defs.specs.Molecule.{Molecule};
ghost use Rattle.report_rules.specs.Faults.{IsEventFault, told_from};
ghost use Rattle.told_history.specs.Logs.{HasPlace, IsOpen, IsSoundLog, MayFollow, with_event};

use htss_defs::{OutOfMemory, Shape};
use report_text::LogLine;
use std::alloc::Global;

/// The first event of a log that breaks a rule.
#[derive(Clone, Copy, Debug, PartialEq, Eq)]
pub struct BrokenEvent {
    /// Its number, from 1 on.
    pub number: u32,
}

/// For each event of a legal log by the shape's loaders the number of the one that withdraws its record, 0 where none
/// does; or the first event that breaks the log. What molecules the publications have makes no difference.
pub fn first_broken(
    alloc: Global,
    shape: Shape,
    events: &[LogLine],
) -> Result<Result<Vec<u32>, BrokenEvent>, OutOfMemory>
    requires { length events.now < 2 ^ 32 }
    ensures sound { IfOk result (λ found. IfOk found (λ withdrawals. (named : List (ℕ × Molecule))
        → IsSoundLog shape events.now withdrawals.items named)) }
    ensures broken { IfOk result (λ found. IfErr found (λ broken. (named : List (ℕ × Molecule))
        → IsEventFault shape (told_from named 1 events.now) broken.number)) }
{
    let mut withdrawals = Vec::with_capacity(alloc, events.len())?;
    for event in events {
        if !may_follow(shape, events, &withdrawals, event) {
            let number = withdrawals.len() as u32 + 1;
            return Ok(Err(BrokenEvent { number }));
        }
        add_event(event, &mut withdrawals)?;
    }
    Ok(Ok(withdrawals))
}

// Whether the event may come after so many as there are withdrawals.
fn may_follow(shape: Shape, events: &[LogLine], withdrawals: &[u32], event: &LogLine) -> bool
    ensures { IsTrue result ↔ MayFollow shape events.now withdrawals.now event.now }
{
    match event {
        LogLine::Publish { loader, .. } => is_loader(shape, *loader),
        LogLine::Withdraw { loader, number } => {
            is_loader(shape, *loader) && is_open(events, withdrawals, *number)
        }
    }
}

fn is_loader(shape: Shape, loader: u8) -> bool
    ensures { IsTrue result ↔ ((1 ≤ loader) × (loader ≤ shape.loaders)) }
{
    1 <= loader && loader <= shape.loaders
}

// Whether the record of this number is published and not withdrawn.
fn is_open(events: &[LogLine], withdrawals: &[u32], number: u32) -> bool
    ensures { IsTrue result ↔ IsOpen events.now withdrawals.now number }
{
    if number == 0 || number as usize > withdrawals.len() {
        return false;
    }
    let index = number as usize - 1;
    matches!(events.get(index), Some(LogLine::Publish { .. })) && withdrawals[index] == 0
}

// Appends what stands for the event, and notes what it withdraws.
fn add_event(event: &LogLine, withdrawals: &mut Vec<u32>) -> Result<(), OutOfMemory>
    requires few { length withdrawals.old.items + 1 < 2 ^ 32 }
    requires within { HasPlace event.now withdrawals.old.items }
    ensures { OnOk result (withdrawals.new.items ≡ with_event event.now withdrawals.old.items) }
{
    withdrawals.push(0)?;
    if let LogLine::Withdraw { number, .. } = event {
        let at = withdrawals.len() as u32;
        withdrawals[*number as usize - 1] = at;
    }
    Ok(())
}
