// Whether the line of a withdrawal keeps its rule.
ghost use Rattle.std.specs.Prelude.{◌≡◌, ◌≤◌, List, true, false, length};
ghost use Rattle.report_text.specs.declared.report.WithdrawLine.TheVariants as answer;
ghost use Rattle.report_rules.specs.Answers.{to_withdrawal};
ghost use Rattle.report_rules.specs.Dealing.{Dealt};
ghost use Rattle.report_rules.specs.Faults.{Setting, keeps, line_by};
ghost use Rattle.report_rules.specs.Rules.{Line};
ghost use Rattle.report_audit.specs.Callers.{caller_of};
ghost use Rattle.report_audit.specs.LineChecks.{IsNextOf};
ghost use Rattle.report_audit.specs.Tallied.{IsCaller};
ghost use Rattle.told_history.specs.Telling.{IsWhole};

use crate::so_far::SoFar;
use crate::tally::Caller;
use htss_defs::Shape;
use report_text::WithdrawLine;
use told_history::{Told, is_published, is_withdrawal, is_withdrawn, is_withdrawn_by};

/// Whether the answer to the caller's next withdrawal keeps its rule.
pub fn keeps_withdrawal(
    told: &Told<'_>,
    so_far: &SoFar,
    shape: Shape,
    caller: Caller,
    number: u32,
    answer: WithdrawLine,
) -> bool
    requires whole { IsWhole told.now }
    requires caller { IsCaller (caller_of caller) }
    ensures kept { result ≡ true → (s : Setting) (earlier : List Line) (one : Dealt) → s.shape ≡ shape
        → IsNextOf told.now so_far.now caller s earlier one
        → keeps s earlier (line_by one (to_withdrawal number answer)) }
    ensures fault { result ≡ false → (s : Setting) (earlier : List Line) (one : Dealt) → s.shape ≡ shape
        → IsNextOf told.now so_far.now caller s earlier one
        → keeps s earlier (line_by one (to_withdrawal number answer)) → ⊥ }
{
    match answer {
        WithdrawLine::At { event } => keeps_at(told, so_far, caller, number, event),
        WithdrawLine::Unknown { front } => keeps_unknown(told, so_far, caller, number, front),
        WithdrawLine::Gone { at } => is_withdrawn_by(told, at, number),
        WithdrawLine::LogFull { front } => {
            front == shape.log && keeps_full(told, so_far, caller, number, front)
        }
    }
}

// Whether the event is this withdrawal, and new.
fn keeps_at(told: &Told<'_>, so_far: &SoFar, caller: Caller, number: u32, event: u32) -> bool
    requires caller { IsCaller (caller_of caller) }
    ensures kept { result ≡ true → (s : Setting) (earlier : List Line) (one : Dealt)
        → IsNextOf told.now so_far.now caller s earlier one
        → keeps s earlier (line_by one (to_withdrawal number (answer.At event))) }
    ensures fault { result ≡ false → (s : Setting) (earlier : List Line) (one : Dealt)
        → IsNextOf told.now so_far.now caller s earlier one
        → keeps s earlier (line_by one (to_withdrawal number (answer.At event))) → ⊥ }
{
    if !is_withdrawal(told, event, caller.number, number) {
        return false;
    }
    so_far.is_new(caller, event)
}

// Whether no record of this number is published at the front, and the front may refuse.
fn keeps_unknown(told: &Told<'_>, so_far: &SoFar, caller: Caller, number: u32, front: u32) -> bool
    requires caller { IsCaller (caller_of caller) }
    ensures kept { result ≡ true → (s : Setting) (earlier : List Line) (one : Dealt)
        → IsNextOf told.now so_far.now caller s earlier one
        → keeps s earlier (line_by one (to_withdrawal number (answer.Unknown front))) }
    ensures fault { result ≡ false → (s : Setting) (earlier : List Line) (one : Dealt)
        → IsNextOf told.now so_far.now caller s earlier one
        → keeps s earlier (line_by one (to_withdrawal number (answer.Unknown front))) → ⊥ }
{
    if front as usize > told.lines.len() {
        return false;
    }
    if is_published(told, front, number) {
        return false;
    }
    so_far.tally.is_refusing_front(caller, front)
}

// Whether a record of this number is published and not withdrawn at the front, and the front may refuse.
fn keeps_full(told: &Told<'_>, so_far: &SoFar, caller: Caller, number: u32, front: u32) -> bool
    requires whole { IsWhole told.now }
    requires caller { IsCaller (caller_of caller) }
    ensures kept { result ≡ true → (s : Setting) (earlier : List Line) (one : Dealt) → s.shape.log ≡ front
        → IsNextOf told.now so_far.now caller s earlier one
        → keeps s earlier (line_by one (to_withdrawal number (answer.LogFull front))) }
    ensures fault { result ≡ false → (s : Setting) (earlier : List Line) (one : Dealt)
        → IsNextOf told.now so_far.now caller s earlier one
        → keeps s earlier (line_by one (to_withdrawal number (answer.LogFull front))) → ⊥ }
{
    if front as usize > told.lines.len() {
        return false;
    }
    if !is_published(told, front, number) {
        return false;
    }
    if is_withdrawn(told, front, number) {
        return false;
    }
    so_far.tally.is_refusing_front(caller, front)
}
