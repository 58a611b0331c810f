// The block of a job.
ghost use Rattle.std.specs.Prelude.{◌≡◌, IfOk, IfSome, IfNone};
ghost use Rattle.report_rules.specs.Faults.{Setting, own_budget};
ghost use Rattle.report_audit.specs.BlockChecks.{IsFaultyTurn, IsFaultyWithdrawal, IsKeptTurn, IsKeptWithdrawal};
ghost use Rattle.report_audit.specs.Callers.{caller_of};
ghost use Rattle.report_audit.specs.Tallied.{IsCaller};
ghost use Rattle.told_history.specs.Telling.{IsWhole};

use crate::carried::carried_by_withdrawal;
use crate::loads::take_lines;
use crate::searches::take_search;
use crate::so_far::SoFar;
use crate::tally::Caller;
use crate::turns::Turns;
use crate::withdrawals::keeps_withdrawal;
use htss_defs::{OutOfMemory, Shape};
use report_text::{Block, WithdrawLine};
use script_text::{Job, Order};
use told_history::{JobRead, Told, is_block_for, records_of};

/// Notes the lines of the block at the place of a job; or gives the first at fault, by its place after the block's
/// first line.
pub fn take_block(
    turns: &Turns<'_>,
    told: &Told<'_>,
    so_far: &mut SoFar,
    caller: Caller,
    job: &Job,
    read: &JobRead,
    here: &Block,
) -> Result<Option<usize>, OutOfMemory>
    requires whole { IsWhole told.now }
    requires caller { IsCaller (caller_of caller) }
    ensures kept { IfOk result (λ found. IfNone found
        (IsKeptTurn told.now so_far.old so_far.new turns.now caller job.now read.now here.now)) }
    ensures fault { IfOk result (λ found. IfSome found
        (λ offset. IsFaultyTurn told.now so_far.old turns.now caller job.now read.now here.now offset)) }
{
    if !is_block_for(job, here) {
        return Ok(Some(0));
    }
    match here {
        Block::Load { answers, .. } => Ok(take_lines(
            told,
            so_far,
            turns.shape,
            caller,
            records_of(read),
            answers.as_slice(),
        )),
        Block::Withdraw { number, answer, .. } => Ok(take_withdrawal(
            told,
            so_far,
            turns.shape,
            caller,
            *number,
            *answer,
        )),
        Block::Search { answer, .. } => take_search(
            turns.alloc,
            told,
            so_far,
            caller,
            budget_of(&job.order, turns.budget),
            read,
            answer,
        ),
    }
}

// Notes the line of a withdrawal, if it keeps its rule.
fn take_withdrawal(
    told: &Told<'_>,
    so_far: &mut SoFar,
    shape: Shape,
    caller: Caller,
    number: u32,
    answer: WithdrawLine,
) -> Option<usize>
    requires whole { IsWhole told.now }
    requires caller { IsCaller (caller_of caller) }
    ensures kept { IfNone result (IsKeptWithdrawal told.now so_far.old so_far.new shape caller number answer) }
    ensures fault { IfSome result (λ offset. IsFaultyWithdrawal told.now so_far.old shape caller number answer offset) }
{
    if !keeps_withdrawal(told, so_far, shape, caller, number, answer) {
        return Some(0);
    }
    so_far.note(caller, carried_by_withdrawal(answer));
    None
}

// The budget of a search.
fn budget_of(order: &Order, budget: u64) -> u64
    ensures { (s : Setting) → s.budget ≡ budget → own_budget s order.now ≡ result }
{
    match order {
        Order::Search {
            budget: Some(own),
            ..
        } => *own,
        _ => budget,
    }
}
