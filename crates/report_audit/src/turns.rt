// The blocks of a report, one after the other.
ghost use Rattle.std.specs.Prelude.{◌≡◌, ◌⊎◌, ℕ, ◌+◌, ◌<◌, ◌^◌, List, length, min, take, IfOk, IfSome, IfNone};
ghost use Rattle.htss_defs.specs.Shapes.{IsShape};
ghost use Rattle.script_text.specs.declared.script.Group.{Group};
ghost use Rattle.report_rules.specs.Dealing.{dealt};
ghost use Rattle.report_rules.specs.Faults.{IsRuleFault, Setting, block_length, line_after, search_length};
ghost use Rattle.report_audit.specs.BlockChecks.{AreTurnsOf, HasKept, IsFaultyNext, IsKeptNext};
ghost use Rattle.told_history.specs.Telling.{IsWhole};

use crate::blocks::take_block;
use crate::callers::caller_for;
use crate::loads::larger;
use crate::so_far::SoFar;
use htss_defs::{OutOfMemory, Shape};
use report_text::{Block, SearchLine};
use std::alloc::Global;
use told_history::{JobRead, LaidJob, Told};

/// The jobs of a script with what their files were read as, and the blocks of a report, its shape and its budget.
#[derive(Clone, Copy)]
pub struct Turns<'a> {
    pub alloc: Global,
    pub shape: Shape,
    pub budget: u64,
    pub jobs: &'a [LaidJob<'a>],
    pub reads: &'a [JobRead],
    pub blocks: &'a [Block],
}

/// Notes the lines of all blocks; or gives the first line at fault.
pub fn take_blocks(
    told: &Told<'_>,
    so_far: &mut SoFar,
    turns: &Turns<'_>,
) -> Result<Option<u64>, OutOfMemory>
    requires whole { IsWhole told.now }
    requires shape { IsShape turns.now.shape }
    requires reads { length turns.now.reads.now ≡ length turns.now.jobs.now }
    requires lines { line_after turns.now.blocks.now < 2 ^ 64 }
    ensures kept { IfOk result (λ found. IfNone found
        ((script : List Group) (s : Setting) → AreTurnsOf told.now turns.now script s
        → HasKept told.now so_far.old s (dealt s.shape 1 script) turns.now.blocks.now 0
        → HasKept told.now so_far.new s (dealt s.shape 1 script) turns.now.blocks.now (length turns.now.jobs.now)
        × (length turns.now.blocks.now ≡ length turns.now.jobs.now))) }
    ensures fault { IfOk result (λ found. IfSome found
        (λ line. (script : List Group) (s : Setting) → AreTurnsOf told.now turns.now script s
        → HasKept told.now so_far.old s (dealt s.shape 1 script) turns.now.blocks.now 0
        → IsRuleFault s (dealt s.shape 1 script) turns.now.blocks.now line)) }
{
    let count = larger(turns.jobs.len(), turns.blocks.len());
    for index in 0..count {
        if let Some(offset) = take_turn(told, so_far, turns, index)? {
            return Ok(Some(line_before(turns.blocks, index).saturating_add(offset as u64)));
        }
    }
    Ok(None)
}

// Notes the lines of the block at this index; or gives the first at fault, by its place after the block's first line.
fn take_turn(
    told: &Told<'_>,
    so_far: &mut SoFar,
    turns: &Turns<'_>,
    index: usize,
) -> Result<Option<usize>, OutOfMemory>
    requires whole { IsWhole told.now }
    requires shape { IsShape turns.now.shape }
    requires reads { length turns.now.reads.now ≡ length turns.now.jobs.now }
    requires due { (index < length turns.now.jobs.now) ⊎ (index < length turns.now.blocks.now) }
    ensures kept { IfOk result (λ found. IfNone found (IsKeptNext told.now so_far.old so_far.new turns.now index)) }
    ensures fault { IfOk result
        (λ found. IfSome found (λ offset. IsFaultyNext told.now so_far.old turns.now index offset)) }
{
    let jobs = turns.jobs;
    let reads = turns.reads;
    let blocks = turns.blocks;
    if index >= jobs.len() {
        return Ok(Some(0));
    }
    if index >= blocks.len() {
        return Ok(Some(0));
    }
    let laid = &jobs[index];
    so_far.enter(laid.group);
    let caller = caller_for(turns.shape, *laid);
    take_block(
        turns,
        told,
        so_far,
        caller,
        laid.job,
        &reads[index],
        &blocks[index],
    )
}

// The number of the line after the first so many blocks.
fn line_before(blocks: &[Block], count: usize) -> u64
    requires { line_after blocks.now < 2 ^ 64 }
    ensures { result ≡ line_after (take count blocks.now) }
{
    let end = count.min(blocks.len());
    line_after(&blocks[..end])
}

/// The number of the line after these blocks.
pub fn line_after(blocks: &[Block]) -> u64
    requires { line_after blocks.now < 2 ^ 64 }
    ensures { result ≡ line_after blocks.now }
{
    let mut line = 2;
    for here in blocks {
        line += lines_of(here);
    }
    line
}

// How many lines the block has.
fn lines_of(here: &Block) -> u64
    ensures { result ≡ block_length here.now }
{
    match here {
        Block::Load { answers, .. } => answers.as_slice().len() as u64 + 2,
        Block::Withdraw { .. } => 1,
        Block::Search { answer, .. } => lines_of_search(answer),
    }
}

fn lines_of_search(answer: &SearchLine) -> u64
    ensures { result ≡ search_length answer.now }
{
    match answer {
        SearchLine::Hits { hits, .. } => hits.as_slice().len() as u64 + 2,
        SearchLine::OverBudget { .. } => 2,
        SearchLine::Refused { .. } => 1,
    }
}
