// The jobs of scripts, done one after the other by a loader and a searcher. The texts that are wanted were written by
// hand.
ghost use Rattle.std.specs.Prelude.{All, OnOk};
ghost use Rattle.board.specs.Seated.{IsLoader};
ghost use Rattle.board_jobs.specs.Calls.{IsAtWork};
ghost use Rattle.board_jobs.specs.Jobs.{IsThere};

use crate::files::{files_of, script_of};
use crate::made::open_two;
use board::{Board, Caller};
use board_jobs::do_job;
use htss_defs::HitList;
use report_text::{Block, write_block};
use script_text::{Files, Job, Order};
use std::alloc::Global;
use std::sync::Wait;
use std::test::Fail;

// The block of a job, done by the loader or by the searcher.
fn block_of<R: Wait>(
    rt: &R,
    alloc: Global,
    board: &Board,
    loader: &mut Caller,
    searcher: &mut Caller,
    job: &Job,
    files: &Files,
    hits: &mut HitList,
) -> Result<Block, Fail>
    requires loads { IsAtWork board.now loader.old }
    requires loader { IsLoader loader.old }
    requires searches { IsAtWork board.now searcher.old }
    requires file { IsThere files.now job.now.line job.now.order }
    ensures loads { OnOk result (IsAtWork board.now loader.new) }
    ensures loader { OnOk result (IsLoader loader.new) }
    ensures searches { OnOk result (IsAtWork board.now searcher.new) }
{
    match &job.order {
        Order::Search { .. } => Ok(do_job(rt, alloc, board, searcher, job, files, 100, hits)?),
        _ => Ok(do_job(rt, alloc, board, loader, job, files, 100, hits)?),
    }
}

// The blocks of the jobs, one after the other.
fn blocks_of<R: Wait>(
    rt: &R,
    alloc: Global,
    board: &Board,
    loader: &mut Caller,
    searcher: &mut Caller,
    jobs: &[Job],
    files: &Files,
) -> Result<Vec<u8>, Fail>
    requires loads { IsAtWork board.now loader.old }
    requires loader { IsLoader loader.old }
    requires searches { IsAtWork board.now searcher.old }
    requires files { All (λ job. IsThere files.now job.line job.order) jobs.now }
{
    let mut text = Vec::new(alloc);
    let mut hits = HitList::new(alloc);
    for job in jobs {
        let block = block_of(rt, alloc, board, loader, searcher, job, files, &mut hits)?;
        write_block(&block, &mut text)?;
    }
    Ok(text)
}

// The blocks of the script's first group, on a new board with such a log.
fn text_of<R: Wait>(rt: &R, alloc: Global, script: &[u8], log: u32) -> Result<Vec<u8>, Fail> {
    let script = script_of(alloc, script)?;
    let group = script.groups.as_slice().first().ok_or("no group")?;
    let jobs = group.jobs.as_slice();
    let files = files_of(alloc, jobs)?;
    let (board, mut loader, mut searcher) = open_two(alloc, 45, log)?;
    blocks_of(rt, alloc, &board, &mut loader, &mut searcher, jobs, &files)
}

// A script, the size of the log, and the blocks.
#[derive(Clone, Copy, Drop)]
struct Case {
    script: &'static [u8],
    log: u32,
    text: &'static [u8],
}

const FULL_LOG: Case = Case {
    script: b"load two.sdf\nsearch c.sdf\nwithdraw 1\nwithdraw 1\nwithdraw 9\nload c.sdf\nwithdraw 2\nsearch c.sdf\n",
    log: 3,
    text: b"load 1 two.sdf\npublished 1 c\npublished 2 c\nloaded 2\nsearch 2 c.sdf front 2\nhit 1 1 c\nhit 2 1 c\nhits 2 rows 2 records 2\nwithdraw 3 1 at 3\nwithdraw 4 1 Gone 3\nwithdraw 5 9 Unknown 3\nload 6 c.sdf\nunpublished 1 LogFull 3\nloaded 0\nwithdraw 7 2 LogFull 3\nsearch 8 c.sdf front 3\nhit 2 1 c\nhits 1 rows 3 records 1\n",
};

// One carbon: with a name of one byte its block has 3 + 1 + 1 + 5 words of the 45.
const FULL_REGION: Case = Case {
    script: b"load six.sdf\n",
    log: 8,
    text: b"load 1 six.sdf\npublished 1 c\npublished 2 c\npublished 3 c\npublished 4 c\nunpublished 5 DataFull 5 10\nunpublished 6 DataFull 5 10\nloaded 4\n",
};

const REFUSED_RECORDS_AND_A_BUDGET: Case = Case {
    script: b"load mixed.sdf\nsearch bad.mol\nload c.sdf\nsearch c.sdf 1\n",
    log: 8,
    text: b"load 1 mixed.sdf\nrefused 1 4 2 Version\npublished 1 c\nrefused 3 18 2 Version\nloaded 1\nsearch 2 bad.mol refused 4 2 Version\nload 3 c.sdf\npublished 2 c\nloaded 1\nsearch 4 c.sdf front 2\noverbudget 1\n",
};

#[test]
fn jobs_answer_with_their_blocks(rt: HostRuntime) -> Result<(), Fail> {
    for case in [FULL_LOG, FULL_REGION, REFUSED_RECORDS_AND_A_BUDGET] {
        let text = text_of(&rt, rt.alloc(), case.script, case.log)?;
        assert_eq!(rt; text.as_slice(), case.text);
    }
    Ok(())
}
