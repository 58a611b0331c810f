// A job, done by a caller of a board.
ghost use Rattle.std.specs.Prelude.{◌≡◌, ◌<◌, ◌≤◌, ◌^◌, length, IfOk, IfErr};
ghost use Rattle.report_rules.specs.Dealing.{Caller as ScriptCaller};
ghost use Rattle.board.specs.Seated.{IsOf, IsLoader};
ghost use Rattle.board_jobs.specs.Answering.{who_of};
ghost use Rattle.board_jobs.specs.Jobs.{IsReady, IsThere, IsJobDone, IsJobBroken};
ghost use Rattle.board_jobs.specs.Calls.{GoesOn, IsAtWork, IsOrderOf, IsSearched, IsWithdrawal, QueryBroke};
ghost use Rattle.board_jobs.specs.Calls.{SearchBroke, TellsReply};

use crate::copies::{copied_file, copied_hits};
use crate::load::load_file;
use board::{Board, Caller};
use htss_defs::{HitList, OutOfMemory, Query, SearchError};
use pub_log::{WithdrawError, lock};
use query_mol::read_query;
use report_text::{Block, Hits, LoadLines, SearchLine, WithdrawLine};
use script_text::{Files, Job, Order};
use std::alloc::Global;
use std::sync::Wait;

/// Does a job, and answers its block. The list of hits is only there to be used again. An `Err` is want of memory: of a
/// load the first records may have been answered then, and a search may have been.
pub fn do_job<R: Wait>(
    rt: &R,
    alloc: Global,
    board: &Board,
    caller: &mut Caller,
    job: &Job,
    files: &Files,
    budget: u64,
    hits: &mut HitList,
) -> Result<Block, OutOfMemory>
    requires fits { IsOf board.now caller.old }
    requires ready { IsReady caller.old }
    requires file { IsThere files.now job.now.line job.now.order }
    requires order { IsOrderOf caller.old job.now.order }
    ensures of { IsOf board.now caller.new }
    ensures ready { IsReady caller.new }
    ensures who { caller.new.account.who ≡ caller.old.account.who }
    ensures done { IfOk result (λ block. (c : ScriptCaller) → who_of c ≡ caller.old.account.who
        → IsJobDone board.now.shape files.now budget c caller.old.account caller.new.account job.now block) }
    ensures broken { IfErr result (λ _. (c : ScriptCaller) → who_of c ≡ caller.old.account.who
        → IsJobBroken board.now.shape files.now budget c caller.old.account caller.new.account job.now) }
{
    let line = job.line;
    match &job.order {
        Order::Load { file } => {
            let bytes = files.at(line);
            let file = copied_file(alloc, file)?;
            let answers = load_file(rt, alloc, board, caller, bytes)?;
            let answers = LoadLines::new(answers);
            Ok(Block::Load {
                line,
                file,
                answers,
            })
        }
        Order::Withdraw { number } => {
            let number = *number;
            let answer = withdraw(rt, board, caller, number);
            Ok(Block::Withdraw {
                line,
                number,
                answer,
            })
        }
        Order::Search { file, budget: own } => {
            let bytes = files.at(line);
            let budget = own.unwrap_or(budget);
            let file = copied_file(alloc, file)?;
            let answer = search(alloc, board, caller, bytes, budget, hits)?;
            Ok(Block::Search { line, file, answer })
        }
    }
}

// Withdraws the record of a number, and answers its line.
fn withdraw<R: Wait>(rt: &R, board: &Board, caller: &mut Caller, number: u32) -> WithdrawLine
    requires work { IsAtWork board.now caller.old }
    requires loader { IsLoader caller.old }
    ensures answered { IsWithdrawal board.now.shape caller.old.account caller.new.account number result }
    ensures goes_on { GoesOn board.now caller.old caller.new }
{
    let locked = lock(rt, board, caller);
    match locked.withdraw(board, caller, number) {
        Ok(event) => WithdrawLine::At { event },
        Err(WithdrawError::Unknown { front }) => WithdrawLine::Unknown { front },
        Err(WithdrawError::Gone { at }) => WithdrawLine::Gone { at },
        Err(WithdrawError::LogFull { front }) => WithdrawLine::LogFull { front },
    }
}

// Searches for the query of the file under the budget, and answers its line.
fn search(
    alloc: Global,
    board: &Board,
    caller: &mut Caller,
    bytes: &[u8],
    budget: u64,
    hits: &mut HitList,
) -> Result<SearchLine, OutOfMemory>
    requires work { IsAtWork board.now caller.old }
    requires size { length bytes.now < 2 ^ 32 }
    ensures searched { IfOk result
        (λ line. IsSearched board.now.shape caller.old.account caller.new.account bytes.now budget line) }
    ensures broken { IfErr result
        (λ _. SearchBroke board.now.shape caller.old.account caller.new.account bytes.now budget) }
    ensures goes_on { GoesOn board.now caller.old caller.new }
{
    match read_query(alloc, bytes)? {
        Ok(query) => search_for(alloc, board, caller, &query, budget, hits),
        Err(refusal) => Ok(SearchLine::Refused {
            line: refusal.line,
            code: refusal.code,
        }),
    }
}

// Searches for the query under the budget, at the front, and answers its line.
fn search_for(
    alloc: Global,
    board: &Board,
    caller: &mut Caller,
    query: &Query,
    budget: u64,
    hits: &mut HitList,
) -> Result<SearchLine, OutOfMemory>
    requires work { IsAtWork board.now caller.old }
    ensures told { IfOk result (λ line. TellsReply board.now.shape caller.old.account caller.new.account query.now budget line) }
    ensures broken { IfErr result
        (λ _. QueryBroke board.now.shape caller.old.account caller.new.account query.now budget) }
    ensures goes_on { GoesOn board.now caller.old caller.new }
{
    match searcher::search(alloc, board, caller, query, budget, hits) {
        Ok(front) => {
            let copy = copied_hits(alloc, hits.hits())?;
            Ok(SearchLine::Hits {
                front,
                hits: Hits::new(copy),
                rows: hits.rows(),
                records: hits.records(),
            })
        }
        Err(SearchError::OverBudget { front }) => Ok(SearchLine::OverBudget { front, budget }),
        Err(SearchError::OutOfMemory) => Err(OutOfMemory),
    }
}
