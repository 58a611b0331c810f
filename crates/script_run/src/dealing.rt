// Which worker does which job.
ghost use Rattle.std.specs.Prelude.{◌≡◌, ◌+◌, ◌<◌, ◌^◌};
ghost use Rattle.htss_defs.specs.Shapes.{IsShape};
ghost use Rattle.report_rules.specs.Dealing.{Caller as ScriptCaller, caller_in_turn, loads_in, searches_in};
ghost use Rattle.report_rules.specs.Rules.{is_same};
ghost use Rattle.board_jobs.specs.Answering.{who_of};
ghost use Rattle.board_jobs.specs.Groups.{place_of};

use board::Caller;
use htss_defs::Shape;
use script_text::{Group, Order};

/// How many loads and withdrawals, and how many searches, were dealt so far.
#[derive(Clone, Copy)]
pub struct Count {
    pub loads: usize,
    pub searches: usize,
}

/// One job more.
pub fn counted(count: Count, order: &Order) -> Count
    requires { count.loads + count.searches + 1 < 2 ^ 64 }
    ensures loads { result.loads ≡ count.loads + loads_in order.now }
    ensures searches { result.searches ≡ count.searches + searches_in order.now }
{
    let Count { loads, searches } = count;
    match order {
        Order::Load { .. } | Order::Withdraw { .. } => Count {
            loads: loads + 1,
            searches,
        },
        Order::Search { .. } => Count {
            loads,
            searches: searches + 1,
        },
    }
}

/// How many loads and withdrawals, and how many searches, a group has.
pub fn jobs_in(group: &Group) -> Count {
    let jobs = group.jobs.as_slice();
    let searches = jobs
        .iter()
        .filter(|job| matches!(job.order, Order::Search { .. }))
        .count();
    Count {
        loads: jobs.len().saturating_sub(searches),
        searches,
    }
}

/// Whether a caller has a job in a group that has so many.
pub fn has_job(caller: &Caller, jobs: Count) -> bool {
    let number = caller.number() as usize;
    if caller.is_loader() {
        number <= jobs.loads
    } else {
        number <= jobs.searches
    }
}

/// Whether the next job is dealt to this caller.
pub fn is_own(shape: Shape, caller: &Caller, count: Count, order: &Order) -> bool
    requires { IsShape shape }
    ensures { (c : ScriptCaller) → who_of c ≡ caller.now.account.who
        → result ≡ is_same (caller_in_turn shape count.loads count.searches order.now) c }
{
    let number = caller.number() as usize;
    match order {
        Order::Load { .. } | Order::Withdraw { .. } => {
            caller.is_loader() && 1 + count.loads % shape.loaders as usize == number
        }
        Order::Search { .. } => {
            !caller.is_loader() && 1 + count.searches % shape.searchers as usize == number
        }
    }
}

/// The place of the worker that the next job is dealt to: loaders first, then searchers.
pub fn place_for(shape: Shape, count: Count, order: &Order) -> usize
    requires { IsShape shape }
    ensures at { result ≡ place_of shape (caller_in_turn shape count.loads count.searches order.now) }
    ensures within { result < shape.loaders + shape.searchers }
{
    let loaders = shape.loaders as usize;
    match order {
        Order::Load { .. } | Order::Withdraw { .. } => count.loads % loaders,
        Order::Search { .. } => loaders + count.searches % shape.searchers as usize,
    }
}
