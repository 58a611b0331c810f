// The jobs of a script, one after the other.
ghost use Rattle.std.specs.Prelude.{◌≡◌, ◌+◌, ◌≤◌, length, map, sum_by, IfOk, OnOk, ◌++◌};
ghost use Rattle.htss_defs.specs.declared.shape.Shape.{Shape};
ghost use Rattle.report_rules.specs.Dealing.{dealt, dealt_from, loads_in, searches_in};
ghost use Rattle.told_history.specs.LaidJobs.{dealt_by, loads_of, searches_of};

use htss_defs::OutOfMemory;
use script_text::{Group, Job, Order};
use std::alloc::Global;

/// A job, the number of its group, and how many loads and withdrawals, and how many searches, stand before it in the
/// group.
#[derive(Clone, Copy)]
pub struct LaidJob<'a> {
    pub group: usize,
    pub loads: usize,
    pub searches: usize,
    pub job: &'a Job,
}

/// The jobs of all groups, in their order.
pub fn lay_out<'a>(alloc: Global, groups: &'a [Group]) -> Result<Vec<LaidJob<'a>>, OutOfMemory>
    ensures { IfOk result (λ jobs. (shape : Shape) → map (dealt_by shape) jobs.items ≡ dealt shape 1 groups.now) }
{
    let mut laid = Vec::new(alloc);
    let mut number = 0;
    for group in groups {
        number += 1;
        lay_group(number, group.jobs.as_slice(), &mut laid)?;
    }
    Ok(laid)
}

// Appends the jobs of a group.
fn lay_group<'a>(
    group: usize,
    jobs: &'a [Job],
    laid: &mut Vec<LaidJob<'a>>,
) -> Result<(), OutOfMemory>
    ensures { OnOk result ((shape : Shape) → map (dealt_by shape) laid.new.items
        ≡ map (dealt_by shape) laid.old.items ++ dealt_from shape group 0 0 jobs.now) }
{
    let mut loads = 0;
    let mut searches = 0;
    for job in jobs {
        laid.push(LaidJob {
            group,
            loads,
            searches,
            job,
        })?;
        loads += loads_in(&job.order);
        searches += searches_in(&job.order);
    }
    Ok(())
}

fn loads_in(order: &Order) -> usize
    ensures { result ≡ loads_in order.now }
{
    match order {
        Order::Load { .. } | Order::Withdraw { .. } => 1,
        Order::Search { .. } => 0,
    }
}

fn searches_in(order: &Order) -> usize
    ensures { result ≡ searches_in order.now }
{
    match order {
        Order::Load { .. } | Order::Withdraw { .. } => 0,
        Order::Search { .. } => 1,
    }
}
