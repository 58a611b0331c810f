// The blocks of all workers, in the order of their jobs.
ghost use Rattle.std.specs.Prelude.{◌≡◌, ◌+◌, ◌++◌, length, map, take, drop, IfOk, OnOk};
ghost use Rattle.htss_defs.specs.Shapes.{IsShape};
ghost use Rattle.script_run.specs.Merging.{AreQueues, IsMerged, places_from};

use crate::dealing::{Count, counted, place_for};
use crate::walk::Outcome;
use htss_defs::{OutOfMemory, Shape};
use report_text::Block;
use script_text::Group;
use std::alloc::Global;

// Appends the next block of the worker, if it has one.
fn take_next(blocks: &mut Vec<Block>, outcome: &mut Outcome) -> Result<(), OutOfMemory>
    ensures rest { outcome.new.blocks.items ≡ drop 1 outcome.old.blocks.items }
    ensures taken { OnOk result (blocks.new.items ≡ blocks.old.items ++ take 1 outcome.old.blocks.items) }
{
    if let Some(block) = outcome.blocks.pop_front() {
        blocks.push(block)?;
    }
    Ok(())
}

/// Takes for each job the next block of its worker. An `Err` is want of memory.
pub fn merge(
    alloc: Global,
    shape: Shape,
    group: &Group,
    outcomes: &mut [Outcome],
) -> Result<Vec<Block>, OutOfMemory>
    requires shape { IsShape shape }
    requires count { length outcomes.old ≡ shape.loaders + shape.searchers }
    requires queues { AreQueues (places_from shape 0 0 group.now.jobs) (map (λ o. o.blocks.items) outcomes.old) }
    ensures { IfOk result (λ blocks. IsMerged (places_from shape 0 0 group.now.jobs)
        (map (λ o. o.blocks.items) outcomes.old) blocks.items) }
{
    let jobs = group.jobs.as_slice();
    let mut blocks = Vec::new(alloc);
    let mut count = Count {
        loads: 0,
        searches: 0,
    };
    for job in jobs {
        let place = place_for(shape, count, &job.order);
        take_next(&mut blocks, &mut outcomes[place])?;
        count = counted(count, &job.order);
    }
    Ok(blocks)
}
