// The caller that a job is dealt to.
ghost use Rattle.std.specs.Prelude.{◌≡◌};
ghost use Rattle.htss_defs.specs.Shapes.{IsShape};
ghost use Rattle.report_rules.specs.Dealing as dealing;
ghost use Rattle.report_audit.specs.Callers.{caller_of};
ghost use Rattle.report_audit.specs.Tallied.{IsCaller};

use crate::tally::Caller;
use htss_defs::Shape;
use script_text::Order;
use told_history::LaidJob;

/// The caller that the job is dealt to.
pub fn caller_for(shape: Shape, laid: LaidJob<'_>) -> Caller
    requires { IsShape shape }
    ensures is { caller_of result
        ≡ dealing.caller_in_turn shape laid.entry.loads laid.entry.searches laid.entry.job.now.order }
    ensures within { IsCaller (caller_of result) }
{
    match &laid.job.order {
        Order::Load { .. } | Order::Withdraw { .. } => Caller {
            loads: true,
            number: (1 + laid.loads % shape.loaders as usize) as u8,
        },
        Order::Search { .. } => Caller {
            loads: false,
            number: (1 + laid.searches % shape.searchers as usize) as u8,
        },
    }
}
