// Whether the work of a search exceeds its budget.
ghost use Rattle.std.specs.Prelude.{◌≡◌, ℕ, ◌+◌, ◌<◌, ◌≤◌, List, length, take, true, false};
ghost use Rattle.htss_defs.specs.declared.history.Event.{Event};
ghost use Rattle.htss_defs.specs.History.{IsLive};
ghost use Rattle.htss_defs.specs.Marked.{IsMarked};
ghost use Rattle.htss_defs.specs.Reply.{IsReply, over_budget};
ghost use Rattle.reg_model.specs.Searches.{IsOverTo};
ghost use Rattle.told_history.specs.Telling.{IsWhole, Tells};
ghost use Rattle.told_history.specs.Weighing.{HasWeighed};

use crate::live::live_record;
use crate::told::Told;
use htss_defs::{Mol, Query};
use screen::Screener;

/// Whether a search of the query at this front may answer that its work exceeds the budget.
#[inline(never)]
pub fn check_over(told: &Told<'_>, query: &Query, budget: u64, front: u32) -> bool
    requires whole { IsWhole told.now }
    requires front { front ≤ length told.now.lines.now }
    ensures over { result ≡ true → (history : List Event) → Tells told.now history
        → IsReply query.now budget (take front history) over_budget }
    ensures within { result ≡ false → (history : List Event) → Tells told.now history
        → IsReply query.now budget (take front history) over_budget → ⊥ }
{
    let mut weighing = Weighing::new(query, budget);
    for index in 0..front {
        if !weigh_told(&mut weighing, told, index + 1, front) {
            return true;
        }
    }
    false
}

// Pays for the record of a number, where it is live at the front; false where the budget is spent. One that no record
// gives has no atom, so it is not screened.
fn weigh_told(weighing: &mut Weighing<'_>, told: &Told<'_>, number: u32, front: u32) -> bool
    requires whole { IsWhole told.now }
    requires some { 1 ≤ number }
    requires within { number ≤ front }
    requires front { front ≤ length told.now.lines.now }
    ensures asked { weighing.new.matcher ≡ weighing.old.matcher }
    ensures paid { result ≡ true → (history : List Event) (budget k : ℕ) → number ≡ k + 1 → Tells told.now history
        → HasWeighed weighing.old.matcher (take front history) budget weighing.old.left k
        → HasWeighed weighing.old.matcher (take front history) budget weighing.new.left number }
    ensures spent { result ≡ false → (history : List Event) (budget k : ℕ) → number ≡ k + 1 → Tells told.now history
        → HasWeighed weighing.old.matcher (take front history) budget weighing.old.left k
        → IsOverTo weighing.old.matcher (take front history) budget number }
{
    let Some(live) = live_record(told, number, front) else {
        return true;
    };
    match live.mol {
        None => true,
        Some(mol) => weighing.take(mol),
    }
}

// What is left of a budget that pays for the work of a query in the records that are taken.
#[derive(Drop)]
struct Weighing<'a> {
    matcher: Screener<'a>,
    left: u64,
}

impl<'a> Weighing<'a> {
    fn new(query: &'a Query, budget: u64) -> Weighing<'a>
        ensures asked { result.matcher ≡ query.now }
        ensures left { result.left ≡ budget }
    {
        Weighing {
            matcher: Screener::new(query),
            left: budget,
        }
    }

    // Pays for a live record; false where the budget is spent.
    fn take(&mut self, mol: &Mol) -> bool
        requires { IsMarked mol.now }
        ensures asked { self.new.matcher ≡ self.old.matcher }
        ensures paid { result ≡ true → (history : List Event) (budget number k : ℕ) (name : List ℕ) → number ≡ k + 1
            → IsLive history number name mol.now → HasWeighed self.old.matcher history budget self.old.left k
            → HasWeighed self.old.matcher history budget self.new.left number }
        ensures spent { result ≡ false → (history : List Event) (budget number k : ℕ) (name : List ℕ) → number ≡ k + 1
            → IsLive history number name mol.now → HasWeighed self.old.matcher history budget self.old.left k
            → IsOverTo self.old.matcher history budget number }
    {
        if !self.matcher.screens(mol) {
            return true;
        }
        match self.matcher.cost_of(mol, self.left) {
            Some(cost) => {
                self.left -= cost;
                true
            }
            None => false,
        }
    }
}
