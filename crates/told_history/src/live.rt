// Which records of a told history are live at a front.
ghost use Rattle.std.specs.Prelude.{◌≡◌, ℕ, ◌≤◌, List, length, take, None, IfSome, option_map, unwrap_or};
ghost use Rattle.htss_defs.specs.declared.history.Event.{Event};
ghost use Rattle.htss_defs.specs.History.{IsLive};
ghost use Rattle.htss_defs.specs.Marked.{IsMarked};
ghost use Rattle.htss_defs.specs.Molecule.{Molecule};
ghost use Rattle.report_rules.specs.Faults.{molecule_named, no_molecule};
ghost use Rattle.told_history.specs.Named.{IsNamer};
ghost use Rattle.told_history.specs.Telling.{IsMarkedNamer, IsWhole, Tells};

use crate::names::Namer;
use crate::told::Told;
use htss_defs::{Mol, Name};
use report_text::LogLine;

/// A live record as a report tells it: its name, and its molecule, or none where no line names it with a record that
/// was accepted.
#[derive(Clone, Copy)]
pub struct LiveRecord<'a> {
    pub name: &'a Name,
    pub mol: Option<&'a Mol>,
}

/// The record of a number, where it is live after the first `front` events.
pub fn live_record<'a>(told: &Told<'a>, number: u32, front: u32) -> Option<LiveRecord<'a>>
    requires whole { IsWhole told.now }
    requires some { 1 ≤ number }
    requires within { number ≤ front }
    requires front { front ≤ length told.now.lines.now }
    ensures live { IfSome result (λ one. (history : List Event) → Tells told.now history
        → IsLive (take front history) number one.name.now (unwrap_or (option_map (λ m. m.now) one.mol) no_molecule)) }
    ensures marked { IfSome result (λ one. IfSome one.mol (λ m. IsMarked m.now)) }
    ensures none { result ≡ None → (history : List Event) → Tells told.now history → (name : List ℕ) (mol : Molecule)
        → IsLive (take front history) number name mol → ⊥ }
{
    let place = number as usize - 1;
    let at = told.withdrawals[place];
    if at != 0 && at <= front {
        return None;
    }
    match &told.lines[place] {
        LogLine::Publish { name, .. } => Some(LiveRecord {
            name,
            mol: molecule_of(told.table[place]),
        }),
        LogLine::Withdraw { .. } => None,
    }
}

// The molecule with which an event is named first, if a record gives one.
fn molecule_of(namer: Namer<'_>) -> Option<&Mol>
    ensures mol { (named : List (ℕ × Molecule)) (number : ℕ) → IsNamer named number namer.entry
        → unwrap_or (option_map (λ m. m.now) result) no_molecule ≡ molecule_named named number }
    ensures marked { IsMarkedNamer namer.entry → IfSome result (λ m. IsMarked m.now) }
{
    match namer {
        Namer::Record(mol) => Some(mol),
        Namer::NoRecord => None,
        Namer::Nobody => None,
    }
}
