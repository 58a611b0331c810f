// What the lines that were checked before carry.
ghost use Rattle.std.specs.Prelude.{◌≡◌, ℕ, ◌<◌, ◌≤◌, ◌++◌, ◌∷◌, [], List, true, false, ◌↔◌, ◌-◌, IsTrue, slice_set};
ghost use Rattle.std.specs.Prelude.{length, IfOk};
ghost use Rattle.report_rules.specs.Rules.{IsNew, Line};
ghost use Rattle.report_audit.specs.Callers.{caller_of};
ghost use Rattle.report_audit.specs.SoFars.{IsFree, IsSoFar};
ghost use Rattle.report_audit.specs.Tallied.{IsCaller, IsCarried, IsNext};

use crate::tally::{Caller, Carried, Tally};
use htss_defs::OutOfMemory;
use std::alloc::Global;

/// The tally of the lines so far, and for each event whether one of them has its number as its own.
#[derive(Drop)]
pub struct SoFar {
    pub tally: Tally,
    pub taken: Vec<bool>,
}

impl SoFar {
    /// No line, in the first group, of a log of so many events.
    pub fn new(alloc: Global, events: usize) -> Result<SoFar, OutOfMemory>
        ensures none { IfOk result (λ so_far. IsSoFar [] so_far) }
        ensures group { IfOk result (λ so_far. so_far.tally.group ≡ 1) }
        ensures long { IfOk result (λ so_far. length so_far.taken.items ≡ events) }
    {
        Ok(SoFar {
            tally: Tally::new(),
            taken: vec![in alloc; false; events]?,
        })
    }

    /// The lines that follow are of this group, unless it is an earlier one.
    pub fn enter(&mut self, group: usize)
        ensures lines { (lines : List Line) → IsSoFar lines self.old → IsSoFar lines self.new }
        ensures group { self.old.tally.group ≤ group → self.new.tally.group ≡ group }
        ensures long { length self.new.taken.items ≡ length self.old.taken.items }
    {
        if self.tally.group < group {
            self.tally.enter(group);
        }
    }

    /// One more line of the last group, by this caller.
    pub fn note(&mut self, caller: Caller, carried: Carried)
        requires { IsCaller (caller_of caller) }
        ensures lines { (lines : List Line) (line : Line) → line.caller ≡ caller_of caller
            → line.group ≡ self.old.tally.group → IsCarried line carried
            → carried.own ≤ length self.old.taken.items → IsSoFar lines self.old
            → IsSoFar (lines ++ line ∷ []) self.new }
        ensures group { self.new.tally.group ≡ self.old.tally.group }
        ensures long { length self.new.taken.items ≡ length self.old.taken.items }
    {
        self.tally.note(caller, carried);
        take(&mut self.taken, carried.own);
    }

    /// Whether the number of an event is new on the caller's next line.
    pub fn is_new(&self, caller: Caller, number: u32) -> bool
        requires { IsCaller (caller_of caller) }
        ensures new { result ≡ true → (lines : List Line) (line : Line) → IsNext self.now.tally (caller_of caller) line
            → IsSoFar lines self.now
            → IsNew lines line number }
        ensures old { result ≡ false → (lines : List Line) (line : Line) → IsNext self.now.tally (caller_of caller) line
            → IsSoFar lines self.now
            → 1 ≤ number → number ≤ length self.now.taken.items → IsNew lines line number → ⊥ }
    {
        if !is_free(&self.taken, number) {
            return false;
        }
        self.tally.is_new(caller, number)
    }
}

// Notes that a line has this number as its own, if it is one of an event.
fn take(taken: &mut [bool], number: u32)
    ensures set { 1 ≤ number → number ≤ length taken.old → taken.new ≡ slice_set taken.old (number - 1) true }
    ensures zero { number ≡ 0 → taken.new ≡ taken.old }
{
    if number == 0 {
        return;
    }
    if number as usize > taken.len() {
        return;
    }
    taken[number as usize - 1] = true;
}

// Whether the number is one of an event, and no line has it as its own.
fn is_free(taken: &[bool], number: u32) -> bool
    ensures { IsTrue result ↔ IsFree taken.now number }
{
    if number == 0 {
        return false;
    }
    if number as usize > taken.len() {
        return false;
    }
    !taken[number as usize - 1]
}
