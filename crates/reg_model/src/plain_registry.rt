ghost use Rattle.std.specs.Prelude.{◌≡◌, ◌≢◌, ◌↔◌, ℕ, ◌+◌, ◌≤◌, [], ◌∷◌, ◌++◌, length, take, List, IsTrue, Err, None};
ghost use Rattle.std.specs.Prelude.{IfOk, IfSome, OnOk, OnErr};
ghost use Rattle.htss_defs.specs.declared.history.Event.TheVariants.{Publish, Withdraw};
ghost use Rattle.htss_defs.specs.Molecule.{Molecule};
ghost use Rattle.htss_defs.specs.Marked.{IsMarked};
ghost use Rattle.htss_defs.specs.History.{IsLegal, IsLive, Withdraws};
ghost use Rattle.htss_defs.specs.declared.history.SearchError.{SearchError};
ghost use Rattle.htss_defs.specs.HitLists.{no_hits};
ghost use Rattle.htss_defs.specs.Hits.{AreHits};
ghost use Rattle.htss_defs.specs.Reply.{IsReply, found, over_budget};
ghost use Rattle.reg_model.specs.Searches.{Counts};
ghost use Rattle.reg_model.specs.Registries.{AreMarked, IsFull, HasRecord, IsWithdrawn, appended};

use crate::search::Search;
use crate::survey::Survey;
use htss_defs::{Event, HitList, Mol, Name, OutOfMemory, Query, SearchError};
use std::alloc::Global;
use std::marker::Model;

/// Why a registry takes no event.
#[derive(Clone, Copy, Debug, PartialEq, Eq)]
pub enum PlainError {
    /// No event of the number that was named publishes a record. There are so many events.
    Unknown { front: u32 },
    /// The event of this number has withdrawn the record.
    Gone { at: u32 },
    /// There are as many events as the log holds.
    LogFull { front: u32 },
    /// Memory ran out.
    OutOfMemory,
}

/// The events of a registry, in their order. An event's number is its place, from 1. Contracts see the
/// events and the size of the log.
#[derive(Drop)]
pub struct PlainRegistry {
    events: Vec<Event>,
    // per event the number of the one that withdraws its record, 0 where none does
    withdrawals: Vec<u32>,
    log: u32,
}

impl Model for PlainRegistry {
    ghost use Rattle.reg_model.specs.Registries.{Registry, IsRegistry};

    ghost Value = { Registry };

    ghost view = { λ r. record { events = r.events.items; log = r.log } };

    ghost invariant = { λ r. IsRegistry r.events.items r.withdrawals.items r.log };
}

impl PlainRegistry {
    /// No events, of which the log holds so many. It takes no memory.
    pub fn new(alloc: Global, log: u32) -> PlainRegistry
        ensures value { result ≡ record { events = []; log = log } }
        ensures marked { AreMarked result.events }
    {
        PlainRegistry {
            events: Vec::new(alloc),
            withdrawals: Vec::new(alloc),
            log,
        }
    }

    /// The events.
    pub fn events(&self) -> &[Event]
        ensures items { result.now ≡ self.now.events }
        ensures legal { IsLegal self.now.events }
        ensures within { length self.now.events ≤ self.now.log }
    {
        &self.events
    }

    /// Publishes a record, and answers its number. It is refused exactly where the log is full. An
    /// `Err` leaves the registry as it was.
    pub fn publish(&mut self, caller: u8, name: Name, mol: Mol) -> Result<u32, PlainError>
        ensures marked { AreMarked self.old.events → IsMarked mol → AreMarked self.new.events }
        ensures number { IfOk result (λ number. number ≡ length self.old.events + 1) }
        ensures event { OnOk result (self.new ≡ appended self.old (Publish caller name mol)) }
        ensures full { (front : ℕ) → result ≡ Err (PlainError.LogFull front)
            ↔ (IsFull self.old × (front ≡ length self.old.events)) }
        ensures no_unknown { (front : ℕ) → result ≢ Err (PlainError.Unknown front) }
        ensures no_gone { (at : ℕ) → result ≢ Err (PlainError.Gone at) }
        ensures same { OnErr result (self.new ≡ self.old) }
    {
        let front = self.events.len() as u32;
        if front == self.log {
            return Err(PlainError::LogFull { front });
        }
        let event = Event::Publish { caller, name, mol };
        if append(&mut self.events, &mut self.withdrawals, event).is_err() {
            return Err(PlainError::OutOfMemory);
        }
        Ok(front + 1)
    }

    /// Withdraws the record of a number, and answers the number of the withdrawal. It is refused
    /// exactly where no event of that number publishes a record, where another event has withdrawn
    /// it, and where neither holds and the log is full. An `Err` leaves the registry as it was.
    pub fn withdraw(&mut self, caller: u8, number: u32) -> Result<u32, PlainError>
        ensures marked { AreMarked self.old.events → AreMarked self.new.events }
        ensures number { IfOk result (λ own. own ≡ length self.old.events + 1) }
        ensures event { OnOk result (self.new ≡ appended self.old (Withdraw caller number)) }
        ensures unknown { (front : ℕ) → result ≡ Err (PlainError.Unknown front)
            ↔ ((HasRecord self.old.events number → ⊥) × (front ≡ length self.old.events)) }
        ensures gone { (at : ℕ) → result ≡ Err (PlainError.Gone at) ↔ Withdraws self.old.events at number }
        ensures full { (front : ℕ) → result ≡ Err (PlainError.LogFull front)
            ↔ (HasRecord self.old.events number × (IsWithdrawn self.old.events number → ⊥)
            × IsFull self.old × (front ≡ length self.old.events)) }
        ensures same { OnErr result (self.new ≡ self.old) }
    {
        let front = self.events.len() as u32;
        if !is_publication(&self.events, number) {
            return Err(PlainError::Unknown { front });
        }
        let at = self.withdrawals[number as usize - 1];
        if at != 0 {
            return Err(PlainError::Gone { at });
        }
        if front == self.log {
            return Err(PlainError::LogFull { front });
        }
        let event = Event::Withdraw { caller, number };
        if append(&mut self.events, &mut self.withdrawals, event).is_err() {
            return Err(PlainError::OutOfMemory);
        }
        self.withdrawals[number as usize - 1] = front + 1;
        Ok(front + 1)
    }

    /// Gives the hits of the query among the records that are live after the first `front` events, by
    /// rising number, each with the least embedding, and how many records were screened. It is over
    /// budget only where the work of this search exceeds the budget, and always where the screened
    /// records have more atoms than that. After an error the list is empty. It costs a look at each of
    /// the events, and the search of the screened records.
    pub fn search_at(
        &self,
        front: u32,
        query: &Query,
        budget: u64,
        hits: &mut HitList,
    ) -> Result<(), SearchError>
        requires front { front ≤ length self.now.events }
        requires marked { AreMarked self.now.events }
        ensures found { OnOk result (IsReply query.now budget (take front self.now.events) (found hits.new.hits)) }
        ensures rows { OnOk result (hits.new.rows ≡ 0) }
        ensures records { OnOk result (Counts query.now (take front self.now.events) hits.new.records) }
        ensures over { (at : ℕ) → result ≡ Err (SearchError.OverBudget at)
            → (at ≡ front) × IsReply query.now budget (take front self.now.events) over_budget }
        ensures empty { OnErr result (hits.new ≡ no_hits) }
    {
        hits.clear();
        let answer = self.fill(front, query, budget, hits);
        if answer.is_err() {
            hits.clear();
        }
        answer
    }

    // Fills an empty list. What it has after an error is open.
    fn fill(
        &self,
        front: u32,
        query: &Query,
        budget: u64,
        hits: &mut HitList,
    ) -> Result<(), SearchError>
        requires front { front ≤ length self.now.events }
        requires marked { AreMarked self.now.events }
        requires empty { hits.old ≡ no_hits }
        ensures found { OnOk result (IsReply query.now budget (take front self.now.events) (found hits.new.hits)) }
        ensures rows { OnOk result (hits.new.rows ≡ 0) }
        ensures records { OnOk result (Counts query.now (take front self.now.events) hits.new.records) }
        ensures over { (at : ℕ) → result ≡ Err (SearchError.OverBudget at)
            → (at ≡ front) × IsReply query.now budget (take front self.now.events) over_budget }
    {
        let mut search = Search::new(front, query, budget);
        for index in 0..front {
            let number = index + 1;
            if let Some(live) = self.live_record(number, front) {
                search.take(number, live.name, live.mol, hits)?;
            }
        }
        hits.set_counts(0, search.records());
        Ok(())
    }

    /// Gives the hits of the query among the records that are live after the first `front` events, by rising number,
    /// each with the least embedding, and how many records were screened. After an error the list is empty.
    pub fn hits_at(&self, front: u32, query: &Query, hits: &mut HitList) -> Result<(), OutOfMemory>
        requires front { front ≤ length self.now.events }
        requires marked { AreMarked self.now.events }
        ensures found { OnOk result (AreHits query.now (take front self.now.events) hits.new.hits) }
        ensures rows { OnOk result (hits.new.rows ≡ 0) }
        ensures records { OnOk result (Counts query.now (take front self.now.events) hits.new.records) }
        ensures empty { OnErr result (hits.new ≡ no_hits) }
    {
        hits.clear();
        let answer = self.survey(front, query, hits);
        if answer.is_err() {
            hits.clear();
        }
        answer
    }

    // Fills an empty list. What it has after an error is open.
    fn survey(&self, front: u32, query: &Query, hits: &mut HitList) -> Result<(), OutOfMemory>
        requires front { front ≤ length self.now.events }
        requires marked { AreMarked self.now.events }
        requires empty { hits.old ≡ no_hits }
        ensures found { OnOk result (AreHits query.now (take front self.now.events) hits.new.hits) }
        ensures rows { OnOk result (hits.new.rows ≡ 0) }
        ensures records { OnOk result (Counts query.now (take front self.now.events) hits.new.records) }
    {
        let mut survey = Survey::new(query);
        for index in 0..front {
            let number = index + 1;
            if let Some(live) = self.live_record(number, front) {
                survey.take(number, live.name, live.mol, hits)?;
            }
        }
        hits.set_counts(0, survey.records());
        Ok(())
    }

    // The record of a number, where it is live after the first `front` events.
    fn live_record(&self, number: u32, front: u32) -> Option<LiveRecord<'_>>
        requires some { 1 ≤ number }
        requires within { number ≤ front }
        requires front { front ≤ length self.now.events }
        ensures live { IfSome result (λ one. IsLive (take front self.now.events) number one.name.now one.mol.now) }
        ensures none { result ≡ None → (name : List ℕ) (mol : Molecule)
            → IsLive (take front self.now.events) number name mol → ⊥ }
    {
        let place = number as usize - 1;
        let at = self.withdrawals[place];
        if at != 0 && at <= front {
            return None;
        }
        match &self.events[place] {
            Event::Publish { name, mol, .. } => Some(LiveRecord { name, mol }),
            Event::Withdraw { .. } => None,
        }
    }
}

#[derive(Drop)]
struct LiveRecord<'a> {
    name: &'a Name,
    mol: &'a Mol,
}

// Appends an event that none withdraws.
fn append(
    events: &mut Vec<Event>,
    withdrawals: &mut Vec<u32>,
    event: Event,
) -> Result<(), OutOfMemory>
    ensures event { OnOk result (events.new.items ≡ events.old.items ++ event ∷ []) }
    ensures withdrawal { OnOk result (withdrawals.new.items ≡ withdrawals.old.items ++ 0 ∷ []) }
    ensures same { OnErr result (events.new.items ≡ events.old.items) }
    ensures kept { OnErr result (withdrawals.new.items ≡ withdrawals.old.items) }
{
    withdrawals.push(0)?;
    if events.push(event).is_err() {
        withdrawals.pop();
        return Err(OutOfMemory);
    }
    Ok(())
}

// Whether the event of this number publishes a record.
fn is_publication(events: &[Event], number: u32) -> bool
    ensures { IsTrue result ↔ HasRecord events.now number }
{
    if number == 0 {
        return false;
    }
    match events.get(number as usize - 1) {
        Some(Event::Publish { .. }) => true,
        _ => false,
    }
}
