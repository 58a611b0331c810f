// Whether the hits that a report prints are those of the events up to the front.
ghost use Rattle.std.specs.Prelude.{◌≡◌, ◌≢◌, ℕ, ◌+◌, ◌*◌, ◌<◌, ◌≤◌, List, length, take, slice_get, Some, None, true};
ghost use Rattle.std.specs.Prelude.{false, IfOk, IfSome, IfNone, OnOk};
ghost use Rattle.htss_defs.specs.declared.history.Event.{Event};
ghost use Rattle.htss_defs.specs.HitLists.{no_hits};
ghost use Rattle.htss_defs.specs.QueryGraph.{IsQuery};
ghost use Rattle.htss_defs.specs.Reply.{IsReply, found};
ghost use Rattle.reg_model.specs.Searches.{Counts};
ghost use Rattle.reg_model.specs.Surveys.{HasSurveyed};
ghost use Rattle.report_rules.specs.Faults.{IsHitFault};
ghost use Rattle.told_history.specs.Telling.{IsWhole, Tells};

use crate::live::live_record;
use crate::told::Told;
use htss_defs::{Hit, HitList, OutOfMemory, Query};
use reg_model::Survey;
use std::alloc::Global;

/// Where the hits, the count and the budget of a search at this front do not hold: how many lines after the first of
/// the search. `None` where all do: the hits are those of the query, so many records are screened, and the budget
/// allows as many steps as these have atoms.
#[inline(never)]
pub fn check_hits(
    alloc: Global,
    told: &Told<'_>,
    query: &Query,
    budget: u64,
    front: u32,
    hits: &[Hit],
    records: u32,
) -> Result<Option<usize>, OutOfMemory>
    requires whole { IsWhole told.now }
    requires front { front ≤ length told.now.lines.now }
    ensures holds { IfOk result (λ fault. IfNone fault ((history : List Event) → Tells told.now history
        → IsReply query.now budget (take front history) (found hits.now)
        × Counts query.now (take front history) records)) }
    ensures differs { IfOk result (λ fault. IfSome fault (λ offset. (history : List Event) → Tells told.now history
        → IsHitFault query.now budget (take front history) hits.now records offset)) }
{
    let mut list = HitList::new(alloc);
    let surveyed = survey_told(told, query, front, &mut list)?;
    let all = list.hits();
    if let Some(index) = first_other(hits, all) {
        return Ok(Some(index + 1));
    }
    let last = hits.len() + 1;
    if hits.len() < all.len() {
        return Ok(Some(last));
    }
    if surveyed.records != records {
        return Ok(Some(last));
    }
    if budget < surveyed.atoms {
        return Ok(Some(last));
    }
    Ok(None)
}

/// How many records a survey has screened, and how many atoms they have.
#[derive(Clone, Copy)]
struct Surveyed {
    records: u32,
    atoms: u64,
}

// Fills an empty list with all hits of the events up to the front. What it has after an error is open.
fn survey_told(
    told: &Told<'_>,
    query: &Query,
    front: u32,
    hits: &mut HitList,
) -> Result<Surveyed, OutOfMemory>
    requires whole { IsWhole told.now }
    requires front { front ≤ length told.now.lines.now }
    requires empty { hits.old ≡ no_hits }
    ensures { IfOk result (λ s. (history : List Event) → Tells told.now history
        → HasSurveyed query.now (take front history) front s.records s.atoms hits.new.hits) }
{
    // that the query keeps its rules
    let _bonds = query.bonds();
    let mut survey = Survey::new(query);
    for index in 0..front {
        take_told(&mut survey, told, index + 1, front, hits)?;
    }
    Ok(Surveyed {
        records: survey.records(),
        atoms: survey.atoms(),
    })
}

// Takes the record of a number, where it is live at the front. One that no record gives has no atom, so it is not
// screened.
fn take_told(
    survey: &mut Survey<'_>,
    told: &Told<'_>,
    number: u32,
    front: u32,
    hits: &mut HitList,
) -> Result<(), OutOfMemory>
    requires whole { IsWhole told.now }
    requires some { 1 ≤ number }
    requires within { number ≤ front }
    requires front { front ≤ length told.now.lines.now }
    requires room { survey.old.records < number }
    requires atoms { survey.old.atoms + 999 ≤ 999 * number }
    ensures asked { survey.new.matcher ≡ survey.old.matcher }
    ensures room { survey.new.records ≤ number }
    ensures atoms { survey.new.atoms ≤ 999 * number }
    ensures ok { OnOk result ((history : List Event) (k : ℕ) → number ≡ k + 1 → IsQuery survey.old.matcher
        → Tells told.now history
        → HasSurveyed survey.old.matcher (take front history) k survey.old.records survey.old.atoms hits.old.hits
        → HasSurveyed survey.old.matcher
        (take front history) number survey.new.records survey.new.atoms hits.new.hits) }
{
    let Some(live) = live_record(told, number, front) else {
        return Ok(());
    };
    match live.mol {
        None => Ok(()),
        Some(mol) => survey.take(number, live.name, mol, hits),
    }
}

// The index of the first of the hits that is not the one at its place among all, if any.
fn first_other(hits: &[Hit], all: &[Hit]) -> Option<usize>
    ensures within { IfSome result (λ i. i < length hits.now) }
    ensures alike { IfSome result (λ i. take i hits.now ≡ take i all.now) }
    ensures other { IfSome result (λ i. slice_get hits.now i ≢ slice_get all.now i) }
    ensures none { result ≡ None → take (length hits.now) hits.now ≡ take (length hits.now) all.now }
{
    for (index, hit) in hits.iter().enumerate() {
        if !is_at(hit, all, index) {
            return Some(index);
        }
    }
    None
}

// Whether the hit stands at this index.
fn is_at(hit: &Hit, all: &[Hit], index: usize) -> bool
    ensures yes { result ≡ true → slice_get all.now index ≡ Some hit.now }
    ensures no { result ≡ false → slice_get all.now index ≢ Some hit.now }
{
    if index < all.len() {
        is_same(hit, &all[index])
    } else {
        false
    }
}

fn is_same(one: &Hit, other: &Hit) -> bool
    ensures yes { result ≡ true → one.now ≡ other.now }
    ensures no { result ≡ false → one.now ≢ other.now }
{
    one.number == other.number
        && one.name.bytes() == other.name.bytes()
        && one.map.as_slice() == other.map.as_slice()
}
