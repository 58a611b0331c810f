// What a registry takes and refuses, and what it answers to searches.
ghost use Rattle.std.specs.Prelude.{IfOk};
ghost use Rattle.htss_defs.specs.Marked.{IsMarked};
ghost use Rattle.reg_model.specs.Registries.{AreMarked};

use crate::made::{CARBON_OXYGEN, ETHANOL, ETHER, PROPANE, Sketch, molecule_of, query_of};
use htss_defs::{Hit, HitList, Name, Query, SearchError};
use reg_model::{PlainError, PlainRegistry};
use std::alloc::Global;
use std::test::Fail;

const NO_SINGLE_BOND: Sketch = Sketch {
    elements: &[6, 8, 6],
    bonds: &[(1, 2, 2), (2, 3, 2)],
};

// An event that is asked for.
enum Step {
    Publish(&'static [u8], Sketch),
    Withdraw(u8, u32),
}

// What the registry answers to the event.
fn taken(
    alloc: Global,
    registry: &mut PlainRegistry,
    step: &Step,
) -> Result<Result<u32, PlainError>, Fail>
    ensures { AreMarked registry.old.events → AreMarked registry.new.events }
{
    match step {
        Step::Publish(name, sketch) => {
            let name = Name::new(name).ok_or("no name")?;
            let mol = molecule_of(alloc, sketch)?;
            Ok(registry.publish(1, name, mol))
        }
        Step::Withdraw(caller, number) => Ok(registry.withdraw(*caller, *number)),
    }
}

// Whether the registry answers so to the events, one after the other.
fn takes(
    alloc: Global,
    registry: &mut PlainRegistry,
    steps: &[(Step, Result<u32, PlainError>)],
) -> Result<bool, Fail>
    ensures { AreMarked registry.old.events → AreMarked registry.new.events }
{
    for (step, want) in steps {
        if taken(alloc, registry, step)? != *want {
            return Ok(false);
        }
    }
    Ok(true)
}

// Causes in their order: an unknown record before one that is gone, and both before a full log of 4.
const STEPS: &[(Step, Result<u32, PlainError>)] = &[
    (Step::Withdraw(1, 0), Err(PlainError::Unknown { front: 0 })),
    (Step::Withdraw(1, 1), Err(PlainError::Unknown { front: 0 })),
    (Step::Publish(b"ethanol", ETHANOL), Ok(1)),
    (Step::Publish(b"ether", ETHER), Ok(2)),
    (Step::Withdraw(2, 1), Ok(3)),
    (Step::Withdraw(1, 1), Err(PlainError::Gone { at: 3 })),
    (Step::Withdraw(1, 3), Err(PlainError::Unknown { front: 3 })),
    (Step::Withdraw(1, 4), Err(PlainError::Unknown { front: 3 })),
    (Step::Publish(b"", ETHER), Ok(4)),
    (Step::Withdraw(1, 0), Err(PlainError::Unknown { front: 4 })),
    (Step::Withdraw(1, 1), Err(PlainError::Gone { at: 3 })),
    (Step::Withdraw(1, 2), Err(PlainError::LogFull { front: 4 })),
    (Step::Withdraw(1, 3), Err(PlainError::Unknown { front: 4 })),
    (Step::Withdraw(1, 4), Err(PlainError::LogFull { front: 4 })),
    (Step::Withdraw(1, 5), Err(PlainError::Unknown { front: 4 })),
    (
        Step::Publish(b"more", ETHER),
        Err(PlainError::LogFull { front: 4 }),
    ),
];

#[test]
fn takes_and_refuses_events(rt: HostRuntime) -> Result<(), Fail> {
    let mut registry = PlainRegistry::new(rt.alloc(), 4);
    let taken = takes(rt.alloc(), &mut registry, STEPS)?;
    assert!(rt; taken && registry.events().len() == 4);
    Ok(())
}

// Ethanol, ether, the withdrawal of ethanol; then a chain that is not screened for C-O, and one that is but has no
// single bond.
const HISTORY: &[(Step, Result<u32, PlainError>)] = &[
    (Step::Publish(b"ethanol", ETHANOL), Ok(1)),
    (Step::Publish(b"ether", ETHER), Ok(2)),
    (Step::Withdraw(1, 1), Ok(3)),
    (Step::Publish(b"propane", PROPANE), Ok(4)),
    (Step::Publish(b"allene", NO_SINGLE_BOND), Ok(5)),
];

fn history(alloc: Global) -> Result<PlainRegistry, Fail>
    ensures { IfOk result (λ registry. AreMarked registry.events) }
{
    let mut registry = PlainRegistry::new(alloc, 8);
    if !takes(alloc, &mut registry, HISTORY)? {
        return Err("other numbers".into());
    }
    Ok(registry)
}

// A hit by its number, its name and its map.
type Want = (u32, &'static [u8], &'static [u16]);

const AT_ETHANOL: Want = (1, b"ethanol", &[2, 3]);

const AT_ETHER: Want = (2, b"ether", &[1, 2]);

// A search for C-O at a front, under a budget; then its answer, the screened records, and the hits.
struct Case {
    front: u32,
    budget: u64,
    answer: Result<(), SearchError>,
    records: u32,
    hits: &'static [Want],
}

// The cost of each of the searches of ethanol and of ether is 9; the records have 3 atoms each.
const CASES: &[Case] = &[
    Case {
        front: 0,
        budget: 100,
        answer: Ok(()),
        records: 0,
        hits: &[],
    },
    Case {
        front: 1,
        budget: 100,
        answer: Ok(()),
        records: 1,
        hits: &[AT_ETHANOL],
    },
    Case {
        front: 2,
        budget: 100,
        answer: Ok(()),
        records: 2,
        hits: &[AT_ETHANOL, AT_ETHER],
    },
    Case {
        front: 3,
        budget: 100,
        answer: Ok(()),
        records: 1,
        hits: &[AT_ETHER],
    },
    Case {
        front: 4,
        budget: 100,
        answer: Ok(()),
        records: 1,
        hits: &[AT_ETHER],
    },
    Case {
        front: 5,
        budget: 100,
        answer: Ok(()),
        records: 2,
        hits: &[AT_ETHER],
    },
    Case {
        front: 2,
        budget: 18,
        answer: Ok(()),
        records: 2,
        hits: &[AT_ETHANOL, AT_ETHER],
    },
    Case {
        front: 2,
        budget: 5,
        answer: Err(SearchError::OverBudget { front: 2 }),
        records: 0,
        hits: &[],
    },
    Case {
        front: 1,
        budget: 9,
        answer: Ok(()),
        records: 1,
        hits: &[AT_ETHANOL],
    },
    Case {
        front: 1,
        budget: 2,
        answer: Err(SearchError::OverBudget { front: 1 }),
        records: 0,
        hits: &[],
    },
    Case {
        front: 4,
        budget: 0,
        answer: Err(SearchError::OverBudget { front: 4 }),
        records: 0,
        hits: &[],
    },
    Case {
        front: 0,
        budget: 0,
        answer: Ok(()),
        records: 0,
        hits: &[],
    },
];

fn are_hits(hits: &[Hit], want: &[Want]) -> bool {
    hits.len() == want.len()
        && hits.iter().zip(want).all(|(hit, (number, name, map))| {
            hit.number == *number && hit.name.bytes() == *name && hit.map.as_slice() == *map
        })
}

// Whether the search is answered so. A plain registry loads the codes of no row.
fn is_answered(registry: &PlainRegistry, query: &Query, hits: &mut HitList, case: &Case) -> bool
    requires { AreMarked registry.now.events }
{
    if registry.events().len() < case.front as usize {
        return false;
    }
    registry.search_at(case.front, query, case.budget, hits) == case.answer
        && hits.rows() == 0
        && hits.records() == case.records
        && are_hits(hits.hits(), case.hits)
}

#[test]
fn searches_at_each_front(rt: HostRuntime) -> Result<(), Fail> {
    let registry = history(rt.alloc())?;
    let query = query_of(rt.alloc(), &CARBON_OXYGEN)?;
    let mut hits = HitList::new(rt.alloc());
    for case in CASES {
        assert!(rt;
            is_answered(&registry, &query, &mut hits, case),
            "{}",
            case.front
        );
    }
    Ok(())
}

// A front, how many records are screened there, and the hits.
const FRONTS: &[(u32, u32, &[Want])] = &[
    (0, 0, &[]),
    (2, 2, &[AT_ETHANOL, AT_ETHER]),
    (4, 1, &[AT_ETHER]),
];

// Whether the registry has these hits at the front.
fn has_hits(
    registry: &PlainRegistry,
    query: &Query,
    hits: &mut HitList,
    front: u32,
    records: u32,
    want: &[Want],
) -> bool
    requires { AreMarked registry.now.events }
{
    if registry.events().len() < front as usize {
        return false;
    }
    registry.hits_at(front, query, hits).is_ok()
        && hits.rows() == 0
        && hits.records() == records
        && are_hits(hits.hits(), want)
}

#[test]
fn gives_the_hits_at_each_front(rt: HostRuntime) -> Result<(), Fail> {
    let registry = history(rt.alloc())?;
    let query = query_of(rt.alloc(), &CARBON_OXYGEN)?;
    let mut hits = HitList::new(rt.alloc());
    for (front, records, want) in FRONTS {
        assert!(rt;
            has_hits(&registry, &query, &mut hits, *front, *records, want),
            "{front}"
        );
    }
    Ok(())
}
