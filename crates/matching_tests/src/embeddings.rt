// The least embedding of a query in a molecule, and what looking for it costs.
use crate::made::{Asked, CARBON_OXYGEN, ETHANOL, ETHER, PROPANE, Sketch, molecule_of, query_of};
use arrayvec::ArrayVec;
use embed::{Found, Matcher, cost_of, first_map, least_map};
use htss_defs::AtomTest;
use std::alloc::Global;
use std::test::Fail;

const PROPENE: Sketch = Sketch {
    elements: &[6, 6, 6],
    bonds: &[(1, 2, 1), (2, 3, 2)],
};

// Three carbons in a ring, and one more at the third.
const TAILED_RING: Sketch = Sketch {
    elements: &[6, 6, 6, 6],
    bonds: &[(1, 2, 1), (2, 3, 1), (1, 3, 1), (3, 4, 1)],
};

const CARBONS: &[AtomTest] = &[
    AtomTest::Element(6),
    AtomTest::Element(6),
    AtomTest::Element(6),
];

const TWO_CARBONS: &[AtomTest] = &[AtomTest::Element(6), AtomTest::Element(6)];

const SINGLE_OR_DOUBLE: Asked = Asked {
    tests: TWO_CARBONS,
    bonds: &[(1, 2, 5, 0)],
};

const AROMATIC: Asked = Asked {
    tests: TWO_CARBONS,
    bonds: &[(1, 2, 4, 0)],
};

const DOUBLE_THEN_SINGLE: Asked = Asked {
    tests: CARBONS,
    bonds: &[(2, 1, 2, 0), (3, 2, 1, 0)],
};

const SINGLE: Asked = Asked {
    tests: TWO_CARBONS,
    bonds: &[(1, 2, 1, 0)],
};

const SINGLE_IN_RING: Asked = Asked {
    tests: TWO_CARBONS,
    bonds: &[(1, 2, 1, 1)],
};

const SINGLE_IN_CHAIN: Asked = Asked {
    tests: TWO_CARBONS,
    bonds: &[(1, 2, 1, 2)],
};

// A query, a molecule, and the places of the least embedding: no places where there is none.
const CASES: &[(Asked, Sketch, &[u16])] = &[
    (CARBON_OXYGEN, ETHANOL, &[2, 3]),
    (CARBON_OXYGEN, ETHER, &[1, 2]),
    (CARBON_OXYGEN, PROPANE, &[]),
    (SINGLE_OR_DOUBLE, PROPENE, &[1, 2]),
    (AROMATIC, PROPENE, &[]),
    (DOUBLE_THEN_SINGLE, PROPENE, &[3, 2, 1]),
    (SINGLE, TAILED_RING, &[1, 2]),
    (SINGLE_IN_RING, TAILED_RING, &[1, 2]),
    (SINGLE_IN_CHAIN, TAILED_RING, &[3, 4]),
];

// Whether this is the least embedding, with no budget and with one that is large enough.
fn is_least(alloc: Global, asked: &Asked, given: &Sketch, want: &[u16]) -> Result<bool, Fail> {
    let query = query_of(alloc, asked)?;
    let mol = molecule_of(alloc, given)?;
    let mut map = ArrayVec::new();
    let first = first_map(&query, &mol, &mut map);
    let is_first = map.as_slice() == want;
    let least = least_map(&query, &mol, &mut 100, &mut map);
    let embeds = !want.is_empty();
    Ok(first == embeds && is_first && (least == Found::Yes) == embeds && map.as_slice() == want)
}

#[test]
fn finds_the_least_embedding(rt: HostRuntime) -> Result<(), Fail> {
    for (asked, given, want) in CASES {
        assert!(rt; is_least(rt.alloc(), asked, given, want)?, "{want:?}");
    }
    Ok(())
}

// A budget, what is found in ethanol and where, and the most that is left of the budget. The cost is 9: for no place,
// for 1 and for 2.
const BUDGETS: &[(u64, Found, &[u16], u64)] = &[
    (9, Found::Yes, &[2, 3], 6),
    (2, Found::Spent, &[], 0),
];

// Whether that is found within the budget, and so much is left at most.
fn is_found(
    alloc: Global,
    mut budget: u64,
    want: Found,
    places: &[u16],
    most: u64,
) -> Result<bool, Fail> {
    let query = query_of(alloc, &CARBON_OXYGEN)?;
    let mol = molecule_of(alloc, &ETHANOL)?;
    // what the map held before makes no difference
    let mut map = ArrayVec::new();
    map.push(1);
    let found = least_map(&query, &mol, &mut budget, &mut map);
    Ok(found == want && map.as_slice() == places && budget <= most)
}

#[test]
fn stops_where_the_budget_is_spent(rt: HostRuntime) -> Result<(), Fail> {
    for (budget, want, places, most) in BUDGETS {
        assert!(rt;
            is_found(rt.alloc(), *budget, *want, places, *most)?,
            "{budget}"
        );
    }
    Ok(())
}

// Whether one matcher finds carbon and oxygen in ethanol, then none in propane, and then has too little left for
// ethanol.
fn asks_in_turn(alloc: Global) -> Result<bool, Fail> {
    let ethanol = molecule_of(alloc, &ETHANOL)?;
    let propane = molecule_of(alloc, &PROPANE)?;
    let query = query_of(alloc, &CARBON_OXYGEN)?;
    let mut matcher = Matcher::new(&query);
    let mut map = ArrayVec::new();
    let first = matcher.first_map(&ethanol, &mut map);
    // the cost is 12: for no place, for 1, for 2 and for 3
    let mut budget = 14;
    let second = matcher.least_map(&propane, &mut budget, &mut map);
    let empty = map.is_empty();
    let third = matcher.least_map(&ethanol, &mut budget, &mut map);
    Ok(first && second == Found::No && empty && third == Found::Spent)
}

#[test]
fn asks_many_molecules(rt: HostRuntime) -> Result<(), Fail> {
    assert!(rt; asks_in_turn(rt.alloc())?);
    Ok(())
}

// A limit, and the cost of carbon and oxygen in ethanol where it is at most that.
const LIMITS: &[(u64, Option<u64>)] = &[(100, Some(9)), (9, Some(9)), (8, None), (0, None)];

#[test]
fn counts_up_to_a_limit(rt: HostRuntime) -> Result<(), Fail> {
    let query = query_of(rt.alloc(), &CARBON_OXYGEN)?;
    let mol = molecule_of(rt.alloc(), &ETHANOL)?;
    for (limit, want) in LIMITS {
        assert!(rt; cost_of(&query, &mol, *limit) == *want, "{limit}");
    }
    Ok(())
}
