// Loaders beside each other. In few pages and short chains some records are refused; of all others each row is found.
use crate::boards::{close, open};
use crate::checks::{Tally, check_pages, check_rows};
use crate::loads::load;
use crate::pages::pages_of;
use crate::sketches::{Sketch, carbons, drawn_sketches, forked_sketches};
use crate::walks::walk_of;
use htss_defs::Shape;
use std::alloc::Global;
use std::sync::Wait;
use std::test::Fail;
use std::thread::Threads;

// The loaders load the records, then each takes what pages it can, and the board is closed and walked.
pub(crate) fn tally_of<R: Threads + Wait + Sync>(
    rt: &R,
    alloc: Global,
    shape: Shape,
    sketches: &[Sketch],
) -> Result<Tally, Fail> {
    let (board, mut crowd) = open(alloc, shape)?;
    load(rt, alloc, &board, crowd.loadings.as_mut_slice(), sketches);
    let (last, done) = close(alloc, board, true, crowd)?;
    let pages = pages_of(alloc, &last)?;
    let walk = walk_of(alloc, pages.as_slice())?;
    check_pages(pages.as_slice(), &walk, done.as_slice())?;
    check_rows(alloc, &last, &walk, done.as_slice(), sketches)
}

fn shape_of(loaders: u8, pages: u32, chain: u32) -> Shape {
    Shape {
        loaders,
        searchers: 1,
        pages,
        room: 20_000,
        log: 1000,
        chain,
    }
}

// Pools and chains, from tiny ones to such as hold all.
const POOLS: [(u32, u32); 5] = [(16, 2), (24, 65_535), (50, 2), (120, 3), (4000, 65_535)];

#[test]
fn each_row_is_found_once(rt: HostRuntime) -> Result<(), Fail> {
    let alloc = rt.alloc();
    for (pages, chain) in POOLS {
        for seed in 0..6 {
            let sketches = drawn_sketches(alloc, seed, 100)?;
            let tally = tally_of(&rt, alloc, shape_of(4, pages, chain), sketches.as_slice())?;
            assert_eq!(rt; tally.published.wrapping_add(tally.refused), 100);
            assert!(rt; pages < 4000 || tally.refused == 0);
        }
    }
    Ok(())
}

// Eight loaders load records whose first codes are the same, so they meet in the same leaves.
#[test]
fn each_row_is_found_once_where_all_meet(rt: HostRuntime) -> Result<(), Fail> {
    let alloc = rt.alloc();
    let sketches = forked_sketches(alloc, 8)?;
    for pages in [32, 64, 120, 4000] {
        let tally = tally_of(&rt, alloc, shape_of(8, pages, 65_535), sketches.as_slice())?;
        assert_eq!(rt; tally.published.wrapping_add(tally.refused), 120);
        assert!(rt; pages < 4000 || tally.rows == 720);
    }
    Ok(())
}

// Equal rows share a chain of leaves, of which each loader keeps the last one in mind. A chain of five leaves takes
// seventy rows, and then each loader finds it full.
#[test]
fn equal_rows_are_found_once(rt: HostRuntime) -> Result<(), Fail> {
    let alloc = rt.alloc();
    let sketches = carbons(alloc, 200)?;
    for loaders in [1, 8] {
        for (chain, most) in [(65_535, 200), (5, 70)] {
            let shape = shape_of(loaders, 4000, chain);
            let tally = tally_of(&rt, alloc, shape, sketches.as_slice())?;
            assert_eq!(rt; tally.published, most);
            assert_eq!(rt; tally.rows, most);
        }
    }
    Ok(())
}
