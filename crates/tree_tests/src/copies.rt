// Equal records, by one loader: where their rows stand, and how many pages they take, is told by the rules of the tree
// alone.
use crate::boards::{close, open};
use crate::checks::check_rows;
use crate::loads::load;
use crate::pages::pages_of;
use crate::sketches::{Sketch, carbons, forked_sketches};
use crate::walks::{Walk, walk_of};
use htss_defs::Shape;
use std::alloc::Global;
use std::process::Abort;
use std::sync::Wait;
use std::test::Fail;
use std::thread::Threads;

// How many pages are in the tree, inner ones and leaves, and how many are not free.
#[derive(Clone, Copy, Debug, PartialEq, Eq, Drop)]
struct Room {
    inner: usize,
    leaves: usize,
    used: usize,
}

fn shape_of(pages: u32) -> Shape {
    Shape {
        loaders: 1,
        searchers: 1,
        pages,
        room: 20_000,
        log: 40,
        chain: 65_535,
    }
}

// All records are loaded, and each row is found once.
fn loaded<R: Threads + Wait + Sync + Abort>(
    rt: &R,
    alloc: Global,
    pages: u32,
    sketches: &[Sketch],
) -> Result<(Room, Walk), Fail> {
    let (board, mut crowd) = open(alloc, shape_of(pages))?;
    load(rt, alloc, &board, crowd.loadings.as_mut_slice(), sketches);
    let (last, done) = close(alloc, board, false, crowd)?;
    let pages = pages_of(alloc, &last)?;
    let walk = walk_of(alloc, pages.as_slice())?;
    let tally = check_rows(alloc, &last, &walk, done.as_slice(), sketches)?;
    assert_eq!(rt; tally.published, sketches.len());
    let room = Room {
        inner: walk.inner,
        leaves: walk.leaves,
        used: pages.iter().filter(|page| page.state != 0).count(),
    };
    Ok((room, walk))
}

// Forty rows with the same five codes. The first leaf is split four times, since its rows differ in none of the next
// codes, so four inner pages stand one below the other. The leaf below them goes on twice. Four leaves were split, and
// are no longer in the tree.
#[test]
fn forty_copies_split(rt: HostRuntime) -> Result<(), Fail> {
    let alloc = rt.alloc();
    let sketches = carbons(alloc, 40)?;
    let (room, walk) = loaded(&rt, alloc, 16, sketches.as_slice())?;
    let wanted = Room {
        inner: 5,
        leaves: 3,
        used: 12,
    };
    assert_eq!(rt; room, wanted);
    assert!(rt; walk.entries.iter().all(|entry| entry.path.depth == 5));
    Ok(())
}

// Fourteen equal rows fill one leaf of depth 1, and nothing is split.
#[test]
fn fourteen_copies_fill_a_leaf(rt: HostRuntime) -> Result<(), Fail> {
    let alloc = rt.alloc();
    let sketches = carbons(alloc, 14)?;
    let (room, walk) = loaded(&rt, alloc, 16, sketches.as_slice())?;
    let wanted = Room {
        inner: 1,
        leaves: 1,
        used: 2,
    };
    assert_eq!(rt; room, wanted);
    assert!(rt; walk.entries.iter().all(|entry| entry.path.depth == 1));
    Ok(())
}

// The first atoms of the fifteen records share four codes and differ in the fifth, so the fifteenth makes four splits
// in a row: its row stands in a leaf of depth 5, alone.
#[test]
fn four_splits_in_a_row(rt: HostRuntime) -> Result<(), Fail> {
    let alloc = rt.alloc();
    let sketches = forked_sketches(alloc, 1)?;
    let (_, walk) = loaded(&rt, alloc, 200, sketches.as_slice())?;
    // the block of such a record has 3 words, one for the name, six for each of its six atoms, and one for each of its
    // five bonds
    let first = 3 + 2 + 17 * 200 + 40;
    for number in 0..15u64 {
        let block = number.saturating_mul(45).saturating_add(first);
        let word = block.saturating_mul(1024).saturating_add(1);
        let mut rows = walk.entries.iter().filter(|entry| entry.word == word);
        assert_eq!(rt; rows.next().map(|entry| entry.path.depth), Some(5));
    }
    Ok(())
}
