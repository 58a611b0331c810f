// A load and a search beside each other, of which one is held until the other has answered. The texts that are wanted
// were written by hand.
ghost use Rattle.std.specs.Prelude.{None};

use crate::files::{files_of, script_of};
use crate::made::open_two;
use report_text::{Block, write_block};
use script_run::{Gate, Place, Worker, run_group};
use std::alloc::Global;
use std::sync::Wait;
use std::sync::atomic::{AtomicBool, Ordering};
use std::test::Fail;
use std::thread::{Threads, yield_now};

// How often a worker looks whether it may go on.
const TURNS: u32 = 10_000_000;

// Holds its worker before each job until the other has answered.
#[derive(Drop)]
struct Turn<'a> {
    may_go: &'a AtomicBool,
    other_may_go: &'a AtomicBool,
    // whether a wait came to its end before the flag was set
    ran_out: bool,
}

impl<'a> Gate for Turn<'a> {
    ghost passed = { λ _. None };

    fn at(&mut self, place: Place) {
        match place {
            Place::Before { .. } => self.ran_out |= !waits_for(self.may_go),
            Place::After { .. } => self.other_may_go.store(true, Ordering::SeqCst),
        }
    }
}

// Waits for the flag, and answers whether it was set in time.
fn waits_for(flag: &AtomicBool) -> bool {
    for _ in 0..TURNS {
        if flag.load(Ordering::SeqCst) {
            return true;
        }
        yield_now();
    }
    false
}

fn printed(alloc: Global, blocks: &[Block]) -> Result<Vec<u8>, Fail> {
    let mut text = Vec::new(alloc);
    for block in blocks {
        write_block(block, &mut text)?;
    }
    Ok(text)
}

// The blocks of the load and of the search, of which one goes first.
fn text_of<R: Threads + Wait + Sync>(
    rt: &R,
    alloc: Global,
    load_first: bool,
) -> Result<Vec<u8>, Fail> {
    let script = script_of(alloc, b"load a.sdf\nsearch co.mol\n")?;
    let group = script.groups.as_slice().first().ok_or("no group")?;
    let files = files_of(alloc, group.jobs.as_slice())?;
    let (board, loader, searcher) = open_two(alloc, 100, 8)?;
    let may_load = AtomicBool::new(load_first);
    let may_search = AtomicBool::new(!load_first);
    let mut workers = [
        Worker {
            caller: loader,
            gate: Turn {
                may_go: &may_load,
                other_may_go: &may_search,
                ran_out: false,
            },
        },
        Worker {
            caller: searcher,
            gate: Turn {
                may_go: &may_search,
                other_may_go: &may_load,
                ran_out: false,
            },
        },
    ];
    let blocks = run_group(rt, alloc, &board, &mut workers, group, &files, 100)?;
    if workers[0].gate.ran_out || workers[1].gate.ran_out {
        return Err("a worker that waited too long".into());
    }
    printed(alloc, &blocks)
}

const BEFORE_THE_LOAD: &[u8] =
    b"load 1 a.sdf\npublished 1 ethanol\npublished 2 ether\nloaded 2\nsearch 2 co.mol front 0\nhits 0 rows 0 records 0\n";

const AFTER_THE_LOAD: &[u8] =
    b"load 1 a.sdf\npublished 1 ethanol\npublished 2 ether\nloaded 2\nsearch 2 co.mol front 2\nhit 1 2,3 ethanol\nhit 2 1,2 ether\nhits 2 rows 4 records 2\n";

#[test]
fn a_search_sees_what_was_published_before_it(rt: HostRuntime) -> Result<(), Fail> {
    for (load_first, wanted) in [(false, BEFORE_THE_LOAD), (true, AFTER_THE_LOAD)] {
        let text = text_of(&rt, rt.alloc(), load_first)?;
        assert_eq!(rt; text.as_slice(), wanted, "load first: {load_first}");
    }
    Ok(())
}
