// Files that come in random pieces, beside the same files whole. Some of their bytes were changed by chance.
ghost use Rattle.std.specs.Prelude.{None};

use crate::drawn::{drawn, drawn_query, drawn_record};
use crate::made::{Given, shelf, words};
use htss_top::htss;
use outside::{MemShelf, MemSink, Shelf, ShelfError};
use rand_core::utils::NextWord;
use rand_pcg::Pcg32;
use std::alloc::Global;
use std::process::Abort;
use std::sync::Wait;
use std::test::Fail;
use std::thread::Threads;

// A shelf that gives a few bytes at a time.
#[derive(Drop)]
struct Pieces {
    shelf: MemShelf,
    draws: Pcg32,
}

impl Shelf for Pieces {
    ghost told = { λ _. None };

    ghost absent = { λ s. s.shelf.absent };

    ghost faults = { λ s. s.shelf.faults };

    fn read_at(&mut self, name: &str, offset: u64, into: &mut [u8]) -> Result<usize, ShelfError> {
        let most = self.draws.next_word() as usize % 40 + 1;
        let room = into.len().min(most);
        self.shelf.read_at(name, offset, &mut into[..room])
    }
}

const BYTES: &[u8] = b" 0123456789CNOM$*\n\r\tx";

// Some bytes are others.
fn hurt(draws: &mut Pcg32, bytes: &mut Vec<u8>) {
    for _ in 0..drawn(draws, 4) {
        let size = bytes.len().max(1);
        let byte = match BYTES.get(drawn(draws, 21) as usize) {
            Some(byte) => *byte,
            None => b' ',
        };
        if let Some(place) = bytes.get_mut(draws.next_word() as usize % size) {
            *place = byte;
        }
    }
}

// Up to twenty records, of which some are hurt.
fn drawn_file(alloc: Global, draws: &mut Pcg32) -> Result<String, Fail> {
    let mut text = String::new(alloc);
    for _ in 0..drawn(draws, 20) {
        let mut record = Vec::from_slice(alloc, drawn_record(alloc, draws, "r")?.as_bytes())?;
        hurt(draws, &mut record);
        text.push_str(str::from_utf8(record.as_slice())?)?;
    }
    Ok(text)
}

// What the words answer over the files, whole and in pieces: the status and the text are the same.
fn is_same<R: Threads + Wait + Sync + Abort>(
    rt: &R,
    alloc: Global,
    file: &Given<'_>,
    list: &[&str],
    seed: u64,
) -> Result<(), Fail> {
    let words = words(alloc, list)?;
    let mut whole = MemSink::new(alloc, 20_000, 20_000, vec![in alloc]?, vec![in alloc]?)?;
    let mut given = shelf(rt, alloc, file, 0)?;
    let wanted = htss(rt, alloc, &words, &mut given, &mut whole);
    let mut pieces = Pieces {
        shelf: shelf(rt, alloc, file, 0)?,
        draws: Pcg32::new(seed, 56),
    };
    let mut out = MemSink::new(alloc, 20_000, 20_000, vec![in alloc]?, vec![in alloc]?)?;
    let found = htss(rt, alloc, &words, &mut pieces, &mut out);
    assert_eq!(rt; found.status, wanted.status, "{list:?} {seed}");
    assert_eq!(rt;
        str::from_utf8(out.bytes())?,
        str::from_utf8(whole.bytes())?,
        "{list:?} {seed}"
    );
    Ok(())
}

// The file as a script, on a small board.
const SCRIPT: [&str; 5] = ["run", "drawn", "--pages=16", "--room=10", "--log=1"];

#[test]
fn files_in_pieces_are_read_as_whole_ones(rt: HostRuntime) -> Result<(), Fail> {
    let alloc = rt.alloc();
    for seed in 0..40 {
        let mut draws = Pcg32::new(seed, 57);
        let text = drawn_file(alloc, &mut draws)?;
        let file = Given {
            name: "drawn",
            parts: &[&text],
        };
        is_same(&rt, alloc, &file, &["check", "drawn"], seed)?;
        is_same(&rt, alloc, &file, &["codes", "drawn"], seed)?;
        is_same(&rt, alloc, &file, &["find", "drawn", "co.mol"], seed)?;
        is_same(&rt, alloc, &file, &SCRIPT, seed)?;
        let query = drawn_query(alloc, &mut draws)?;
        let file = Given {
            name: "drawn",
            parts: &[&query],
        };
        is_same(&rt, alloc, &file, &["find", "a.sdf", "drawn"], seed)?;
    }
    Ok(())
}
