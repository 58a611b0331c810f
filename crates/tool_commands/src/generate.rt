// `make`: a file of generated records, or one line about it.
ghost use Rattle.std.specs.Prelude.{◌≡◌, ◌≤◌, false, IfOk, IfErr};
ghost use Rattle.script_text.specs.Generator.{made_file};
ghost use Rattle.command_words.specs.Tasks.{make_of};
ghost use Rattle.command_ends.specs.Ends.{seen_out};
ghost use Rattle.command_ends.specs.Stops.{EndsUnread};
ghost use Rattle.command_ends.specs.MakeText.{IsRing, IsSummary, ring_bond};

use crate::read_back::read_back;
use crate::summary_taker::SummaryTaker;
use crate::vec_sink::VecSink;
use command_ends::{Stop, write_stopped};
use htss_defs::{AtomTest, OutOfMemory, Query, QueryAtom, QueryBond};
use outside::Sink;
use ring_bonds::marked_query;
use script_text::{MakeStop, make_file};
use std::alloc::Global;

// The bytes of the longest generated record.
const RECORD_SIZE: usize = 1391;

/// Writes the file of so many records, 1 to 100,000, that are drawn from the seed, and answers the status: 0, 5 where a
/// write failed, or 6 where memory ran out.
#[inline(never)]
pub fn make<K: Sink>(alloc: Global, count: u32, seed: u64, out: &mut K) -> u8
    requires { count ≤ 100000 }
    ensures ends { EndsUnread (make_of count seed false)
        (seen_out K.written K.faults out.old) (seen_out K.written K.faults out.new) result }
    ensures later { K.faults out.old ≤ K.faults out.new }
{
    match make_file(alloc, count, seed, out) {
        Ok(()) => 0,
        Err(MakeStop::WriteFault) => 5,
        Err(MakeStop::OutOfMemory) => write_stopped(out, &[], Stop::Memory),
    }
}

/// Makes the file in memory and reads it back: the line on its records, and on those into which a ring of six carbons
/// embeds.
#[inline(never)]
pub fn summary_of<'a>(alloc: Global, count: u32, seed: u64) -> Result<Vec<u8>, Stop<'a>>
    requires { count ≤ 100000 }
    ensures text { IfOk result (λ text. IsSummary count seed text.items) }
    ensures memory { IfErr result (λ stop. stop ≡ Stop.Memory) }
{
    match summary(alloc, count, seed) {
        Ok(text) => Ok(text),
        Err(OutOfMemory) => Err(Stop::Memory),
    }
}

// The line on the made file.
#[inline(never)]
fn summary(alloc: Global, count: u32, seed: u64) -> Result<Vec<u8>, OutOfMemory>
    requires { count ≤ 100000 }
    ensures { IfOk result (λ text. IsSummary count seed text.items) }
{
    let ring = plain_ring(alloc)?;
    let made = made_bytes(alloc, count, seed)?;
    let mut taker = SummaryTaker::new(&ring);
    read_back(alloc, &made, &mut taker)?;
    taker.text(alloc, count)
}

// The made file in memory.
fn made_bytes(alloc: Global, count: u32, seed: u64) -> Result<Vec<u8>, OutOfMemory>
    requires { count ≤ 100000 }
    ensures { IfOk result (λ bytes. bytes.items ≡ made_file count seed) }
{
    let mut made = VecSink::with_room(alloc, count as usize * RECORD_SIZE)?;
    match make_file(alloc, count, seed, &mut made) {
        Ok(()) => Ok(made.bytes),
        Err(_) => Err(OutOfMemory),
    }
}

// A ring of six carbons, with single and double bonds in turn.
fn plain_ring(alloc: Global) -> Result<Query, OutOfMemory>
    ensures { IfOk result IsRing }
{
    let carbon = QueryAtom {
        test: AtomTest::Element(6),
        charge: 0,
        mass: 0,
    };
    let atoms = vec![in alloc; carbon, carbon, carbon, carbon, carbon, carbon]?;
    let bonds = vec![in alloc;
        ring_bond(1, 2, 1),
        ring_bond(2, 3, 2),
        ring_bond(3, 4, 1),
        ring_bond(4, 5, 2),
        ring_bond(5, 6, 1),
        ring_bond(6, 1, 2),
    ]?;
    match marked_query(atoms, bonds) {
        Some(ring) => Ok(ring),
        None => unreachable!(),
    }
}

fn ring_bond(first: u16, second: u16, kind: u8) -> QueryBond
    ensures { result ≡ ring_bond first second kind }
{
    QueryBond {
        first,
        second,
        kind,
        topology: 0,
        ring: false,
    }
}
