// Each read and each write of each command fails in turn. A failed read is told with the file's name; a failed write
// leaves a front of the text.
use crate::lines::{LINES, Line, SCRIPT};
use crate::made::done;
use outside::MemSink;
use std::alloc::Global;
use std::process::Abort;
use std::sync::Wait;
use std::test::Fail;
use std::thread::Threads;

// What a command line does whose sink takes so many bytes at a time, and has so much room in all; one call fails, and
// one takes nothing.
#[derive(Clone, Copy, Drop)]
struct Way {
    failing_read: u64,
    room: usize,
    most: usize,
    failing_write: u64,
    zero_write: u64,
}

const WELL: Way = Way {
    failing_read: 0,
    room: 10_000,
    most: 10_000,
    failing_write: 0,
    zero_write: 0,
};

// Asserts that the command line ends with this status, and with the first text followed by the other.
fn ends<R: Threads + Wait + Sync + Abort>(
    rt: &R,
    alloc: Global,
    line: &Line,
    way: &Way,
    status: u8,
    text: (&str, &str),
) -> Result<(), Fail> {
    let failing = vec![in alloc; way.failing_write]?;
    let zero = vec![in alloc; way.zero_write]?;
    let mut out = MemSink::new(alloc, way.room, way.most.max(1), failing, zero)?;
    let found = done(rt, alloc, &SCRIPT, way.failing_read, line.words, &mut out)?;
    let (first, rest) = text;
    assert_eq!(rt; found, status, "{:?} {}", line.words, way.failing_read);
    let printed = str::from_utf8(out.bytes())?;
    let after = printed.strip_prefix(first).ok_or("another text")?;
    assert_eq!(rt; after, rest, "{:?}", line.words);
    Ok(())
}

#[test]
fn each_read_fails_in_turn(rt: HostRuntime) -> Result<(), Fail> {
    let alloc = rt.alloc();
    for line in &LINES {
        let mut call = 0u64;
        for read in line.reads {
            let told = format!(in alloc; "stop 4 read {}\n", read.name)?;
            for _ in 0..2 {
                call = call.wrapping_add(1);
                let way = Way {
                    failing_read: call,
                    ..WELL
                };
                ends(&rt, alloc, line, &way, 4, (read.before, &told))?;
            }
        }
        // one call more: of the file that is absent, or none
        let past = Way {
            failing_read: call.wrapping_add(2),
            ..WELL
        };
        ends(&rt, alloc, line, &past, line.status, ("", line.text))?;
    }
    Ok(())
}

// The first bytes of a text.
fn front(text: &str, size: usize) -> Result<&str, Fail> {
    Ok(text.get(..size).ok_or("no such front")?)
}

#[test]
fn each_write_fails_in_turn(rt: HostRuntime) -> Result<(), Fail> {
    let alloc = rt.alloc();
    for line in &LINES {
        let narrow = Way { most: 1, ..WELL };
        ends(&rt, alloc, line, &narrow, line.status, ("", line.text))?;
        for size in 0..line.text.len() {
            let left = front(line.text, size)?;
            let call = (size as u64).wrapping_add(1);
            let failing = Way {
                failing_write: call,
                ..narrow
            };
            ends(&rt, alloc, line, &failing, 5, ("", left))?;
            let zero = Way {
                zero_write: call,
                ..narrow
            };
            ends(&rt, alloc, line, &zero, 5, ("", left))?;
            let full = Way { room: size, ..WELL };
            ends(&rt, alloc, line, &full, 5, ("", left))?;
        }
    }
    Ok(())
}

// Of a made file each front may stand there. Its bytes are those of the whole file.
#[test]
fn each_write_of_a_made_file_fails_in_turn(rt: HostRuntime) -> Result<(), Fail> {
    let alloc = rt.alloc();
    let mut whole = MemSink::new(alloc, 10_000, 10_000, vec![in alloc]?, vec![in alloc]?)?;
    let words = &["make", "2", "7"];
    assert_eq!(rt; done(&rt, alloc, &SCRIPT, 0, words, &mut whole)?, 0);
    let line = Line {
        words,
        reads: &[],
        status: 0,
        text: "",
    };
    let text = str::from_utf8(whole.bytes())?;
    for size in 0..text.len() {
        let full = Way { room: size, ..WELL };
        ends(&rt, alloc, &line, &full, 5, ("", front(text, size)?))?;
    }
    let narrow = Way { most: 1, ..WELL };
    ends(&rt, alloc, &line, &narrow, 0, ("", text))
}
