// Files and sinks, in memory and real.
ghost use Rattle.std.specs.Prelude.{IfOk};
ghost use Rattle.outside.specs.Memory.{HaveOwnNames};

use htss_defs::{Bytes, OutOfMemory, Text};
use outside::{
    DirShelf, Failed, MemShelf, MemSink, NamedBytes, ReadStop, Shelf, ShelfError, Sink, SureShelf,
    SureSink, read_piece, read_whole, write_whole,
};
use std::alloc::Global;
use std::fs;
use std::process::Abort;
use std::test::Fail;

// A list of one file.
fn one_file(alloc: Global, name: &str, bytes: &[u8]) -> Result<Vec<NamedBytes>, OutOfMemory>
    ensures { IfOk result (λ files. HaveOwnNames files.items) }
{
    let file = NamedBytes {
        name: Text::new(String::from_str(alloc, name)?),
        bytes: Bytes::new(Vec::from_slice(alloc, bytes)?),
    };
    Ok(vec![in alloc; file]?)
}

// A call of a shelf: the file, the offset, the room, at most 6, the answer, and what the room then begins with.
type Call = (
    &'static str,
    u64,
    usize,
    Result<usize, ShelfError>,
    &'static [u8],
);

// Makes the calls with one room, which begins with zeros.
fn calls_are_answered<F: Shelf>(rt: &impl Abort, shelf: &mut F, calls: &[Call]) {
    let mut into = [0; 6];
    for (name, offset, room, want, front) in calls {
        let room = (*room).min(6);
        let answer = shelf.read_at(name, *offset, &mut into[..room]);
        assert!(rt;
            answer == *want && into.starts_with(front),
            "{name} at {offset}"
        );
    }
}

const MEM_CALLS: &[Call] = &[
    ("hello", 0, 3, Ok(3), b"hel"),
    ("hello", 3, 3, Err(ShelfError::Failed), b"hel"),
    ("hello", 3, 3, Ok(2), b"lol"),
    ("other", 0, 3, Err(ShelfError::Absent), b"lol"),
    ("other", 0, 3, Err(ShelfError::Failed), b"lol"),
    ("hello", 5, 3, Ok(0), b"lol"),
    ("hello", 9, 3, Ok(0), b"lol"),
    ("hello", 1, 0, Ok(0), b"lol"),
    ("hello", 1, 1, Ok(1), b"eol"),
];

#[test]
fn mem_shelf_answers_each_call(rt: HostRuntime) -> Result<(), OutOfMemory> {
    let files = one_file(rt.alloc(), "hello", b"hello")?;
    let failing = Vec::from_slice(rt.alloc(), &[2, 5])?;
    let mut shelf = MemShelf::new(files, failing);
    calls_are_answered(&rt, &mut shelf, MEM_CALLS);
    Ok(())
}

const DIR_CALLS: &[Call] = &[
    ("hello.txt", 0, 6, Ok(6), b"hello "),
    ("hello.txt", 6, 6, Ok(5), b"world "),
    ("hello.txt", 11, 6, Ok(0), b"world "),
    ("hello.txt", 3, 6, Ok(6), b"lo wor"),
    ("other.txt", 0, 6, Err(ShelfError::Absent), b"lo wor"),
    ("hello.txt", 9, 6, Ok(2), b"ld wor"),
    (".", 0, 6, Err(ShelfError::Failed), b"ld wor"),
];

// The file that was read last stays open, even where its name is gone.
const CALLS_OF_A_LOST_FILE: &[Call] = &[
    ("hello.txt", 3, 6, Ok(6), b"lo wor"),
    ("other.txt", 0, 6, Err(ShelfError::Absent), b"lo wor"),
    ("hello.txt", 3, 6, Err(ShelfError::Absent), b"lo wor"),
];

#[test]
fn reads_real_files(rt: HostRuntime) -> Result<(), Fail> {
    fs::write(&rt, "hello.txt", "hello world")?;
    let mut shelf = DirShelf::new(rt.alloc(), &rt);
    calls_are_answered(&rt, &mut shelf, DIR_CALLS);
    let bytes = read_whole(rt.alloc(), &mut shelf, "hello.txt")?;
    assert_eq!(rt; bytes.as_slice(), b"hello world".as_slice());
    fs::remove_file(&rt, "hello.txt")?;
    calls_are_answered(&rt, &mut shelf, CALLS_OF_A_LOST_FILE);
    Ok(())
}

const SINK_CALLS: &[(&str, Result<usize, Failed>)] = &[
    ("abcdef", Ok(4)),
    ("ef", Err(Failed)),
    ("ef", Ok(0)),
    ("efg", Ok(3)),
    ("hijkl", Ok(3)),
    ("k", Ok(0)),
    ("", Ok(0)),
];

#[test]
fn mem_sink_answers_each_call(rt: HostRuntime) -> Result<(), OutOfMemory> {
    let failing = Vec::from_slice(rt.alloc(), &[2])?;
    let zero = Vec::from_slice(rt.alloc(), &[3])?;
    let mut sink = MemSink::new(rt.alloc(), 10, 4, failing, zero)?;
    for (piece, want) in SINK_CALLS {
        assert!(rt; sink.write(piece.as_bytes()) == *want, "{piece}");
    }
    assert_eq!(rt; sink.bytes(), b"abcdefghij".as_slice());
    Ok(())
}

// 70,000 bytes, of which byte i is i % 251.
fn long_bytes(alloc: Global) -> Result<Vec<u8>, OutOfMemory> {
    let mut bytes = Vec::new(alloc);
    for i in 0..70_000u32 {
        bytes.push((i % 251) as u8)?;
    }
    Ok(bytes)
}

// The file that is asked for, the call that fails, and why no bytes are answered.
const WHOLE_READS: &[(&str, u64, Option<ReadStop>)] = &[
    ("long", 9, None),
    ("short", 9, Some(ReadStop::Absent)),
    ("long", 2, Some(ReadStop::Failed)),
];

#[test]
fn reads_a_file_of_two_pieces(rt: HostRuntime) -> Result<(), OutOfMemory> {
    let long = long_bytes(rt.alloc())?;
    for (name, failing, want) in WHOLE_READS {
        let files = one_file(rt.alloc(), "long", long.as_slice())?;
        let failing = Vec::from_slice(rt.alloc(), &[*failing])?;
        let mut shelf = MemShelf::new(files, failing);
        match read_whole(rt.alloc(), &mut shelf, name) {
            Ok(bytes) => assert!(rt; want.is_none() && bytes.as_slice() == long.as_slice()),
            Err(stop) => assert!(rt; *want == Some(stop), "{name}"),
        }
    }
    Ok(())
}

// What is written, the answer, and all that the sink then has.
const WHOLE_WRITES: &[(&str, Result<(), Failed>, &str)] = &[
    ("abc", Ok(()), "abc"),
    ("defg", Err(Failed), "abcde"),
];

#[test]
fn writes_a_byte_at_a_time(rt: HostRuntime) -> Result<(), OutOfMemory> {
    let alloc = rt.alloc();
    let mut sink = MemSink::new(alloc, 5, 1, Vec::new(alloc), Vec::new(alloc))?;
    for (piece, want, all) in WHOLE_WRITES {
        assert!(rt;
            write_whole(&mut sink, piece.as_bytes()) == *want,
            "{piece}"
        );
        assert!(rt; sink.bytes() == all.as_bytes(), "{piece}");
    }
    Ok(())
}

// The file that is asked for, the offset, the answer, and the piece after it.
const PIECES: &[(&str, usize, Result<usize, ReadStop>, [u8; 3])] = &[
    ("hello", 0, Ok(3), *b"hel"),
    ("hello", 3, Ok(2), *b"lol"),
    ("hello", 5, Ok(0), *b"lol"),
    ("other", 0, Err(ReadStop::Absent), *b"lol"),
];

#[test]
fn reads_piece_by_piece(rt: HostRuntime) -> Result<(), OutOfMemory> {
    let mut shelf = SureShelf::new(one_file(rt.alloc(), "hello", b"hello")?);
    let mut piece = [0; 3];
    for (name, offset, want, after) in PIECES {
        let answer = read_piece(&mut shelf, name, (*offset).min(100), &mut piece);
        assert!(rt; answer == *want && piece == *after, "{name} at {offset}");
    }
    Ok(())
}

#[test]
fn a_sure_sink_takes_all(rt: HostRuntime) {
    let mut sink = SureSink::new();
    assert_eq!(rt; sink.write(b"hello".as_slice()), Ok(5));
    assert_eq!(rt; sink.write(b"".as_slice()), Ok(0));
}
