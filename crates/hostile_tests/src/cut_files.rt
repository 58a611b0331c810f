// Each command over each front of its input files.
use crate::made::{CARBON, Given, is_right};
use std::alloc::Global;
use std::process::Abort;
use std::sync::Wait;
use std::test::Fail;
use std::thread::Threads;

// The first front, the one after the last, and the line, code and word of the refusal: none where the record is
// accepted.
const FRONTS: [(usize, usize, &str); 11] = [
    (1, 3, "2 12 NoEnd"),
    (3, 4, "3 12 NoEnd"),
    (4, 5, "4 12 NoEnd"),
    (5, 7, "4 14 Empty"),
    (7, 39, "5 12 NoEnd"),
    (39, 43, "4 2 Version"),
    (43, 45, "5 12 NoEnd"),
    (45, 76, "5 4 AtomLine"),
    (76, 85, "6 12 NoEnd"),
    (85, 90, "7 12 NoEnd"),
    (90, 97, ""),
];

const HEADER: &str =
    "htss 1 loaders 1 searchers 1 pages 16 room 100 log 8 chain 65535 budget 10000000000\n";

const RUN: [&str; 7] = [
    "run",
    "s.txt",
    "--loaders=1",
    "--searchers=1",
    "--pages=16",
    "--room=100",
    "--log=8",
];

const CODES: &str =
    "1 0000000000000006 0000000000010101 0000000000010101 0000000000010101 0000000000010101\n";

// What each command that reads the front prints of it, where this is its refusal.
fn is_told<R: Threads + Wait + Sync + Abort>(
    rt: &R,
    alloc: Global,
    text: &str,
    refusal: &str,
) -> Result<(), Fail> {
    let front = Given {
        name: "front",
        parts: &[text],
    };
    let accepted = refusal.is_empty();
    let line = format!(in alloc; "refused 1 {refusal}\n")?;
    let query = format!(in alloc; "query {line}")?.replacen(alloc, "refused 1 ", "refused ", 1)?;
    let checked = format!(in alloc; "{line}records 1 ok 0 refused 1\n")?;
    let found = format!(in alloc; "{line}hits 0\n")?;
    let (checked, codes, found, asked) = match accepted {
        true => (
            "ok 1 1 0 c\nrecords 1 ok 1 refused 0\n",
            CODES,
            "hit 1 1 c\nhits 1\n",
            "hit 1 1 c\nhits 1\n",
        ),
        false => (&*checked, &*line, &*found, &*query),
    };
    is_right(rt, alloc, &front, &["check", "front"], (0, checked))?;
    is_right(rt, alloc, &front, &["codes", "front"], (0, codes))?;
    is_right(rt, alloc, &front, &["find", "front", "c.mol"], (0, found))?;
    is_right(rt, alloc, &front, &["find", "c.sdf", "front"], (0, asked))
}

#[test]
fn each_front_of_a_record_and_of_a_query_is_read(rt: HostRuntime) -> Result<(), Fail> {
    let alloc = rt.alloc();
    for (start, end, refusal) in &FRONTS {
        for size in *start..*end {
            let front = CARBON.get(..size).ok_or("no such front")?;
            is_told(&rt, alloc, front, refusal)?;
        }
    }
    Ok(())
}

#[test]
fn an_empty_file_is_read(rt: HostRuntime) -> Result<(), Fail> {
    let alloc = rt.alloc();
    let empty = Given {
        name: "front",
        parts: &[],
    };
    let cases: [(&[&str], &str); 4] = [
        (&["check", "front"], "records 0 ok 0 refused 0\n"),
        (&["codes", "front"], "refused 1 1 12 NoEnd\n"),
        (&["find", "front", "c.mol"], "hits 0\n"),
        (&["find", "c.sdf", "front"], "query refused 1 12 NoEnd\n"),
    ];
    for (words, text) in cases {
        is_right(&rt, alloc, &empty, words, (0, text))?;
    }
    Ok(())
}

const SCRIPT: &str = "load c.sdf\nsettle\nsearch c.mol\n";

const LOADED: &str = "load 1 c.sdf\npublished 1 c\nloaded 1\n";

const LOG: &str = "log 1\nevent 1 publish 1 1 0 c\nend\n";

// The first front of the script, the one after the last, its status, and whether the header, the load and the log stand
// in the report, each with what stands before the next.
const SCRIPTS: [(usize, usize, u8, &[&str]); 15] = [
    (0, 1, 0, &[HEADER, "log 0\nend\n"]),
    (1, 6, 3, &["stop 3 script 1\n"]),
    (6, 7, 7, &["stop 7 absent c\n"]),
    (7, 8, 7, &["stop 7 absent c.\n"]),
    (8, 9, 7, &["stop 7 absent c.s\n"]),
    (9, 10, 7, &["stop 7 absent c.sd\n"]),
    (10, 12, 0, &[HEADER, LOADED, LOG]),
    (12, 17, 3, &["stop 3 script 2\n"]),
    (17, 19, 0, &[HEADER, LOADED, LOG]),
    (19, 26, 3, &["stop 3 script 3\n"]),
    (26, 27, 7, &[HEADER, LOADED, "stop 7 absent c\n"]),
    (27, 28, 7, &[HEADER, LOADED, "stop 7 absent c.\n"]),
    (28, 29, 7, &[HEADER, LOADED, "stop 7 absent c.m\n"]),
    (29, 30, 7, &[HEADER, LOADED, "stop 7 absent c.mo\n"]),
    (
        30,
        32,
        0,
        &[
            HEADER,
            LOADED,
            "search 3 c.mol front 1\nhit 1 1 c\nhits 1 rows 1 records 1\n",
            LOG,
        ],
    ),
];

#[test]
fn each_front_of_a_script_is_run(rt: HostRuntime) -> Result<(), Fail> {
    let alloc = rt.alloc();
    for (start, end, status, parts) in &SCRIPTS {
        let mut text = String::new(alloc);
        for part in *parts {
            text.push_str(part)?;
        }
        for size in *start..*end {
            let script = Given {
                name: "s.txt",
                parts: &[SCRIPT.get(..size).ok_or("no such front")?],
            };
            is_right(&rt, alloc, &script, &RUN, (*status, &text))?;
        }
    }
    Ok(())
}
