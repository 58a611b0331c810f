// Scripts over files in memory: the report, or what there is of it and why there is no more.
ghost use Rattle.std.specs.Prelude.{IfOk, OnOk};
ghost use Rattle.outside.specs.Memory.{HaveOwnNames};

use crate::top::htss;
use htss_defs::{Bytes, Text};
use outside::{MemShelf, MemSink, NamedBytes};
use run_command::Ended;
use std::alloc::Global;
use std::process::Abort;
use std::sync::Wait;
use std::test::Fail;
use std::thread::Threads;
use tool_commands::make;

const ETHANOL: &str =
    "ethanol\n\n\n  3  2  0  0  0  0  0  0  0  0999 V2000\n    0.0000    0.0000    0.0000 C   0  0\n    0.0000    0.0000    0.0000 C   0  0\n    0.0000    0.0000    0.0000 O   0  0\n  1  2  1  0\n  2  3  1  0\nM  END\n$$$$\n";

const ETHER: &str =
    "ether\n\n\n  3  2  0  0  0  0  0  0  0  0999 V2000\n    0.0000    0.0000    0.0000 C   0  0\n    0.0000    0.0000    0.0000 O   0  0\n    0.0000    0.0000    0.0000 C   0  0\n  1  2  1  0\n  2  3  1  0\nM  END\n$$$$\n";

const CO: &str =
    "co\n\n\n  2  1  0  0  0  0  0  0  0  0999 V2000\n    0.0000    0.0000    0.0000 C   0  0\n    0.0000    0.0000    0.0000 O   0  0\n  1  2  1  0\nM  END\n";

pub(crate) const CARBON: &str =
    "c\n\n\n  1  0  0  0  0  0  0  0  0  0999 V2000\n    0.0000    0.0000    0.0000 C   0  0\nM  END\n$$$$\n";

const RING: &str =
    "ring\n\n\n  6  6  0  0  0  0  0  0  0  0999 V2000\n    0.0000    0.0000    0.0000 C   0  0\n    0.0000    0.0000    0.0000 C   0  0\n    0.0000    0.0000    0.0000 C   0  0\n    0.0000    0.0000    0.0000 C   0  0\n    0.0000    0.0000    0.0000 C   0  0\n    0.0000    0.0000    0.0000 C   0  0\n  1  2  1  0\n  2  3  2  0\n  3  4  1  0\n  4  5  2  0\n  5  6  1  0\n  6  1  2  0\nM  END\n";

pub(crate) const STORED: &str =
    "load a.sdf\nsettle\nsearch co.mol\nsettle\nwithdraw 1\nwithdraw 1\nwithdraw 0\nwithdraw 3\nsettle\nsearch co.mol\n";

pub(crate) const STORED_REPORT: &str =
    "htss 1 loaders 1 searchers 1 pages 16 room 100 log 8 chain 65535 budget 100\nload 1 a.sdf\npublished 1 ethanol\npublished 2 ether\nloaded 2\nsearch 3 co.mol front 2\nhit 1 2,3 ethanol\nhit 2 1,2 ether\nhits 2 rows 4 records 2\nwithdraw 5 1 at 3\nwithdraw 6 1 Gone 3\nwithdraw 7 0 Unknown 3\nwithdraw 8 3 Unknown 3\nsearch 10 co.mol front 3\nhit 2 1,2 ether\nhits 1 rows 4 records 1\nlog 3\nevent 1 publish 1 3 2 ethanol\nevent 2 publish 1 3 2 ether\nevent 3 withdraw 1 1\nend\n";

const STORED_WORDS: &[&str] = &[
    "run",
    "s.txt",
    "--loaders",
    "1",
    "--searchers=1",
    "--pages",
    "16",
    "--room",
    "100",
    "--log",
    "8",
    "--budget",
    "100",
];

pub(crate) const HEADER: &str =
    "htss 1 loaders 2 searchers 2 pages 1048576 room 4194304 log 1048576 chain 65535 budget 10000000000\n";

pub(crate) const LOADED: &str = "load 1 a.sdf\npublished 1 ethanol\npublished 2 ether\nloaded 2\n";

// A file, whose text is given in parts.
#[derive(Clone, Copy, Drop)]
pub(crate) struct Given<'a> {
    pub(crate) name: &'a str,
    pub(crate) parts: &'a [&'a str],
}

const FILES: [Given<'static>; 6] = [
    Given {
        name: "a.sdf",
        parts: &[ETHANOL, ETHER],
    },
    Given {
        name: "co.mol",
        parts: &[CO],
    },
    Given {
        name: "ring.mol",
        parts: &[RING],
    },
    Given {
        name: "empty.sdf",
        parts: &[],
    },
    Given {
        name: "four.sdf",
        parts: &[CARBON, CARBON, CARBON, CARBON],
    },
    Given {
        name: "five.sdf",
        parts: &[CARBON, CARBON, CARBON, CARBON, CARBON],
    },
];

fn words(alloc: Global, list: &[&str]) -> Result<Vec<String>, Fail> {
    let mut words = Vec::new(alloc);
    for word in list {
        words.push(String::from_str(alloc, word)?)?;
    }
    Ok(words)
}

// The bytes of all parts.
fn joined(alloc: Global, parts: &[&str]) -> Result<Vec<u8>, Fail> {
    let mut bytes = Vec::new(alloc);
    for part in parts {
        bytes.extend_from_slice(part.as_bytes())?;
    }
    Ok(bytes)
}

pub(crate) fn file(alloc: Global, given: &Given<'_>) -> Result<NamedBytes, Fail> {
    Ok(NamedBytes {
        name: Text::new(String::from_str(alloc, given.name)?),
        bytes: Bytes::new(joined(alloc, given.parts)?),
    })
}

// Adds a file, which has a name of its own.
pub(crate) fn add(
    rt: &impl Abort,
    files: &mut Vec<NamedBytes>,
    file: NamedBytes,
) -> Result<(), Fail>
    requires { HaveOwnNames files.old.items }
    ensures { OnOk result (HaveOwnNames files.new.items) }
{
    let name = file.name.as_str();
    assert!(rt; files.iter().all(|other| other.name.as_str() != name));
    files.push(file)?;
    Ok(())
}

// The files of the cases, with the script under the name s.txt.
pub(crate) fn files_with(
    rt: &impl Abort,
    alloc: Global,
    script: &str,
) -> Result<Vec<NamedBytes>, Fail>
    ensures { IfOk result (λ files. HaveOwnNames files.items) }
{
    let mut files = Vec::new(alloc);
    for given in &FILES {
        add(rt, &mut files, file(alloc, given)?)?;
    }
    let script = Given {
        name: "s.txt",
        parts: &[script],
    };
    add(rt, &mut files, file(alloc, &script)?)?;
    Ok(files)
}

// What a command line must answer.
#[derive(Clone, Copy, Drop)]
pub(crate) struct Answer {
    pub(crate) words: &'static [&'static str],
    // the call of the shelf that fails, 0 for none
    pub(crate) failing: u64,
    // how many bytes the sink takes
    pub(crate) room: usize,
    pub(crate) status: u8,
    // how many events the board has that is answered
    pub(crate) events: Option<usize>,
}

// How many events the board has, if there is one.
fn events_of(alloc: Global, ended: &Ended) -> Result<Option<usize>, Fail> {
    match &ended.last {
        Some(last) => Ok(Some(last.history(alloc)?.len())),
        None => Ok(None),
    }
}

// Does what the words say over these files: the status, and how many events the board has, if there is one.
pub(crate) fn done<R: Threads + Wait + Sync>(
    rt: &R,
    alloc: Global,
    files: Vec<NamedBytes>,
    answer: &Answer,
    out: &mut MemSink,
) -> Result<(u8, Option<usize>), Fail>
    requires { HaveOwnNames files.items }
{
    let words = words(alloc, answer.words)?;
    let mut shelf = MemShelf::new(files, vec![in alloc; answer.failing]?);
    let ended = htss(rt, alloc, &words, &mut shelf, out);
    Ok((ended.status, events_of(alloc, &ended)?))
}

pub(crate) fn is_answered<R: Threads + Wait + Sync + Abort>(
    rt: &R,
    alloc: Global,
    files: Vec<NamedBytes>,
    answer: &Answer,
    text: &[u8],
) -> Result<(), Fail>
    requires { HaveOwnNames files.items }
{
    let mut out = MemSink::new(alloc, answer.room, 10000, vec![in alloc]?, vec![in alloc]?)?;
    let ended = done(rt, alloc, files, answer, &mut out)?;
    assert_eq!(rt; ended, (answer.status, answer.events), "{:?}", answer.words);
    assert_eq!(rt; out.bytes(), text, "{:?}", answer.words);
    Ok(())
}

// A script, and the answer, with the text in parts. Of a text that the sink cannot take there is the front.
#[derive(Clone, Copy, Drop)]
pub(crate) struct Case {
    pub(crate) script: &'static str,
    pub(crate) answer: Answer,
    text: &'static [&'static str],
}

pub(crate) const RUNS: [Case; 6] = [
    Case {
        script: STORED,
        answer: Answer {
            words: STORED_WORDS,
            failing: 0,
            room: 10000,
            status: 0,
            events: Some(3),
        },
        text: &[STORED_REPORT],
    },
    Case {
        script: "",
        answer: Answer {
            words: &["run", "s.txt"],
            failing: 0,
            room: 10000,
            status: 0,
            events: Some(0),
        },
        text: &[HEADER, "log 0\nend\n"],
    },
    Case {
        script: "load five.sdf",
        answer: Answer {
            words: &["run", "s.txt", "--loaders=1", "--pages=16", "--room=45"],
            failing: 0,
            room: 10000,
            status: 0,
            events: Some(4),
        },
        text: &[
            "htss 1 loaders 1 searchers 2 pages 16 room 45 log 1048576 chain 65535 budget 10000000000\n",
            "load 1 five.sdf\npublished 1 c\npublished 2 c\npublished 3 c\npublished 4 c\nunpublished 5 DataFull 5 10\nloaded 4\n",
            "log 4\nevent 1 publish 1 1 0 c\nevent 2 publish 1 1 0 c\nevent 3 publish 1 1 0 c\nevent 4 publish 1 1 0 c\nend\n",
        ],
    },
    Case {
        script: "load four.sdf\nsettle\nwithdraw 2",
        answer: Answer {
            words: &["run", "--log=3", "s.txt"],
            failing: 0,
            room: 10000,
            status: 0,
            events: Some(3),
        },
        text: &[
            "htss 1 loaders 2 searchers 2 pages 1048576 room 4194304 log 3 chain 65535 budget 10000000000\n",
            "load 1 four.sdf\npublished 1 c\npublished 2 c\npublished 3 c\nunpublished 4 LogFull 3\nloaded 3\n",
            "withdraw 3 2 LogFull 3\nlog 3\nevent 1 publish 1 1 0 c\nevent 2 publish 1 1 0 c\nevent 3 publish 1 1 0 c\nend\n",
        ],
    },
    Case {
        script: "load a.sdf\nsettle\nsearch co.mol 5\n\n# none\nsearch a.sdf 0",
        answer: Answer {
            words: &["run", "s.txt"],
            failing: 0,
            room: 10000,
            status: 0,
            events: Some(2),
        },
        text: &[
            HEADER,
            LOADED,
            "search 3 co.mol front 2\noverbudget 5\nsearch 6 a.sdf front 2\noverbudget 0\n",
            "log 2\nevent 1 publish 1 3 2 ethanol\nevent 2 publish 1 3 2 ether\nend\n",
        ],
    },
    Case {
        script: "load empty.sdf\nload a.sdf\nsettle\nwithdraw 0\nwithdraw 3\nsearch co.mol\nsearch co.mol",
        answer: Answer {
            words: &["run", "s.txt", "--pages=16", "--room=100", "--log=8"],
            failing: 0,
            room: 10000,
            status: 0,
            events: Some(2),
        },
        text: &[
            "htss 1 loaders 2 searchers 2 pages 16 room 100 log 8 chain 65535 budget 10000000000\n",
            "load 1 empty.sdf\nloaded 0\nload 2 a.sdf\npublished 1 ethanol\npublished 2 ether\nloaded 2\n",
            "withdraw 4 0 Unknown 2\nwithdraw 5 3 Unknown 2\n",
            "search 6 co.mol front 2\nhit 1 2,3 ethanol\nhit 2 1,2 ether\nhits 2 rows 4 records 2\n",
            "search 7 co.mol front 2\nhit 1 2,3 ethanol\nhit 2 1,2 ether\nhits 2 rows 4 records 2\n",
            "log 2\nevent 1 publish 2 3 2 ethanol\nevent 2 publish 2 3 2 ether\nend\n",
        ],
    },
];

const STOPS: [Case; 8] = [
    Case {
        script: "load a.sdf\nsettle\nload none.sdf",
        answer: Answer {
            words: &["run", "s.txt"],
            failing: 0,
            room: 10000,
            status: 7,
            events: None,
        },
        text: &[HEADER, LOADED, "stop 7 absent none.sdf\n"],
    },
    Case {
        script: "load a.sdf\nload none.sdf",
        answer: Answer {
            words: &["run", "s.txt"],
            failing: 0,
            room: 10000,
            status: 7,
            events: None,
        },
        text: &["stop 7 absent none.sdf\n"],
    },
    Case {
        script: "settle\nload none.sdf",
        answer: Answer {
            words: &["run", "s.txt"],
            failing: 0,
            room: 10000,
            status: 7,
            events: None,
        },
        text: &[HEADER, "stop 7 absent none.sdf\n"],
    },
    Case {
        script: "load a.sdf\nserch co.mol",
        answer: Answer {
            words: &["run", "s.txt"],
            failing: 0,
            room: 10000,
            status: 3,
            events: None,
        },
        text: &["stop 3 script 2\n"],
    },
    Case {
        script: "",
        answer: Answer {
            words: &["run", "none.txt"],
            failing: 0,
            room: 10000,
            status: 7,
            events: None,
        },
        text: &["stop 7 absent none.txt\n"],
    },
    Case {
        script: "",
        answer: Answer {
            words: &["run", "s.txt", "--pages", "15"],
            failing: 0,
            room: 10000,
            status: 2,
            events: None,
        },
        text: &["stop 2 usage\n"],
    },
    // two reads are of the script, two of the first file
    Case {
        script: "load a.sdf\nsettle\nsearch co.mol",
        answer: Answer {
            words: &["run", "s.txt"],
            failing: 5,
            room: 10000,
            status: 4,
            events: None,
        },
        text: &[HEADER, LOADED, "stop 4 read co.mol\n"],
    },
    Case {
        script: "load a.sdf",
        answer: Answer {
            words: &["run", "s.txt"],
            failing: 0,
            room: 50,
            status: 5,
            events: None,
        },
        text: &[HEADER],
    },
];

fn are_answered<R: Threads + Wait + Sync + Abort>(
    rt: &R,
    alloc: Global,
    cases: &[Case],
) -> Result<(), Fail> {
    for case in cases {
        let files = files_with(rt, alloc, case.script)?;
        let mut text = joined(alloc, case.text)?;
        text.truncate(case.answer.room);
        is_answered(rt, alloc, files, &case.answer, &text)?;
    }
    Ok(())
}

#[test]
fn scripts_are_run(rt: HostRuntime) -> Result<(), Fail> {
    are_answered(&rt, rt.alloc(), &RUNS)
}

#[test]
fn runs_stop_with_what_was_done(rt: HostRuntime) -> Result<(), Fail> {
    are_answered(&rt, rt.alloc(), &STOPS)
}

// Lines of a report that stand once, or once for each record of a file: # is the number of records, or the record's.
#[derive(Clone, Copy, Drop)]
struct Lines {
    each: bool,
    text: &'static str,
}

// The report of a file of made records, and of a search for a ring of six carbons in them.
const MADE_REPORT: [Lines; 8] = [
    Lines {
        each: false,
        text: HEADER,
    },
    Lines {
        each: false,
        text: "load 1 made.sdf\n",
    },
    Lines {
        each: true,
        text: "published # made #\n",
    },
    Lines {
        each: false,
        text: "loaded #\nsearch 3 ring.mol front #\n",
    },
    Lines {
        each: true,
        text: "hit # 1,2,3,4,5,6 made #\n",
    },
    Lines {
        each: false,
        text: "hits # rows ? records #\nlog #\n",
    },
    Lines {
        each: true,
        text: "event # publish 1 25 25 made #\n",
    },
    Lines {
        each: false,
        text: "end\n",
    },
];

// Appends the text, with the number in the place of each #.
pub(crate) fn push_numbered(report: &mut String, text: &str, number: &str) -> Result<(), Fail> {
    for part in text.chars() {
        if part == '#' {
            report.push_str(number)?;
        } else {
            report.push(part)?;
        }
    }
    Ok(())
}

fn made_report(alloc: Global, count: u32) -> Result<String, Fail> {
    let mut report = String::new(alloc);
    for lines in &MADE_REPORT {
        let first = if lines.each { 1 } else { count };
        for number in first..count.saturating_add(1) {
            let number = format!(in alloc; "{number}")?;
            push_numbered(&mut report, lines.text, &number)?;
        }
    }
    Ok(report)
}

const MADE: Answer = Answer {
    words: &["run", "s.txt"],
    failing: 0,
    room: 1000000,
    status: 0,
    events: Some(2000),
};

// A report that tells of rows once: what stands before their number, the number, and what stands behind it.
fn around_rows(report: &str) -> Option<(&str, &str, &str)> {
    let (before, rest) = report.split_once(" rows ")?;
    let (rows, after) = rest.split_once(" records ")?;
    Some((before, rows, after))
}

// The report is the wanted one, and as many rows were loaded as there are hits, or more, and no more than there are
// atoms.
fn tells_of_made<R: Abort>(rt: &R, report: &str, wanted: &str) -> Result<(), Fail> {
    let (Some(told), Some(all)) = (around_rows(report), around_rows(wanted)) else {
        return Err("no rows in a report".into());
    };
    assert_eq!(rt; (told.0, told.2), (all.0, all.2));
    let Ok(rows) = told.1.parse::<u64>() else {
        return Err("rows that are no number".into());
    };
    assert!(rt; (2000..=50000).contains(&rows), "{rows}");
    Ok(())
}

#[test]
fn made_records_are_loaded_and_found(rt: HostRuntime) -> Result<(), Fail> {
    let alloc = rt.alloc();
    let mut made = MemSink::new(alloc, 4000000, 4000000, vec![in alloc]?, vec![in alloc]?)?;
    assert_eq!(rt; make(alloc, 2000, 7, &mut made), 0);
    let made = Given {
        name: "made.sdf",
        parts: &[str::from_utf8(made.bytes())?],
    };
    let mut files = files_with(&rt, alloc, "load made.sdf\nsettle\nsearch ring.mol\n")?;
    add(&rt, &mut files, file(alloc, &made)?)?;
    let mut out = MemSink::new(alloc, MADE.room, 10000, vec![in alloc]?, vec![in alloc]?)?;
    let ended = done(&rt, alloc, files, &MADE, &mut out)?;
    assert_eq!(rt; ended, (MADE.status, MADE.events));
    tells_of_made(
        &rt,
        str::from_utf8(out.bytes())?,
        &made_report(alloc, 2000)?,
    )
}
